// The fields of a comment block: texts behind their lengths, the low byte first.
ghost use Rattle.std.specs.Prelude.{◌≡◌, ◌+◌, ◌<◌, ◌≤◌, ◌^◌, length, slice_range, IfOk, IfErr, IfSome};
ghost use Rattle.song_files.specs.Source.{Grows, Keeps};
ghost use Rattle.flac.specs.Comments.{count_in, text_len_in};
ghost use Rattle.flac.specs.FlacError.{Fails};

use crate::FlacError;
use crate::read::read_bytes;
use song_files::Source;

/// How many bytes a number has.
pub const NUMBER_LEN: u64 = 4;

/// The number at `at`, if it ends before `end`.
pub fn read_count<S: Source>(source: &mut S, at: u64, end: u64) -> Result<Option<u64>, FlacError>
    requires { at ≤ end }
    ensures count { S.honest source.old → end ≤ length (S.bytes source.old) →
        IfOk result (λ n. n ≡ count_in (slice_range (S.bytes source.old) at end)) }
    ensures within { IfOk result (λ n. IfSome n (λ _. at + 4 ≤ end)) }
    ensures fault { S.honest source.old → end ≤ length (S.bytes source.old) →
        IfErr result (Fails (Grows (S.faults source.old) (S.faults source.new))) }
    ensures kept { S.honest source.old → Keeps S.bytes S.honest S.faults S.steady source.old source.new }
{
    if end - at < NUMBER_LEN {
        return Ok(None);
    }
    let mut bytes = [0; 4];
    read_bytes(source, at, &mut bytes)?;
    Ok(Some(u64::from(u32::from_le_bytes(bytes))))
}

/// The length at `at` of the text behind it, if both end before `end`.
pub fn read_text_len<S: Source>(source: &mut S, at: u64, end: u64) -> Result<Option<u64>, FlacError>
    requires { at ≤ end }
    ensures len { S.honest source.old → end ≤ length (S.bytes source.old) →
        IfOk result (λ n. n ≡ text_len_in (slice_range (S.bytes source.old) at end)) }
    ensures within { IfOk result (λ n. IfSome n (λ len. at + 4 + len ≤ end)) }
    ensures fault { S.honest source.old → end ≤ length (S.bytes source.old) →
        IfErr result (Fails (Grows (S.faults source.old) (S.faults source.new))) }
    ensures kept { S.honest source.old → Keeps S.bytes S.honest S.faults S.steady source.old source.new }
{
    let Some(len) = read_count(source, at, end)? else {
        return Ok(None);
    };
    if len > end - at - NUMBER_LEN {
        return Ok(None);
    }
    Ok(Some(len))
}
