// An ID3v2 tag in front of the stream.
ghost use Rattle.std.specs.Prelude.{◌≡◌, ◌+◌, ◌<◌, ◌≤◌, ◌^◌, length, IfOk, OnErr, IsOkUnless};
ghost use Rattle.song_files.specs.Source.{Grows, Keeps};
ghost use Rattle.flac.specs.Id3.{tag_len, is_synchsafe, synchsafe, stream_start};

use crate::FlacError;
use crate::read::read_bytes;
use song_files::Source;

/// How many bytes the head of a tag has, and a footer.
const TAG_HEAD_LEN: u64 = 10;

/// The size in the head of a tag.
fn size_in(head: [u8; 10]) -> u64
    ensures size { result ≡ synchsafe head }
    ensures small { result < 2 ^ 32 }
{
    let [_, _, _, _, _, _, a, b, c, d] = head;
    u64::from(a) * 0x20_0000 + u64::from(b) * 0x4000 + u64::from(c) * 0x80 + u64::from(d)
}

/// The length of the tag with this head, or 0 if it isn't one.
fn len_by(head: [u8; 10]) -> u64
    ensures len { result ≡ tag_len head }
    ensures small { result < 2 ^ 33 }
{
    let [i, d, three, version, revision, flags, a, b, c, e] = head;
    let named = [i, d, three] == *b"ID3" && version < 255 && revision < 255;
    if !named || a > 127 || b > 127 || c > 127 || e > 127 {
        return 0;
    }
    let footer = if flags / 16 % 2 == 1 { TAG_HEAD_LEN } else { 0 };
    TAG_HEAD_LEN + size_in(head) + footer
}

/// Where the stream begins in a source of `end` bytes.
pub fn find_start<S: Source>(source: &mut S, end: u64) -> Result<u64, FlacError>
    ensures start { S.honest source.old → end ≡ length (S.bytes source.old) →
        IfOk result (λ start. start ≡ stream_start (S.bytes source.old)) }
    ensures small { IfOk result (λ start. start < 2 ^ 33) }
    ensures only { IsOkUnless result FlacError.ReadFault }
    ensures fault { S.honest source.old → end ≡ length (S.bytes source.old) →
        OnErr result (Grows (S.faults source.old) (S.faults source.new)) }
    ensures kept { S.honest source.old → Keeps S.bytes S.honest S.faults S.steady source.old source.new }
{
    if end < TAG_HEAD_LEN {
        return Ok(0);
    }
    let mut head = [0; 10];
    read_bytes(source, 0, &mut head)?;
    Ok(len_by(head))
}
