// The texts of tags.
ghost use Rattle.std.specs.Prelude.{◌≡◌, ◌+◌, ◌<◌, ◌≤◌, ◌^◌, length, slice_range, IsTrue, IfSome, IfErr, OnOk, min};
ghost use Rattle.std.specs.Prelude.{option_copied, position, ◌==◌};
ghost use Rattle.song_files.specs.Source.{Grows, Keeps};
ghost use Rattle.song_files.specs.Text.{is_tag_text};
ghost use Rattle.wave_pcm.specs.WaveError.{Fails};
ghost use Rattle.wave_pcm.specs.Reading.{with_found};
ghost use Rattle.wave_pcm.specs.Text.{before_zero, tag_text};

use crate::WaveError;
use crate::parts::PartHead;
use song_files::{Source, Tag, Tags, read_exact, tag_text};

/// How many bytes tell a text of a tag from a longer one.
const FRONT_LEN: usize = 513;

/// The text of a tag in the data of its chunk, if it has the form of one.
fn chunk_text(bytes: &[u8]) -> Option<&str>
    ensures text { option_copied result ≡ tag_text bytes.now }
    ensures good { IfSome result (λ text. IsTrue (is_tag_text text.now)) }
{
    tag_text(before_zero(bytes))
}

fn before_zero(bytes: &[u8]) -> &[u8]
    ensures { result.now ≡ before_zero bytes.now }
{
    match first_zero(bytes) {
        Some(end) => &bytes[..end],
        None => bytes,
    }
}

fn first_zero(bytes: &[u8]) -> Option<usize>
    ensures { result ≡ position (λ b. b == 0) bytes.now }
{
    bytes.iter().position(|b| *b == 0)
}

/// Adds the text of a tag from the data of its chunk, of which at most 513 bytes are read, if it has the form of one.
pub fn add_text<S: Source>(
    source: &mut S,
    head: PartHead,
    tag: Tag,
    tags: &mut Tags,
) -> Result<(), WaveError>
    requires { head.first + head.len < 2 ^ 64 }
    ensures text { S.honest source.old → head.first + head.len ≤ length (S.bytes source.old) →
        OnOk result (tags.new ≡ with_found tags.old tag (tag_text (slice_range (S.bytes source.old) head.first (head.first + head.len)))) }
    ensures fault { S.honest source.old → head.first + head.len ≤ length (S.bytes source.old) →
        IfErr result (Fails (Grows (S.faults source.old) (S.faults source.new))) }
    ensures kept { S.honest source.old → Keeps S.bytes S.honest S.faults S.steady source.old source.new }
{
    let mut front = [0; FRONT_LEN];
    let count = head.len.min(front.len() as u64) as usize;
    add_by_front(source, head, tag, tags, &mut front[..count])
}

/// The same, with a buffer for the front of the data.
fn add_by_front<S: Source>(
    source: &mut S,
    head: PartHead,
    tag: Tag,
    tags: &mut Tags,
    front: &mut [u8],
) -> Result<(), WaveError>
    requires fits { head.first + head.len < 2 ^ 64 }
    requires front { length front.old ≡ min head.len FRONT_LEN }
    ensures text { S.honest source.old → head.first + head.len ≤ length (S.bytes source.old) →
        OnOk result (tags.new ≡ with_found tags.old tag (tag_text (slice_range (S.bytes source.old) head.first (head.first + head.len)))) }
    ensures fault { S.honest source.old → head.first + head.len ≤ length (S.bytes source.old) →
        IfErr result (Fails (Grows (S.faults source.old) (S.faults source.new))) }
    ensures kept { S.honest source.old → Keeps S.bytes S.honest S.faults S.steady source.old source.new }
{
    read_exact(source, head.first, front)?;
    match chunk_text(front) {
        Some(text) => Ok(tags.add(tag, text)?),
        None => Ok(()),
    }
}
