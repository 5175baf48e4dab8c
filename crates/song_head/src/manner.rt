// How the texts of an ID3v2 tag are taken.
ghost use Rattle.std.specs.Prelude.{◌≡◌};
ghost use Rattle.song_head.specs.FrameValues.{is_mark, are_comments, manner_of};

use id3_tags::TagText;

// The first text of each tag, as it stands; all, as they stand, of the comments of a FLAC file; or all, as MPD tells those of an ID3v2 tag
// of this version.
#[derive(Clone, Copy, Debug, PartialEq, Eq)]
pub(crate) enum Manner {
    First,
    OfComments,
    OfVersion(u8),
}

// Whether this is the mark of a tag that stands for the comments of a FLAC file.
fn is_mark(frame: &TagText) -> bool
    ensures { result ≡ is_mark frame.now }
{
    frame.id == *b"TXXX" && frame.description.as_str() == "Vorbis comments"
}

fn are_comments(frames: &[TagText]) -> bool
    ensures { result ≡ are_comments frames.now }
{
    frames.iter().any(|frame| is_mark(frame))
}

// How the texts of a tag of this version are taken.
pub(crate) fn manner_of(several: bool, version: u8, frames: &[TagText]) -> Manner
    ensures { result ≡ manner_of several version frames.now }
{
    if !several {
        Manner::First
    } else if are_comments(frames) {
        Manner::OfComments
    } else {
        Manner::OfVersion(version)
    }
}
