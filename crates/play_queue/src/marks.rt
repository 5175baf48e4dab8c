// Numbers that few URIs share, by which most are told apart without a comparison of texts.
ghost use Rattle.std.specs.Prelude.{◌≡◌, ◌<◌, length};
ghost use Rattle.play_queue.specs.Marks.{mark_of, AreMarked};

use song_db::Uri;

/// How many marks there are.
pub(crate) const MARKS: usize = 1_024;

// The mark of a text: by the three bytes in front of the last four, which most often are `.wav`.
pub(crate) fn mark(text: &[u8]) -> usize
    ensures mark { result ≡ mark_of text.now }
    ensures within { result < 1024 }
{
    let len = text.len();
    if len < 7 {
        return 0;
    }
    let one = usize::from(text[len - 5]);
    let two = usize::from(text[len - 6]);
    let three = usize::from(text[len - 7]);
    (one * 100 + two * 10 + three) % MARKS
}

// The marks of some URIs.
pub(crate) fn marks_of(uris: &[Uri]) -> [bool; MARKS]
    ensures marked { AreMarked result uris.now }
    ensures len { length result ≡ 1024 }
{
    let mut marks = [false; MARKS];
    for uri in uris {
        marks[mark(uri.as_str().as_bytes())] = true;
    }
    marks
}
