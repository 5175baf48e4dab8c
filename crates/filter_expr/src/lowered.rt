// Texts that are plain ASCII: folding lowers their letters, so that they are compared where they stand, and no memory is taken.
ghost use Rattle.std.specs.Prelude.{◌≡◌, map, IsAscii};
ghost use Rattle.std.specs.Char.{to_ascii_lowercase};
ghost use Rattle.std.specs.Str.{bytes_eq};
ghost use Rattle.filter_expr.specs.Folding.{folded};
ghost use Rattle.filter_expr.specs.Meaning.{begins_with, occurs_in, compared};

use crate::subject::Comparison;

/// Whether a text that is plain ASCII, folded, passes against a folded value that isn't empty.
#[tactic(auto, using(crate::proofs::Ascii::folded_ascii))]
pub(crate) fn compare_ascii(comparison: Comparison, value: &str, text: &str) -> bool
    requires { IsAscii text.now }
    ensures { result ≡ compared comparison value.now (folded text.now) }
{
    let (value, text) = (value.as_bytes(), text.as_bytes());
    match comparison {
        Comparison::Equals => is_lowered(value, text),
        Comparison::Contains | Comparison::Pair | Comparison::WidePair => occurs_lowered(
            value, text,
        ),
        Comparison::Begins => begins_lowered(value, text),
    }
}

/// Whether the lowered text is this one.
fn is_lowered(value: &[u8], text: &[u8]) -> bool
    ensures { result ≡ bytes_eq (map to_ascii_lowercase text.now) value.now }
{
    text.len() == value.len() && begins_lowered(value, text)
}

/// Whether the part stands somewhere in the lowered text.
fn occurs_lowered(part: &[u8], text: &[u8]) -> bool
    ensures { result ≡ occurs_in part.now (map to_ascii_lowercase text.now) }
{
    let [first, others @ ..] = part else {
        return true;
    };
    let mut rest = text;
    while let [byte, behind @ ..] = rest {
        // What is shorter than the part doesn't hold it.
        if behind.len() < others.len() {
            return false;
        }
        if byte.to_ascii_lowercase() == *first && begins_lowered(others, behind) {
            return true;
        }
        rest = behind;
    }
    false
}

/// Whether the lowered text begins with the part.
fn begins_lowered(part: &[u8], text: &[u8]) -> bool
    ensures { result ≡ begins_with part.now (map to_ascii_lowercase text.now) }
{
    let mut rest = text;
    for wanted in part {
        let [byte, behind @ ..] = rest else {
            return false;
        };
        if byte.to_ascii_lowercase() != *wanted {
            return false;
        }
        rest = behind;
    }
    true
}
