// Places between the bytes of a text.
ghost use Rattle.std.specs.Prelude.{◌≡◌};
ghost use Rattle.regular_expr.specs.Places.{is_word, is_word_there, is_place};

/// What a pattern says of a place.
#[derive(Clone, Copy, Debug, PartialEq, Eq)]
pub(crate) enum Place {
    /// The text begins.
    Start,
    /// The text ends.
    End,
    /// A word begins or ends.
    Edge,
    /// No word begins or ends.
    Inside,
}

/// A place in a text: the bytes beside it, and whether ASCII letters of any case are the same.
#[derive(Clone, Copy, Debug)]
pub(crate) struct Here {
    pub(crate) fold: bool,
    pub(crate) before: Option<u8>,
    pub(crate) next: Option<u8>,
}

/// Whether the byte is one of a word.
fn is_word(byte: u8) -> bool
    ensures { result ≡ is_word byte }
{
    byte.is_ascii_alphanumeric() || byte == b'_'
}

fn is_word_there(byte: Option<u8>) -> bool
    ensures { result ≡ is_word_there byte }
{
    match byte {
        None => false,
        Some(byte) => is_word(byte),
    }
}

impl Place {
    pub(crate) fn is_at(self, here: Here) -> bool
        ensures { result ≡ is_place self here }
    {
        match self {
            Place::Start => here.before.is_none(),
            Place::End => here.next.is_none(),
            Place::Edge => is_word_there(here.before) != is_word_there(here.next),
            Place::Inside => is_word_there(here.before) == is_word_there(here.next),
        }
    }
}
