// Numbers at the beginning of texts, and those that tracks and discs have.
ghost use Rattle.std.specs.Prelude.{◌≡◌, ◌≤◌, length, option_copied};
ghost use Rattle.std.specs.Char.{is_ascii_digit};
ghost use Rattle.std.specs.List.{list_all};
ghost use Rattle.song_head.specs.Numbers.{are_digits, digits_of, digits_in_front, number_in, without_zeros, number_text};

/// Whether the text has one decimal digit at least, and nothing else.
pub fn are_digits(text: &[u8]) -> bool
    ensures { result ≡ are_digits text.now }
{
    !text.is_empty() && all_digits(text)
}

fn all_digits(text: &[u8]) -> bool
    ensures { result ≡ list_all is_ascii_digit text.now }
{
    text.iter().all(|byte| byte.is_ascii_digit())
}

/// The number that decimal digits stand for, below 2^64.
#[tactic(auto, unfolding(crate::specs::Numbers::digits_of))]
pub fn digits(text: &[u8]) -> Option<u64>
    ensures { result ≡ digits_of text.now }
{
    if !are_digits(text) {
        return None;
    }
    str::from_utf8(text).ok()?.parse().ok()
}

/// The digits that a text begins with.
pub fn digits_in_front(text: &[u8]) -> &[u8]
    ensures digits { result.now ≡ digits_in_front text.now }
    ensures within { length result.now ≤ length text.now }
{
    for (place, byte) in text.iter().enumerate() {
        if !byte.is_ascii_digit() {
            return &text[..place];
        }
    }
    text
}

/// The number that a text begins with, 0 where there is none, and at most the last below 2^64.
pub fn number_in(text: Option<&str>) -> u64
    ensures { result ≡ number_in (option_copied text.entry) }
{
    let Some(text) = text else {
        return 0;
    };
    let front = digits_in_front(text.as_bytes());
    if front.is_empty() {
        return 0;
    }
    digits(front).unwrap_or(u64::MAX)
}

fn without_zeros(text: &[u8]) -> &[u8]
    ensures { result.now ≡ without_zeros text.now }
{
    let mut rest = text;
    while let [b'0', behind @ ..] = rest {
        rest = behind;
    }
    rest
}

// What is told of a text that should be a number: its first digits, without zeros in front.
pub(crate) fn number_text(text: &[u8]) -> &[u8]
    ensures { result.now ≡ number_text text.now }
{
    digits_in_front(without_zeros(text))
}
