// How many words a command takes, and which they are.
ghost use Rattle.std.specs.Prelude.{◌≡◌};
ghost use Rattle.std.specs.Option.{option_map};
ghost use Rattle.std.specs.Result.{result_map_both};
ghost use Rattle.command_text.specs.Counts.{no_argument, optional_argument, one_argument, one_or_two, two_arguments, three_arguments};
ghost use Rattle.command_text.specs.Counts.{one_to_three, one_and_more, two_or_three, unless_minus_one};

use crate::refusal::CommandRefusal;
use filter_expr::LineWord;

/// The value, where there is no argument.
pub(crate) fn no_argument<T: Drop>(value: T, words: &[LineWord<'_>]) -> Result<T, CommandRefusal>
    ensures { result ≡ no_argument value words.now }
{
    match words {
        [] => Ok(value),
        _ => Err(CommandRefusal::WrongCount),
    }
}

/// The argument, if there is one.
pub(crate) fn optional<'w>(words: &'w [LineWord<'_>]) -> Result<Option<&'w [u8]>, CommandRefusal>
    ensures { result_map_both (option_map (λ word. word.now)) (λ refusal. refusal) result ≡ optional_argument words.now }
{
    match words {
        [] => Ok(None),
        [word] => Ok(Some(word.bytes())),
        _ => Err(CommandRefusal::WrongCount),
    }
}

/// The one argument.
pub(crate) fn one<'w>(words: &'w [LineWord<'_>]) -> Result<&'w [u8], CommandRefusal>
    ensures { result_map_both (λ word. word.now) (λ refusal. refusal) result ≡ one_argument words.now }
{
    match words {
        [word] => Ok(word.bytes()),
        _ => Err(CommandRefusal::WrongCount),
    }
}

/// One argument, and another if it is there.
pub(crate) fn one_or_two<'w>(
    words: &'w [LineWord<'_>],
) -> Result<(&'w [u8], Option<&'w [u8]>), CommandRefusal>
    ensures { result_map_both (λ x. (x.0.now, option_map (λ word. word.now) x.1)) (λ refusal. refusal) result ≡ one_or_two words.now }
{
    match words {
        [first] => Ok((first.bytes(), None)),
        [first, second] => Ok((first.bytes(), Some(second.bytes()))),
        _ => Err(CommandRefusal::WrongCount),
    }
}

/// Two arguments.
pub(crate) fn two<'w>(words: &'w [LineWord<'_>]) -> Result<(&'w [u8], &'w [u8]), CommandRefusal>
    ensures { result_map_both (λ x. (x.0.now, x.1.now)) (λ refusal. refusal) result ≡ two_arguments words.now }
{
    match words {
        [first, second] => Ok((first.bytes(), second.bytes())),
        _ => Err(CommandRefusal::WrongCount),
    }
}

/// Two arguments, and another if it is there.
pub(crate) fn two_or_three<'w>(
    words: &'w [LineWord<'_>],
) -> Result<(&'w [u8], (&'w [u8], Option<&'w [u8]>)), CommandRefusal>
    ensures { result_map_both (λ x. (x.0.now, (x.1.0.now, option_map (λ word. word.now) x.1.1))) (λ refusal. refusal) result
        ≡ two_or_three words.now }
{
    match words {
        [first, second] => Ok((first.bytes(), (second.bytes(), None))),
        [first, second, third] => Ok((first.bytes(), (second.bytes(), Some(third.bytes())))),
        _ => Err(CommandRefusal::WrongCount),
    }
}

/// Three arguments.
pub(crate) fn three<'w>(
    words: &'w [LineWord<'_>],
) -> Result<(&'w [u8], (&'w [u8], &'w [u8])), CommandRefusal>
    ensures { result_map_both (λ x. (x.0.now, (x.1.0.now, x.1.1.now))) (λ refusal. refusal) result ≡ three_arguments words.now }
{
    match words {
        [first, second, third] => Ok((first.bytes(), (second.bytes(), third.bytes()))),
        _ => Err(CommandRefusal::WrongCount),
    }
}

/// One argument, and the two behind it as far as they are there.
pub(crate) fn one_to_three<'w>(
    words: &'w [LineWord<'_>],
) -> Result<(&'w [u8], (Option<&'w [u8]>, Option<&'w [u8]>)), CommandRefusal>
    ensures { result_map_both (λ x. (x.0.now, (option_map (λ word. word.now) x.1.0, option_map (λ word. word.now) x.1.1)))
        (λ refusal. refusal) result ≡ one_to_three words.now }
{
    match words {
        [first] => Ok((first.bytes(), (None, None))),
        [first, second] => Ok((first.bytes(), (Some(second.bytes()), None))),
        [first, second, third] => Ok((first.bytes(), (Some(second.bytes()), Some(third.bytes())))),
        _ => Err(CommandRefusal::WrongCount),
    }
}

/// One argument, and those behind it, of which there is one at least.
pub(crate) fn one_and_more<'w, 'a>(
    words: &'w [LineWord<'a>],
) -> Result<(&'w [u8], &'w [LineWord<'a>]), CommandRefusal>
    ensures { result_map_both (λ x. (x.0.now, x.1.now)) (λ refusal. refusal) result ≡ one_and_more words.now }
{
    match words {
        [] | [_] => Err(CommandRefusal::WrongCount),
        [first, others @ ..] => Ok((first.bytes(), others)),
    }
}

/// The argument, where it isn't `-1`, which counts as none.
pub(crate) fn unless_minus_one(word: Option<&[u8]>) -> Option<&[u8]>
    ensures { option_map (λ word. word.now) result ≡ unless_minus_one (option_map (λ word. word.now) word.entry) }
{
    match word {
        Some(word) if word != b"-1".as_slice() => Some(word),
        _ => None,
    }
}
