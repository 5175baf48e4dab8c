// Takes a line apart into words, and says which command it names.
ghost use Rattle.std.specs.Prelude.{◌≡◌, is_some, true, Err};
ghost use Rattle.std.specs.Str.{is_utf8};
ghost use Rattle.command_text.specs.Reading.{GivesWords, line_words, name_of_line, want_of_memory};
ghost use Rattle.command_text.specs.Words.{words_from};
ghost use Rattle.command_text.specs.Words.Standing.{Between};

use crate::name::CommandName;
use crate::refusal::{CommandRefusal, ReadError, Refusal};
use crate::words::{self, Next, WordsError};
use filter_expr::LineWord;
use profile::Profile;
use std::alloc::Global;

/// The words of a line that is text, without its newline, or the first refusal: bytes that are not UTF-8, and bad quoting. What they ask
/// for `Command::read` says.
#[tactic(auto, unfolding(crate::specs::Reading::line_words))]
pub fn read_words(alloc: Global, line: &[u8]) -> Result<Vec<LineWord<'_>>, ReadError>
    ensures exact { GivesWords result (line_words line.now) }
    // Bytes that are not UTF-8 are refused without memory.
    ensures memory { result ≡ Err ReadError.NoMemory → is_utf8 line.now ≡ true }
{
    if !is_utf8(line) {
        return Err(ReadError::Refused(Refusal::InvalidUtf8));
    }
    match words::words(alloc, line) {
        Ok(words) => Ok(words),
        Err(WordsError::BadQuoting) => Err(ReadError::Refused(Refusal::BadQuoting)),
        Err(WordsError::NoMemory) => Err(ReadError::NoMemory),
    }
}

/// How want of memory at a line is answered: with the name of its command, if the profile knows it. It takes no memory.
pub fn want_of_memory(profile: Profile, line: &[u8]) -> Refusal
    ensures { result ≡ want_of_memory (name_of_line profile line.now) }
{
    match name_of_line(profile, line) {
        None => Refusal::OutOfMemory,
        Some(name) => Refusal::OfCommand(name, CommandRefusal::OutOfMemory),
    }
}

pub(crate) fn is_utf8(line: &[u8]) -> bool
    ensures { result ≡ is_utf8 line.now }
{
    str::from_utf8(line).is_ok()
}

/// The name that the line begins with, where it parts into words and the first one is a name that the profile knows.
fn name_of_line(profile: Profile, line: &[u8]) -> Option<CommandName>
    ensures { result ≡ name_of_line profile line.now }
{
    if !is_utf8(line) {
        return None;
    }
    match words::next_word(words::text_of_line(line)) {
        Next::End => None,
        Next::Bad => None,
        Next::Found(word, rest) => {
            if parts_into_words(rest) {
                CommandName::named_by(profile, word)
            } else {
                None
            }
        }
    }
}

/// Whether the quoting of these bytes is good.
fn parts_into_words(bytes: &[u8]) -> bool
    ensures { result ≡ is_some (words_from Between bytes.now) }
{
    let mut rest = bytes;
    loop {
        match words::next_word(rest) {
            Next::End => return true,
            Next::Bad => return false,
            Next::Found(_, after) => rest = after,
        }
    }
}
