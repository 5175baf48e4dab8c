// The lines that a session acts on by itself: those that begin and end a command list, and `noidle`.
ghost use Rattle.std.specs.Prelude.{◌≡◌};
ghost use Rattle.command_text.specs.Control.{control_of_line, control_of_word, is_name};
ghost use Rattle.command_text.specs.NextWord.{spelled};

use crate::line::is_utf8;
use crate::name::CommandName;
use crate::words::{self, Next, WordText};

/// A line that is part of how requests are made, and no command by itself: it begins or ends a command list, or ends a client's waiting
/// (MPD protocol reference 0.23, "Command lists" and `idle` under "Querying MPD's status").
#[derive(Clone, Copy, Debug, PartialEq, Eq)]
pub enum ControlLine {
    /// `command_list_begin`
    ListBegin,
    /// `command_list_ok_begin`
    OkListBegin,
    /// `command_list_end`
    ListEnd,
    /// `noidle`
    Noidle,
}

impl ControlLine {
    /// Which of these a line is: its one word says so, however it is spelled. `None` for any other line, and for one that has further
    /// words. It takes no memory.
    pub fn of_line(line: &[u8]) -> Option<ControlLine>
        ensures { result ≡ control_of_line line.now }
    {
        if !is_utf8(line) {
            return None;
        }
        match words::next_word(words::text_of_line(line)) {
            Next::End => None,
            Next::Bad => None,
            Next::Found(word, rest) => match words::next_word(rest) {
                Next::End => control_of_word(word),
                Next::Bad => None,
                Next::Found(_, _) => None,
            },
        }
    }
}

/// Which of these lines the word makes alone.
fn control_of_word(word: WordText<'_>) -> Option<ControlLine>
    ensures { result ≡ control_of_word (spelled word.entry) }
{
    if is_name(word, CommandName::CommandListBegin) {
        Some(ControlLine::ListBegin)
    } else if is_name(word, CommandName::CommandListOkBegin) {
        Some(ControlLine::OkListBegin)
    } else if is_name(word, CommandName::CommandListEnd) {
        Some(ControlLine::ListEnd)
    } else if is_name(word, CommandName::NoIdle) {
        Some(ControlLine::Noidle)
    } else {
        None
    }
}

/// Whether the word is the name of this command.
fn is_name(word: WordText<'_>, name: CommandName) -> bool
    ensures { result ≡ is_name (spelled word.entry) name }
{
    word.is(name.text().as_bytes())
}
