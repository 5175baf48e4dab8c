// Reads the commands of a client's own connection.
ghost use Rattle.std.specs.Prelude.{◌≡◌};
ghost use Rattle.command_text.specs.Session.{mask_with, idle_of, session_of};
ghost use Rattle.idle_masks.specs.Subsystems.{none};

use crate::argument::argument;
use crate::counts::no_argument;
use crate::refusal::CommandRefusal;
use crate::topic::SessionName;
use filter_expr::LineWord;
use idle_masks::Subsystems;

/// A command of a client's session. The lines that begin and end a list or an `idle` are commands too, where no session has taken them
/// as what they are.
#[derive(Debug, Drop)]
pub enum SessionCommand {
    BeginList,
    BeginOkList,
    EndList,
    /// Waits for a change of one of these.
    Idle(Subsystems),
    NoIdle,
}

/// The command of this name with these arguments.
#[tactic(auto, unfolding(crate::specs::Session::session_of))]
pub(crate) fn read(
    name: SessionName,
    words: &[LineWord<'_>],
) -> Result<SessionCommand, CommandRefusal>
    ensures { result ≡ session_of name words.now }
{
    match name {
        SessionName::CommandListBegin => no_argument(SessionCommand::BeginList, words),
        SessionName::CommandListEnd => no_argument(SessionCommand::EndList, words),
        SessionName::CommandListOkBegin => no_argument(SessionCommand::BeginOkList, words),
        SessionName::Idle => idle(words),
        SessionName::NoIdle => no_argument(SessionCommand::NoIdle, words),
    }
}

#[tactic(auto, unfolding(crate::specs::Session::idle_of))]
fn idle(words: &[LineWord<'_>]) -> Result<SessionCommand, CommandRefusal>
    ensures { result ≡ idle_of words.now }
{
    if words.is_empty() {
        return Ok(SessionCommand::Idle(Subsystems::all()));
    }
    Ok(SessionCommand::Idle(mask(words)?))
}

/// What the names ask for together.
fn mask(words: &[LineWord<'_>]) -> Result<Subsystems, CommandRefusal>
    ensures { result ≡ mask_with none 1 words.now }
{
    let mut set = Subsystems::none();
    for (place, word) in words.iter().enumerate() {
        set = set.union(argument(place + 1, Subsystems::named(word.bytes()))?);
    }
    Ok(set)
}
