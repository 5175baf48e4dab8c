// Reads the commands of playback.
ghost use Rattle.std.specs.Prelude.{◌≡◌};
ghost use Rattle.command_text.specs.Playing.{playing_of, selected, number_and_time};

use crate::argument::{argument, number, optional_number, optional_switch};
use crate::counts::{no_argument, one, optional, two, unless_minus_one};
use crate::refusal::CommandRefusal;
use crate::time::{seek_time, time};
use crate::topic::PlayingName;
use filter_expr::LineWord;
use player_core::{SeekTime, Selector};

/// A command of the player. Times are in milliseconds, at most 4294967 seconds.
#[derive(Debug, Drop)]
pub enum PlayingCommand {
    ClearError,
    CurrentSong,
    Next,
    /// Without a switch it toggles.
    Pause(Option<bool>),
    /// Starts an entry; none, goes on.
    Play(Option<Selector>),
    Previous,
    /// Starts an entry at a time.
    Seek(Selector, u32),
    SeekCurrent(SeekTime),
    Stop,
}

/// The command of this name with these arguments.
#[tactic(auto, unfolding(crate::specs::Playing::playing_of))]
pub(crate) fn read(
    name: PlayingName,
    words: &[LineWord<'_>],
) -> Result<PlayingCommand, CommandRefusal>
    ensures { result ≡ playing_of name words.now }
{
    match name {
        PlayingName::ClearError => no_argument(PlayingCommand::ClearError, words),
        PlayingName::CurrentSong => no_argument(PlayingCommand::CurrentSong, words),
        PlayingName::Next => no_argument(PlayingCommand::Next, words),
        PlayingName::Pause => Ok(PlayingCommand::Pause(optional_switch(1, optional(words)?)?)),
        PlayingName::Play => match selected(words)? {
            None => Ok(PlayingCommand::Play(None)),
            Some(position) => Ok(PlayingCommand::Play(Some(Selector::Position(position)))),
        },
        PlayingName::PlayId => match selected(words)? {
            None => Ok(PlayingCommand::Play(None)),
            Some(id) => Ok(PlayingCommand::Play(Some(Selector::Id(id)))),
        },
        PlayingName::Previous => no_argument(PlayingCommand::Previous, words),
        PlayingName::Seek => {
            let (position, time) = number_and_time(words)?;
            Ok(PlayingCommand::Seek(Selector::Position(position), time))
        }
        PlayingName::SeekCurrent => {
            let time = argument(1, seek_time(one(words)?))?;
            Ok(PlayingCommand::SeekCurrent(time))
        }
        PlayingName::SeekId => {
            let (id, time) = number_and_time(words)?;
            Ok(PlayingCommand::Seek(Selector::Id(id), time))
        }
        PlayingName::Stop => no_argument(PlayingCommand::Stop, words),
    }
}

/// A position or an id; `-1` is none.
#[tactic(auto, unfolding(crate::specs::Playing::selected))]
fn selected(words: &[LineWord<'_>]) -> Result<Option<u32>, CommandRefusal>
    ensures { result ≡ selected words.now }
{
    optional_number(1, unless_minus_one(optional(words)?))
}

/// A position or an id, and a time.
#[tactic(auto, unfolding(crate::specs::Playing::number_and_time))]
fn number_and_time(words: &[LineWord<'_>]) -> Result<(u32, u32), CommandRefusal>
    ensures { result ≡ number_and_time words.now }
{
    let (entry, later) = two(words)?;
    let entry = argument(1, number(entry))?;
    Ok((entry, argument(2, time(later))?))
}
