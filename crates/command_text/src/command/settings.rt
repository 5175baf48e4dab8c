// Reads the commands of the playback options and of the volume.
ghost use Rattle.std.specs.Prelude.{◌≡◌, option_map};
ghost use Rattle.command_text.specs.Settings.{settings_of, one_single, one_switch, step_by, step_of};
ghost use Rattle.command_text.specs.Arguments.{number_to};

use crate::argument::{argument, number_to, single, switch};
use crate::counts::{no_argument, one};
use crate::refusal::CommandRefusal;
use crate::topic::SettingsName;
use filter_expr::LineWord;
use player_core::{Single, Volume};

/// A command of the settings.
#[derive(Debug, Drop)]
pub enum SettingsCommand {
    /// Makes the volume greater or less.
    ChangeVolume(VolumeStep),
    /// Closes the connection.
    Close,
    /// `oneshot` is past the MPD protocol reference 0.23.
    Consume(Single),
    GetVolume,
    /// Ends the daemon.
    Kill,
    /// Does nothing.
    Ping,
    Random(bool),
    Repeat(bool),
    SetVolume(Volume),
    Single(Single),
    Status,
}

/// By how much the volume becomes greater or less, in hundredths.
#[derive(Clone, Copy, Debug, PartialEq, Eq)]
pub struct VolumeStep {
    pub is_down: bool,
    pub by: u32,
}

/// The command of this name with these arguments.
#[tactic(auto, unfolding(crate::specs::Settings::settings_of))]
pub(crate) fn read(
    name: SettingsName,
    words: &[LineWord<'_>],
) -> Result<SettingsCommand, CommandRefusal>
    ensures { result ≡ settings_of name words.now }
{
    match name {
        SettingsName::ChangeVolume => {
            let step = argument(1, volume_step(one(words)?))?;
            Ok(SettingsCommand::ChangeVolume(step))
        }
        SettingsName::Close => no_argument(SettingsCommand::Close, words),
        SettingsName::Consume => Ok(SettingsCommand::Consume(one_single(words)?)),
        SettingsName::GetVolume => no_argument(SettingsCommand::GetVolume, words),
        SettingsName::Kill => no_argument(SettingsCommand::Kill, words),
        SettingsName::Ping => no_argument(SettingsCommand::Ping, words),
        SettingsName::Random => Ok(SettingsCommand::Random(one_switch(words)?)),
        SettingsName::Repeat => Ok(SettingsCommand::Repeat(one_switch(words)?)),
        SettingsName::SetVolume => {
            let volume = argument(1, volume(one(words)?))?;
            Ok(SettingsCommand::SetVolume(volume))
        }
        SettingsName::Single => Ok(SettingsCommand::Single(one_single(words)?)),
        SettingsName::Status => no_argument(SettingsCommand::Status, words),
    }
}

fn one_switch(words: &[LineWord<'_>]) -> Result<bool, CommandRefusal>
    ensures { result ≡ one_switch words.now }
{
    argument(1, switch(one(words)?))
}

fn one_single(words: &[LineWord<'_>]) -> Result<Single, CommandRefusal>
    ensures { result ≡ one_single words.now }
{
    argument(1, single(one(words)?))
}

/// A volume of at most 100.
#[tactic(auto, unfolding(crate::specs::Arguments::number_to))]
fn volume(word: &[u8]) -> Option<Volume>
    ensures { result ≡ number_to 100 word.now }
{
    let percent = u8::try_from(number_to(100, word)?).ok()?;
    Volume::new(percent)
}

/// `N`, `+N` or `-N`, at most 100.
#[tactic(auto, unfolding(crate::specs::Settings::step_of))]
fn volume_step(word: &[u8]) -> Option<VolumeStep>
    ensures { result ≡ step_of word.now }
{
    match word {
        [] => None,
        [b'-', digits @ ..] => step_by(true, digits),
        [b'+', digits @ ..] => step_by(false, digits),
        _ => step_by(false, word),
    }
}

/// A step of so much.
fn step_by(is_down: bool, digits: &[u8]) -> Option<VolumeStep>
    ensures { result ≡ option_map (step_by is_down) (number_to 100 digits.now) }
{
    let by = number_to(100, digits)?;
    Some(VolumeStep { is_down, by })
}
