// Reads the commands of what a daemon is set up with.
ghost use Rattle.std.specs.Prelude.{◌≡◌, codes};
ghost use Rattle.std.specs.Str.{bytes_eq};
ghost use Rattle.command_text.specs.Setup.{first_word, if_so, is_no_gain, limit_of, of_output, setup_count, setup_for, setup_of};

use crate::argument::number_to;
use crate::refusal::{CommandRefusal, SetupRefusal};
use crate::topic::SetupName;
use filter_expr::LineWord;

/// A command of what a daemon is set up with: of each thing there is one that stays as it is, or none.
#[derive(Clone, Copy, Debug, PartialEq, Eq)]
pub enum SetupCommand {
    /// How many bytes of a picture an answer to this client may have at most.
    BinaryLimit(u32),
    /// The decoders, with the endings and the types of what they read.
    Decoders,
    Mounts,
    /// Nothing is to be done.
    Nothing,
    Outputs,
    Partitions,
    ReplayGain,
}

/// The command of this name with these arguments; their count is looked at first.
#[tactic(auto, unfolding(crate::specs::Setup::setup_of))]
pub(crate) fn read(name: SetupName, words: &[LineWord<'_>]) -> Result<SetupCommand, CommandRefusal>
    ensures { result ≡ setup_of name words.now }
{
    if words.len() != count_of(name) {
        return Err(CommandRefusal::WrongCount);
    }
    read_first(name, first_word(words))
}

/// How many arguments a command takes.
fn count_of(name: SetupName) -> usize
    ensures { result ≡ setup_count name }
{
    match name {
        SetupName::Decoders
        | SetupName::ListMounts
        | SetupName::ListNeighbors
        | SetupName::ListPartitions
        | SetupName::Outputs
        | SetupName::ReplayGainStatus
        | SetupName::UrlHandlers => 0,
        SetupName::SetOutput => 3,
        _ => 1,
    }
}

/// The first argument, empty where there is none.
fn first_word<'w>(words: &'w [LineWord<'_>]) -> &'w [u8]
    ensures { result.now ≡ first_word words.now }
{
    match words {
        [] => b"",
        [word, ..] => word.bytes(),
    }
}

/// The command of this name with as many arguments as it takes, of which the first is this.
fn read_first(name: SetupName, word: &[u8]) -> Result<SetupCommand, CommandRefusal>
    ensures { result ≡ setup_for name word.now }
{
    match name {
        SetupName::BinaryLimit => limit(word),
        SetupName::Crossfade => if_so(is_zero(word), SetupRefusal::NoCrossfade),
        SetupName::Decoders => Ok(SetupCommand::Decoders),
        SetupName::DisableOutput => of_output(word, SetupRefusal::AlwaysOn),
        SetupName::EnableOutput => if_so(is_zero(word), SetupRefusal::NoSuchOutput),
        SetupName::ListMounts => Ok(SetupCommand::Mounts),
        SetupName::ListNeighbors => Err(CommandRefusal::Setup(SetupRefusal::NoNeighbors)),
        SetupName::ListPartitions => Ok(SetupCommand::Partitions),
        SetupName::MixrampDb => if_so(is_no_gain(word), SetupRefusal::NoMixramp),
        SetupName::MixrampDelay => if_so(word == b"nan".as_slice(), SetupRefusal::NoMixramp),
        SetupName::Outputs => Ok(SetupCommand::Outputs),
        SetupName::SetOutput => of_output(word, SetupRefusal::UnsupportedAttribute),
        SetupName::Partition => if_so(word == b"default".as_slice(), SetupRefusal::NoSuchPartition),
        SetupName::Password => Err(CommandRefusal::Setup(SetupRefusal::IncorrectPassword)),
        SetupName::ReadComments => Ok(SetupCommand::Nothing),
        SetupName::ReplayGainMode => if_so(
            word == b"off".as_slice(),
            SetupRefusal::UnrecognizedGain,
        ),
        SetupName::ReplayGainStatus => Ok(SetupCommand::ReplayGain),
        SetupName::ToggleOutput => of_output(word, SetupRefusal::AlwaysOn),
        SetupName::UrlHandlers => Ok(SetupCommand::Nothing),
    }
}

/// The least and the greatest limit of a picture's bytes, as MPD 0.23.12 has them.
const MIN_LIMIT: u32 = 64;

const MAX_LIMIT: u32 = 8_400_896;

fn limit(word: &[u8]) -> Result<SetupCommand, CommandRefusal>
    ensures { result ≡ limit_of word.now }
{
    match number_to(MAX_LIMIT, word) {
        Some(limit) if limit >= MIN_LIMIT => Ok(SetupCommand::BinaryLimit(limit)),
        _ => Err(CommandRefusal::BadArgument(1)),
    }
}

/// Nothing is to be done, or it is refused.
fn if_so(holds: bool, refusal: SetupRefusal) -> Result<SetupCommand, CommandRefusal>
    ensures { result ≡ if_so holds refusal }
{
    if holds {
        Ok(SetupCommand::Nothing)
    } else {
        Err(CommandRefusal::Setup(refusal))
    }
}

/// What is refused of the only output, which is 0, and of each other one.
fn of_output(id: &[u8], refusal: SetupRefusal) -> Result<SetupCommand, CommandRefusal>
    ensures { result ≡ of_output id.now refusal }
{
    if is_zero(id) {
        Err(CommandRefusal::Setup(refusal))
    } else {
        Err(CommandRefusal::Setup(SetupRefusal::NoSuchOutput))
    }
}

fn is_zero(word: &[u8]) -> bool
    ensures { result ≡ bytes_eq word.now (codes "0") }
{
    word == b"0".as_slice()
}

/// Whether the word is 0 decibels, as clients spell it.
fn is_no_gain(word: &[u8]) -> bool
    ensures { result ≡ is_no_gain word.now }
{
    is_zero(word) || word == b"0.000000".as_slice()
}
