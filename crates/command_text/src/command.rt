// A command as its line says it, by topic.
ghost use Rattle.std.specs.Prelude.{◌≡◌, Err, true};
ghost use Rattle.command_text.specs.Reading.{Gives, MayWantMemory, command_of, command_with, in_place, of_command, is_allowed};
ghost use Rattle.command_text.specs.Reading.{takes_memory, TellsUnknown, error_of};
ghost use Rattle.command_text.specs.Names.{topic_of};
ghost use Rattle.command_text.specs.Stops.{Reads};
ghost use Rattle.command_text.specs.declared.stop.Stop.TheVariants as stops;

use crate::name::CommandName;
use crate::place::Place;
use crate::refusal::{CommandRefusal, ReadError, Refusal};
use crate::stop::Stop;
use crate::table::topic_of;
use crate::topic::Topic;
use crate::words::Word;
use filter_expr::LineWord;
use profile::Profile;
use std::alloc::Global;

pub mod database;
pub mod finding;
mod groups;
pub mod lists;
pub mod messages;
pub mod pictures;
pub mod playing;
pub mod queue;
pub mod session;
pub mod settings;
pub mod setup;
pub mod sticker;

use database::DatabaseCommand;
use finding::FindingCommand;
use lists::ListsCommand;
use messages::MessagesCommand;
use pictures::PicturesCommand;
use playing::PlayingCommand;
use queue::QueueCommand;
use session::SessionCommand;
use settings::SettingsCommand;
use setup::SetupCommand;
use sticker::StickersCommand;

/// A command and its arguments, by its topic, as the MPD protocol reference 0.23 describes each. Its texts are those of the line's words.
#[derive(Debug, Drop)]
pub enum Command<'w> {
    Settings(SettingsCommand),
    Database(DatabaseCommand<'w>),
    Queue(QueueCommand<'w>),
    Finding(FindingCommand<'w>),
    Lists(ListsCommand<'w>),
    Stickers(StickersCommand<'w>),
    Messages(MessagesCommand<'w>),
    Playing(PlayingCommand),
    Session(SessionCommand),
    Setup(SetupCommand),
    Pictures(PicturesCommand<'w>),
}

/// A command, and the name by which it was asked for.
#[derive(Debug, Drop)]
pub struct NamedCommand<'w> {
    pub name: CommandName,
    pub command: Command<'w>,
}

impl<'w> Command<'w> {
    /// The command that these words ask for in this place, with its name, or the first refusal: no word, an unknown command, not
    /// allowed here, the count of arguments, the arguments from left to right. Commands, tags and the like go by the names that the profile
    /// has.
    #[tactic(auto, unfolding(crate::specs::Reading::command_of))]
    pub fn read(
        alloc: Global,
        profile: Profile,
        place: Place,
        words: &'w [LineWord<'_>],
    ) -> Result<NamedCommand<'w>, ReadError>
        ensures exact { Gives result (command_of profile place words.now) }
        // Most commands are read without memory.
        ensures memory { result ≡ Err ReadError.NoMemory → MayWantMemory profile words.now }
    {
        let Some((first, arguments)) = words.split_first() else {
            return Err(ReadError::Refused(Refusal::NoCommand));
        };
        match CommandName::named(profile, first.bytes()) {
            None => Err(unknown(alloc, first.bytes())),
            Some(name) => Command::of(alloc, profile, place, name, arguments),
        }
    }

    /// The command of this name in this place with these arguments, or the first refusal, as `read` gives them.
    pub fn of(
        alloc: Global,
        profile: Profile,
        place: Place,
        name: CommandName,
        arguments: &'w [LineWord<'_>],
    ) -> Result<NamedCommand<'w>, ReadError>
        ensures exact { Gives result (of_command name (in_place profile place name arguments.now)) }
        ensures memory { result ≡ Err ReadError.NoMemory → takes_memory (topic_of name) ≡ true }
    {
        match in_place(alloc, profile, place, name, arguments) {
            Ok(command) => Ok(NamedCommand { name, command }),
            Err(stop) => Err(refused(name, stop)),
        }
    }
}

/// Why the words give no command of this name.
fn refused(name: CommandName, stop: Stop) -> ReadError
    ensures { result ≡ error_of name stop }
{
    match stop {
        Stop::Refused(refusal) => ReadError::Refused(Refusal::OfCommand(name, refusal)),
        Stop::NoMemory => ReadError::NoMemory,
    }
}

/// The refusal of an unknown command, with a copy of the word.
fn unknown(alloc: Global, word: &[u8]) -> ReadError
    ensures { TellsUnknown word.now result }
{
    match Word::from_bytes(alloc, word) {
        Ok(word) => ReadError::Refused(Refusal::UnknownCommand(word)),
        Err(_) => ReadError::NoMemory,
    }
}

/// The command of this name in this place, with these arguments.
#[tactic(auto, unfolding(crate::specs::Reading::in_place))]
fn in_place<'w>(
    alloc: Global,
    profile: Profile,
    place: Place,
    name: CommandName,
    words: &'w [LineWord<'_>],
) -> Result<Command<'w>, Stop>
    ensures exact { Reads result (in_place profile place name words.now) }
    ensures memory { result ≡ Err stops.NoMemory → takes_memory (topic_of name) ≡ true }
{
    allowed(place, name)?;
    with(alloc, profile, topic_of(name), words)
}

/// Whether the command may stand here.
fn allowed(place: Place, name: CommandName) -> Result<(), CommandRefusal>
    ensures { result ≡ is_allowed place name }
{
    match place {
        Place::Alone => match name {
            CommandName::CommandListEnd => Err(CommandRefusal::NotInList),
            _ => Ok(()),
        },
        Place::InList => {
            if name.stands_in_lists() {
                Ok(())
            } else {
                Err(CommandRefusal::NotAllowedInList)
            }
        }
    }
}

/// The command of a topic with these arguments.
#[tactic(auto, unfolding(crate::specs::Reading::command_with))]
fn with<'w>(
    alloc: Global,
    profile: Profile,
    topic: Topic,
    words: &'w [LineWord<'_>],
) -> Result<Command<'w>, Stop>
    ensures exact { Reads result (command_with profile topic words.now) }
    ensures memory { result ≡ Err stops.NoMemory → takes_memory topic ≡ true }
{
    match topic {
        Topic::Settings(name) => Ok(Command::Settings(settings::read(name, words)?)),
        Topic::Database(name) => {
            Ok(Command::Database(database::read(alloc, profile, name, words)?))
        },
        Topic::Queue(name) => Ok(Command::Queue(queue::read(alloc, profile, name, words)?)),
        Topic::Finding(name) => Ok(Command::Finding(finding::read(alloc, profile, name, words)?)),
        Topic::Lists(name) => Ok(Command::Lists(lists::read(profile, name, words)?)),
        Topic::Stickers(name) => Ok(Command::Stickers(sticker::read(name, words)?)),
        Topic::Messages(name) => Ok(Command::Messages(messages::read(name, words)?)),
        Topic::Playing(name) => Ok(Command::Playing(playing::read(name, words)?)),
        Topic::Session(name) => Ok(Command::Session(session::read(name, words)?)),
        Topic::Setup(name) => Ok(Command::Setup(setup::read(name, words)?)),
        Topic::Pictures(name) => Ok(Command::Pictures(pictures::read(name, words)?)),
    }
}
