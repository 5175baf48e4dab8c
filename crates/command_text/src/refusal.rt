// Why a line isn't a command, or a command isn't performed, with the protocol's codes.
ghost use Rattle.std.specs.Prelude.{◌≡◌};
ghost use Rattle.command_text.specs.Refusals.{code_number, code_of, command_code_of, command_number_of, name_of_refusal, number_of_error};
ghost use Rattle.command_text.specs.Refusals.{number_of_refusal, setup_code_of, setup_text_of, tags_text_of, messages_code_of};
ghost use Rattle.command_text.specs.Refusals.{messages_text_of};

use crate::name::CommandName;
use crate::words::Word;
use thiserror::Error;

/// The error codes of `ACK` lines, as the MPD protocol reference 0.23 numbers them ("Failure responses").
#[derive(Clone, Copy, Debug, PartialEq, Eq)]
pub enum AckCode {
    NotList = 1,
    Argument = 2,
    Password = 3,
    Unknown = 5,
    NoExist = 50,
    PlaylistMax = 51,
    System = 52,
    UpdateAlready = 54,
    PlayerSync = 55,
    Exist = 56,
}

impl AckCode {
    /// The number that the line shows.
    pub fn number(self) -> u8
        ensures { result ≡ code_number self }
    {
        self as u8
    }
}

/// Why a command of what the daemon is set up with, or of pictures, was refused.
#[derive(Clone, Copy, Debug, PartialEq, Eq)]
pub enum SetupRefusal {
    /// The only output can't be switched off.
    AlwaysOn,
    /// An offset past the end of the picture that a song's file has inside.
    BadOffset,
    IncorrectPassword,
    NoCrossfade,
    NoMixramp,
    NoNeighbors,
    NoPicture,
    NoSuchOutput,
    NoSuchPartition,
    /// An offset past the end of the picture of a folder.
    OffsetTooLarge,
    /// A command list may ask for one picture.
    OnePicture,
    /// A picture is there that could not be read.
    PictureUnread,
    UnrecognizedGain,
    UnsupportedAttribute,
}

impl SetupRefusal {
    pub fn code(self) -> AckCode
        ensures { result ≡ setup_code_of self }
    {
        match self {
            SetupRefusal::IncorrectPassword => AckCode::Password,
            SetupRefusal::NoNeighbors | SetupRefusal::PictureUnread => AckCode::Unknown,
            SetupRefusal::NoPicture | SetupRefusal::NoSuchOutput | SetupRefusal::NoSuchPartition =>
                AckCode::NoExist,
            SetupRefusal::AlwaysOn
            | SetupRefusal::BadOffset
            | SetupRefusal::NoCrossfade
            | SetupRefusal::NoMixramp
            | SetupRefusal::OffsetTooLarge
            | SetupRefusal::OnePicture
            | SetupRefusal::UnrecognizedGain
            | SetupRefusal::UnsupportedAttribute => AckCode::Argument,
        }
    }

    /// What an `ACK` line says of it.
    pub(crate) fn text(self) -> &'static str
        ensures { result.now ≡ setup_text_of self }
    {
        match self {
            SetupRefusal::AlwaysOn => "the only output is always on",
            SetupRefusal::BadOffset => "Bad file offset",
            SetupRefusal::IncorrectPassword => "incorrect password",
            SetupRefusal::NoCrossfade => "no crossfade here",
            SetupRefusal::NoMixramp => "no mixramp here",
            SetupRefusal::NoNeighbors => "No neighbor plugin configured",
            SetupRefusal::NoPicture => "No file exists",
            SetupRefusal::NoSuchOutput => "No such audio output",
            SetupRefusal::NoSuchPartition => "partition does not exist",
            SetupRefusal::OffsetTooLarge => "Offset too large",
            SetupRefusal::OnePicture => "one picture a command list",
            SetupRefusal::PictureUnread => "the picture could not be read",
            SetupRefusal::UnrecognizedGain => "Unrecognized replay gain mode",
            SetupRefusal::UnsupportedAttribute => "Unsupported attribute",
        }
    }
}

/// Why tags that a client named were refused; the code is always `Argument`.
#[derive(Clone, Copy, Debug, PartialEq, Eq)]
pub enum TagsRefusal {
    /// A tag stands twice, as one whose values are listed or within which they are.
    ConflictingGroup,
    MissingArguments,
    TooManyArguments,
    UnknownSubCommand,
    UnknownTagType,
}

impl TagsRefusal {
    /// What an `ACK` line says of it.
    pub(crate) fn text(self) -> &'static str
        ensures { result.now ≡ tags_text_of self }
    {
        match self {
            TagsRefusal::ConflictingGroup => "Conflicting group",
            TagsRefusal::MissingArguments => "Not enough arguments",
            TagsRefusal::TooManyArguments => "Too many arguments",
            TagsRefusal::UnknownSubCommand => "Unknown sub command",
            TagsRefusal::UnknownTagType => "Unknown tag type",
        }
    }
}

/// Why a command of messages from client to client was refused.
#[derive(Clone, Copy, Debug, PartialEq, Eq)]
pub enum MessagesRefusal {
    /// No channel can have the name.
    BadChannelName,
    /// The client has as many channels as it may have.
    ChannelsFull,
    AlreadySubscribed,
    NotSubscribed,
    /// No client has the channel, or none that has it has room for the message.
    NobodySubscribed,
}

impl MessagesRefusal {
    pub fn code(self) -> AckCode
        ensures { result ≡ messages_code_of self }
    {
        match self {
            MessagesRefusal::BadChannelName => AckCode::Argument,
            MessagesRefusal::ChannelsFull | MessagesRefusal::AlreadySubscribed => AckCode::Exist,
            MessagesRefusal::NotSubscribed | MessagesRefusal::NobodySubscribed => AckCode::NoExist,
        }
    }

    /// What an `ACK` line says of it.
    pub(crate) fn text(self) -> &'static str
        ensures { result.now ≡ messages_text_of self }
    {
        match self {
            MessagesRefusal::BadChannelName => "invalid channel name",
            MessagesRefusal::ChannelsFull => "subscription list is full",
            MessagesRefusal::AlreadySubscribed => "already subscribed to this channel",
            MessagesRefusal::NotSubscribed => "not subscribed to this channel",
            MessagesRefusal::NobodySubscribed => "nobody is subscribed to this channel",
        }
    }
}

/// Why a known command was refused; each has a code and a text.
#[derive(Debug, Drop)]
pub enum CommandRefusal {
    /// The command can't stand in a command list.
    NotAllowedInList,
    /// The command ends a list, and none was begun.
    NotInList,
    /// Too few or too many arguments.
    WrongCount,
    /// The argument in this place, counted from 1, doesn't have the form that it must have.
    BadArgument(usize),
    /// The words are no filter.
    BadFilter,
    /// No tag has the name that stands in a tag's place.
    UnknownTag(Word),
    /// More parentheses of a filter are open at once than may be.
    FilterTooDeep,
    /// A position is past the end of the queue or of a playlist, or a place lies outside of it.
    BadIndex,
    /// No playlist may have the name.
    BadPlaylistName,
    /// No sticker may have the name.
    BadStickerName,
    /// No song or folder has the URI.
    NoSuchUri,
    /// No entry of the queue has the id.
    NoSuchSong,
    NoSuchPlaylist,
    /// The song has no sticker of the name, or none at all.
    NoSuchSticker,
    /// The player is stopped.
    NotPlaying,
    /// A relative place, and no song is current.
    NoCurrentSong,
    PlaylistExists,
    /// A job already updates the database.
    AlreadyUpdating,
    /// As many jobs wait as may.
    UpdatesFull,
    /// The queue would have more entries than it may.
    QueueFull,
    /// Fewer ids are left than entries would be added.
    IdsSpent,
    /// There would be more playlists, or more entries in all of them, than may be.
    PlaylistsFull,
    /// There would be more stickers than may be.
    StickersFull,
    /// The changes of the request would take more bytes than a record of the journal holds.
    RequestTooLarge,
    /// What is saved would change, and the journal's disk has no room for it.
    DiskFull,
    /// Memory was refused while the command was performed.
    OutOfMemory,
    /// The daemon isn't set up so, or has no such picture.
    Setup(SetupRefusal),
    /// Tags aren't named so.
    Tags(TagsRefusal),
    /// Messages don't go so.
    Messages(MessagesRefusal),
}

impl CommandRefusal {
    pub fn code(&self) -> AckCode
        ensures { result ≡ command_code_of self.now }
    {
        match self {
            CommandRefusal::NotInList => AckCode::NotList,
            CommandRefusal::NotAllowedInList
            | CommandRefusal::WrongCount
            | CommandRefusal::BadArgument(_)
            | CommandRefusal::BadFilter
            | CommandRefusal::UnknownTag(_)
            | CommandRefusal::FilterTooDeep
            | CommandRefusal::BadIndex
            | CommandRefusal::BadPlaylistName
            | CommandRefusal::BadStickerName
            | CommandRefusal::Tags(_) => AckCode::Argument,
            CommandRefusal::NoSuchUri
            | CommandRefusal::NoSuchSong
            | CommandRefusal::NoSuchPlaylist
            | CommandRefusal::NoSuchSticker => AckCode::NoExist,
            CommandRefusal::NotPlaying | CommandRefusal::NoCurrentSong => AckCode::PlayerSync,
            CommandRefusal::PlaylistExists => AckCode::Exist,
            CommandRefusal::AlreadyUpdating | CommandRefusal::UpdatesFull => AckCode::UpdateAlready,
            CommandRefusal::QueueFull | CommandRefusal::IdsSpent | CommandRefusal::PlaylistsFull =>
                AckCode::PlaylistMax,
            CommandRefusal::StickersFull
            | CommandRefusal::RequestTooLarge
            | CommandRefusal::DiskFull
            | CommandRefusal::OutOfMemory => AckCode::System,
            CommandRefusal::Setup(refusal) => refusal.code(),
            CommandRefusal::Messages(refusal) => refusal.code(),
        }
    }

    /// The number of the refusal. None for the two of command lists, for a relative place without a current song, for a job
    /// that runs already, for one too many that would wait, for a request that is too large, for a full disk, for what the daemon
    /// isn't set up with, for pictures, for tags that aren't named so, and for messages.
    pub fn number(&self) -> Option<u8>
        ensures { result ≡ command_number_of self.now }
    {
        match self {
            CommandRefusal::NotAllowedInList
            | CommandRefusal::NotInList
            | CommandRefusal::NoCurrentSong
            | CommandRefusal::AlreadyUpdating
            | CommandRefusal::UpdatesFull
            | CommandRefusal::RequestTooLarge
            | CommandRefusal::DiskFull
            | CommandRefusal::Setup(_)
            | CommandRefusal::Tags(_)
            | CommandRefusal::Messages(_) => None,
            CommandRefusal::OutOfMemory => Some(7),
            CommandRefusal::NoSuchUri => Some(17),
            CommandRefusal::BadFilter => Some(19),
            CommandRefusal::UnknownTag(_) => Some(20),
            CommandRefusal::FilterTooDeep => Some(21),
            CommandRefusal::BadIndex => Some(22),
            CommandRefusal::NoSuchSong => Some(23),
            CommandRefusal::QueueFull => Some(24),
            CommandRefusal::IdsSpent => Some(25),
            CommandRefusal::BadPlaylistName => Some(26),
            CommandRefusal::NoSuchPlaylist => Some(27),
            CommandRefusal::PlaylistExists => Some(28),
            CommandRefusal::PlaylistsFull => Some(29),
            CommandRefusal::NoSuchSticker => Some(30),
            CommandRefusal::BadStickerName => Some(31),
            CommandRefusal::StickersFull => Some(32),
            CommandRefusal::NotPlaying => Some(33),
            CommandRefusal::WrongCount => Some(37),
            CommandRefusal::BadArgument(_) => Some(38),
        }
    }
}

/// Why a line was refused: it is no command, or its command is refused.
#[derive(Debug, Drop)]
pub enum Refusal {
    /// The bytes of the line are not UTF-8.
    InvalidUtf8,
    /// The line doesn't part into words.
    BadQuoting,
    /// The line has no word.
    NoCommand,
    /// No command has this name.
    UnknownCommand(Word),
    /// Memory was refused at a line that is no command.
    OutOfMemory,
    OfCommand(CommandName, CommandRefusal),
}

impl Refusal {
    pub fn code(&self) -> AckCode
        ensures { result ≡ code_of self.now }
    {
        match self {
            Refusal::InvalidUtf8 | Refusal::BadQuoting => AckCode::Argument,
            Refusal::NoCommand | Refusal::UnknownCommand(_) => AckCode::Unknown,
            Refusal::OutOfMemory => AckCode::System,
            Refusal::OfCommand(_, refusal) => refusal.code(),
        }
    }

    /// The command that the `ACK` line names; none where the line is no command.
    pub fn name(&self) -> Option<CommandName>
        ensures { result ≡ name_of_refusal self.now }
    {
        match self {
            Refusal::OfCommand(name, _) => Some(*name),
            _ => None,
        }
    }

    /// The number of the refusal. None for bytes that are not UTF-8, for a line without a word, and where the command's
    /// refusal has none.
    pub fn number(&self) -> Option<u8>
        ensures { result ≡ number_of_refusal self.now }
    {
        match self {
            Refusal::InvalidUtf8 | Refusal::NoCommand => None,
            Refusal::BadQuoting => Some(35),
            Refusal::UnknownCommand(_) => Some(36),
            Refusal::OutOfMemory => Some(7),
            Refusal::OfCommand(_, refusal) => refusal.number(),
        }
    }
}

/// Why a line gave no command.
#[derive(Debug, Drop, Error)]
pub enum ReadError {
    #[error("the line is refused")]
    Refused(Refusal),
    /// A copy of a word found no memory.
    #[error("out of memory")]
    NoMemory,
}

impl ReadError {
    /// The number of the refusal, as `Refusal::number` gives it; 7 where memory was refused.
    pub fn number(&self) -> Option<u8>
        ensures { result ≡ number_of_error self.now }
    {
        match self {
            ReadError::Refused(refusal) => refusal.number(),
            ReadError::NoMemory => Some(7),
        }
    }
}
