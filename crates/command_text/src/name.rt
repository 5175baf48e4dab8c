// The names of the commands, and what holds of each.
ghost use Rattle.std.specs.Prelude.{◌≡◌};
ghost use Rattle.command_text.specs.Names.{any_named, holds, is_control, is_known, is_listed, known, name_text, named, stands_in_lists};
ghost use Rattle.command_text.specs.NextWord.{spelled};

use crate::table::{count, least_of, name_at, rows, word_of};
use crate::words::WordText;
use profile::Profile;

/// The name of a command of the MPD protocol reference 0.23, or of a line that begins or ends a command list or an `idle`. The names rise
/// by the bytes of their words.
#[derive(Clone, Copy, Debug, PartialEq, Eq)]
pub enum CommandName {
    Add,
    AddId,
    AlbumArt,
    BinaryLimit,
    Channels,
    Clear,
    ClearError,
    Close,
    CommandListBegin,
    CommandListEnd,
    CommandListOkBegin,
    Commands,
    Consume,
    Count,
    Crossfade,
    CurrentSong,
    Decoders,
    Delete,
    DeleteId,
    DisableOutput,
    EnableOutput,
    Find,
    FindAdd,
    GetVolume,
    Idle,
    Kill,
    ListTag,
    ListAll,
    ListAllInfo,
    ListFiles,
    ListMounts,
    ListNeighbors,
    ListPartitions,
    ListPlaylist,
    ListPlaylistInfo,
    ListPlaylists,
    Load,
    ListInfo,
    MixrampDb,
    MixrampDelay,
    Move,
    MoveId,
    Next,
    NoIdle,
    NotCommands,
    Outputs,
    SetOutput,
    Partition,
    Password,
    Pause,
    Ping,
    Play,
    PlayId,
    QueueFiles,
    PlaylistAdd,
    PlaylistClear,
    PlaylistDelete,
    QueueFind,
    QueueId,
    QueueInfo,
    PlaylistMove,
    QueueSearch,
    QueueChanges,
    QueueChangesPositions,
    Previous,
    Priority,
    PriorityId,
    Random,
    ReadComments,
    ReadMessages,
    ReadPicture,
    Rename,
    Repeat,
    ReplayGainMode,
    ReplayGainStatus,
    Rescan,
    Remove,
    Save,
    Search,
    SearchAdd,
    SearchAddPlaylist,
    Seek,
    SeekCurrent,
    SeekId,
    SendMessage,
    SetVolume,
    Shuffle,
    Single,
    Stats,
    Status,
    Sticker,
    Stop,
    Subscribe,
    Swap,
    SwapId,
    TagTypes,
    ToggleOutput,
    Unsubscribe,
    Update,
    UrlHandlers,
    ChangeVolume,
}

impl CommandName {
    /// The word that asks for the command.
    pub fn text(self) -> &'static str
        ensures { result.now ≡ name_text self }
    {
        word_of(self)
    }

    /// Whether `commands` lists the command: every one that the profile knows, but for the lines of command lists and `noidle`.
    pub(crate) fn is_listed(self, profile: Profile) -> bool
        ensures { result ≡ is_listed profile self }
    {
        self.is_known(profile) && !self.is_control()
    }

    /// Whether the profile knows the command.
    fn is_known(self, profile: Profile) -> bool
        ensures { result ≡ is_known profile self }
    {
        holds(profile, least_of(self))
    }

    /// Whether it is a line that begins or ends a command list, or ends an `idle`.
    fn is_control(self) -> bool
        ensures { result ≡ is_control self }
    {
        matches!(
            self,
            CommandName::CommandListBegin
                | CommandName::CommandListEnd
                | CommandName::CommandListOkBegin
                | CommandName::NoIdle
        )
    }

    /// Whether a command list may hold the command.
    pub fn stands_in_lists(self) -> bool
        ensures { result ≡ stands_in_lists self }
    {
        !matches!(
            self,
            CommandName::Close
                | CommandName::CommandListBegin
                | CommandName::CommandListOkBegin
                | CommandName::Idle
                | CommandName::Kill
                | CommandName::NoIdle
        )
    }

    /// The command that the word asks for, if the profile knows it.
    pub fn named(profile: Profile, word: &[u8]) -> Option<CommandName>
        ensures { result ≡ named profile word.now }
    {
        known(profile, CommandName::any_named(word))
    }

    /// The command that the word asks for, whether a profile knows it or not.
    fn any_named(word: &[u8]) -> Option<CommandName>
        ensures { result ≡ any_named word.now }
    {
        let rows = rows();
        match rows.binary_search_by(|row| row.0.text().as_bytes().cmp(word)) {
            Ok(place) => Some(rows[place].0),
            Err(_) => None,
        }
    }

    /// The command of a word as it stands in a line, if the profile knows it; it takes no memory.
    pub(crate) fn named_by(profile: Profile, word: WordText<'_>) -> Option<CommandName>
        ensures { result ≡ named profile (spelled word.entry) }
    {
        known(profile, CommandName::any_named_by(word))
    }

    /// The same, whether a profile knows it or not.
    fn any_named_by(word: WordText<'_>) -> Option<CommandName>
        ensures { result ≡ any_named (spelled word.entry) }
    {
        match word {
            WordText::Bare(text) => CommandName::any_named(text),
            WordText::Inside(_) => CommandName::named_in_quotes(word),
        }
    }

    /// The same name by name: backslashes may spell the word.
    fn named_in_quotes(word: WordText<'_>) -> Option<CommandName>
        ensures { result ≡ any_named (spelled word.entry) }
    {
        for place in 0..count() {
            let name = name_at(place);
            if word.is(name.text().as_bytes()) {
                return Some(name);
            }
        }
        None
    }
}

/// A command that the profile knows.
fn known(profile: Profile, name: Option<CommandName>) -> Option<CommandName>
    ensures { result ≡ known profile name }
{
    match name {
        Some(name) if name.is_known(profile) => Some(name),
        _ => None,
    }
}

/// Whether a profile knows what this one knows least.
fn holds(profile: Profile, least: Profile) -> bool
    ensures { result ≡ holds profile least }
{
    match (profile, least) {
        (Profile::Named, Profile::Wide) => false,
        _ => true,
    }
}
