// The table of the commands.
ghost use Rattle.std.specs.Prelude.{◌≡◌, ◌<◌, ℕ, List, length, get_or, map};
ghost use Rattle.command_text.specs.Names.{all_names, least_of, name_text, topic_of};
ghost use Rattle.command_text.specs.declared.name.CommandName.{CommandName};
ghost use Rattle.profile.specs.declared.profile.Profile.{Profile};
ghost use Rattle.command_text.specs.declared.topic.Topic.{Topic};

use crate::name::CommandName;
use crate::topic::Topic::{
    self, Database, Finding, Lists, Messages, Pictures, Playing, Queue, Session, Settings, Setup,
    Stickers,
};
use crate::topic::{
    DatabaseName, FindingName, ListsName, MessagesName, PicturesName, PlayingName, QueueName,
    SessionName, SettingsName, SetupName, StickersName,
};
use profile::Profile::{self, Named, Wide};

/// The row of a command: its name, the word that asks for it, its topic, and the least profile that knows it.
pub(crate) type Row = (CommandName, &'static str, Topic, Profile);

/// The rows of all commands, in the order of the names.
const ROWS: &[Row] = &[
    (CommandName::Add, "add", Queue(QueueName::Add), Named),
    (CommandName::AddId, "addid", Queue(QueueName::AddId), Named),
    (
        CommandName::AlbumArt,
        "albumart",
        Pictures(PicturesName::AlbumArt),
        Wide,
    ),
    (
        CommandName::BinaryLimit,
        "binarylimit",
        Setup(SetupName::BinaryLimit),
        Wide,
    ),
    (
        CommandName::Channels,
        "channels",
        Messages(MessagesName::Channels),
        Wide,
    ),
    (CommandName::Clear, "clear", Queue(QueueName::Clear), Named),
    (
        CommandName::ClearError,
        "clearerror",
        Playing(PlayingName::ClearError),
        Named,
    ),
    (
        CommandName::Close,
        "close",
        Settings(SettingsName::Close),
        Named,
    ),
    (
        CommandName::CommandListBegin,
        "command_list_begin",
        Session(SessionName::CommandListBegin),
        Named,
    ),
    (
        CommandName::CommandListEnd,
        "command_list_end",
        Session(SessionName::CommandListEnd),
        Named,
    ),
    (
        CommandName::CommandListOkBegin,
        "command_list_ok_begin",
        Session(SessionName::CommandListOkBegin),
        Named,
    ),
    (
        CommandName::Commands,
        "commands",
        Database(DatabaseName::Commands),
        Named,
    ),
    (
        CommandName::Consume,
        "consume",
        Settings(SettingsName::Consume),
        Named,
    ),
    (
        CommandName::Count,
        "count",
        Finding(FindingName::Count),
        Named,
    ),
    (
        CommandName::Crossfade,
        "crossfade",
        Setup(SetupName::Crossfade),
        Wide,
    ),
    (
        CommandName::CurrentSong,
        "currentsong",
        Playing(PlayingName::CurrentSong),
        Named,
    ),
    (
        CommandName::Decoders,
        "decoders",
        Setup(SetupName::Decoders),
        Wide,
    ),
    (
        CommandName::Delete,
        "delete",
        Queue(QueueName::Delete),
        Named,
    ),
    (
        CommandName::DeleteId,
        "deleteid",
        Queue(QueueName::DeleteId),
        Named,
    ),
    (
        CommandName::DisableOutput,
        "disableoutput",
        Setup(SetupName::DisableOutput),
        Wide,
    ),
    (
        CommandName::EnableOutput,
        "enableoutput",
        Setup(SetupName::EnableOutput),
        Wide,
    ),
    (CommandName::Find, "find", Finding(FindingName::Find), Named),
    (
        CommandName::FindAdd,
        "findadd",
        Finding(FindingName::FindAdd),
        Named,
    ),
    (
        CommandName::GetVolume,
        "getvol",
        Settings(SettingsName::GetVolume),
        Wide,
    ),
    (CommandName::Idle, "idle", Session(SessionName::Idle), Named),
    (
        CommandName::Kill,
        "kill",
        Settings(SettingsName::Kill),
        Named,
    ),
    (
        CommandName::ListTag,
        "list",
        Finding(FindingName::ListTag),
        Named,
    ),
    (
        CommandName::ListAll,
        "listall",
        Database(DatabaseName::ListAll),
        Named,
    ),
    (
        CommandName::ListAllInfo,
        "listallinfo",
        Database(DatabaseName::ListAllInfo),
        Named,
    ),
    (
        CommandName::ListFiles,
        "listfiles",
        Database(DatabaseName::ListFiles),
        Wide,
    ),
    (
        CommandName::ListMounts,
        "listmounts",
        Setup(SetupName::ListMounts),
        Wide,
    ),
    (
        CommandName::ListNeighbors,
        "listneighbors",
        Setup(SetupName::ListNeighbors),
        Wide,
    ),
    (
        CommandName::ListPartitions,
        "listpartitions",
        Setup(SetupName::ListPartitions),
        Wide,
    ),
    (
        CommandName::ListPlaylist,
        "listplaylist",
        Lists(ListsName::ListPlaylist),
        Named,
    ),
    (
        CommandName::ListPlaylistInfo,
        "listplaylistinfo",
        Lists(ListsName::ListPlaylistInfo),
        Named,
    ),
    (
        CommandName::ListPlaylists,
        "listplaylists",
        Lists(ListsName::ListPlaylists),
        Named,
    ),
    (CommandName::Load, "load", Lists(ListsName::Load), Named),
    (
        CommandName::ListInfo,
        "lsinfo",
        Database(DatabaseName::ListInfo),
        Named,
    ),
    (
        CommandName::MixrampDb,
        "mixrampdb",
        Setup(SetupName::MixrampDb),
        Wide,
    ),
    (
        CommandName::MixrampDelay,
        "mixrampdelay",
        Setup(SetupName::MixrampDelay),
        Wide,
    ),
    (CommandName::Move, "move", Queue(QueueName::Move), Named),
    (
        CommandName::MoveId,
        "moveid",
        Queue(QueueName::MoveId),
        Named,
    ),
    (CommandName::Next, "next", Playing(PlayingName::Next), Named),
    (
        CommandName::NoIdle,
        "noidle",
        Session(SessionName::NoIdle),
        Named,
    ),
    (
        CommandName::NotCommands,
        "notcommands",
        Database(DatabaseName::NotCommands),
        Named,
    ),
    (
        CommandName::Outputs,
        "outputs",
        Setup(SetupName::Outputs),
        Wide,
    ),
    (
        CommandName::SetOutput,
        "outputset",
        Setup(SetupName::SetOutput),
        Wide,
    ),
    (
        CommandName::Partition,
        "partition",
        Setup(SetupName::Partition),
        Wide,
    ),
    (
        CommandName::Password,
        "password",
        Setup(SetupName::Password),
        Wide,
    ),
    (
        CommandName::Pause,
        "pause",
        Playing(PlayingName::Pause),
        Named,
    ),
    (
        CommandName::Ping,
        "ping",
        Settings(SettingsName::Ping),
        Named,
    ),
    (CommandName::Play, "play", Playing(PlayingName::Play), Named),
    (
        CommandName::PlayId,
        "playid",
        Playing(PlayingName::PlayId),
        Named,
    ),
    (
        CommandName::QueueFiles,
        "playlist",
        Queue(QueueName::QueueFiles),
        Wide,
    ),
    (
        CommandName::PlaylistAdd,
        "playlistadd",
        Lists(ListsName::PlaylistAdd),
        Named,
    ),
    (
        CommandName::PlaylistClear,
        "playlistclear",
        Lists(ListsName::PlaylistClear),
        Named,
    ),
    (
        CommandName::PlaylistDelete,
        "playlistdelete",
        Lists(ListsName::PlaylistDelete),
        Named,
    ),
    (
        CommandName::QueueFind,
        "playlistfind",
        Finding(FindingName::QueueFind),
        Named,
    ),
    (
        CommandName::QueueId,
        "playlistid",
        Queue(QueueName::QueueId),
        Named,
    ),
    (
        CommandName::QueueInfo,
        "playlistinfo",
        Queue(QueueName::QueueInfo),
        Named,
    ),
    (
        CommandName::PlaylistMove,
        "playlistmove",
        Lists(ListsName::PlaylistMove),
        Named,
    ),
    (
        CommandName::QueueSearch,
        "playlistsearch",
        Finding(FindingName::QueueSearch),
        Named,
    ),
    (
        CommandName::QueueChanges,
        "plchanges",
        Queue(QueueName::QueueChanges),
        Named,
    ),
    (
        CommandName::QueueChangesPositions,
        "plchangesposid",
        Queue(QueueName::QueueChangesPositions),
        Named,
    ),
    (
        CommandName::Previous,
        "previous",
        Playing(PlayingName::Previous),
        Named,
    ),
    (
        CommandName::Priority,
        "prio",
        Queue(QueueName::Priority),
        Named,
    ),
    (
        CommandName::PriorityId,
        "prioid",
        Queue(QueueName::PriorityId),
        Named,
    ),
    (
        CommandName::Random,
        "random",
        Settings(SettingsName::Random),
        Named,
    ),
    (
        CommandName::ReadComments,
        "readcomments",
        Setup(SetupName::ReadComments),
        Wide,
    ),
    (
        CommandName::ReadMessages,
        "readmessages",
        Messages(MessagesName::ReadMessages),
        Wide,
    ),
    (
        CommandName::ReadPicture,
        "readpicture",
        Pictures(PicturesName::ReadPicture),
        Wide,
    ),
    (
        CommandName::Rename,
        "rename",
        Lists(ListsName::Rename),
        Named,
    ),
    (
        CommandName::Repeat,
        "repeat",
        Settings(SettingsName::Repeat),
        Named,
    ),
    (
        CommandName::ReplayGainMode,
        "replay_gain_mode",
        Setup(SetupName::ReplayGainMode),
        Wide,
    ),
    (
        CommandName::ReplayGainStatus,
        "replay_gain_status",
        Setup(SetupName::ReplayGainStatus),
        Wide,
    ),
    (
        CommandName::Rescan,
        "rescan",
        Database(DatabaseName::Rescan),
        Named,
    ),
    (CommandName::Remove, "rm", Lists(ListsName::Remove), Named),
    (CommandName::Save, "save", Lists(ListsName::Save), Named),
    (
        CommandName::Search,
        "search",
        Finding(FindingName::Search),
        Named,
    ),
    (
        CommandName::SearchAdd,
        "searchadd",
        Finding(FindingName::SearchAdd),
        Named,
    ),
    (
        CommandName::SearchAddPlaylist,
        "searchaddpl",
        Finding(FindingName::SearchAddPlaylist),
        Named,
    ),
    (CommandName::Seek, "seek", Playing(PlayingName::Seek), Named),
    (
        CommandName::SeekCurrent,
        "seekcur",
        Playing(PlayingName::SeekCurrent),
        Named,
    ),
    (
        CommandName::SeekId,
        "seekid",
        Playing(PlayingName::SeekId),
        Named,
    ),
    (
        CommandName::SendMessage,
        "sendmessage",
        Messages(MessagesName::SendMessage),
        Wide,
    ),
    (
        CommandName::SetVolume,
        "setvol",
        Settings(SettingsName::SetVolume),
        Named,
    ),
    (
        CommandName::Shuffle,
        "shuffle",
        Queue(QueueName::Shuffle),
        Named,
    ),
    (
        CommandName::Single,
        "single",
        Settings(SettingsName::Single),
        Named,
    ),
    (
        CommandName::Stats,
        "stats",
        Database(DatabaseName::Stats),
        Named,
    ),
    (
        CommandName::Status,
        "status",
        Settings(SettingsName::Status),
        Named,
    ),
    (
        CommandName::Sticker,
        "sticker",
        Stickers(StickersName::Sticker),
        Named,
    ),
    (CommandName::Stop, "stop", Playing(PlayingName::Stop), Named),
    (
        CommandName::Subscribe,
        "subscribe",
        Messages(MessagesName::Subscribe),
        Wide,
    ),
    (CommandName::Swap, "swap", Queue(QueueName::Swap), Named),
    (
        CommandName::SwapId,
        "swapid",
        Queue(QueueName::SwapId),
        Named,
    ),
    (
        CommandName::TagTypes,
        "tagtypes",
        Database(DatabaseName::TagTypes),
        Named,
    ),
    (
        CommandName::ToggleOutput,
        "toggleoutput",
        Setup(SetupName::ToggleOutput),
        Wide,
    ),
    (
        CommandName::Unsubscribe,
        "unsubscribe",
        Messages(MessagesName::Unsubscribe),
        Wide,
    ),
    (
        CommandName::Update,
        "update",
        Database(DatabaseName::Update),
        Named,
    ),
    (
        CommandName::UrlHandlers,
        "urlhandlers",
        Setup(SetupName::UrlHandlers),
        Wide,
    ),
    (
        CommandName::ChangeVolume,
        "volume",
        Settings(SettingsName::ChangeVolume),
        Wide,
    ),
];

/// The rows of all commands. Their words rise by bytes.
pub(crate) fn rows() -> &'static [Row]
    ensures names { map {B = CommandName} (λ row. row.0) result.now ≡ all_names }
    ensures words { map {B = List ℕ} (λ row. row.1.now) result.now ≡ map name_text all_names }
    ensures topics { map {B = Topic} (λ row. row.2) result.now ≡ map topic_of all_names }
    ensures least { map {B = Profile} (λ row. row.3) result.now ≡ map least_of all_names }
{
    ROWS
}

/// How many commands there are.
pub(crate) fn count() -> usize
    ensures { result ≡ length all_names }
{
    rows().len()
}

/// The name at a place of the table.
pub(crate) fn name_at(place: usize) -> CommandName
    requires { place < length all_names }
    ensures { (d : CommandName) → result ≡ get_or all_names place d }
{
    rows()[place].0
}

/// The row of a command.
fn row_of(name: CommandName) -> &'static Row
    ensures word { result.now.1.now ≡ name_text name }
    ensures topic { result.now.2 ≡ topic_of name }
    ensures least { result.now.3 ≡ least_of name }
{
    &rows()[name as usize]
}

/// The word that asks for a command.
pub(crate) fn word_of(name: CommandName) -> &'static str
    ensures { result.now ≡ name_text name }
{
    row_of(name).1
}

/// The topic that a command belongs to.
pub(crate) fn topic_of(name: CommandName) -> Topic
    ensures { result ≡ topic_of name }
{
    row_of(name).2
}

/// The least profile that knows a command.
pub(crate) fn least_of(name: CommandName) -> Profile
    ensures { result ≡ least_of name }
{
    row_of(name).3
}
