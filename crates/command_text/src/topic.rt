// The topics of commands, and the names of each.

/// The topic of a command, and which of its commands it is.
#[derive(Clone, Copy)]
pub(crate) enum Topic {
    Settings(SettingsName),
    Database(DatabaseName),
    Queue(QueueName),
    Finding(FindingName),
    Lists(ListsName),
    Playing(PlayingName),
    Session(SessionName),
    Setup(SetupName),
    Pictures(PicturesName),
    Stickers(StickersName),
    Messages(MessagesName),
}

#[derive(Clone, Copy)]
pub(crate) enum SettingsName {
    ChangeVolume,
    Close,
    Consume,
    GetVolume,
    Kill,
    Ping,
    Random,
    Repeat,
    SetVolume,
    Single,
    Status,
}

#[derive(Clone, Copy)]
pub(crate) enum DatabaseName {
    Commands,
    ListAll,
    ListAllInfo,
    ListFiles,
    ListInfo,
    NotCommands,
    Rescan,
    Stats,
    TagTypes,
    Update,
}

#[derive(Clone, Copy)]
pub(crate) enum QueueName {
    Add,
    AddId,
    Clear,
    Delete,
    DeleteId,
    Move,
    MoveId,
    QueueFiles,
    QueueId,
    QueueInfo,
    QueueChanges,
    QueueChangesPositions,
    Priority,
    PriorityId,
    Shuffle,
    Swap,
    SwapId,
}

#[derive(Clone, Copy)]
pub(crate) enum FindingName {
    Count,
    Find,
    FindAdd,
    ListTag,
    QueueFind,
    QueueSearch,
    Search,
    SearchAdd,
    SearchAddPlaylist,
}

#[derive(Clone, Copy)]
pub(crate) enum ListsName {
    ListPlaylist,
    ListPlaylistInfo,
    ListPlaylists,
    Load,
    PlaylistAdd,
    PlaylistClear,
    PlaylistDelete,
    PlaylistMove,
    Rename,
    Remove,
    Save,
}

#[derive(Clone, Copy)]
pub(crate) enum StickersName {
    Sticker,
}

#[derive(Clone, Copy)]
pub(crate) enum PlayingName {
    ClearError,
    CurrentSong,
    Next,
    Pause,
    Play,
    PlayId,
    Previous,
    Seek,
    SeekCurrent,
    SeekId,
    Stop,
}

#[derive(Clone, Copy)]
pub(crate) enum SessionName {
    CommandListBegin,
    CommandListEnd,
    CommandListOkBegin,
    Idle,
    NoIdle,
}

#[derive(Clone, Copy)]
pub(crate) enum PicturesName {
    AlbumArt,
    ReadPicture,
}

#[derive(Clone, Copy)]
pub(crate) enum SetupName {
    BinaryLimit,
    Crossfade,
    Decoders,
    DisableOutput,
    EnableOutput,
    ListMounts,
    ListNeighbors,
    ListPartitions,
    MixrampDb,
    MixrampDelay,
    Outputs,
    SetOutput,
    Partition,
    Password,
    ReadComments,
    ReplayGainMode,
    ReplayGainStatus,
    ToggleOutput,
    UrlHandlers,
}

#[derive(Clone, Copy)]
pub(crate) enum MessagesName {
    Channels,
    ReadMessages,
    SendMessage,
    Subscribe,
    Unsubscribe,
}
