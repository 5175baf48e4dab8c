// How a command tells the refusal of a part.
ghost use Rattle.std.specs.Prelude.{◌≡◌};
ghost use Rattle.machine_core.specs.Told.{songs_told, queue_told, lists_told, stickers_told, op_told, failure_of};

use crate::work::Failure;
use command_text::CommandRefusal;
use play_queue::QueueError;
use player_core::PlayerError;
use song_db::SongDbError;
use state_codec::OpRefusal;
use stickers::StickersError;
use stored_lists::ListsError;

fn songs_told(refusal: SongDbError) -> CommandRefusal
    ensures { result ≡ songs_told refusal }
{
    match refusal {
        SongDbError::NoSuchUri => CommandRefusal::NoSuchUri,
        SongDbError::DbFull | SongDbError::NoMemory => CommandRefusal::OutOfMemory,
    }
}

fn queue_told(refusal: QueueError) -> CommandRefusal
    ensures { result ≡ queue_told refusal }
{
    match refusal {
        QueueError::BadIndex => CommandRefusal::BadIndex,
        QueueError::NoSuchSong => CommandRefusal::NoSuchSong,
        QueueError::QueueFull => CommandRefusal::QueueFull,
        QueueError::IdsSpent => CommandRefusal::IdsSpent,
        QueueError::NoCurrentSong => CommandRefusal::NoCurrentSong,
        QueueError::NoMemory => CommandRefusal::OutOfMemory,
    }
}

fn lists_told(refusal: ListsError) -> CommandRefusal
    ensures { result ≡ lists_told refusal }
{
    match refusal {
        ListsError::BadIndex => CommandRefusal::BadIndex,
        ListsError::BadName => CommandRefusal::BadPlaylistName,
        ListsError::NoSuchList => CommandRefusal::NoSuchPlaylist,
        ListsError::ListExists => CommandRefusal::PlaylistExists,
        ListsError::ListsFull => CommandRefusal::PlaylistsFull,
        ListsError::NoMemory => CommandRefusal::OutOfMemory,
    }
}

fn stickers_told(refusal: StickersError) -> CommandRefusal
    ensures { result ≡ stickers_told refusal }
{
    match refusal {
        StickersError::NoSuchSticker => CommandRefusal::NoSuchSticker,
        StickersError::BadStickerName => CommandRefusal::BadStickerName,
        StickersError::StickersFull => CommandRefusal::StickersFull,
        StickersError::NoMemory => CommandRefusal::OutOfMemory,
    }
}

/// The refusal of an op, as the command that asks for the op tells it.
fn op_told(refusal: OpRefusal) -> CommandRefusal
    ensures { result ≡ op_told refusal }
{
    match refusal {
        OpRefusal::Songs(refusal) => songs_told(refusal),
        OpRefusal::Queue(refusal) => queue_told(refusal),
        OpRefusal::Lists(refusal) => lists_told(refusal),
        OpRefusal::Stickers(refusal) => stickers_told(refusal),
    }
}

impl From<OpRefusal> for Failure {
    ghost use Rattle.std.specs.Prelude.{◌≡◌};
    ghost use Rattle.machine_core.specs.Told.{op_told};
    ghost use Rattle.machine_core.specs.declared.work.Failure.TheVariants.{Refused};

    ghost from_gives = { λ refusal e. e ≡ Refused (op_told refusal) };

    fn from(refusal: OpRefusal) -> Failure {
        Failure::Refused(op_told(refusal))
    }
}

/// Why a command did nothing, where the player did nothing.
pub(crate) fn failure_of(error: PlayerError) -> Failure
    ensures { result ≡ failure_of error }
{
    match error {
        PlayerError::BadIndex => Failure::Refused(CommandRefusal::BadIndex),
        PlayerError::NoSuchSong => Failure::Refused(CommandRefusal::NoSuchSong),
        PlayerError::NotPlaying => Failure::Refused(CommandRefusal::NotPlaying),
        PlayerError::NoMemory => Failure::NoMemory,
    }
}
