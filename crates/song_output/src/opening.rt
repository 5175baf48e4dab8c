// The opening of a song.
ghost use Rattle.std.specs.Prelude.{◌≡◌, Ok, None, IfOk, IfSome};
ghost use Rattle.song_files.specs.Folder.{bytes_at};
ghost use Rattle.song_output.specs.OpenSong.{IsOpen, IsSteady, IsPlayedTo};
ghost use Rattle.song_output.specs.Sound.{HasNoSound};

use crate::open_song::OpenSong;
use no_memory::NoMemory;
use player_core::PlayOrder;
use song_files::{Folder, FolderFault, TagSet};
use std::alloc::Global;
use wave_pcm::{WaveError, read_head};

/// Opens the file of an order and reads its head, without tags; `None` where there is no such file, it can't be read, or its
/// head is refused.
pub(crate) fn open_song<F: Folder>(
    alloc: Global,
    folder: &mut F,
    order: &PlayOrder,
) -> Result<Option<OpenSong<F::File>>, NoMemory>
    ensures opened { F.honest folder.old → IfOk result (IsOpen F.File.bytes F.File.honest (F.files folder.old)) }
    ensures ordered { IfOk result (λ song. IfSome song (IsPlayedTo order.now 0)) }
    ensures none { F.honest folder.old → F.steady folder.old → result ≡ Ok None → HasNoSound (bytes_at (F.files folder.old) order.now.uri) }
    ensures song_steady { F.honest folder.old → F.steady folder.old → IfOk result (IsSteady F.File.steady) }
    ensures steady { F.steady folder.old → F.steady folder.new }
    ensures honest { F.honest folder.old → F.honest folder.new × (F.files folder.new ≡ F.files folder.old) }
{
    let uri = order.uri.try_clone(alloc)?;
    let mut source = match folder.open(alloc, uri.as_str()) {
        Ok(Some(source)) => source,
        Ok(None) | Err(FolderFault::Source) => return Ok(None),
        Err(FolderFault::NoMemory) => return Err(NoMemory),
    };
    match read_head(alloc, &mut source, TagSet::NONE) {
        Ok(info) => Ok(Some(OpenSong {
            ticket: order.ticket,
            uri,
            source,
            info,
            next_frame: order.first_frame,
        })),
        Err(WaveError::NoMemory) => Err(NoMemory),
        Err(_) => Ok(None),
    }
}
