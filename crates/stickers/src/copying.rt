// Maps under texts once more, in memory of their own.
ghost use Rattle.std.specs.Prelude.{◌≡◌, IfOk};
ghost use Rattle.stickers.specs.ByName.{by_name};

use crate::song::SongStickers;
use crate::value::StickerValue;
use std::alloc::{AllocError, Global};
use std::collections::BTreeMap;

pub(crate) fn clone_values(
    alloc: Global,
    values: &BTreeMap<String, StickerValue>,
) -> Result<BTreeMap<String, StickerValue>, AllocError>
    ensures { IfOk result (λ copy. by_name copy.entries ≡ by_name values.now.entries) }
{
    let mut copy = BTreeMap::new(alloc);
    for (name, value) in values.iter() {
        let value = value.try_clone(alloc)?;
        copy.insert(String::from_str(alloc, name.as_str())?, value)?;
    }
    Ok(copy)
}

pub(crate) fn clone_songs(
    alloc: Global,
    songs: &BTreeMap<String, SongStickers>,
) -> Result<BTreeMap<String, SongStickers>, AllocError>
    ensures { IfOk result (λ copy. by_name copy.entries ≡ by_name songs.now.entries) }
{
    let mut copy = BTreeMap::new(alloc);
    for (uri, song) in songs.iter() {
        let song = song.try_clone(alloc)?;
        copy.insert(String::from_str(alloc, uri.as_str())?, song)?;
    }
    Ok(copy)
}
