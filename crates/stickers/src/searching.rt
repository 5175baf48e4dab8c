// What a search looks at.
ghost use Rattle.std.specs.Prelude.{◌≡◌, ◌++◌, IfOk, map, option_map, string_bytes};
ghost use Rattle.std.specs.Option.{option_to_list};
ghost use Rattle.song_db.specs.declared.place.Place.TheVariants.{Root};
ghost use Rattle.stickers.specs.ByName.{by_name};
ghost use Rattle.stickers.specs.Find.{found_in};
ghost use Rattle.stickers.specs.Sticker.{flat, in_song};

use crate::find::{Found, FoundSticker, ValueTest};
use crate::song::SongStickers;
use crate::value::StickerValue;
use std::alloc::{AllocError, Global};
use std::collections::btree_map;

// Those of some songs with a sticker of the name whose value passes the test.
pub(crate) fn find_in<'a>(
    alloc: Global,
    songs: btree_map::Range<'a, String, SongStickers>,
    name: &str,
    test: &ValueTest<'_>,
) -> Result<Found<'a>, AllocError>
    ensures { IfOk result (λ found. found ≡ found_in (flat (by_name songs.entry)) Root name.now test.now) }
{
    let mut found = Vec::new(alloc);
    for (uri, song) in songs {
        if let Some(value) = found_in_song(uri.as_str(), song, name, test) {
            found.push(FoundSticker {
                uri: uri.as_str(),
                value: value.as_str(),
            })?;
        }
    }
    Ok(Found { found })
}

// The value of a song's sticker of the name, where there is one and it passes the test.
fn found_in_song<'a>(
    uri: &str,
    song: &'a SongStickers,
    name: &str,
    test: &ValueTest<'_>,
) -> Option<&'a StickerValue>
    ensures { map (λ value. (uri.now, value)) (option_to_list (option_map (λ value. value.now) result))
        ≡ found_in (in_song (uri.now, song.now)) Root name.now test.now }
{
    match song.get(name) {
        Some(value) => {
            if test.passes(value.as_str()) {
                Some(value)
            } else {
                None
            }
        }
        None => None,
    }
}

// Two texts, one behind the other.
pub(crate) fn joined(alloc: Global, text: &str, other: &str) -> Result<String, AllocError>
    ensures { IfOk result (λ joined. string_bytes joined ≡ text.now ++ other.now) }
{
    let mut joined = String::from_str(alloc, text)?;
    joined.push_str(other)?;
    Ok(joined)
}
