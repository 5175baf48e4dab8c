// Changes of stickers.
use crate::op::text::Text;
use song_db::Uri;
use stickers::StickerValue;

/// A change of the stickers.
#[derive(Debug, Drop)]
pub enum StickerOp {
    /// A song's sticker gets a value; the song has a row.
    Set {
        uri: Uri,
        name: Text,
        value: StickerValue,
    },
    Delete {
        uri: Uri,
        name: Text,
    },
    /// All stickers of a song are taken out.
    DeleteAll {
        uri: Uri,
    },
}
