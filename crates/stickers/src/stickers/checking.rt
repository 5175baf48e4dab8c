// What edits are refused for. No call takes memory.
ghost use Rattle.std.specs.Prelude.{OnOk};
ghost use Rattle.stickers.specs.Fits.{HasRoom};
ghost use Rattle.stickers.specs.Refusal.{Answers};
ghost use Rattle.stickers.specs.Sticker.{get_refusal, set_refusal, delete_all_refusal};

use super::Stickers;
use crate::limits::MAX_STICKERS;
use crate::name::check_name;
use crate::refusal::StickersError;

impl Stickers {
    /// What `set` would be refused for, but for want of memory.
    pub fn check_set(&self, uri: &str, name: &str) -> Result<(), StickersError>
        ensures answer { Answers (set_refusal self.now uri.now name.now) result }
        ensures fits { OnOk result (HasRoom self.now uri.now name.now) }
    {
        check_name(name)?;
        if MAX_STICKERS <= self.count && self.songs.value(uri, name).is_none() {
            return Err(StickersError::StickersFull);
        }
        Ok(())
    }

    /// What `delete` would be refused for.
    pub fn check_delete(&self, uri: &str, name: &str) -> Result<(), StickersError>
        ensures { Answers (get_refusal self.now uri.now name.now) result }
    {
        self.get(uri, name)?;
        Ok(())
    }

    /// What `delete_all` would be refused for.
    pub fn check_delete_all(&self, uri: &str) -> Result<(), StickersError>
        ensures { Answers (delete_all_refusal self.now uri.now) result }
    {
        match self.songs.song(uri) {
            Some(song) if !song.is_empty() => Ok(()),
            _ => Err(StickersError::NoSuchSticker),
        }
    }
}
