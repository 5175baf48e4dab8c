// Ops of the stickers.
ghost use Rattle.std.specs.Prelude.{◌≡◌, IfOk, IsTrue, OnOk};
ghost use Rattle.state_codec.specs.Editing.{IsEdit, StickersEdit};
ghost use Rattle.state_codec.specs.Ops.{IsUri, IsStickerOp};
ghost use Rattle.state_codec.specs.OpsStickers.{sticker_refusal, after_sticker};
ghost use Rattle.state_codec.specs.Stored.{state_of};
ghost use Rattle.state_codec.specs.Text.{is_sticker_text};
ghost use Rattle.state_codec.specs.declared.op.sticker_op.StickerOp.TheVariants.{Set};

use super::SavedParts;
use super::checking::check_row;
use crate::op::{StickerOp, keep_utf8};
use crate::refusal::ApplyError;
use song_db::Uri;
use std::alloc::{AllocError, Global};
use stickers::{StickerValue, StickersError};

impl SavedParts {
    pub(super) fn edit_sticker(&mut self, alloc: Global, op: &StickerOp) -> Result<(), ApplyError>
        ensures edit { IsEdit (sticker_refusal op.now (state_of self.old)) (after_sticker op.now (state_of self.old))
            (state_of self.old) (state_of self.new) result }
        ensures form { OnOk result (IsStickerOp op.now) }
    {
        match op {
            StickerOp::Set { uri, name, value } => {
                self.set_sticker(alloc, uri, name.as_str(), value)
            }
            StickerOp::Delete { uri, name } => {
                told(self.stickers.delete(uri.as_str(), name.as_str()))
            }
            StickerOp::DeleteAll { uri } => told(self.stickers.delete_all(uri.as_str())),
        }
    }

    fn set_sticker(
        &mut self,
        alloc: Global,
        uri: &Uri,
        name: &str,
        value: &StickerValue,
    ) -> Result<(), ApplyError>
        ensures edit { IsEdit (sticker_refusal (Set uri.now name.now value.now) (state_of self.old))
            (after_sticker (Set uri.now name.now value.now) (state_of self.old)) (state_of self.old) (state_of self.new) result }
        ensures uri { IsUri uri.now }
        ensures text { OnOk result (IsTrue (is_sticker_text value.now)) }
    {
        check_row(&self.songs, uri.as_str())?;
        self.stickers.check_set(uri.as_str(), name)?;
        let value = copy_of(alloc, value)?;
        told(self.stickers.set(alloc, uri, name, value))
    }
}

// The same value in memory of its own; it is UTF-8.
fn copy_of(alloc: Global, value: &StickerValue) -> Result<StickerValue, AllocError>
    ensures copy { IfOk result (λ copy. copy ≡ value.now) }
    ensures form { IsTrue (is_sticker_text value.now) }
{
    keep_utf8(value.as_str());
    value.try_clone(alloc)
}

// What an edit of the stickers says of an op.
fn told(answer: Result<(), StickersError>) -> Result<(), ApplyError>
    ensures { StickersEdit answer result }
{
    answer?;
    Ok(())
}
