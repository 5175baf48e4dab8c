// The names that stickers may have.
ghost use Rattle.std.specs.Prelude.{◌≡◌, ◌==◌, IsTrue, OnOk};
ghost use Rattle.std.specs.List.{list_any};
ghost use Rattle.stickers.specs.Name.{is_good_name};
ghost use Rattle.stickers.specs.Refusal.{Answers};
ghost use Rattle.stickers.specs.Sticker.{find_refusal};

use crate::limits::MAX_NAME_BYTES;
use crate::refusal::StickersError;
use song_files::has_control;

/// Whether a sticker may have the name: 1 to 256 bytes of UTF-8, no `=` and no control character (Unicode's category Cc).
pub fn is_good_name(name: &str) -> bool
    ensures { result ≡ is_good_name name.now }
{
    !name.is_empty() && name.len() <= MAX_NAME_BYTES && !has_equals_sign(name) && !has_control(name)
}

// Refused by `BadStickerName` where no sticker may have the name.
pub(crate) fn check_name(name: &str) -> Result<(), StickersError>
    ensures answer { Answers (find_refusal name.now) result }
    ensures good { OnOk result (IsTrue (is_good_name name.now)) }
{
    if !is_good_name(name) {
        return Err(StickersError::BadStickerName);
    }
    Ok(())
}

fn has_equals_sign(text: &str) -> bool
    ensures { result ≡ list_any (λ b. b == 61) text.now }
{
    text.bytes().any(|b| b == b'=')
}
