// The bytes of a piece, from an open file.
ghost use Rattle.std.specs.Prelude.{◌≡◌, ◌+◌, ◌*◌, ◌%◌, ◌<◌, ◌≤◌, ◌^◌, ◌++◌, ℕ, length, map, replicate, slice_range, Ok, None, Some};
ghost use Rattle.std.specs.Prelude.{IfOk, IfSome, OnOk, OnErr};
ghost use Rattle.wave_pcm.specs.Pcm.{HasFrames, at_volume, frame_len, range_from, samples_in};
ghost use Rattle.song_files.specs.Source.{Grows, Keeps};
ghost use Rattle.song_output.specs.Sound.{bytes_of, head_in, sound_from};

use crate::head::wave_head;
use crate::output::Form;
use crate::piece::MAX_FRAMES;
use crate::scaling::scale_bytes;
use no_memory::NoMemory;
use player_core::{PlayOrder, Volume};
use song_files::{Source, read_exact};
use std::alloc::{AllocError, Global};
use wave_pcm::{WaveError, WaveInfo, frame_range};

/// The place of the samples of a piece, and how many bytes they take, if the frames that the head tells of stand before `end`.
fn piece_range(info: &WaveInfo, from: u64, end: u64) -> Option<(u64, u64)>
    ensures place { info.now.first_byte + frame_len info.now * info.now.frames ≤ end →
        result ≡ Some (range_from info.now from 4096) }
    ensures within { IfSome result (λ range. range.0 + range.1 ≤ end) }
    ensures short { IfSome result (λ range. range.1 < 2 ^ 30) }
    ensures whole { IfSome result (λ range. range.1 % 2 ≡ 0) }
{
    // So that a piece is short.
    prove!(info.channels <= u16::MAX);
    frame_range(info, from, MAX_FRAMES, end)
}

/// What stands in front of so many bytes of samples, and as many zeros behind it.
fn blank_piece(alloc: Global, info: &WaveInfo, form: Form, len: u64) -> Result<Vec<u8>, AllocError>
    requires { len < 2 ^ 30 }
    ensures { IfOk result (λ bytes. bytes.items ≡ head_in form info.now len ++ replicate len 0) }
{
    let mut bytes = if form == Form::Wave && len > 0 {
        wave_head(alloc, info, len)?
    } else {
        Vec::new(alloc)
    };
    let whole = bytes.len() + len as usize;
    bytes.resize(whole, 0)?;
    Ok(bytes)
}

/// Fills the buffer with the samples from the byte `at` on, at a volume.
fn read_scaled<S: Source>(
    source: &mut S,
    at: u64,
    buffer: &mut [u8],
    volume: Volume,
) -> Result<(), WaveError>
    requires fits { at + length buffer.old < 2 ^ 64 }
    requires whole { length buffer.old % 2 ≡ 0 }
    ensures sound { S.honest source.old → OnOk result (buffer.new ≡ bytes_of (map (at_volume volume)
        (samples_in (slice_range (S.bytes source.old) at (at + length buffer.old))))) }
    ensures fault { S.honest source.old → at + length buffer.old ≤ length (S.bytes source.old) →
        OnErr result (Grows (S.faults source.old) (S.faults source.new)) }
    ensures kept { S.honest source.old → Keeps S.bytes S.honest S.faults S.steady source.old source.new }
{
    read_exact(source, at, buffer)?;
    scale_bytes(buffer, volume.percent());
    Ok(())
}

/// What an order asks for of a file, in a form; `None` where the source failed.
pub(crate) fn read_sound<S: Source>(
    alloc: Global,
    source: &mut S,
    info: &WaveInfo,
    form: Form,
    order: &PlayOrder,
) -> Result<Option<Vec<u8>>, NoMemory>
    ensures sound { S.honest source.old → HasFrames info.now (S.bytes source.old) → IfOk result (λ sound. IfSome sound (λ bytes.
        bytes.items ≡ sound_from form (S.bytes source.old) info.now order.now.first_frame order.now.volume)) }
    ensures none { S.honest source.old → HasFrames info.now (S.bytes source.old) → S.steady source.old → result ≡ Ok None → ⊥ }
    ensures kept { S.honest source.old → Keeps S.bytes S.honest S.faults S.steady source.old source.new }
{
    let Some((first, len)) = piece_range(info, order.first_frame, source.len()) else {
        return Ok(None);
    };
    let mut bytes = blank_piece(alloc, info, form, len)?;
    let start = bytes.len() - len as usize;
    match read_scaled(source, first, &mut bytes[start..], order.volume) {
        Ok(()) => Ok(Some(bytes)),
        Err(_) => Ok(None),
    }
}
