// A file as the WAVE file that a decoder tells.
ghost use Rattle.std.specs.Prelude.{◌≡◌, ◌+◌, ◌<◌, ◌≤◌, ◌^◌, ◌-◌, ℕ, List, [], length, min, take, slice_range, None, Some};
ghost use Rattle.std.specs.Prelude.{IfOk, OnOk, OnErr, IsNone, IsSome, IsErr, IsErrOf};
ghost use Rattle.song_files.specs.Source.{Grows, Keeps};
ghost use Rattle.decoded_files.specs.Kept.{KeepsLink};
ghost use Rattle.decoded_files.specs.Pieces.{bytes_from};
ghost use Rattle.decoded_files.specs.Sources.{opened_bytes, IsOpened, IsInStep};

use crate::piece::Piece;
use crate::{Decoder, DecoderError, DecoderLink};
use song_files::{Source, SourceFault};
use std::alloc::Global;

/// A file as the WAVE file that a decoder tells, over a connection of its own. After a fault the connection is closed, and each later
/// read is a fault too: so nothing is taken from answers that are out of step.
#[derive(Drop)]
pub struct DecodedSource<L> {
    link: L,
    len: u64,
    piece: Piece,
    // Why the connection was closed, if it was.
    trouble: Option<DecoderError>,
    // How often a read failed, up to 2^64-1.
    faults: u64,
}

impl<L: DecoderLink> DecodedSource<L> {
    /// Why nothing more is read, if so.
    pub fn trouble(&self) -> Option<DecoderError> {
        self.trouble
    }

    // Reads from the piece that was read last, or from the next one.
    fn read_on(&mut self, at: u64, buffer: &mut [u8]) -> Result<usize, DecoderError>
        ensures count { IfOk result (λ n. n ≤ length buffer.old) }
        ensures some { IfOk result (λ n. 0 < length buffer.old → at < self.old.len → 0 < n) }
        ensures read { L.honest self.old.link → IsOpened (L.told self.old.link) (L.opened self.old.link) self.old.len →
            IsInStep (opened_bytes (L.told self.old.link) (L.opened self.old.link)) (L.coming self.old.link) self.old.piece →
            IfOk result (λ n. take n buffer.new ≡ slice_range (opened_bytes (L.told self.old.link) (L.opened self.old.link)) at (at + n)) }
        ensures in_step { L.honest self.old.link → IsOpened (L.told self.old.link) (L.opened self.old.link) self.old.len →
            IsInStep (opened_bytes (L.told self.old.link) (L.opened self.old.link)) (L.coming self.old.link) self.old.piece →
            OnOk result (IsInStep (opened_bytes (L.told self.old.link) (L.opened self.old.link)) (L.coming self.new.link) self.new.piece) }
        ensures kept { L.honest self.old.link → IsOpened (L.told self.old.link) (L.opened self.old.link) self.old.len →
            KeepsLink L.honest L.told L.opened self.old.link self.new.link }
        ensures len { self.new.len ≡ self.old.len }
        ensures trouble { self.new.trouble ≡ self.old.trouble }
        ensures faults { self.new.faults ≡ self.old.faults }
    {
        let room = self.len.saturating_sub(at);
        if room == 0 || buffer.is_empty() {
            return Ok(0);
        }
        self.refill(at, room)?;
        Ok(copy_front(self.piece.bytes_from(at), buffer))
    }

    // Asks for the next piece, unless the one that was read last has bytes from this place on. So many bytes stand before the end.
    fn refill(&mut self, at: u64, room: u64) -> Result<(), DecoderError>
        requires { 0 < room }
        ensures some { OnOk result (0 < length (bytes_from self.new.piece at)) }
        ensures in_step { L.honest self.old.link → IsOpened (L.told self.old.link) (L.opened self.old.link) self.old.len →
            IsInStep (opened_bytes (L.told self.old.link) (L.opened self.old.link)) (L.coming self.old.link) self.old.piece →
            OnOk result (IsInStep (opened_bytes (L.told self.old.link) (L.opened self.old.link)) (L.coming self.new.link) self.new.piece) }
        ensures kept { L.honest self.old.link → IsOpened (L.told self.old.link) (L.opened self.old.link) self.old.len →
            KeepsLink L.honest L.told L.opened self.old.link self.new.link }
        ensures len { self.new.len ≡ self.old.len }
        ensures trouble { self.new.trouble ≡ self.old.trouble }
        ensures faults { self.new.faults ≡ self.old.faults }
    {
        if !self.piece.bytes_from(at).is_empty() {
            return Ok(());
        }
        let count = room.min(self.piece.count_at(at) as u64) as usize;
        self.piece.fetch(&mut self.link, at, count)
    }

    // Closes the connection, and counts a fault.
    fn fail(&mut self, error: DecoderError) -> SourceFault
        ensures closed { self.new.trouble ≡ Some error }
        ensures counted { Grows self.old.faults self.new.faults }
        ensures later { self.old.faults ≤ self.new.faults }
        ensures kept { L.honest self.old.link → KeepsLink L.honest L.told L.opened self.old.link self.new.link }
        ensures len { self.new.len ≡ self.old.len }
    {
        self.link.close();
        self.trouble = Some(error);
        self.faults = self.faults.saturating_add(1);
        SourceFault
    }

    // A read, of any decoder: one that fails closes the connection, and behind that each fails and asks nothing.
    fn read_or_fail(&mut self, at: u64, buffer: &mut [u8]) -> Result<usize, SourceFault>
        ensures count { IfOk result (λ n. n ≤ length buffer.old) }
        ensures some { IfOk result (λ n. 0 < length buffer.old → at < self.old.len → 0 < n) }
        ensures closes { OnErr result (IsSome self.new.trouble) }
        ensures closed { IsSome self.old.trouble → IsErr result × (self.new.link ≡ self.old.link) }
        ensures counted { OnErr result (Grows self.old.faults self.new.faults) }
        ensures others { (self.new.len ≡ self.old.len) × (self.old.faults ≤ self.new.faults) }
        ensures opened { L.honest self.old.link → IsOpened (L.told self.old.link) (L.opened self.old.link) self.old.len →
            KeepsLink L.honest L.told L.opened self.old.link self.new.link }
        ensures read { L.honest self.old.link → IsOpened (L.told self.old.link) (L.opened self.old.link) self.old.len →
            (IsNone self.old.trouble → IsInStep (opened_bytes (L.told self.old.link) (L.opened self.old.link))
            (L.coming self.old.link) self.old.piece) →
            IfOk result (λ n. take n buffer.new ≡ slice_range (opened_bytes (L.told self.old.link) (L.opened self.old.link)) at (at + n)) }
        ensures in_step { L.honest self.old.link → IsOpened (L.told self.old.link) (L.opened self.old.link) self.old.len →
            (IsNone self.old.trouble → IsInStep (opened_bytes (L.told self.old.link) (L.opened self.old.link))
            (L.coming self.old.link) self.old.piece) →
            (IsNone self.new.trouble → IsInStep (opened_bytes (L.told self.old.link) (L.opened self.old.link))
            (L.coming self.new.link) self.new.piece) }
    {
        if self.trouble.is_some() {
            self.faults = self.faults.saturating_add(1);
            return Err(SourceFault);
        }
        match self.read_on(at, buffer) {
            Ok(count) => Ok(count),
            Err(error) => Err(self.fail(error)),
        }
    }
}

impl<L: DecoderLink> Source for DecodedSource<L> {
    ghost bytes = { λ s. opened_bytes (L.told s.link) (L.opened s.link) };

    ghost honest = { λ s. L.honest s.link × IsOpened (L.told s.link) (L.opened s.link) s.len × (IsNone s.trouble →
        IsInStep (opened_bytes (L.told s.link) (L.opened s.link)) (L.coming s.link) s.piece) };

    ghost faults = { λ s. s.faults };

    ghost steady = { λ _. ⊥ };

    ghost none_failed = { λ source steady. absurd steady };

    fn len(&self) -> u64 {
        self.len
    }

    fn read_at(&mut self, at: u64, buffer: &mut [u8]) -> Result<usize, SourceFault> {
        self.read_or_fail(at, buffer)
    }
}

/// Connects to a decoder and opens the file at a path. Of one that isn't opened the decoder is told why.
pub(crate) fn open<D: Decoder>(
    alloc: Global,
    decoder: &mut D,
    path: &str,
) -> Result<DecodedSource<D::Link>, DecoderError>
    ensures bytes { D.honest decoder.old → IfOk result (λ source. D.told decoder.old path.now
        ≡ Some (⟦<DecodedSource<D::Link> as Source>⟧.bytes source)) }
    ensures honest { D.honest decoder.old → IfOk result (λ source. ⟦<DecodedSource<D::Link> as Source>⟧.honest source) }
    ensures no_song { D.honest decoder.old → IsErrOf result DecoderError.NoSong → D.told decoder.old path.now ≡ None }
    ensures decoder { D.honest decoder.old → D.honest decoder.new × (D.told decoder.new ≡ D.told decoder.old) }
{
    let mut piece = Piece::new(alloc)?;
    let mut link = match decoder.connect() {
        Ok(link) => link,
        Err(_) => {
            decoder.refused(path, DecoderError::Away, "");
            return Err(DecoderError::Away);
        }
    };
    match piece.open(alloc, &mut link, path) {
        Ok(len) => Ok(DecodedSource {
            link,
            len,
            piece,
            trouble: None,
            faults: 0,
        }),
        Err(error) => {
            let words = match error {
                DecoderError::NoSong | DecoderError::Failed => piece.words(),
                _ => "",
            };
            decoder.refused(path, error, words);
            Err(error)
        }
    }
}

// Copies as many bytes as there are and fit, and says how many.
fn copy_front(bytes: &[u8], buffer: &mut [u8]) -> usize
    ensures count { result ≡ min (length bytes.now) (length buffer.old) }
    ensures copied { take result buffer.new ≡ take result bytes.now }
{
    let count = bytes.len().min(buffer.len());
    buffer[..count].copy_from_slice(&bytes[..count]);
    count
}
