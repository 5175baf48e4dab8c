// Samples of a file, from any place on.
ghost use Rattle.std.specs.Prelude.{◌≡◌, ◌+◌, ◌-◌, ◌*◌, ◌<◌, ◌≤◌, ◌^◌, length, take, drop, min, slice_range, IfOk, IfErr, OnErr, Ok, Err};
ghost use Rattle.std.specs.Prelude.{IsErrOf, IsTrue, ◌↔◌, List, ℕ, ℤ, vec_len};
ghost use Rattle.song_files.specs.Source.{Grows, Keeps};
ghost use Rattle.flac.specs.FlacError.{Fails};

use crate::decoding::{MAX_FRAME_BYTES, decode_at, size_of};
use crate::places::{Held, MAX_PLACES, Place, last_before, later, note};
use crate::side_by_side::copy_flat;
use crate::{FlacError, FlacHead, StreamInfo};
use flac_frames::FrameDecoder;
use song_files::Source;
use std::alloc::{AllocError, Global};

/// Reads the samples of a file. It keeps the frame that was decoded last and the places of up to 1,024 frames.
#[derive(Drop)]
pub struct FlacReader {
    info: StreamInfo,
    start: u64,
    decoder: FrameDecoder,
    buffer: Vec<u8>,
    places: Vec<Place>,
    held: Option<Held>,
    ghost sized: { vec_len buffer ≡ 589824 },
}

impl FlacReader {
    ghost use Rattle.std.specs.Prelude.{◌≡◌, ◌+◌, ◌<◌, ◌≤◌, None, IfOk, IfErr, IfSome, MatchOption, List, ℕ, [], length, drop};
    ghost use Rattle.std.specs.Prelude.{◌⊎◌, ◌==◌, if◌then◌else◌, true, false};
    ghost use Rattle.flac_frames.specs.Decoder.{samples_of};
    ghost use Rattle.flac.specs.Frames.{file_samples, samples_in, side_by_side};
    ghost use Rattle.flac.specs.Reader.{IsReaderOf, IsPlace, AreHeld, IsFound, Holds, SameStream, samples_for, all_samples, channels_of, total_of, IsCount};

    /// Before anything is read of the file with this head.
    pub fn new(alloc: Global, head: &FlacHead) -> Result<FlacReader, FlacError>
        ensures samples { IfOk result (λ reader. (file : List ℕ) → samples_for reader file ≡ file_samples file head.now) }
        ensures stream { IfOk result (λ reader. (channels_of reader ≡ head.now.info.channels) × (total_of reader ≡ head.now.info.samples)) }
        ensures knows { IfOk result (λ reader. (file : List ℕ) → IsReaderOf file reader) }
        ensures only { IfErr result (λ e. e ≡ FlacError.NoMemory) }
    {
        let buffer = vec![in alloc; 0u8; MAX_FRAME_BYTES]?;
        Ok(FlacReader {
            info: head.info,
            start: head.first_frame,
            decoder: FrameDecoder::new(alloc),
            buffer,
            places: Vec::new(alloc),
            held: None,
        })
    }

    /// Whether the frame that is held has this sample.
    fn holds(&self, sample: u64) -> bool
        ensures { IsTrue result ↔ Holds sample self.now.held }
    {
        match self.held {
            Some(held) => held.has(sample),
            None => false,
        }
    }

    /// The known place from which the frame with this sample is reached soonest.
    fn nearest(&self, sample: u64) -> Place
        ensures before { result.sample ≤ sample }
        ensures known { (file : List ℕ) → IsReaderOf file self.now → IsPlace self.now.info self.now.start file result }
    {
        let known = self.known_before(sample);
        match self.held {
            Some(held) => later(held, known, sample),
            None => known,
        }
    }

    /// The last known place before a sample, not counting what is held.
    fn known_before(&self, sample: u64) -> Place
        ensures before { result.sample ≤ sample }
        ensures known { (file : List ℕ) → IsReaderOf file self.now → IsPlace self.now.info self.now.start file result }
    {
        match last_before(self.places.as_slice(), sample) {
            Some(place) => place,
            None => Place {
                sample: 0,
                offset: self.start,
            },
        }
    }

    /// Decodes the frame at a place and holds it, if there is one. An error leaves none held.
    fn hold<S: Source>(
        &mut self,
        source: &mut S,
        at: Place,
        end: u64,
    ) -> Result<Option<Held>, FlacError>
        requires { at.offset ≤ end }
        ensures held { S.honest source.old → end ≡ length (S.bytes source.old) →
            IsPlace self.old.info self.old.start (S.bytes source.old) at →
            IfOk result (λ held. MatchOption held (samples_in self.new.info (drop at.offset (S.bytes source.old)) ≡ [])
            (AreHeld self.new.info self.new.start (S.bytes source.old) (side_by_side (samples_of self.new.decoder)))) }
        ensures knows { S.honest source.old → end ≡ length (S.bytes source.old) →
            IsPlace self.old.info self.old.start (S.bytes source.old) at → IsReaderOf (S.bytes source.old) self.old →
            IsReaderOf (S.bytes source.old) self.new }
        ensures ahead { IfOk result (λ held. IfSome held (λ h. (h.first ≡ at.sample) × (at.offset < h.offset) × (h.offset ≤ end))) }
        ensures stays { IfOk result (λ held. self.new.held ≡ held) }
        ensures same { SameStream self.old self.new }
        ensures fault { S.honest source.old → end ≡ length (S.bytes source.old) →
            IfErr result (Fails (Grows (S.faults source.old) (S.faults source.new))) }
        ensures kept { S.honest source.old → Keeps S.bytes S.honest S.faults S.steady source.old source.new }
    {
        self.held = None;
        let decoded = decode_at(
            source,
            at.offset,
            end,
            &self.info,
            &mut self.buffer,
            &mut self.decoder,
        )?;
        let Some(decoded) = decoded else {
            return Ok(None);
        };
        let held = Held {
            first: at.sample,
            count: decoded.count,
            offset: at.offset + decoded.used,
        };
        self.held = Some(held);
        Ok(Some(held))
    }

    /// Holds the frame that has this sample: `false` where it stands behind the last frame.
    fn find<S: Source>(&mut self, source: &mut S, sample: u64, end: u64) -> Result<bool, FlacError>
        ensures found { S.honest source.old → end ≡ length (S.bytes source.old) → IsReaderOf (S.bytes source.old) self.old →
            IfOk result (λ yes. IsFound self.new (S.bytes source.old) sample yes) }
        ensures knows { S.honest source.old → end ≡ length (S.bytes source.old) → IsReaderOf (S.bytes source.old) self.old →
            IsReaderOf (S.bytes source.old) self.new }
        ensures same { SameStream self.old self.new }
        ensures fault { S.honest source.old → end ≡ length (S.bytes source.old) →
            IfErr result (Fails (Grows (S.faults source.old) (S.faults source.new))) }
        ensures kept { S.honest source.old → Keeps S.bytes S.honest S.faults S.steady source.old source.new }
    {
        if self.holds(sample) {
            return Ok(true);
        }
        let mut at = self.nearest(sample);
        self.held = None;
        'frames: while at.offset < end {
            let Some(held) = self.hold(source, at, end)? else {
                return Ok(false);
            };
            if held.has(sample) {
                return Ok(true);
            }
            at = Place {
                sample: held.first + u64::from(held.count),
                offset: held.offset,
            };
            note(&mut self.places, at, end / MAX_PLACES as u64 + 1);
        }
        Ok(false)
    }

    /// Whether a sample stands behind those that STREAMINFO tells of.
    fn is_past(&self, sample: u64) -> bool
        ensures past { result ≡ true → (0 < self.now.info.samples) × (self.now.info.samples ≤ sample) }
        ensures before { result ≡ false → 0 < self.now.info.samples → sample < self.now.info.samples }
    {
        self.info.samples > 0 && self.info.samples <= sample
    }

    /// How many samples may be read from one on, of so many that are there.
    fn limit(&self, from: u64, left: u64) -> u64
        ensures few { result ≤ left }
        ensures limited { 0 < self.now.info.samples → from + result ≤ from + (self.now.info.samples - from) }
        ensures some { 0 < left → (self.now.info.samples ≡ 0) ⊎ (from < self.now.info.samples) → 0 < result }
    {
        if self.info.samples > 0 {
            left.min(self.info.samples.saturating_sub(from))
        } else {
            left
        }
    }

    /// Copies samples of the frame that is held, from one on, and says how many of each channel.
    fn copy(&self, from: u64, buffer: &mut [i64]) -> usize
        ensures count { self.now.info.channels * result ≤ length buffer.old }
        ensures limited { 0 < self.now.info.samples → from < self.now.info.samples → from + result ≤ self.now.info.samples }
        ensures samples { (file : List ℕ) → IsReaderOf file self.now →
            take (self.now.info.channels * result) buffer.new ≡ slice_range (all_samples self.now.info self.now.start file)
            (self.now.info.channels * from) (self.now.info.channels * (from + result)) }
        ensures some { (file : List ℕ) → IsReaderOf file self.now → Holds from self.now.held → 0 < self.now.info.channels → self.now.info.channels ≤ length buffer.old →
            (self.now.info.samples ≡ 0) ⊎ (from < self.now.info.samples) → 0 < result }
    {
        let Some(held) = self.held else {
            return 0;
        };
        let channels = usize::from(self.info.channels);
        if channels == 0 || !held.has(from) {
            return 0;
        }
        let skip = from - held.first;
        let left = self.limit(from, u64::from(held.count) - skip);
        let count = (left as usize).min(buffer.len() / channels);
        let place = skip as usize * channels;
        if size_of(&self.decoder) < (place + count * channels) as u64 {
            return 0;
        }
        copy_flat(&self.decoder, place, &mut buffer[..count * channels]);
        count
    }

    /// What is answered behind the last frame: no samples, or that a frame is broken where STREAMINFO tells of more.
    fn ended(&self) -> Result<usize, FlacError>
        ensures { result ≡ (if self.now.info.samples == 0 then Ok 0 else Err FlacError.BrokenFrame) }
    {
        if self.info.samples == 0 {
            Ok(0)
        } else {
            Err(FlacError::BrokenFrame)
        }
    }

    /// Reads samples from one on (the first is 0) to the front of the buffer, those of a moment side by side, and says how many of each
    /// channel: at most as many as the rest of a frame has, 0 behind the last one or where the buffer has no room for one.
    ///
    /// `BrokenFrame` where STREAMINFO tells of more samples than the frames have; the samples before can still be read. An error leaves
    /// the source as any read does, and the reader as it can be used again.
    pub fn read<S: Source>(
        &mut self,
        source: &mut S,
        from: u64,
        buffer: &mut [i64],
    ) -> Result<usize, FlacError>
        ensures count { IfOk result (λ n. channels_of self.old * n ≤ length buffer.old) }
        ensures samples { S.honest source.old → IsReaderOf (S.bytes source.old) self.old →
            IfOk result (λ n. take (channels_of self.old * n) buffer.new ≡ slice_range (samples_for self.old (S.bytes source.old))
            (channels_of self.old * from) (channels_of self.old * (from + n))) }
        ensures end { S.honest source.old → IsReaderOf (S.bytes source.old) self.old → 0 < channels_of self.old →
            channels_of self.old ≤ length buffer.old → result ≡ Ok 0 →
            (length (samples_for self.old (S.bytes source.old)) ≤ channels_of self.old * from)
            × (0 < total_of self.old → total_of self.old ≤ from) }
        ensures broken { S.honest source.old → IsReaderOf (S.bytes source.old) self.old → result ≡ Err FlacError.BrokenFrame →
            (length (samples_for self.old (S.bytes source.old)) ≤ channels_of self.old * from) × (from < total_of self.old) }
        ensures knows { S.honest source.old → IsReaderOf (S.bytes source.old) self.old → IsReaderOf (S.bytes source.old) self.new }
        ensures same { SameStream self.old self.new }
        ensures fault { S.honest source.old → IsErrOf result FlacError.ReadFault → Grows (S.faults source.old) (S.faults source.new) }
        ensures kept { S.honest source.old → Keeps S.bytes S.honest S.faults S.steady source.old source.new }
    {
        let end = source.len();
        if self.is_past(from) {
            return Ok(0);
        }
        if !self.find(source, from, end)? {
            return self.ended();
        }
        Ok(self.copy(from, buffer))
    }

    /// The number of all samples of each channel, where STREAMINFO doesn't tell it.
    fn walk<S: Source>(&mut self, source: &mut S, end: u64) -> Result<u64, FlacError>
        ensures walked { S.honest source.old → end ≡ length (S.bytes source.old) → IsReaderOf (S.bytes source.old) self.old →
            IfOk result (λ n. self.new.info.channels * n ≡ length (all_samples self.new.info self.new.start (S.bytes source.old))) }
        ensures knows { S.honest source.old → end ≡ length (S.bytes source.old) → IsReaderOf (S.bytes source.old) self.old →
            IsReaderOf (S.bytes source.old) self.new }
        ensures same { SameStream self.old self.new }
        ensures fault { S.honest source.old → end ≡ length (S.bytes source.old) → result ≡ Err FlacError.ReadFault →
            Grows (S.faults source.old) (S.faults source.new) }
        ensures kept { S.honest source.old → Keeps S.bytes S.honest S.faults S.steady source.old source.new }
    {
        let mut at = self.nearest(u64::MAX);
        self.held = None;
        'frames: while at.offset < end {
            let Some(held) = self.hold(source, at, end)? else {
                return Ok(at.sample);
            };
            let Some(sample) = held.first.checked_add(u64::from(held.count)) else {
                return Err(FlacError::BrokenFrame);
            };
            at = Place {
                sample,
                offset: held.offset,
            };
            note(&mut self.places, at, end / MAX_PLACES as u64 + 1);
        }
        Ok(at.sample)
    }

    /// The number of samples of each channel: STREAMINFO's, or, where that tells none, what the frames have, which goes through the file
    /// once. `BrokenFrame` where that are 2^64 or more.
    pub fn count<S: Source>(&mut self, source: &mut S) -> Result<u64, FlacError>
        ensures count { S.honest source.old → IsReaderOf (S.bytes source.old) self.old →
            IfOk result (IsCount self.old (S.bytes source.old)) }
        ensures knows { S.honest source.old → IsReaderOf (S.bytes source.old) self.old → IsReaderOf (S.bytes source.old) self.new }
        ensures same { SameStream self.old self.new }
        ensures fault { S.honest source.old → result ≡ Err FlacError.ReadFault → Grows (S.faults source.old) (S.faults source.new) }
        ensures kept { S.honest source.old → Keeps S.bytes S.honest S.faults S.steady source.old source.new }
    {
        if self.info.samples > 0 {
            return Ok(self.info.samples);
        }
        let end = source.len();
        self.walk(source, end)
    }
}
