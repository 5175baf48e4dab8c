// A frame (RFC 9639, section 9).
use crate::bits::BitReader;
use crate::channels::channel_count;
use crate::head::{FrameHead, Stream};
use crate::refusal::FrameError;
use crate::whole::{read_head, read_rest};
use std::alloc::{AllocError, Global};

/// A frame that was read, and how many bytes it took.
#[derive(Clone, Copy, Debug, PartialEq, Eq)]
pub struct FrameRead {
    pub head: FrameHead,
    pub used: usize,
}

/// Reads frames, and keeps the samples of the last one: memory for two channels of its block.
#[derive(Drop)]
pub struct FrameDecoder {
    first: Vec<i64>,
    second: Vec<i64>,
    channels: u8,
}

impl FrameDecoder {
    ghost use Rattle.std.specs.Prelude.{◌≡◌, ◌^◌, ◌<◌, [], IfOk, IfErr, OnOk, OnErr, length, vec_len, slice_get};
    ghost use Rattle.flac_frames.specs.Frame.{frame_of, Refuses};
    ghost use Rattle.flac_frames.specs.Decoder.{samples_of, framed_as};

    /// A decoder that has read no frame.
    pub fn new(alloc: Global) -> FrameDecoder
        ensures { samples_of result ≡ [] }
    {
        FrameDecoder {
            first: Vec::new(alloc),
            second: Vec::new(alloc),
            channels: 0,
        }
    }

    /// How many channels the last frame has: 1 or 2, or 0 where none was read.
    pub fn channels(&self) -> usize
        ensures { result ≡ length (samples_of self.now) }
    {
        if self.channels == 0 {
            0
        } else if self.channels == 1 {
            1
        } else {
            2
        }
    }

    /// The samples of a channel of the last frame: the left one or the only one is 0.
    pub fn channel(&self, k: usize) -> &[i64]
        requires { k < length (samples_of self.now) }
        ensures { slice_get (samples_of self.now) k ≡ Some result.now }
    {
        if k == 0 {
            self.first.as_slice()
        } else {
            self.second.as_slice()
        }
    }

    /// Takes memory for a block.
    fn make_room(&mut self, size: usize) -> Result<(), AllocError>
        ensures first { OnOk result (vec_len self.new.first ≡ size) }
        ensures second { OnOk result (vec_len self.new.second ≡ size) }
        ensures channels { self.new.channels ≡ self.old.channels }
    {
        self.first.resize(size, 0)?;
        self.second.resize(size, 0)
    }

    /// Reads the frame that the bytes begin with. What the head leaves open is the stream's. Where the bytes end before the
    /// frame does (`Ended`), the same call with more of them goes on. An error leaves no samples.
    pub fn read(&mut self, stream: Stream, bytes: &[u8]) -> Result<FrameRead, FrameError>
        requires { length bytes.now < 2 ^ 60 }
        ensures read { IfOk result (λ read. frame_of stream bytes.now ≡ Ok (framed_as read (samples_of self.new))) }
        ensures refused { IfErr result (λ error. Refuses (frame_of stream bytes.now) error) }
        ensures cleared { OnErr result (samples_of self.new ≡ []) }
    {
        self.channels = 0;
        let mut reader = BitReader::new(bytes);
        let head = read_head(&mut reader, stream, bytes)?;
        self.make_room(usize::from(head.block_size))?;
        let first = self.first.as_mut_slice();
        let second = self.second.as_mut_slice();
        let used = read_rest(&mut reader, head, bytes, first, second)?;
        self.channels = channel_count(head.channels);
        Ok(FrameRead { head, used })
    }
}
