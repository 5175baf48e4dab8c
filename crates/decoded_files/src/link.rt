// A connection to a decoder.
ghost use Rattle.std.specs.Prelude.{◌≡◌, ℕ, ◌++◌, List, [], Option, None, Some, OnOk};
ghost use Rattle.decoded_files.specs.Answers.{IsAnswer, IsOpenAnswer, IsReadAnswer};
ghost use Rattle.decoded_files.specs.Frames.{open_request, read_request};
ghost use Rattle.decoded_files.specs.Kept.{KeepsLink};
ghost use Rattle.decoded_files.specs.DecoderErrors.{fault_error};

use crate::DecoderError;

/// A connection failed: nothing more can be taken from it.
#[derive(Clone, Copy, Debug, PartialEq, Eq)]
pub enum LinkFault {
    /// Nothing was taken or sent in time.
    Silent,
    /// It ended or failed.
    Ended,
}

impl From<LinkFault> for DecoderError {
    ghost from_gives = { λ fault error. error ≡ fault_error fault };

    fn from(fault: LinkFault) -> Self {
        match fault {
            LinkFault::Silent => DecoderError::Silent,
            LinkFault::Ended => DecoderError::Ended,
        }
    }
}

/// A connection to a decoder, which takes requests and answers them in order.
///
/// What is said of answers is said of an honest decoder: it tells the same bytes of a file each time.
pub trait DecoderLink {
    /// The WAVE file that the decoder tells of the file at a path; none where it knows it as no song.
    ghost told: { Self → List ℕ → Option (List ℕ) };

    /// The path that it was asked to open, if it was.
    ghost opened: { Self → Option (List ℕ) };

    /// What comes from the decoder and wasn't received yet.
    ghost coming: { Self → List ℕ };

    /// The decoder answers what it tells. It may fail all the same.
    ghost honest: { Self → Type 0 };

    /// Sends a request: all of its bytes, or it fails.
    fn send(&mut self, request: &[u8]) -> Result<(), LinkFault>
        ensures opened { honest self.old → (path : List ℕ) → request.now ≡ open_request path → opened self.old ≡ None →
            OnOk result ((opened self.new ≡ Some path) × IsAnswer (IsOpenAnswer (told self.old path)) (coming self.new)) }
        ensures open_kept { honest self.old → opened self.old ≡ None → honest self.new × (told self.new ≡ told self.old) }
        ensures read { honest self.old → (path wave : List ℕ) (at count : ℕ) → opened self.old ≡ Some path →
            told self.old path ≡ Some wave → request.now ≡ read_request at count → coming self.old ≡ [] →
            OnOk result (IsAnswer (IsReadAnswer wave at count) (coming self.new)) }
        ensures read_kept { honest self.old → (path : List ℕ) → opened self.old ≡ Some path →
            KeepsLink honest told opened self.old self.new };

    /// Fills the buffer with what comes next, or fails.
    fn receive(&mut self, buffer: &mut [u8]) -> Result<(), LinkFault>
        ensures received { honest self.old → OnOk result (coming self.old ≡ buffer.new ++ coming self.new) }
        ensures kept { honest self.old → KeepsLink honest told opened self.old self.new };

    /// Ends the connection. What is asked of it from then on fails.
    fn close(&mut self)
        ensures { honest self.old → KeepsLink honest told opened self.old self.new };
}
