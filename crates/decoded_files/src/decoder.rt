// A decoder, as one connects to it.
ghost use Rattle.std.specs.Prelude.{◌≡◌, ℕ, List, Option, None, IfOk};

use crate::{DecoderError, DecoderLink, LinkFault};

/// A decoder that can be connected to. Each open file has a connection of its own.
pub trait Decoder {
    type Link: DecoderLink + Drop;

    /// The WAVE file that it tells of the file at a path; none where it knows it as no song.
    ghost told: { Self → List ℕ → Option (List ℕ) };

    /// It is honest over each connection.
    ghost honest: { Self → Type 0 };

    /// Connects to it.
    fn connect(&mut self) -> Result<Self::Link, LinkFault>
        ensures link { honest self.old → IfOk result (λ link.
            Self.Link.honest link × (Self.Link.told link ≡ told self.old) × (Self.Link.opened link ≡ None)) }
        ensures honest { honest self.old → honest self.new }
        ensures told { honest self.old → told self.new ≡ told self.old };

    /// Is told which file it doesn't tell, and why; `words` are the decoder's own, or none. For a line in a log.
    fn refused(&mut self, path: &str, why: DecoderError, words: &str)
        ensures honest { honest self.old → honest self.new }
        ensures told { honest self.old → told self.new ≡ told self.old };
}
