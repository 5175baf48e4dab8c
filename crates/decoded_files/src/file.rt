// A file that a decoder tells, or one of the folder below.
ghost use Rattle.std.specs.Prelude.{ℕ, List};

use crate::{DecodedSource, DecoderLink};
use song_files::{Source, SourceFault};

/// A file of the folder below, or the WAVE file that a decoder tells of one.
#[derive(Drop)]
pub enum DecodedFile<S, L> {
    Plain(S),
    Decoded(DecodedSource<L>),
}

impl<S: Source, L: DecoderLink> Source for DecodedFile<S, L> {
    ghost use Rattle.decoded_files.specs.Files.{chosen, IsChosen, none_of};

    ghost bytes = { λ f. chosen S.bytes ⟦<DecodedSource<L> as Source>⟧.bytes f };

    ghost honest = { λ f. IsChosen S.honest ⟦<DecodedSource<L> as Source>⟧.honest f };

    ghost faults = { λ f. chosen S.faults ⟦<DecodedSource<L> as Source>⟧.faults f };

    ghost steady = { λ f. IsChosen S.steady ⟦<DecodedSource<L> as Source>⟧.steady f };

    ghost none_failed = { λ f steady. none_of S.steady S.faults S.none_failed (λ _. ⊥) (λ s. s.faults)
        (λ s steady. absurd steady) f steady };

    fn len(&self) -> u64 {
        match self {
            DecodedFile::Plain(source) => source.len(),
            DecodedFile::Decoded(source) => source.len(),
        }
    }

    fn read_at(&mut self, at: u64, buffer: &mut [u8]) -> Result<usize, SourceFault> {
        match self {
            DecodedFile::Plain(source) => source.read_at(at, buffer),
            DecodedFile::Decoded(source) => source.read_at(at, buffer),
        }
    }
}
