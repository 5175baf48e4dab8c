// Why a disk refuses.
ghost use Rattle.std.specs.Prelude.{◌≡◌};

use thiserror::Error;

/// What a disk refuses.
#[derive(Clone, Copy, Debug, PartialEq, Eq, Error)]
pub enum DiskError {
    /// The disk failed. Of a write or a cut any part may have been done.
    #[error("disk fault")]
    DiskFault,
    /// A read past the end, a write that begins past the end, or a cut above the length. Nothing was done.
    #[error("out of range")]
    OutOfRange,
}

impl DiskError {
    ghost use Rattle.disk_model.specs.DiskErrors.{number_of};

    /// The number of the refusal, by which the daemon reports it.
    pub fn number(self) -> u8
        ensures { result ≡ number_of self }
    {
        match self {
            DiskError::DiskFault => 1,
            DiskError::OutOfRange => 2,
        }
    }
}
