//! Why a line of the input can't be done.
use no_memory::NoMemory;
use std::alloc::{AllocError, AllocFailed};
use std::io::{self, ErrorKind};

#[derive(Clone, Copy)]
pub enum Fault {
    /// It is no directive, or none here.
    NoDirective,
    NoNumber,
    NoBytes,
    /// A % stands before no sign.
    NoSign,
    /// It is no row of the database.
    NoRow,
    /// No client of this number is there, or one is there already.
    NoClient,
    /// No pass is in this place.
    NoPass,
    /// No thread runs, or one runs already, or none can be made.
    NoThread,
    /// A file can't be written, nor the output of the program, or its input can't be read.
    NoFile,
    /// An op that is applied often was refused.
    Refused,
    /// The program itself had no memory for it.
    NoMemory,
}

impl Fault {
    pub fn text(self) -> &'static str {
        match self {
            Fault::NoDirective => "no directive, or none here",
            Fault::NoNumber => "no number",
            Fault::NoBytes => "no bytes",
            Fault::NoSign => "% stands before no sign",
            Fault::NoRow => "no row",
            Fault::NoClient => "no such client, or one that is there already",
            Fault::NoPass => "no pass",
            Fault::NoThread => "no thread, or one already",
            Fault::NoFile => "a file that fails",
            Fault::Refused => "an op was refused",
            Fault::NoMemory => "no memory for the line itself",
        }
    }
}

impl From<AllocError> for Fault {
    fn from(_: AllocError) -> Self {
        Fault::NoMemory
    }
}

impl<T: Drop> From<AllocFailed<T>> for Fault {
    fn from(_: AllocFailed<T>) -> Self {
        Fault::NoMemory
    }
}

impl From<NoMemory> for Fault {
    fn from(_: NoMemory) -> Self {
        Fault::NoMemory
    }
}

impl From<io::Error> for Fault {
    fn from(error: io::Error) -> Self {
        if error.kind() == ErrorKind::OutOfMemory {
            return Fault::NoMemory;
        }
        Fault::NoFile
    }
}
