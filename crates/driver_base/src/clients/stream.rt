//! What a client is sent.
use std::alloc::Global;
use std::io::{self, ErrorKind, Write};

/// A client's stream, which keeps what it took.
#[derive(Drop)]
pub struct Stream {
    /// How many bytes a write takes at most; none where it blocks.
    takes: Option<usize>,
    taken: Vec<u8>,
}

impl Stream {
    pub fn new(alloc: Global, takes: Option<usize>) -> Self {
        Stream {
            takes,
            taken: Vec::new(alloc),
        }
    }

    /// From now on it takes so much with each write.
    pub fn set_takes(&mut self, takes: Option<usize>) {
        self.takes = takes;
    }

    /// What it took since it was cleared.
    pub fn taken(&self) -> &[u8] {
        self.taken.as_slice()
    }

    pub fn clear(&mut self) {
        self.taken.clear();
    }
}

impl Write for Stream {
    fn write(&mut self, buf: &[u8]) -> io::Result<usize> {
        let Some(width) = self.takes else {
            return Err(ErrorKind::WouldBlock.into());
        };
        let count = buf.len().min(width);
        match self.taken.extend_from_slice(&buf[..count]) {
            Ok(()) => Ok(count),
            Err(_) => Err(ErrorKind::OutOfMemory.into()),
        }
    }

    fn flush(&mut self) -> io::Result<()> {
        Ok(())
    }
}
