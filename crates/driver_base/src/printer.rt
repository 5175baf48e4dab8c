//! What a line prints. Memory that is refused here is told by the line's end, so that no call between has a way out.
use crate::fault::Fault;
use std::alloc::Global;
use std::fmt::Display;

#[derive(Drop)]
pub struct Printer {
    pub alloc: Global,
    bytes: Vec<u8>,
    /// Whether memory was refused.
    is_short: bool,
}

impl Printer {
    pub fn new(alloc: Global) -> Self {
        Printer {
            alloc,
            bytes: Vec::new(alloc),
            is_short: false,
        }
    }

    /// What was printed since it was cleared.
    pub fn bytes(&self) -> &[u8] {
        self.bytes.as_slice()
    }

    pub fn clear(&mut self) {
        self.bytes.clear();
    }

    /// Ends what a line prints with a point: whether all of it is there.
    pub fn end(&mut self) -> Result<(), Fault> {
        self.add(b".\n");
        if self.is_short {
            Err(Fault::NoMemory)
        } else {
            Ok(())
        }
    }

    /// Memory was refused to something that the line was to do.
    pub fn lack(&mut self) {
        self.is_short = true;
    }

    pub fn add(&mut self, bytes: &[u8]) {
        if self.bytes.extend_from_slice(bytes).is_err() {
            self.lack();
        }
    }

    pub fn line(&mut self, text: &str) {
        self.add(text.as_bytes());
        self.add(b"\n");
    }

    /// A text that was made, or memory was refused to it.
    pub fn text(&mut self, text: Option<String>) {
        match text {
            Some(text) => self.add(text.as_bytes()),
            None => self.lack(),
        }
    }

    pub fn number(&mut self, number: u64) {
        self.text(format!(in self.alloc; "{number}").ok());
    }

    /// A space and a number.
    pub fn next(&mut self, number: u64) {
        self.add(b" ");
        self.number(number);
    }

    /// A word and a number.
    pub fn count(&mut self, word: &str, number: u64) {
        self.add(word.as_bytes());
        self.next(number);
        self.add(b"\n");
    }

    /// The bytes in hex digits.
    pub fn digits(&mut self, bytes: &[u8]) {
        self.text(hex::encode(self.alloc, bytes).ok());
    }

    /// A word and the bytes in hex digits, or `-` where there are none.
    pub fn hex(&mut self, word: &str, bytes: &[u8]) {
        self.add(word.as_bytes());
        self.add(if bytes.is_empty() { b" -" } else { b" " });
        self.digits(bytes);
        self.add(b"\n");
    }

    /// A refusal's number and its text.
    pub fn refused(&mut self, number: u8, error: impl Display + Drop) {
        self.text(format!(in self.alloc; "refused {number} {error}\n").ok());
    }

    /// Bytes that a client gets, each line behind the client's number, the first one unless it goes on with a line that has begun. Whether
    /// the last line has no end yet.
    pub fn sent(&mut self, client: u64, bytes: &[u8], goes_on: bool) -> bool {
        let mut is_inside = goes_on;
        for byte in bytes {
            if !is_inside {
                self.number(client);
                self.add(b"< ");
            }
            self.add(&[*byte]);
            is_inside = *byte != b'\n';
        }
        is_inside
    }

    /// All bytes that a client gets. A last line without its end has `%` behind it.
    pub fn output(&mut self, client: u64, bytes: &[u8]) {
        if self.sent(client, bytes, false) {
            self.add(b"%\n");
        }
    }

    /// Whether something is so.
    pub fn answer(&mut self, is_so: bool) {
        self.line(if is_so { "yes" } else { "no" });
    }

    /// The connection of a client ends.
    pub fn closed(&mut self, client: u64) {
        self.number(client);
        self.line(" closed");
    }
}
