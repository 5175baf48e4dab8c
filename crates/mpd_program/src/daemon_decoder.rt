// The decoder beside the daemon, which reads songs of other forms.
ghost use Rattle.std.specs.Prelude.{None};

use crate::error_lines::{ErrorLines, put_line};
use crate::music_lines::MusicLines;
use decoded_files::{Decoder, DecoderError, LinkFault, SocketLink};
use std::alloc::AllocError;
use std::io::ErrorKind;

/// The decoder of the configuration, at its socket. Which file it doesn't tell, and why, is said on standard error.
///
/// As of its connections, no contract says what it tells.
#[derive(Drop)]
pub struct DaemonDecoder<'a> {
    rt: &'a HostRuntime,
    socket: String,
    // None where nothing is told.
    lines: Option<MusicLines<'a>>,
}

impl<'a> DaemonDecoder<'a> {
    /// The decoder at this socket. Without `lines` a line waits until it is taken.
    pub fn new(
        rt: &'a HostRuntime,
        socket: &str,
        lines: Option<ErrorLines>,
    ) -> Result<Self, AllocError> {
        Ok(DaemonDecoder {
            rt,
            socket: String::from_str(rt.alloc(), socket)?,
            lines: Some(MusicLines::new(rt, lines)),
        })
    }

    /// The same, of which nothing is told.
    pub fn silent(rt: &'a HostRuntime, socket: &str) -> Result<Self, AllocError> {
        Ok(DaemonDecoder {
            rt,
            socket: String::from_str(rt.alloc(), socket)?,
            lines: None,
        })
    }

    // Whether a file that isn't told has a line.
    fn takes_line(&mut self) -> bool {
        match &mut self.lines {
            Some(lines) => lines.takes_line(),
            None => false,
        }
    }

    // Says which file the decoder doesn't tell: of one that it knows as no song that, of any other that its row stays.
    fn print(&self, path: &str, why: DecoderError, words: &str) {
        let mark = if words.is_empty() { "" } else { ": " };
        if why == DecoderError::NoSong {
            put_line(self.rt, format_args!("music: {path}: {why}{mark}{words}"));
        } else {
            let socket = self.socket.as_str();
            put_line(
                self.rt,
                format_args!(
                    "music: {path}: {why}{mark}{words} ({socket}); the song known there is kept"
                ),
            );
        }
    }
}

impl<'a> Decoder for DaemonDecoder<'a> {
    type Link = SocketLink<'a>;

    ghost told = { λ _ _. None };

    ghost honest = { λ _. ⊥ };

    fn connect(&mut self) -> Result<SocketLink<'a>, LinkFault> {
        match SocketLink::connect(self.rt, self.socket.as_str()) {
            Ok(link) => Ok(link),
            Err(error) if error.kind() == ErrorKind::TimedOut => Err(LinkFault::Silent),
            Err(_) => Err(LinkFault::Ended),
        }
    }

    fn refused(&mut self, path: &str, why: DecoderError, words: &str) {
        // For want of memory nothing is said.
        if why != DecoderError::NoMemory && self.takes_line() {
            self.print(path, why, words);
        }
    }
}
