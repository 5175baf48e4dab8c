// What tells which streams are ready.
ghost use Rattle.mio_clients.specs.Streams.{IsUntouched};

use crate::stream::Stream;
use std::io;
use std::time::Duration;

/// What is ready.
#[derive(Clone, Copy, Debug, PartialEq, Eq)]
pub enum Token {
    /// A client may have connected.
    Listener,
    /// The stream that is registered under this key has something to read, or takes bytes again. The key may be an old one.
    Client(usize),
    /// Another thread ended the wait.
    Woken,
}

/// Of what a stream is to be told.
#[derive(Clone, Copy, Debug, PartialEq, Eq)]
pub enum Interest {
    /// That it has something to read.
    Input,
    /// The same, or that it takes bytes again: a write was blocked.
    Room,
    /// At the next wait in any case: it was not read to its end.
    Again,
}

/// Tells which streams are ready. No call changes what a stream has read or written.
pub trait Ready<S: Stream>: Drop {
    /// Begins to tell when the stream has something to read.
    fn register(&mut self, stream: &mut S, key: usize) -> io::Result<()>
        ensures { IsUntouched S.remaining S.contents stream.old stream.new };

    /// Changes of what a registered stream is told.
    fn watch(&mut self, stream: &mut S, key: usize, interest: Interest) -> io::Result<()>
        ensures { IsUntouched S.remaining S.contents stream.old stream.new };

    /// Tells no more of the stream.
    fn deregister(&mut self, stream: &mut S) -> io::Result<()>
        ensures { IsUntouched S.remaining S.contents stream.old stream.new };

    /// Waits until something is ready, for at most this long; not at all where a stream is to be told of in any case.
    fn wait(&mut self, limit: Duration) -> io::Result<()>;

    /// The next of what the last wait found.
    fn next(&mut self) -> Option<Token>;
}
