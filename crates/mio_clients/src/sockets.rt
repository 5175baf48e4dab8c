//! Streams, a listener and readiness over the TCP and Unix sockets of `mio`.
ghost use Rattle.std.specs.Prelude.{◌≡◌, IfOk, false, true};
ghost use Rattle.std.specs.Io.{ReadsAtMost};

use crate::CLIENT_LIMIT;
use crate::memory::is_fault;
use crate::ready::{Interest, Ready, Token};
use crate::stream::Stream;
use client_session::Session;
use mio::net::{TcpListener, TcpStream, UnixListener, UnixStream};
use mio::{Events, Poll, Waker};
use std::alloc::Global;
use std::io::{self, ErrorKind, Read, Write};
use std::net::Net;
use std::time::Duration;

/// How many bytes of a client are read in a turn of the loop: few, since each of its requests may be a change that is synced before the
/// others are served, and enough for two hundred requests that are none.
pub const READ_BUDGET: usize = 1_024;

/// How many events one wait gives at most.
const EVENT_LIMIT: usize = 128;

const LISTENER: mio::Token = mio::Token(usize::MAX);

const WAKER: mio::Token = mio::Token(usize::MAX - 1);

// A connection of either kind.
#[derive(Drop)]
enum Link {
    Tcp(TcpStream),
    Unix(UnixStream),
}

impl Link {
    fn read(&mut self, buf: &mut [u8]) -> io::Result<usize>
        ensures { ReadsAtMost result buf.new }
    {
        match self {
            Link::Tcp(stream) => stream.read(buf),
            Link::Unix(stream) => stream.read(buf),
        }
    }
}

impl Write for Link {
    fn write(&mut self, buf: &[u8]) -> io::Result<usize> {
        match self {
            Link::Tcp(stream) => stream.write(buf),
            Link::Unix(stream) => stream.write(buf),
        }
    }

    fn flush(&mut self) -> io::Result<()> {
        Ok(())
    }
}

/// A client's socket. After `READ_BUDGET` bytes a read answers `WouldBlock` once, so that the other clients come to their turn.
///
/// So it does, without asking the system, behind a read of the same turn that gave fewer bytes than it had room for and ended with a
/// newline: there were no more, and the system tells of those that come later. A stream of which it has told the end is read until that is
/// found.
#[derive(Drop)]
pub struct Socket {
    link: Link,
    // How many bytes were read since the last `WouldBlock`.
    taken: usize,
    // That was no real one: there may be more to read.
    rests: bool,
    // The last read, in this turn, took all that there was.
    is_drained: bool,
    // The last `WouldBlock` was no real one: there is nothing more to read but maybe the end.
    is_spared: bool,
    // The system has told that the client sends nothing more, or that the stream has failed.
    has_ended: bool,
    // It is registered for writing too.
    writes: bool,
    failed: bool,
    // It is one of TCP.
    is_remote: bool,
}

impl Socket {
    fn new(link: Link, is_remote: bool) -> Self
        ensures remote { result.is_remote ≡ is_remote }
    {
        Socket {
            link,
            taken: 0,
            rests: false,
            is_drained: false,
            is_spared: false,
            has_ended: false,
            writes: false,
            failed: false,
            is_remote,
        }
    }
}

impl Stream for Socket {
    ghost failed = { λ s. s.failed };

    ghost remote = { λ s. s.is_remote };

    fn is_remote(&self) -> bool {
        self.is_remote
    }

    fn read(&mut self, buf: &mut [u8]) -> io::Result<usize> {
        self.rests = self.taken >= READ_BUDGET;
        self.is_spared = self.is_drained;
        self.is_drained = false;
        if self.rests || self.is_spared {
            self.taken = 0;
            return Err(io::Error::from(ErrorKind::WouldBlock));
        }
        let room = buf.len().min(READ_BUDGET - self.taken);
        match self.link.read(&mut buf[..room]) {
            Ok(count) => {
                self.taken = self.taken.saturating_add(count);
                self.is_drained = !self.has_ended && count < room && buf[..count].ends_with(b"\n");
                Ok(count)
            }
            Err(error) => {
                self.taken = 0;
                self.failed = is_fault(error.kind());
                Err(error)
            }
        }
    }

    fn send(&mut self, session: &mut Session) -> io::Result<usize> {
        match session.send_some(&mut self.link) {
            Ok(count) => Ok(count),
            Err(error) => {
                self.failed = is_fault(error.kind());
                Err(error)
            }
        }
    }
}

/// Listening sockets: TCP, Unix, or both.
#[derive(Drop)]
pub struct SocketListener {
    tcp: Option<TcpListener>,
    unix: Option<UnixListener>,
}

impl SocketListener {
    pub fn new(tcp: Option<TcpListener>, unix: Option<UnixListener>) -> Self {
        SocketListener { tcp, unix }
    }

    // The next connection of the TCP socket.
    fn accept_tcp(&self) -> io::Result<Socket>
        ensures remote { IfOk result (λ socket. socket.is_remote ≡ true) }
    {
        let Some(listener) = &self.tcp else {
            return Err(io::Error::from(ErrorKind::WouldBlock));
        };
        let (stream, _address) = listener.accept()?;
        // Answers are short, and each is written at once. A connection for which this can't be had serves as well, but slower.
        let _set = stream.set_nodelay(true);
        Ok(Socket::new(Link::Tcp(stream), true))
    }

    // The next connection of the Unix socket.
    fn accept_unix(&self) -> io::Result<Socket>
        ensures remote { IfOk result (λ socket. socket.is_remote ≡ false) }
    {
        let Some(listener) = &self.unix else {
            return Err(io::Error::from(ErrorKind::WouldBlock));
        };
        let (stream, _address) = listener.accept()?;
        Ok(Socket::new(Link::Unix(stream), false))
    }

    /// The next connection, of the Unix socket where one waits there; `WouldBlock` where none does.
    pub fn accept(&mut self) -> io::Result<Socket> {
        match self.accept_unix() {
            Err(error) if error.kind() == ErrorKind::WouldBlock => self.accept_tcp(),
            accepted => accepted,
        }
    }
}

/// Readiness by `mio`'s `Poll`.
#[derive(Drop)]
pub struct SocketReady {
    poll: Poll,
    events: Events,
    // What the last wait found, and how many of it were given out.
    found: Vec<Token>,
    next: usize,
    // The keys of streams that were not read to their end, each once.
    again: Vec<usize>,
    // The keys of streams whose client sends nothing more, or that have failed, as the last wait found.
    ended: Vec<usize>,
}

impl SocketReady {
    /// Tells of the clients that connect to this listener.
    pub fn new<R: Net>(rt: &R, alloc: Global, listener: &mut SocketListener) -> io::Result<Self> {
        let poll = Poll::new(rt)?;
        if let Some(tcp) = &mut listener.tcp {
            poll.registry()
                .register(tcp, LISTENER, mio::Interest::READABLE)?;
        }
        if let Some(unix) = &mut listener.unix {
            poll.registry()
                .register(unix, LISTENER, mio::Interest::READABLE)?;
        }
        Ok(SocketReady {
            poll,
            events: Events::with_capacity(alloc, EVENT_LIMIT)?,
            found: Vec::with_capacity(alloc, EVENT_LIMIT + CLIENT_LIMIT)?,
            next: 0,
            again: Vec::with_capacity(alloc, CLIENT_LIMIT)?,
            ended: Vec::with_capacity(alloc, EVENT_LIMIT)?,
        })
    }

    /// Ends waits of this from another thread.
    pub fn waker(&self) -> io::Result<Waker> {
        Waker::new(self.poll.registry(), WAKER)
    }

    // Has the stream told of anew where it is ready for reading, and for writing too where a write was blocked.
    fn reregister(&mut self, stream: &mut Socket, key: usize) -> io::Result<()> {
        let interests = if stream.writes {
            mio::Interest::READABLE | mio::Interest::WRITABLE
        } else {
            mio::Interest::READABLE
        };
        let registry = self.poll.registry();
        match &mut stream.link {
            Link::Tcp(tcp) => registry.reregister(tcp, mio::Token(key), interests),
            Link::Unix(unix) => registry.reregister(unix, mio::Token(key), interests),
        }
    }
}

// What an event of `mio` tells.
fn token_of(token: mio::Token) -> Token {
    if token == LISTENER {
        Token::Listener
    } else if token == WAKER {
        Token::Woken
    } else {
        Token::Client(token.0)
    }
}

impl Ready<Socket> for SocketReady {
    fn register(&mut self, stream: &mut Socket, key: usize) -> io::Result<()> {
        let registry = self.poll.registry();
        match &mut stream.link {
            Link::Tcp(tcp) => registry.register(tcp, mio::Token(key), mio::Interest::READABLE),
            Link::Unix(unix) => registry.register(unix, mio::Token(key), mio::Interest::READABLE),
        }
    }

    fn watch(&mut self, stream: &mut Socket, key: usize, interest: Interest) -> io::Result<()> {
        // What comes from here on is told of, and a later read has to ask the system for it.
        stream.is_drained = false;
        let writes = interest == Interest::Room;
        if writes != stream.writes {
            stream.writes = writes;
            self.reregister(stream, key)?;
        }
        // The end stays with the stream, however much of it is still to be read before.
        stream.has_ended |= self.ended.contains(&key);
        let hides_end = stream.has_ended && stream.is_spared;
        if writes || !(hides_end || stream.rests || interest == Interest::Again) {
            return Ok(());
        }
        stream.rests = false;
        stream.is_spared = false;
        if self.again.contains(&key) {
            return Ok(());
        }
        // Without room for it, the system is asked to tell of it anew.
        match self.again.push(key) {
            Ok(()) => Ok(()),
            Err(_) => self.reregister(stream, key),
        }
    }

    fn deregister(&mut self, stream: &mut Socket) -> io::Result<()> {
        let registry = self.poll.registry();
        match &mut stream.link {
            Link::Tcp(tcp) => registry.deregister(tcp),
            Link::Unix(unix) => registry.deregister(unix),
        }
    }

    fn wait(&mut self, limit: Duration) -> io::Result<()> {
        let limit = if self.again.is_empty() {
            limit
        } else {
            Duration::from_millis(0)
        };
        self.found.clear();
        self.next = 0;
        for key in &self.again {
            let _kept = self.found.push(Token::Client(*key));
        }
        self.again.clear();
        self.ended.clear();
        self.poll.poll(&mut self.events, Some(limit))?;
        for event in &self.events {
            let _kept = self.found.push(token_of(event.token()));
            if event.is_read_closed() || event.is_error() {
                let _told = self.ended.push(event.token().0);
            }
        }
        Ok(())
    }

    fn next(&mut self) -> Option<Token> {
        let token = self.found.get(self.next).copied()?;
        self.next = self.next.saturating_add(1);
        Some(token)
    }
}
