// Where guarded clients connect, and what tells of them.
use crate::guarded::Guarded;
use mio_clients::{ClockTime, Interest, Listener, Ready, Stream, Token};
use std::alloc::Global;
use std::io;
use std::time::Duration;

/// A listener whose clients are guarded.
#[derive(Drop)]
pub struct GuardedListener<L> {
    alloc: Global,
    listener: L,
}

impl<L> GuardedListener<L> {
    pub fn new(alloc: Global, listener: L) -> Self {
        GuardedListener { alloc, listener }
    }
}

impl<S: Stream, L: Listener<S>> Listener<Guarded<S>> for GuardedListener<L> {
    fn accept(&mut self) -> io::Result<Guarded<S>> {
        let stream = self.listener.accept()?;
        Ok(Guarded::new(self.alloc, stream))
    }

    fn now(&mut self) -> u64 {
        self.listener.now()
    }

    fn clock(&mut self) -> Option<ClockTime> {
        self.listener.clock()
    }

    fn gave_way(&mut self, client: u64, silence: u64) {
        self.listener.gave_way(client, silence);
    }
}

/// What tells of guarded clients, by what tells of their streams.
#[derive(Drop)]
pub struct GuardedReady<P> {
    ready: P,
}

impl<P> GuardedReady<P> {
    pub fn new(ready: P) -> Self {
        GuardedReady { ready }
    }
}

impl<S: Stream, P: Ready<S>> Ready<Guarded<S>> for GuardedReady<P> {
    fn register(&mut self, stream: &mut Guarded<S>, key: usize) -> io::Result<()> {
        self.ready.register(&mut stream.stream, key)
    }

    fn watch(&mut self, stream: &mut Guarded<S>, key: usize, interest: Interest) -> io::Result<()> {
        self.ready.watch(&mut stream.stream, key, interest)
    }

    fn deregister(&mut self, stream: &mut Guarded<S>) -> io::Result<()> {
        self.ready.deregister(&mut stream.stream)
    }

    fn wait(&mut self, limit: Duration) -> io::Result<()> {
        self.ready.wait(limit)
    }

    fn next(&mut self) -> Option<Token> {
        self.ready.next()
    }
}
