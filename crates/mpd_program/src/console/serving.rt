// One client, from its connect on.
ghost use Rattle.std.specs.Prelude.{◌≡◌, [], None, IfSome, Ok, Err, OnOk, MatchResult};
ghost use Rattle.client_session.specs.Requests.{brought, fault_at, nothing};
ghost use Rattle.mpd_program.specs.Console.{asked, asked_by, events_of, ComesInTurn, RunsNone};
ghost use Rattle.mpd_program.specs.Serving.{ending_of, ending_with, fed, IsReady, IsUsable, Serves, ServesInput, StepsTo};

use super::Ending;
use super::sending::{Unsent, send_outputs};
use crate::daemon_clock::DaemonClock;
use client_session::{Requests, Session};
use command_text::Request;
use daemon_core::{Event, PictureTold};
use disk_model::Disk;
use live_stage::{Live, LiveError};
use mio_clients::picture_asked;
use picture_reader::{OpenPictures, answer_picture};
use profile::Profile;
use song_db::LibraryRules;
use song_files::Folder;
use std::alloc::Global;
use std::io::{Read, Write};

// How many bytes are read at once, at most.
const PIECE: usize = 8_192;

// How a client's serving ends whose event was refused.
pub(super) fn ending_of(error: LiveError) -> Ending
    ensures { result ≡ ending_of error }
{
    match error {
        LiveError::Broken => Ending::Faulted,
        LiveError::NoMemory | LiveError::NumbersSpent => Ending::Cut,
    }
}

// How a client's serving ended that came to this.
pub(super) fn ending_with(served: Result<(), Ending>) -> Ending
    ensures { result ≡ ending_with served }
{
    match served {
        Ok(()) => Ending::Whole,
        Err(ending) => ending,
    }
}

// What a request asks of a picture, read from the folder; none where it asks for none, or where memory is refused.
fn picture_for<F: Folder>(
    alloc: Global,
    client: u64,
    limit: u32,
    folder: &mut F,
    request: &Request,
) -> Option<PictureTold>
    ensures limit { IfSome result (λ told. told.ask.limit ≡ limit) }
{
    let Ok(Some(mut ask)) = picture_asked(alloc, request) else {
        return None;
    };
    ask.limit = limit;
    let mut pictures = OpenPictures::new(alloc).ok()?;
    match answer_picture(alloc, folder, &mut pictures, client, &ask) {
        Ok(answer) => Some(PictureTold { ask, answer }),
        Err(_) => None,
    }
}

// What serves one client: its session over the stage, the folder that jobs read and their rules, the clock that tells the time before each
// request, if there is one, and the writer of its answers.
pub(super) struct Service<'a, 'c, 't, D: Disk, F, W> {
    pub(super) alloc: Global,
    pub(super) live: Live<D>,
    pub(super) session: Session,
    pub(super) client: u64,
    pub(super) folder: &'a mut F,
    pub(super) rules: LibraryRules,
    pub(super) clock: Option<&'c DaemonClock<'t>>,
    pub(super) writer: &'a mut W,
}

// Where not all is served, the error says why.
impl<D: Disk, F: Folder, W: Write> Service<'_, '_, '_, D, F, W> {
    // Handles one event, and sends what it gives to the client.
    pub(super) fn serve_event(&mut self, event: Event) -> Result<(), Ending>
        requires usable { IsUsable self.old }
        requires turn { ComesInTurn self.old.live.state.machine.job event }
        ensures served { Serves D.honest D.history D.faults W.contents (asked event) self.old self.new result }
        ensures step { OnOk result (StepsTo event self.old.live.state self.new.live.state) }
    {
        let turn = match self.live.turn(self.alloc, event) {
            Ok(turn) => turn,
            Err(error) => return Err(ending_of(error)),
        };
        let is_open = turn.closes().is_empty();
        let outputs = turn.into_outputs();
        match send_outputs(&mut self.session, self.client, &outputs, self.writer) {
            Ok(()) => {}
            Err(Unsent) => return Err(Ending::Cut),
        }
        if is_open { Ok(()) } else { Err(Ending::Whole) }
    }

    // Gives back the room in the file in use, before a checkpoint that is due is made.
    fn give_room(&mut self) -> Result<(), Ending>
        requires { IsUsable self.old }
        ensures served { Serves D.honest D.history D.faults W.contents [] self.old self.new result }
        ensures state { OnOk result (self.new.live.state ≡ self.old.live.state) }
    {
        match self.live.give_room() {
            Ok(()) => {}
            Err(refusal) => return Err(ending_of(refusal)),
        }
        Ok(())
    }

    // Makes the checkpoint that is due, and room for records, where the disk has room for them.
    fn look_for_room(&mut self) -> Result<bool, Ending>
        requires { IsUsable self.old }
        ensures served { MatchResult result
            (λ is_there. Serves D.honest D.history D.faults W.contents [] self.old self.new (Ok tt))
            (λ ending. Serves D.honest D.history D.faults W.contents [] self.old self.new (Err ending)) }
        ensures state { OnOk result (self.new.live.state ≡ self.old.live.state) }
    {
        let is_there = match self.live.make_room() {
            Ok(is_there) => is_there,
            Err(refusal) => return Err(ending_of(refusal)),
        };
        Ok(is_there)
    }

    // Makes room for what comes next, and tells the stage where that has changed. Under the first profile nothing is done.
    pub(super) fn tell_room(&mut self) -> Result<(), Ending>
        requires { IsUsable self.old }
        ensures served { Serves D.honest D.history D.faults W.contents [] self.old self.new result }
        ensures named { self.old.live.state.machine.saved.profile ≡ Profile.Named → (result ≡ Ok tt) × (self.new ≡ self.old) }
        ensures job { OnOk result (self.new.live.state.machine.job ≡ self.old.live.state.machine.job) }
        ensures waiting { OnOk result (self.new.live.state.machine.waiting ≡ self.old.live.state.machine.waiting) }
    {
        if let Profile::Named = self.live.profile() {
            return Ok(());
        }
        self.give_room()?;
        let lacks = self.live.lacks_room();
        let is_there = self.look_for_room()?;
        if is_there != lacks {
            return Ok(());
        }
        self.serve_event(Event::Room { is_there })
    }

    // Tells the time, where a clock is at hand.
    fn tell_time(&mut self) -> Result<(), Ending>
        requires { IsReady self.old }
        ensures served { Serves D.honest D.history D.faults W.contents [] self.old self.new result }
        ensures idle { OnOk result (RunsNone self.new.live.state.machine.job) }
    {
        match self.clock {
            None => Ok(()),
            Some(clock) => self.serve_event(Event::Clock(clock.time())),
        }
    }

    // Where a profile has pictures, what a request asks of one is read, and comes before it.
    fn read_picture(&mut self, request: &Request) -> Result<(), Ending>
        requires { IsReady self.old }
        ensures served { Serves D.honest D.history D.faults W.contents [] self.old self.new result }
        ensures idle { OnOk result (RunsNone self.new.live.state.machine.job) }
        ensures named { self.old.live.state.machine.saved.profile ≡ Profile.Named → self.new ≡ self.old }
    {
        match self.live.profile() {
            Profile::Named => Ok(()),
            Profile::Wide => {
                let limit = self.live.chunk_limit(self.client);
                let read = picture_for(self.alloc, self.client, limit, self.folder, request);
                let Some(told) = read else {
                    return Ok(());
                };
                self.serve_event(Event::Picture(self.client, told))
            }
        }
    }

    // Handles a request, and then reads for the jobs that it began, if it began any.
    fn serve_request(&mut self, request: Request) -> Result<(), Ending>
        requires { IsReady self.old }
        ensures served { Serves D.honest D.history D.faults W.contents (asked (Event.Request self.old.client request))
            self.old self.new result }
        ensures idle { OnOk result (RunsNone self.new.live.state.machine.job) }
    {
        let client = self.client;
        self.tell_room()?;
        self.tell_time()?;
        self.read_picture(&request)?;
        self.serve_event(Event::Request(client, request))?;
        self.serve_jobs()
    }

    // Handles requests one after the other. What is behind one that closes the client isn't served.
    fn serve_requests(&mut self, requests: Requests) -> Result<(), Ending>
        requires { IsReady self.old }
        ensures served { Serves D.honest D.history D.faults W.contents (asked_by self.old.client requests) self.old self.new result }
        ensures idle { OnOk result (RunsNone self.new.live.state.machine.job) }
    {
        for request in requests {
            self.serve_request(request)?;
        }
        Ok(())
    }

    // Serves what a piece of the input brings. An empty piece meets a line or a list that is too long, which waits for the next one.
    fn serve_piece(&mut self, piece: &[u8]) -> Result<(), Ending>
        requires { IsReady self.old }
        ensures served { Serves D.honest D.history D.faults W.contents
            (asked_by self.old.client (brought self.old.session.left piece.now)) (fed self.old piece.now) self.new result }
        ensures whole { OnOk result (fault_at self.old.session.left piece.now ≡ None) }
        ensures idle { OnOk result (RunsNone self.new.live.state.machine.job) }
    {
        let requests = match self.session.feed(self.alloc, piece) {
            Ok(requests) => requests,
            Err(_) => return Err(Ending::Cut),
        };
        self.serve_requests(requests)
    }

    // Serves pieces of the input until it ends, and then an empty one. The read 2^64 - 1 is taken for its end.
    fn serve_input<R: Read>(&mut self, reader: &mut R) -> Result<(), Ending>
        requires ready { IsReady self.old }
        requires fresh { self.old.session.left ≡ nothing }
        ensures { ServesInput D.honest D.history D.faults W.contents (asked_by self.old.client)
            (R.remaining reader.old) (R.remaining reader.new) self.old self.new result }
    {
        let mut buffer = match vec![in self.alloc; 0u8; PIECE] {
            Ok(buffer) => buffer,
            Err(_) => return Err(Ending::Cut),
        };
        let mut reads = 0u64;
        while reads < u64::MAX {
            let count = match reader.read(&mut buffer) {
                Ok(0) => return self.serve_piece(&[]),
                Ok(count) => count,
                Err(_) => return Err(Ending::Cut),
            };
            self.serve_piece(&buffer[..count])?;
            reads += 1;
        }
        self.serve_piece(&[])
    }

    // Serves the client from its connect to the end of its input, or until it is closed.
    pub(super) fn serve_client<R: Read>(&mut self, reader: &mut R) -> Result<(), Ending>
        requires ready { IsReady self.old }
        requires fresh { self.old.session.left ≡ nothing }
        ensures { ServesInput D.honest D.history D.faults W.contents (events_of self.old.client)
            (R.remaining reader.old) (R.remaining reader.new) self.old self.new result }
    {
        let event = Event::Connect(self.client);
        self.tell_room()?;
        self.serve_event(event)?;
        self.serve_input(reader)
    }
}
