//! A stage that threads share, to which the lines of the input happen.
use crate::calls::{
    Answer, Stage, play, played_once, reported, rewound, scan, scanned_once, served,
};
use crate::hand::{Hand, take_stand};
use crate::kind::kind_of;
use crate::passes::{Passes, spend_passes};
use crate::shown::{
    tell_job, tell_left, tell_rewound, tell_scanned, tell_served, tell_stage_error,
};
use crate::songs::{OpenMusic, music};
use crate::stand::Stand;
use crate::threads::{Done, serve_all};
use crossbeam_channel::{Receiver, Sender};
use daemon_core::Event;
use driver_base::event::event_of;
use driver_base::rows::{drop_row, put, uri_of};
use driver_base::shown::{tell_order, tell_scan_order};
use driver_base::songs::take_song_line;
use driver_base::words::{first_number, first_word, number};
use driver_base::{Fault, Printer};
use player_core::{Order, PlayOrder, Volume};
use song_db::{RowChange, ScanOrder};
use stage_workers::Pass;
use std::alloc::Global;
use std::sync::Wait;
use std::sync::ledger::Ledger;
use std::thread::{JoinHandle, Scope, Threads};
use std::time::{Clock, Duration, Instant};

#[derive(Drop)]
pub struct Session<'s, C: Ledger, P: Ledger, S: Ledger, R> {
    rt: &'s R,
    host: &'s HostRuntime,
    alloc: Global,
    stage: &'s Stage<C, P, S>,
    player: Hand<'s, C, P, S, R>,
    scan: Hand<'s, C, P, S, R>,
    /// To the thread that scans.
    orders: Option<Sender<ScanOrder>>,
    pub passes: Passes<C, P, S>,
    /// What the next batches have.
    collected: Vec<RowChange>,
    /// What is open between two orders that this thread plays.
    song: Option<OpenMusic<'s, R>>,
    /// When the script looked at the clock.
    looked: Option<Instant>,
    pub printer: Printer,
}

/// An event, the pass that makes it, and the pass's place.
type Asked<C, P, S> = (u64, Event, Pass<C, P, S>);

/// The thread that serves the other events of two, and the place of its pass.
type Other<C, P, S> = (u64, JoinHandle<Done<C, P, S>>);

/// `TICKET FRAME PERCENT URI`.
fn order_of(alloc: Global, text: &str) -> Result<PlayOrder, Fault> {
    let (ticket, text) = first_number(text)?;
    let (first_frame, text) = first_number(text)?;
    let (percent, text) = first_number(text)?;
    let volume = Volume::new(u8::try_from(percent).unwrap_or(0)).unwrap_or_default();
    Ok(PlayOrder {
        ticket,
        uri: uri_of(alloc, text)?,
        first_frame,
        volume,
    })
}

impl<'s, C: Ledger, P: Ledger, S: Ledger, R: Wait + Clock> Session<'s, C, P, S, R> {
    pub fn new(
        rt: &'s R,
        host: &'s HostRuntime,
        stage: &'s Stage<C, P, S>,
        player: &'s Stand<'s, R>,
        scan: &'s Stand<'s, R>,
    ) -> Self {
        let alloc = host.alloc();
        Session {
            rt,
            host,
            alloc,
            stage,
            player: Hand::new(player),
            scan: Hand::new(scan),
            orders: None,
            passes: Passes::new(alloc),
            collected: Vec::new(alloc),
            song: None,
            looked: None,
            printer: Printer::new(alloc),
        }
    }

    /// The scan's thread is sent no further order.
    fn hang_up(&mut self) {
        self.orders = None;
    }

    /// Lets the threads end.
    pub fn free(&mut self) {
        self.hang_up();
        self.stage.close(self.rt);
        self.player.stand.free();
        self.scan.stand.free();
    }

    /// What `PLACE EVENT` asks for.
    fn asked(&mut self, words: &str) -> Result<Asked<C, P, S>, Fault> {
        let (place, text) = first_number(words)?;
        let event = event_of(self.alloc, &mut self.collected, text)?;
        Ok((place, event, self.passes.take(place)?))
    }

    /// Puts a pass back, and prints why its event was refused, if it was.
    fn put_back(&mut self, place: u64, (answer, pass): Answer<(), C, P, S>) {
        self.passes.put(place, pass);
        if let Err(error) = answer {
            tell_stage_error(&mut self.printer, error);
        }
    }

    fn serve(&mut self, words: &str) -> Result<(), Fault> {
        let (place, event, pass) = self.asked(words)?;
        let (answer, pass) = served(self.rt, self.alloc, self.stage, pass, event);
        self.passes.put(place, pass);
        match answer {
            Ok(served) => tell_served(&mut self.printer, &served),
            Err(error) => tell_stage_error(&mut self.printer, error),
        }
        Ok(())
    }

    fn report(&mut self, words: &str) -> Result<(), Fault> {
        let (place, event, pass) = self.asked(words)?;
        let answer = reported(self.rt, self.alloc, self.stage, pass, event);
        self.put_back(place, answer);
        Ok(())
    }

    /// The order that is meant: the stage's own, or that of a text.
    fn order(&self, text: &str) -> Result<PlayOrder, Fault> {
        if !text.is_empty() {
            return order_of(self.alloc, text);
        }
        match self.stage.order(self.rt, self.alloc) {
            Ok(Order::Play(order)) => Ok(order),
            _ => Err(Fault::NoDirective),
        }
    }

    /// The order of the job that runs.
    fn scan_order(&self) -> Result<ScanOrder, Fault> {
        match self.stage.scan_order(self.rt, self.alloc) {
            Ok(Some(order)) => Ok(order),
            _ => Err(Fault::NoDirective),
        }
    }

    fn play_once(&mut self, words: &str) -> Result<(), Fault> {
        let (place, text) = first_number(words)?;
        let order = self.order(text)?;
        let pass = self.passes.take(place)?;
        let stand = self.player.stand;
        let mut folder = music(self.host, self.alloc, stand);
        let answer = played_once(
            self.rt,
            self.alloc,
            self.stage,
            stand,
            (&mut folder, &mut self.song),
            (pass, &order),
        );
        self.put_back(place, answer);
        Ok(())
    }

    fn scan_once(&mut self, words: &str) -> Result<(), Fault> {
        let place = number(words)?;
        let order = self.scan_order()?;
        let pass = self.passes.take(place)?;
        let stand = self.scan.stand;
        let (scanned, pass) = scanned_once(self.rt, self.host, self.stage, stand, (pass, order));
        self.passes.put(place, pass);
        tell_scanned(&mut self.printer, scanned);
        Ok(())
    }

    /// Looks at the clock.
    fn look_at_clock(&mut self) -> Result<(), Fault> {
        self.looked = Some(Instant::now(self.rt)?);
        Ok(())
    }

    /// Prints whether at least so many milliseconds passed since the look at the clock.
    fn lasted(&mut self, words: &str) -> Result<(), Fault> {
        let least = Duration::from_millis(number(words)?);
        let looked = self.looked.ok_or(Fault::NoDirective)?;
        let lasted = looked.elapsed(self.rt)? >= least;
        self.printer.answer(lasted);
        Ok(())
    }

    fn rewound(&mut self, words: &str) -> Result<(), Fault> {
        let (seen, found) = first_number(words)?;
        tell_rewound(&mut self.printer, rewound(seen, number(found)?));
        Ok(())
    }

    /// Does what a line asks for of passes, rows and files.
    fn make(&mut self, word: &str, rest: &str) -> Result<(), Fault> {
        match word {
            "serve" => self.serve(rest),
            "report" => self.report(rest),
            "play_once" => self.play_once(rest),
            "scan_once" => self.scan_once(rest),
            "rewound" => self.rewound(rest),
            "clock" => self.look_at_clock(),
            "lasted" => self.lasted(rest),
            "spend" => spend_passes(self.rt, self.stage, &mut self.printer, rest),
            "pass" => {
                let kind = kind_of(rest)?;
                self.passes
                    .add(self.rt, self.stage, &mut self.printer, kind)
            }
            "let_go" => {
                drop(self.passes.take(number(rest)?)?);
                Ok(())
            }
            "put" => put(&mut self.collected, self.alloc, rest),
            "drop" => drop_row(&mut self.collected, self.alloc, rest),
            _ => take_song_line(self.host, word, rest),
        }
    }

    /// Does what a word asks of the stage; whether it is such a word.
    fn look(&mut self, word: &str) -> bool {
        let (rt, alloc, stage) = (self.rt, self.alloc, self.stage);
        match word {
            "passes" => self.passes.tell(&mut self.printer),
            "collect" => tell_left(&mut self.printer, &stage.collect(rt, alloc)),
            "order" => {
                let _order = tell_order(&mut self.printer, stage.order(rt, alloc));
            }
            "scan_order" => {
                let _order = tell_scan_order(&mut self.printer, stage.scan_order(rt, alloc));
            }
            "job" => tell_job(&mut self.printer, stage.running_job(rt)),
            "close_workers" => stage.close(rt),
            "closed" => self.printer.answer(stage.is_closed(rt)),
            _ => return false,
        }
        true
    }

    /// A channel of orders to the thread that scans.
    fn channel(&mut self) -> Result<Receiver<ScanOrder>, Fault> {
        match crossbeam_channel::unbounded(self.alloc) {
            Ok((sender, orders)) => {
                self.orders = Some(sender);
                Ok(orders)
            }
            Err(_) => Err(Fault::NoMemory),
        }
    }

    /// Sends the scan the order of the job that runs.
    fn send(&mut self) -> Result<(), Fault> {
        let order = self.scan_order()?;
        match &self.orders {
            Some(orders) => orders.send(self.rt, order).or(Err(Fault::NoThread)),
            None => Err(Fault::NoThread),
        }
    }
}

impl<
    's,
    C: Ledger + Send + Sync + 's,
    P: Ledger + Send + Sync + 's,
    S: Ledger + Send + Sync + 's,
    R: Threads + Wait + Clock + Sync + 's,
> Session<'s, C, P, S, R> {
    /// Starts a thread that serves `PLACE EVENT ; EVENT ..`.
    fn start_other<E: 's>(
        &mut self,
        scope: &Scope<'s, E>,
        words: &str,
    ) -> Result<Other<C, P, S>, Fault> {
        let (place, text) = first_number(words)?;
        let text = String::from_str(self.alloc, text)?;
        let pass = self.passes.take(place)?;
        let (rt, alloc, stage) = (self.rt, self.alloc, self.stage);
        let thread = move || serve_all(rt, alloc, stage, pass, text.as_str());
        Ok((place, scope.spawn(thread).or(Err(Fault::NoThread))?))
    }

    /// Two threads serve events at once: `PLACE EVENT ; EVENT .. | PLACE EVENT ; EVENT ..`.
    fn serve_at_once<E: 's>(&mut self, scope: &Scope<'s, E>, words: &str) -> Result<(), Fault> {
        let (mine, other) = words.split_once(" | ").ok_or(Fault::NoDirective)?;
        let (place, text) = first_number(mine)?;
        let pass = self.passes.take(place)?;
        let (other_place, thread) = self.start_other(scope, other)?;
        let first = serve_all(self.rt, self.alloc, self.stage, pass, text);
        let second = thread.join(self.rt);
        tell_both(&mut self.printer, &first, &second);
        self.passes.put(place, first.pass);
        self.passes.put(other_place, second.pass);
        Ok(())
    }

    /// Starts the player's thread with the pass of a place.
    fn begin_player<E: 's>(&mut self, scope: &Scope<'s, E>, word: &str) -> Result<(), Fault> {
        let place = number(word)?;
        let pass = self.passes.take(place)?;
        let (rt, host, stage, stand) = (self.rt, self.host, self.stage, self.player.stand);
        let thread = move || play(rt, host, stage, stand, pass);
        let started = scope.spawn(thread).or(Err(Fault::NoThread));
        self.player.keep(place, started)
    }

    /// Starts the scan's thread with the pass of a place.
    fn begin_scan<E: 's>(&mut self, scope: &Scope<'s, E>, word: &str) -> Result<(), Fault> {
        let place = number(word)?;
        let orders = self.channel()?;
        let pass = self.passes.take(place)?;
        let (rt, host, stage, stand) = (self.rt, self.host, self.stage, self.scan.stand);
        let thread = move || scan(rt, host, stage, stand, (pass, orders));
        let started = scope.spawn(thread).or(Err(Fault::NoThread));
        self.scan.keep(place, started)
    }

    fn take_player<E: 's>(&mut self, scope: &Scope<'s, E>, words: &str) -> Result<(), Fault> {
        let (word, rest) = first_word(words);
        match word {
            "start" => self.begin_player(scope, rest),
            "end" => self.player.end(self.rt, &mut self.passes),
            _ => take_stand(self.player.stand, &mut self.printer, word, rest),
        }
    }

    fn take_scan<E: 's>(&mut self, scope: &Scope<'s, E>, words: &str) -> Result<(), Fault> {
        let (word, rest) = first_word(words);
        match word {
            "start" => self.begin_scan(scope, rest),
            "send" => self.send(),
            "hang_up" => {
                self.hang_up();
                Ok(())
            }
            "end" => self.scan.end(self.rt, &mut self.passes),
            _ => take_stand(self.scan.stand, &mut self.printer, word, rest),
        }
    }

    /// Does what a line asks for.
    pub fn take_line<E: 's>(&mut self, scope: &Scope<'s, E>, line: &str) -> Result<(), Fault> {
        let (word, rest) = first_word(line);
        match word {
            "player" => self.take_player(scope, rest),
            "scan" => self.take_scan(scope, rest),
            "at_once" => self.serve_at_once(scope, rest),
            _ if self.look(word) => Ok(()),
            _ => self.make(word, rest),
        }
    }
}

/// Prints the numbers of events of two threads, rising.
fn tell_events(printer: &mut Printer, mine: &[u64], others: &[u64]) {
    let mut events = Vec::new(printer.alloc);
    if events.extend_from_slice(mine).is_err()
        || events.extend_from_slice(others).is_err()
        || events.sort().is_err()
    {
        printer.lack();
    }
    printer.add(b"events");
    for event in events.as_slice() {
        printer.next(*event);
    }
    printer.add(b"\n");
}

/// Prints the numbers of the events of two threads, and the outputs of the first and then of the second.
fn tell_both<C: Ledger, P: Ledger, S: Ledger>(
    printer: &mut Printer,
    first: &Done<C, P, S>,
    second: &Done<C, P, S>,
) {
    tell_events(printer, &first.events, &second.events);
    printer.add(first.printer.bytes());
    printer.add(second.printer.bytes());
}
