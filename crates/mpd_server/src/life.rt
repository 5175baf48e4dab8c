// A life of the daemon: the time from one opening of the journal to the end of its threads.
ghost use Rattle.std.specs.Prelude.{◌≡◌, ◌≤◌, vec_len, vec_capacity};
ghost use Rattle.std.specs.Thread.{IsSend, IsSync};

use crate::ending::{Life, ServeStatus};
use crate::ends::Ends;
use crate::failures::{NotedFolder, Opening, ToldWake};
use crate::jobs::Jobs;
use crate::looping::{Turns, run_loop};
use crate::pictures::{PictureEnds, open_line, read_pictures};
use crate::tally::TalliedFolder;
use crate::workers::{Signals, Stop, Tools};
use crossbeam_channel::Receiver;
use disk_model::Disk;
use live_stage::{Live, Receipt};
use log::{Log, warn};
use mio_clients::{Clients, Listener, Ready, Stream};
use profile::Profile;
use song_db::ScanOrder;
use song_files::Folder;
use song_output::{OpenGate, SoundOutput};
use stage_workers::{
    Blanks, Kind, Pass, PassesSpent, SharedStage, Wake, Worker, player_worker, resume_player,
    scan_worker,
};
use std::alloc::Global;
use std::cell::Cell;
use std::io::Write;
use std::marker::Brand;
use std::sync::Wait;
use std::sync::ledger::{Blank, Ledger};
use std::thread;
use std::thread::{JoinHandle, Scope, Threads};
use std::time::Clock;

// A pass of each kind.
#[derive(Drop)]
struct Passes<C: Ledger, P: Ledger, S: Ledger> {
    clients: Pass<C, P, S>,
    player: Pass<C, P, S>,
    scan: Pass<C, P, S>,
}

impl<C: Ledger, P: Ledger, S: Ledger> Passes<C, P, S> {
    fn of<D: Disk, R: Wait>(
        rt: &R,
        stage: &SharedStage<D, C, P, S>,
    ) -> Result<Passes<C, P, S>, PassesSpent> {
        Ok(Passes {
            clients: stage.pass(rt, Kind::Clients)?,
            player: stage.pass(rt, Kind::Player)?,
            scan: stage.pass(rt, Kind::Scan)?,
        })
    }

    // The player goes on from where it was kept, if it is to.
    fn resumed<D: Disk, H, K: Wake, R: Wait + Clock>(
        self,
        rt: &R,
        alloc: Global,
        stage: &SharedStage<D, C, P, S>,
        signals: &Signals<H, K>,
    ) -> Passes<C, P, S> {
        let Some(plays) = signals.resuming.plays else {
            return self;
        };
        let worker = Worker {
            rt,
            alloc,
            stage,
            wake: &signals.wake,
        };
        let Passes {
            clients,
            player,
            scan,
        } = self;
        Passes {
            clients,
            player: resume_player(&worker, player, plays),
            scan,
        }
    }
}

// What the player's thread hands back.
type Played<C, P, S, F, W> = (Pass<C, P, S>, F, SoundOutput<W>);

// What came of the threads: the turns of the loop, and the passes that came back, with what the threads had.
#[derive(Drop)]
struct Worked<C: Ledger, P: Ledger, S: Ledger, F, G, W> {
    turns: Turns,
    clients: Pass<C, P, S>,
    player: Option<Played<C, P, S, F, W>>,
    scan: Option<(Pass<C, P, S>, G)>,
    pictures: Option<G>,
}

// What the threads handed back, and the receipt that was given out last.
type Returned<F, G, W> = (Option<Tools<F, G, W>>, Option<Receipt>);

impl<C: Ledger, P: Ledger, S: Ledger, F: Drop, G: Drop, W: Drop> Worked<C, P, S, F, G, W> {
    // All passes that came back, into an empty list with room for three. There are no tools where the player's or the scan's thread was
    // not made.
    fn into_passes(self, passes: &mut Vec<Pass<C, P, S>>) -> Returned<F, G, W>
        requires empty { vec_len passes.old ≡ 0 }
        requires room { 3 ≤ vec_capacity passes.old }
    {
        let Worked {
            turns,
            clients,
            player,
            scan,
            pictures,
        } = self;
        passes.push_reserved(clients);
        let mut played = None;
        if let Some((pass, sources, output)) = player {
            passes.push_reserved(pass);
            played = Some((sources, output));
        }
        let mut read = None;
        if let Some((pass, folder)) = scan {
            passes.push_reserved(pass);
            read = Some(folder);
        }
        let tools = match (played, read) {
            (Some((sources, output)), Some(folder)) => Some(Tools {
                sources,
                folder,
                pictures,
                output,
            }),
            _ => None,
        };
        (tools, turns.receipt)
    }
}

// The player's thread. It hands back what it was given.
fn play<
    D: Disk,
    C: Ledger,
    P: Ledger,
    S: Ledger,
    F: Folder,
    W: Write,
    K: Wake,
    R: Wait + Clock + Log,
>(
    rt: &R,
    alloc: Global,
    stage: &SharedStage<D, C, P, S>,
    (wake, ends, profile, place_every): (&K, &Ends, Profile, u32),
    pass: Pass<C, P, S>,
    sources: F,
    mut output: SoundOutput<W>,
) -> Played<C, P, S, F, W> {
    let opening = Cell::new(Opening::Opened);
    let told = ToldWake::new(rt, wake, profile, &opening);
    let worker = Worker {
        rt,
        alloc,
        stage,
        wake: &told,
    };
    let mut noted = NotedFolder {
        files: sources,
        opening: &opening,
    };
    let pass = player_worker(
        &worker,
        pass,
        &OpenGate,
        &mut noted,
        &mut output,
        place_every,
    );
    ends.player_ended(rt);
    let NotedFolder { files, opening: _ } = noted;
    (pass, files, output)
}

// The scan's thread. It hands back what it was given.
fn read<D: Disk, C: Ledger, P: Ledger, S: Ledger, F: Folder, K: Wake, R: Wait + Clock + Log>(
    rt: &R,
    alloc: Global,
    stage: &SharedStage<D, C, P, S>,
    (wake, ends): (&K, &Ends),
    pass: Pass<C, P, S>,
    folder: F,
    orders: Receiver<ScanOrder>,
) -> (Pass<C, P, S>, F) {
    let worker = Worker {
        rt,
        alloc,
        stage,
        wake,
    };
    let folder = TalliedFolder::new(rt, folder);
    let (pass, folder) = scan_worker(&worker, pass, folder, &orders);
    ends.scan_ended(rt);
    (pass, folder.into_files())
}

// Starts the player's thread; none where it can't be made. (Its closure is of few types here, which the prover goes through.)
fn start_player<
    's,
    E: 's,
    D: Disk + Send + 's,
    C: Ledger + Send + Sync + 's,
    P: Ledger + Send + Sync + 's,
    S: Ledger + Send + Sync + 's,
    F: Folder + Send + Drop + 's,
    W: Write + Send + Drop + 's,
    K: Wake + Sync + 's,
    R: Wait + Clock + Log + Sync + 's,
>(
    scope: &Scope<'s, E>,
    rt: &'s R,
    alloc: Global,
    stage: &'s SharedStage<D, C, P, S>,
    (wake, ends, profile, place_every): (&'s K, &'s Ends, Profile, u32),
    pass: Pass<C, P, S>,
    sources: F,
    output: SoundOutput<W>,
) -> Option<JoinHandle<Played<C, P, S, F, W>>>
where
    F::File: Send,
{
    let thread = move || play(
        rt,
        alloc,
        stage,
        (wake, ends, profile, place_every),
        pass,
        sources,
        output,
    );
    scope.spawn(thread).ok()
}

// Starts the scan's thread; none where it can't be made.
fn start_scan<
    's,
    E: 's,
    D: Disk + Send + 's,
    C: Ledger + Send + Sync + 's,
    P: Ledger + Send + Sync + 's,
    S: Ledger + Send + Sync + 's,
    F: Folder + Send + Drop + 's,
    K: Wake + Sync + 's,
    R: Wait + Clock + Log + Sync + 's,
>(
    scope: &Scope<'s, E>,
    rt: &'s R,
    alloc: Global,
    stage: &'s SharedStage<D, C, P, S>,
    (wake, ends): (&'s K, &'s Ends),
    pass: Pass<C, P, S>,
    folder: F,
    orders: Receiver<ScanOrder>,
) -> Option<JoinHandle<(Pass<C, P, S>, F)>>
where
    F::File: Send,
{
    let thread = move || read(rt, alloc, stage, (wake, ends), pass, folder, orders);
    scope.spawn(thread).ok()
}

// Starts the thread of the pictures; none where it can't be made.
fn spawn_pictures<
    's,
    E: 's,
    F: Folder + Send + Drop + 's,
    K: Wake + Sync + 's,
    R: Wait + Clock + Sync + 's,
>(
    scope: &Scope<'s, E>,
    rt: &'s R,
    alloc: Global,
    (wake, ends): (&'s K, &'s Ends),
    folder: F,
    line: PictureEnds,
) -> Option<JoinHandle<F>>
where
    F::File: Send,
{
    let thread = move || read_pictures(rt, alloc, (wake, ends), folder, line);
    scope.spawn(thread).ok()
}

// Under the wide profile has pictures read in a thread of their own. Where it can't be made, or there is no folder for it, each request for
// a picture is refused.
fn start_pictures<
    's,
    E: 's,
    T: Stream,
    L: Listener<T>,
    Y: Ready<T>,
    F: Folder + Send + Drop + 's,
    K: Wake + Sync + 's,
    R: Wait + Clock + Log + Sync + 's,
>(
    scope: &Scope<'s, E>,
    rt: &'s R,
    alloc: Global,
    clients: &mut Clients<T, L, Y>,
    (wake, ends, profile): (&'s K, &'s Ends, Profile),
    folder: Option<F>,
) -> Option<JoinHandle<F>>
where
    F::File: Send,
{
    if profile == Profile::Named {
        return None;
    }
    let Ok(line) = open_line(alloc, clients) else {
        warn!(rt; "no memory for the reader of pictures: none is told");
        return None;
    };
    // Without a thread the line ends here, which the clients see.
    let folder = folder?;
    ends.pictures_begin(rt);
    let thread = spawn_pictures(scope, rt, alloc, (wake, ends), folder, line);
    if thread.is_none() {
        ends.pictures_ended(rt);
        warn!(rt; "no thread for the reader of pictures: none is told");
    }
    thread
}

// Runs the loop in this thread, and the player, the scan and the pictures in threads of their own, until the loop ends.
fn work<
    'a,
    D: Disk + Send,
    C: Ledger + Send + Sync,
    P: Ledger + Send + Sync,
    S: Ledger + Send + Sync,
    T: Stream,
    L: Listener<T>,
    Y: Ready<T>,
    F: Folder + Send + Drop,
    G: Folder + Send + Drop,
    W: Write + Send + Drop,
    H: Stop,
    K: Wake + Sync,
    R: Threads + Wait + Clock + Log + Sync,
>(
    rt: &'a R,
    alloc: Global,
    stage: &'a SharedStage<D, C, P, S>,
    passes: Passes<C, P, S>,
    clients: &'a mut Clients<T, L, Y>,
    (tools, signals, ends): (Tools<F, G, W>, &'a Signals<H, K>, &'a Ends),
    (profile, jobs, orders): (Profile, Jobs, Receiver<ScanOrder>),
) -> Worked<C, P, S, F, G, W>
where
    F::File: Send,
    G::File: Send,
{
    let Tools {
        sources,
        folder,
        pictures,
        output,
    } = tools;
    let wake = (&signals.wake, ends);
    let stop = &signals.stop;
    let place_every = signals.resuming.place_every;
    thread::scope(
        thread::scope_env(),
        rt,
        move |scope|
            requires disk { IsSend D.row }
            requires clients { IsSend C.row × IsSync C.row }
            requires player { IsSend P.row × IsSync P.row }
            requires scan { IsSend S.row × IsSync S.row }
            requires sources { IsSend F.row × IsSend F.File.row }
            requires folder { IsSend G.row × IsSend G.File.row }
            requires output { IsSend W.row }
            requires rest { IsSync K.row × IsSync R.row }
        {
            let Passes {
                clients: mine,
                player,
                scan,
            } = passes;
            let (waker, ends) = wake;
            let player = start_player(
                scope,
                rt,
                alloc,
                stage,
                (waker, ends, profile, place_every),
                player,
                sources,
                output,
            );
            let scan = start_scan(scope, rt, alloc, stage, wake, scan, folder, orders);
            let told = (waker, ends, profile);
            let pictures = start_pictures(scope, rt, alloc, clients, told, pictures);
            let (turns, mine) = if player.is_some() && scan.is_some() {
                run_loop(rt, alloc, profile, stage, mine, clients, jobs)
            } else {
                // A scan's thread ends where nobody is left who could send it an order.
                drop(jobs);
                ends.none_begun(rt, player.is_none(), scan.is_none());
                (Turns::none(), mine)
            };
            stage.close(rt);
            stop.stop();
            match profile {
                Profile::Named => {}
                // A client that waits for a picture is closed, and its reader ends.
                Profile::Wide => clients.close_all(),
            }
            ends.tell_late(rt);
            Worked {
                turns,
                clients: mine,
                player: player.map(|thread| thread.join(rt)),
                scan: scan.map(|thread| thread.join(rt)),
                pictures: pictures.map(|thread| thread.join(rt)),
            }
        },
    )
}

// Shares the stage until the loop ends, and settles it. What the threads had comes back with it, where the player's and the scan's were
// made.
fn live_shared<
    D: Disk + Send,
    C: Ledger + Send + Sync,
    P: Ledger + Send + Sync,
    S: Ledger + Send + Sync,
    T: Stream,
    L: Listener<T>,
    Y: Ready<T>,
    F: Folder + Send + Drop,
    G: Folder + Send + Drop,
    W: Write + Send + Drop,
    H: Stop,
    K: Wake + Sync,
    R: Threads + Wait + Clock + Log + Sync,
>(
    rt: &R,
    alloc: Global,
    live: Live<D>,
    blanks: Blanks,
    clients: &mut Clients<T, L, Y>,
    tools: Tools<F, G, W>,
    signals: &Signals<H, K>,
) -> (Life<D>, Option<Tools<F, G, W>>)
where
    F::File: Send,
    G::File: Send,
    requires first { live.numbers.event ≡ 0 }
    requires clients { (blanks.clients.name ≡ C.name) × (blanks.clients.parts ≡ C.parts) × (blanks.clients.parts ≡ 65537) }
    requires player { (blanks.player.name ≡ P.name) × (blanks.player.parts ≡ P.parts) × (blanks.player.parts ≡ 65537) }
    requires scan { (blanks.scan.name ≡ S.name) × (blanks.scan.parts ≡ S.parts) × (blanks.scan.parts ≡ 65537) }
{
    let mut returned = match Vec::with_capacity(alloc, 3) {
        Ok(returned) => returned,
        Err(_) => {
            let life = Life::ended(live, ServeStatus::JournalRefused(7), false);
            return (life, Some(tools));
        }
    };
    let (sender, orders) = match crossbeam_channel::unbounded(alloc) {
        Ok(ends) => ends,
        Err(_) => {
            let life = Life::ended(live, ServeStatus::JournalRefused(7), false);
            return (life, Some(tools));
        }
    };
    let profile = live.profile();
    let stage = SharedStage::<D, C, P, S>::new(alloc, live, blanks);
    let mut status = ServeStatus::NoThread;
    let mut is_ended = false;
    let mut back = (None, None);
    if let Ok(passes) = Passes::of(rt, &stage) {
        let ends = Ends::none();
        let jobs = (profile, Jobs::new(sender, signals.rules), orders);
        let passes = passes.resumed(rt, alloc, &stage, signals);
        let tools = (tools, signals, &ends);
        let worked = work(rt, alloc, &stage, passes, clients, tools, jobs);
        is_ended = worked.turns.is_ended;
        back = worked.into_passes(&mut returned);
        if back.0.is_some() {
            status = ServeStatus::Killed;
        }
    }
    let (tools, receipt) = back;
    let live = settled(rt, stage, returned, receipt);
    (Life::ended(live, status, is_ended), tools)
}

// Takes the stage back; what doesn't add up is told.
fn settled<D: Disk, C: Ledger, P: Ledger, S: Ledger, R: Log>(
    rt: &R,
    stage: SharedStage<D, C, P, S>,
    passes: Vec<Pass<C, P, S>>,
    receipt: Option<Receipt>,
) -> Live<D> {
    let settled = match receipt {
        Some(receipt) => stage.settle(passes, &[receipt]),
        None => stage.settle(passes, &[]),
    };
    match settled {
        Ok(live) => live,
        Err((refusal, live)) => {
            warn!(rt; "not settled: {}: {refusal}", refusal.number());
            live
        }
    }
}

/// Lives on a stage that has had no event, until a client ends the daemon or a disk fails.
///
/// What the threads take with them comes back, unless one of them was not made.
pub(crate) fn live_once<
    D: Disk + Send,
    T: Stream,
    L: Listener<T>,
    Y: Ready<T>,
    F: Folder + Send + Drop,
    G: Folder + Send + Drop,
    W: Write + Send + Drop,
    H: Stop,
    K: Wake + Sync,
    R: Threads + Wait + Clock + Log + Sync,
>(
    rt: &R,
    alloc: Global,
    live: Live<D>,
    clients: &mut Clients<T, L, Y>,
    tools: Tools<F, G, W>,
    signals: &Signals<H, K>,
) -> (Life<D>, Option<Tools<F, G, W>>)
where
    F::File: Send,
    G::File: Send,
    requires first { live.numbers.event ≡ 0 }
{
    let blanks = Blanks {
        clients: Blank::new(65_537),
        player: Blank::new(65_537),
        scan: Blank::new(65_537),
    };
    signals.stop.resume();
    live_shared::<D, Brand, Brand, Brand, T, L, Y, F, G, W, H, K, R>(
        rt, alloc, live, blanks, clients, tools, signals,
    )
}
