// The daemon: a life, and after its first disk fault another.
ghost use Rattle.std.specs.Prelude.{◌≡◌, IfOk};

use crate::ending::{Life, ServeEnd};
use crate::life::live_once;
use crate::opening::{Opened, open_life};
use crate::workers::{Stop, Workers};
use disk_model::Disk;
use live_stage::Live;
use log::{Log, warn};
use mio_clients::{Clients, Listener, Ready, Stream};
use profile::Profile;
use song_files::Folder;
use stage_workers::Wake;
use std::alloc::Global;
use std::io::Write;
use std::sync::Wait;
use std::thread::Threads;
use std::time::Clock;

/// Serves clients over an opened journal until one of them ends the daemon; songs are played and scanned meanwhile, in two threads, and
/// pictures read in a third.
///
/// After the first disk fault all clients are closed, the threads end, and the journal is opened again. A second one ends the daemon; so
/// does the first where a disk failed at the opening already, or where a thread could not be made.
pub fn serve<
    D: Disk + Send,
    T: Stream,
    L: Listener<T>,
    Y: Ready<T>,
    F: Folder + Send + Drop,
    G: Folder + Send + Drop,
    W: Write + Send + Drop,
    H: Stop + Drop,
    K: Wake + Sync + Drop,
    R: Threads + Wait + Clock + Log + Sync,
>(
    rt: &R,
    alloc: Global,
    opened: Opened<D>,
    clients: &mut Clients<T, L, Y>,
    workers: Workers<F, G, W, H, K>,
) -> ServeEnd<D>
where
    F::File: Send,
    G::File: Send,
    requires { opened.live.numbers.event ≡ 0 }
{
    let (live, is_second) = opened.into_parts();
    let profile = live.profile();
    let (tools, signals) = workers.divided();
    let (first, tools) = live_once(rt, alloc, live, clients, tools, &signals);
    if is_second || !first.is_faulted() {
        return first.last();
    }
    let Some(tools) = tools else {
        return first.last();
    };
    warn!(rt; "disk fault: all clients are closed, and the journal is opened again");
    clients.close_all();
    match second_life(alloc, profile, first) {
        Ok(live) => {
            let (second, _) = live_once(rt, alloc, live, clients, tools, &signals);
            second.last()
        }
        Err(second) => second.last(),
    }
}

// Opens the journal again behind a life that a disk fault ended, under the profile of that life.
fn second_life<D: Disk>(alloc: Global, profile: Profile, first: Life<D>) -> Result<Live<D>, Life<D>>
    ensures profile { IfOk result (λ live. live.state.machine.saved.profile ≡ profile) }
    ensures fresh { IfOk result (λ live. live.numbers.event ≡ 0) }
{
    let Life { ending: _, a, b } = first;
    open_life(alloc, profile, a, b)
}
