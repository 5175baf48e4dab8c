//! A stage that is shared from its begin until it is settled.
ghost use Rattle.std.specs.Prelude.{◌≡◌};
ghost use Rattle.std.specs.Thread.{IsSend, IsSync};

use crate::calls::{Settled, Stage, begun, settled};
use crate::passes::Passes;
use crate::session::Session;
use crate::shown::tell_settled;
use crate::stand::Stand;
use driver_base::words::number;
use driver_base::{Desk, Fault, Lines, TestDisk, write_out};
use live_stage::{Live, Receipt, Refused};
use stage_workers::{Blanks, Pass};
use std::alloc::Global;
use std::io::BufRead;
use std::marker::Brand;
use std::sync::Wait;
use std::sync::ledger::{Blank, Ledger};
use std::thread::{Scope, Threads};
use std::time::Clock;
use std::{mem, thread};

/// What a session comes to: its passes, and the receipts that are compared.
type Ended<C, P, S> = Result<(Vec<Pass<C, P, S>>, Vec<Receipt>), Fault>;

/// A receipt, as `EVENT` or `EVENT:RECORD`.
fn receipt_of(word: &str) -> Result<Receipt, Fault> {
    match word.split_once(':') {
        Some((event, record)) => Ok(Receipt {
            event: number(event)?,
            number: Some(number(record)?),
        }),
        None => Ok(Receipt {
            event: number(word)?,
            number: None,
        }),
    }
}

fn receipts_of(alloc: Global, words: &str) -> Result<Vec<Receipt>, Fault> {
    let mut receipts = Vec::new(alloc);
    for word in words.split_whitespace() {
        receipts.push(receipt_of(word)?)?;
    }
    Ok(receipts)
}

/// Does what the lines ask for up to `settle`, behind which the receipts stand.
fn take_lines<
    's,
    E: 's,
    C: Ledger + Send + Sync + 's,
    P: Ledger + Send + Sync + 's,
    S: Ledger + Send + Sync + 's,
    R: Threads + Wait + Clock + Sync + 's,
    B: BufRead,
>(
    scope: &Scope<'s, E>,
    host: &'s HostRuntime,
    session: &mut Session<'s, C, P, S, R>,
    lines: &mut Lines<B>,
) -> Result<Vec<Receipt>, Fault> {
    for _ in 0..u64::MAX {
        write_out(host, &mut session.printer)?;
        if !lines.next()? {
            break;
        }
        let line = lines.line();
        if let Some(words) = line.strip_prefix("settle") {
            return receipts_of(host.alloc(), words);
        }
        session.take_line(scope, line)?;
    }
    Err(Fault::NoDirective)
}

/// What a session comes to whose lines ended so.
fn ended<C: Ledger, P: Ledger, S: Ledger>(
    alloc: Global,
    passes: Passes<C, P, S>,
    receipts: Result<Vec<Receipt>, Fault>,
) -> Ended<C, P, S> {
    let receipts = receipts?;
    let passes = passes.into_vec(alloc)?;
    Ok((passes, receipts))
}

/// Does what the lines ask for, and lets the threads end.
fn take_all<
    's,
    E: 's,
    C: Ledger + Send + Sync + 's,
    P: Ledger + Send + Sync + 's,
    S: Ledger + Send + Sync + 's,
    R: Threads + Wait + Clock + Sync + 's,
    B: BufRead,
>(
    scope: &Scope<'s, E>,
    host: &'s HostRuntime,
    mut session: Session<'s, C, P, S, R>,
    lines: &mut Lines<B>,
) -> Ended<C, P, S> {
    let receipts = take_lines(scope, host, &mut session, lines);
    session.free();
    let passes = mem::replace(&mut session.passes, Passes::new(host.alloc()));
    ended(host.alloc(), passes, receipts)
}

/// Shares the stage with threads until the lines settle it.
fn work<
    'a,
    C: Ledger + Send + Sync,
    P: Ledger + Send + Sync,
    S: Ledger + Send + Sync,
    R: Threads + Wait + Clock + Sync,
    B: BufRead,
>(
    rt: &'a R,
    host: &'a HostRuntime,
    session: Session<'a, C, P, S, R>,
    lines: &mut Lines<B>,
) -> Ended<C, P, S> {
    thread::scope(
        thread::scope_env(),
        rt,
        move |scope|
            requires clients { IsSend C.row × IsSync C.row }
            requires player { IsSend P.row × IsSync P.row }
            requires scan { IsSend S.row × IsSync S.row }
            requires rest { IsSync R.row }
        { take_all(scope, host, session, lines) },
    )
}

/// Shares a stage until it is settled.
fn live_shared<
    C: Ledger + Send + Sync,
    P: Ledger + Send + Sync,
    S: Ledger + Send + Sync,
    R: Threads + Wait + Clock + Sync,
    B: BufRead,
>(
    rt: &R,
    host: &HostRuntime,
    live: Live<TestDisk>,
    blanks: Blanks,
    lines: &mut Lines<B>,
) -> Result<Settled, Fault>
    requires first { live.numbers.event ≡ 0 }
    requires clients { (blanks.clients.name ≡ C.name) × (blanks.clients.parts ≡ C.parts) × (blanks.clients.parts ≡ 65537) }
    requires player { (blanks.player.name ≡ P.name) × (blanks.player.parts ≡ P.parts) × (blanks.player.parts ≡ 65537) }
    requires scan { (blanks.scan.name ≡ S.name) × (blanks.scan.parts ≡ S.parts) × (blanks.scan.parts ≡ 65537) }
{
    let alloc = host.alloc();
    let stage = Stage::<C, P, S>::new(alloc, live, blanks);
    let player = Stand::new(rt, alloc);
    let scan = Stand::new(rt, alloc);
    let session = Session::new(rt, host, &stage, &player, &scan);
    let ended = work(rt, host, session, lines);
    settle(stage, ended)
}

/// Settles a stage.
fn settle<C: Ledger, P: Ledger, S: Ledger>(
    stage: Stage<C, P, S>,
    ended: Ended<C, P, S>,
) -> Result<Settled, Fault> {
    match ended {
        Ok((passes, receipts)) => Ok(settled(stage, passes, &receipts)),
        Err(fault) => Err(fault),
    }
}

/// A stage lives until it is settled.
fn live_on<R: Threads + Wait + Clock + Sync, B: BufRead>(
    rt: &R,
    host: &HostRuntime,
    live: Live<TestDisk>,
    lines: &mut Lines<B>,
) -> Result<Settled, Fault>
    requires first { live.numbers.event ≡ 0 }
{
    let blanks = Blanks {
        clients: Blank::new(65_537),
        player: Blank::new(65_537),
        scan: Blank::new(65_537),
    };
    live_shared::<Brand, Brand, Brand, R, B>(rt, host, live, blanks, lines)
}

/// A stage over the files of the desk, made or opened, until it is settled; prints how it ends.
pub fn live_once<R: Threads + Wait + Clock + Sync, B: BufRead>(
    rt: &R,
    host: &HostRuntime,
    desk: &mut Desk,
    is_new: bool,
    lines: &mut Lines<B>,
) -> Result<(), Fault> {
    let (a, b) = desk.take_disks();
    match begun(host.alloc(), desk.profile, a, b, is_new) {
        Ok(live) => {
            let (refusal, live) = live_on(rt, host, live, lines)?;
            tell_settled(&mut desk.printer, refusal, &live);
            let (a, b) = live.into_disks();
            desk.put_back(a, b);
        }
        Err(Refused { error, a, b }) => desk.refuse(error.number(), error, a, b),
    }
    Ok(())
}
