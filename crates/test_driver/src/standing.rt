//! A loop over a stage, from its begin until the stage is settled.
ghost use Rattle.std.specs.Prelude.{◌≡◌};

use crate::beside::Beside;
use crate::calls::{Settled, begun};
use crate::looped::{Looped, take_line};
use crate::passes::Passes;
use crate::shown::tell_settled;
use crate::sound::Sound;
use crate::turns::{TestClients, new_clients};
use driver_base::{Desk, Fault, Lines, TestDisk, write_out};
use live_stage::{Live, Refused};
use stage_workers::{Blanks, SharedStage};
use std::io::BufRead;
use std::marker::Brand;
use std::sync::Wait;
use std::sync::ledger::{Blank, Ledger};
use std::time::Clock;

// Writes what the first line printed, and serves lines up to the one that ends the stage; `false` where the input ends before.
fn serve<C: Ledger, P: Ledger, S: Ledger, R: BufRead, W: Wait + Clock>(
    rt: &HostRuntime,
    waits: &W,
    looped: &mut Looped<C, P, S>,
    beside: &mut Beside,
    lines: &mut Lines<R>,
) -> Result<bool, Fault> {
    looped.take_passes(waits, &mut beside.printer)?;
    for _ in 0..u64::MAX {
        write_out(rt, &mut beside.printer)?;
        if !lines.next()? {
            break;
        }
        if lines.line() == "settle" {
            return Ok(true);
        }
        take_line(waits, rt, looped, beside, lines.line())?;
    }
    Ok(false)
}

// What serving a stage's lines came to, and its end.
type Stood = (Result<bool, Fault>, Result<Settled, Fault>);

// Shares a stage, and serves its lines.
fn stand<C: Ledger, P: Ledger, S: Ledger, R: BufRead, W: Wait + Clock>(
    rt: &HostRuntime,
    waits: &W,
    live: Live<TestDisk>,
    blanks: Blanks,
    clients: TestClients,
    beside: &mut Beside,
    lines: &mut Lines<R>,
) -> Stood
    requires first { live.numbers.event ≡ 0 }
    requires clients { (blanks.clients.name ≡ C.name) × (blanks.clients.parts ≡ C.parts) × (blanks.clients.parts ≡ 65537) }
    requires player { (blanks.player.name ≡ P.name) × (blanks.player.parts ≡ P.parts) × (blanks.player.parts ≡ 65537) }
    requires scan { (blanks.scan.name ≡ S.name) × (blanks.scan.parts ≡ S.parts) × (blanks.scan.parts ≡ 65537) }
{
    let mut looped = Looped {
        stage: SharedStage::<TestDisk, C, P, S>::new(rt.alloc(), live, blanks),
        clients,
        passes: Passes::new(rt.alloc()),
        receipt: None,
        sound: Sound::new(rt.alloc()),
    };
    let served = serve(rt, waits, &mut looped, beside, lines);
    let settled = looped.settle(rt.alloc());
    (served, settled)
}

// Shares a stage by ledgers of its own, and serves its lines.
fn share<R: BufRead, W: Wait + Clock>(
    rt: &HostRuntime,
    waits: &W,
    live: Live<TestDisk>,
    beside: &mut Beside,
    lines: &mut Lines<R>,
) -> Result<Stood, Fault>
    requires first { live.numbers.event ≡ 0 }
{
    let clients = new_clients(rt.alloc())?;
    let blanks = Blanks {
        clients: Blank::new(65_537),
        player: Blank::new(65_537),
        scan: Blank::new(65_537),
    };
    let stood = stand::<Brand, Brand, Brand, R, W>(rt, waits, live, blanks, clients, beside, lines);
    Ok(stood)
}

// Serves the lines of a stage, and prints how it ends; `false` where the input ends before.
fn serve_stage<R: BufRead, W: Wait + Clock>(
    rt: &HostRuntime,
    waits: &W,
    desk: &mut Desk,
    live: Live<TestDisk>,
    beside: &mut Beside,
    lines: &mut Lines<R>,
) -> Result<bool, Fault>
    requires first { live.numbers.event ≡ 0 }
{
    let (served, settled) = share(rt, waits, live, beside, lines)?;
    let (refusal, live) = settled?;
    tell_settled(&mut desk.printer, refusal, &live);
    let (a, b) = live.into_disks();
    desk.put_back(a, b);
    served
}

/// A loop over a stage, made or opened, until it is settled; prints how it ends. `false` where the input ends before.
pub fn loop_once<R: BufRead, W: Wait + Clock>(
    rt: &HostRuntime,
    waits: &W,
    desk: &mut Desk,
    is_new: bool,
    lines: &mut Lines<R>,
) -> Result<bool, Fault> {
    let mut beside = Beside::new(rt.alloc());
    let (a, b) = desk.take_disks();
    match begun(rt.alloc(), desk.profile, a, b, is_new) {
        Ok(live) => serve_stage(rt, waits, desk, live, &mut beside, lines),
        Err(Refused { error, a, b }) => {
            desk.refuse(error.number(), error, a, b);
            Ok(true)
        }
    }
}
