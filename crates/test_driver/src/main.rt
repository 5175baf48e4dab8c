//! The driver of scripts: lines, and what each gives, over disks and streams in memory and songs of the present folder.
#![tactic(auto)]

mod arrivals;
mod beside;
mod calls;
mod daemon;
mod hand;
mod kind;
mod life;
mod looped;
mod passes;
mod session;
mod shown;
mod songs;
mod sound;
mod stand;
mod standing;
mod threads;
mod turns;
mod wires;

use daemon::run_daemon;
use driver_base::clients::live_core;
use driver_base::{Driver, Fault, Lines, write_out};
use life::live_once;
use standing::loop_once;
use std::io::{self, BufRead, BufReader};
use std::sync::Wait;
use std::thread::Threads;
use std::time::Clock;

/// Does what a line asks for; behind one that begins a core, a loop, a stage with threads or a daemon also what the lines up to its end ask
/// for. `false` where the input ends before.
fn take_line<R: Threads + Wait + Clock + Sync, B: BufRead>(
    rt: &R,
    host: &HostRuntime,
    driver: &mut Driver,
    lines: &mut Lines<B>,
) -> Result<bool, Fault> {
    if !driver.is_free() {
        driver.take(host, lines.line())?;
        return Ok(true);
    }
    match lines.line() {
        "make_core" => return live_core(host, lines),
        "make_loop" => return loop_once(host, rt, &mut driver.desk, true, lines),
        "open_loop" => return loop_once(host, rt, &mut driver.desk, false, lines),
        "daemon" => return run_daemon(host, rt, &mut driver.desk, lines),
        "make_workers" => live_once(rt, host, &mut driver.desk, true, lines)?,
        "open_workers" => live_once(rt, host, &mut driver.desk, false, lines)?,
        line => driver.take(host, line)?,
    }
    Ok(true)
}

fn take_lines<R: Threads + Wait + Clock + Sync, B: BufRead>(
    rt: &R,
    host: &HostRuntime,
    driver: &mut Driver,
    lines: &mut Lines<B>,
) -> Result<(), Fault> {
    for _ in 0..u64::MAX {
        if !lines.next()? || !take_line(rt, host, driver, lines)? {
            break;
        }
        write_out(host, &mut driver.desk.printer)?;
    }
    Ok(())
}

// The driver has many parts: this function has one way out, and all others borrow it.
fn serve_all<R: Threads + Wait + Clock + Sync, B: BufRead>(
    rt: &R,
    host: &HostRuntime,
    lines: &mut Lines<B>,
) -> Result<(), Fault> {
    let mut driver = Driver::new(host.alloc())?;
    take_lines(rt, host, &mut driver, lines)
}

fn main(rt: HostRuntime) -> io::Result<()> {
    let reader = BufReader::new(rt.alloc(), rt.reader())?;
    let mut lines = Lines::new(rt.alloc(), reader);
    let done = serve_all(&rt, &rt, &mut lines);
    lines.end(&rt, done)
}
