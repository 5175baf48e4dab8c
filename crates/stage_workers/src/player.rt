// The player's thread: it plays what the stage orders, and reports what became of it.
ghost use Rattle.std.specs.Prelude.{◌≡◌, ◌≢◌, ◌+◌, ◌≤◌, ◌↔◌, IsTrue, IfErr, MatchResult};
ghost use Rattle.song_output.specs.declared.open_song.OrderKind.{OrderKind};
ghost use Rattle.song_output.specs.OpenSong.{kind_of, IsOpen};
ghost use Rattle.song_output.specs.Piece.{AppendsFront};
ghost use Rattle.song_output.specs.Sound.{ordered_sound};
ghost use Rattle.stage_workers.specs.Played.{IsShort, IsWholeIfOpen};
ghost use Rattle.stage_workers.specs.Working.{GoesOn, HasWorked, IsUndone};

use crate::worker::{Report, Wake, Worker};
use crate::{Pass, SharedStage, StageError, laws};
use disk_model::Disk;
use live_stage::LiveError;
use player_core::{Order, PlayOrder};
use song_files::Folder;
use song_output::{Gate, OpenSong, Piece, SoundOutput, play_piece};
use std::alloc::Global;
use std::io::Write;
use std::sync::Wait;
use std::sync::ledger::Ledger;
use std::time::Clock;

// So many milliseconds pass before an order where the two before it were short.
const SILENCE: u64 = 100;

impl<D: Disk, C: Ledger, P: Ledger, S: Ledger> SharedStage<D, C, P, S> {
    // Waits for a song to be played, or for the end: none once the stage is closed. It looks and waits under one holding of the lock, so
    // that no order is missed.
    fn next_order<R: Wait>(&self, rt: &R, alloc: Global) -> Result<Option<PlayOrder>, LiveError>
        ensures { IfErr result (λ e. e ≢ LiveError.NumbersSpent) }
    {
        let mut guard = self.locked.lock(rt);
        for _ in rt.forever() {
            if guard.is_closed {
                return Ok(None);
            }
            if let Order::Play(order) = laws::ordered(&*guard, alloc)? {
                return Ok(Some(order));
            }
            guard = self.changed.wait(rt, guard);
        }
        unreachable!()
    }
}

/// Carries out one order: the piece is read, scaled and written without the lock, and then reported. The frames that were written are
/// `Fed`; where the file's last was among them, the song has `Ended`; what can't be read or written is `Broken`, with its cause.
///
/// `song` is what stays open between orders, as for `song_output::play_piece`. A report that finds no memory is made again until it does.
/// It refuses `NoMemory` where opening or reading finds none, and then nothing was written or reported; any other refusal is that of a
/// report, and what was written is not reported then.
///
/// A file that ends before its song's row does has `Ended` at its last frame. Of one that goes on behind its row at most the piece in
/// which the row ends, and one piece more, is played.
#[tactic(auto, using(crate::proofs::Sounding::whole_if_open))]
pub fn play_once<
    D: Disk,
    C: Ledger,
    P: Ledger,
    S: Ledger,
    F: Folder,
    G: Gate,
    W: Write,
    R: Wait + Clock,
    K: Wake,
>(
    worker: &Worker<'_, D, C, P, S, R, K>,
    pass: Pass<C, P, S>,
    gate: &G,
    folder: &mut F,
    output: &mut SoundOutput<W>,
    song: &mut Option<OpenSong<F::File>>,
    order: &PlayOrder,
) -> Result<Pass<C, P, S>, (StageError, Pass<C, P, S>)>
    // One event or two; before a refusal none or one.
    ensures worked { MatchResult result (HasWorked pass) (λ e. GoesOn pass e.1) }
    ensures few { MatchResult result (λ p. p.share ≤ pass.share + 2) (λ e. e.1.share ≤ pass.share + 1) }
    ensures memory { IfErr result (λ e. e.0 ≡ StageError.NoMemory →
        IsUndone pass e.1 song.new (W.contents output.old.writer) (W.contents output.new.writer)) }

    // What is written is a front of the ordered frames of the song's file, as bytes at the order's volume in the output's form.
    ensures front { F.honest folder.old → IsOpen F.File.bytes F.File.honest (F.files folder.old) song.old →
        AppendsFront (W.contents output.old.writer) (W.contents output.new.writer)
        (ordered_sound output.old.form (F.files folder.old) order.now) }
    ensures form { output.new.form ≡ output.old.form }

    // All of them, where the song stays open and was not at its end before.
    ensures whole { F.honest folder.old → IsOpen F.File.bytes F.File.honest (F.files folder.old) song.old →
        kind_of song.old order.now ≢ OrderKind.Ended →
        IsWholeIfOpen output.old.form (F.files folder.old) order.now song.new
        (W.contents output.old.writer) (W.contents output.new.writer) }
    ensures is_open { F.honest folder.old → IsOpen F.File.bytes F.File.honest (F.files folder.old) song.old →
        IsOpen F.File.bytes F.File.honest (F.files folder.new) song.new }
    ensures honest { F.honest folder.old → F.honest folder.new × (F.files folder.new ≡ F.files folder.old) }
{
    let ticket = order.ticket;
    match play_piece(worker.alloc, song, folder, gate, output, order) {
        Ok(Piece::Written { frames, is_last }) => {
            report_written(worker, pass, ticket, frames, is_last)
        }
        Ok(Piece::Failed(cause)) => {
            worker.wake.cannot_play(order.uri.as_str(), cause);
            worker.report(pass, &Report::Broken { ticket, cause })
        }
        Err(_) => Err((StageError::NoMemory, pass)),
    }
}

// Reports the frames that were written, and the end where it was reached. An end without a frame is reported alone.
fn report_written<D: Disk, C: Ledger, P: Ledger, S: Ledger, R: Wait + Clock, K: Wake>(
    worker: &Worker<'_, D, C, P, S, R, K>,
    pass: Pass<C, P, S>,
    ticket: u64,
    frames: u64,
    is_last: bool,
) -> Result<Pass<C, P, S>, (StageError, Pass<C, P, S>)>
    ensures worked { MatchResult result (HasWorked pass) (λ e. GoesOn pass e.1) }
    ensures few { MatchResult result (λ p. p.share ≤ pass.share + 2) (λ e. e.1.share ≤ pass.share + 1) }
    ensures again { IfErr result (λ e. e.0 ≢ StageError.NoMemory) }
{
    if !is_last {
        return worker.report(pass, &Report::Fed { ticket, frames });
    }
    let pass = if frames == 0 {
        pass
    } else {
        worker.report(pass, &Report::Fed { ticket, frames })?
    };
    worker.report(pass, &Report::Ended { ticket })
}

// Whether an order was short: with fewer frames than a tenth of a second has, or with none, it came to the end of its song's file. The song
// that it left open tells it; of one that has grown, the frames behind its row count too.
fn is_short<S>(song: &Option<OpenSong<S>>, order: &PlayOrder) -> bool
    ensures { IsTrue result ↔ IsShort song.now order.now }
{
    match song {
        Some(song) => {
            let frames = song.next_frame.saturating_sub(order.first_frame);
            let is_last = song.info.frames <= song.next_frame;
            is_last && u128::from(frames) * 10 < u128::from(song.info.rate)
        }
        None => false,
    }
}

// What was kept last of the song that plays: its ticket, and the frame from which it is counted.
#[derive(Clone, Copy, Debug)]
struct LastKept {
    ticket: u64,
    frame: u64,
}

impl LastKept {
    // Whether so many seconds of the song have been played since, or since it was started: then they are counted anew.
    fn is_due<S>(&mut self, seconds: u32, song: &Option<OpenSong<S>>, order: &PlayOrder) -> bool {
        if self.ticket != order.ticket {
            self.ticket = order.ticket;
            self.frame = order.first_frame;
        }
        let Some(song) = song else {
            return false;
        };
        let frames = u128::from(song.next_frame.saturating_sub(self.frame));
        let due = u128::from(song.info.rate) * u128::from(seconds);
        if seconds == 0 || frames < due {
            return false;
        }
        self.frame = song.next_frame;
        true
    }
}

/// The player goes on from where it was kept: an event made before any other of a life. Where the stage refuses it, as it then does all
/// others, nothing is done.
pub fn resume_player<D: Disk, C: Ledger, P: Ledger, S: Ledger, R: Wait + Clock, K: Wake>(
    worker: &Worker<'_, D, C, P, S, R, K>,
    pass: Pass<C, P, S>,
    plays: bool,
) -> Pass<C, P, S>
    ensures { GoesOn pass result }
{
    match worker.report(pass, &Report::Resume { plays }) {
        Ok(pass) => pass,
        Err((_, pass)) => pass,
    }
}

/// Plays what is ordered until the stage is closed or refuses, and hands the pass back. Behind each order by which a song has come so many
/// seconds past what was kept of it last, or past its start, the place is kept: never where that is 0.
///
/// Nothing is written while the lock is held, and nothing is kept behind the output: what a listener hears of an older order is at most
/// the piece that was begun, and what the output itself holds. Where memory is wanting, for a look or in opening or reading, it looks anew.
/// Where two orders in a row came to the end of a file with less than a tenth of a second of sound, as of songs of a few frames, it pauses
/// for 100 milliseconds before it looks for the next. So songs are not cut, and a piece of 4,096 frames counts only where it is the last.
pub fn player_worker<
    D: Disk,
    C: Ledger,
    P: Ledger,
    S: Ledger,
    F: Folder,
    G: Gate,
    W: Write,
    R: Wait + Clock,
    K: Wake,
>(
    worker: &Worker<'_, D, C, P, S, R, K>,
    pass: Pass<C, P, S>,
    gate: &G,
    folder: &mut F,
    output: &mut SoundOutput<W>,
    place_every: u32,
) -> Pass<C, P, S>
    ensures { GoesOn pass result }
{
    let mut pass = pass;
    let mut song = None;
    let mut last_two = (false, false);
    let mut kept = LastKept {
        ticket: 0,
        frame: 0,
    };
    for _ in worker.rt.forever() {
        if last_two == (true, true) {
            worker.rest(SILENCE);
        }
        let done = match worker.stage.next_order(worker.rt, worker.alloc) {
            Ok(None) => break,
            Ok(Some(order)) => {
                let done = play_once(worker, pass, gate, folder, output, &mut song, &order);
                last_two = (last_two.1, is_short(&song, &order));
                match done {
                    Ok(back) if kept.is_due(place_every, &song, &order) => {
                        let ticket = order.ticket;
                        worker.report(back, &Report::Keep { ticket })
                    }
                    done => done,
                }
            }
            Err(LiveError::NoMemory) => Err((StageError::NoMemory, pass)),
            Err(_) => break,
        };
        match done {
            Ok(back) => pass = back,
            Err((StageError::NoMemory, back)) => {
                pass = back;
                worker.pause();
            }
            Err((_, back)) => {
                pass = back;
                break;
            }
        }
    }
    pass
}
