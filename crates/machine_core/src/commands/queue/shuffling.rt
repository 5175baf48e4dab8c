// `shuffle`.
ghost use Rattle.std.specs.Prelude.{◌≡◌, ◌≢◌, ℕ, ◌+◌, ◌<◌, ◌≤◌, ◌^◌, true, None, IfErr, OnOk, unwrap_or};
ghost use Rattle.command_text.specs.Masks.{all_in_mask};
ghost use Rattle.command_text.specs.declared.command.queue.QueueCommand.TheVariants as commands;
ghost use Rattle.play_queue.specs.Positions.{position_of};
ghost use Rattle.machine_core.specs.Memory.{grows};
ghost use Rattle.machine_core.specs.Queue.{queue_meaning, shuffles_around, shuffles_in, shuffles_plainly, shuffles_playing};
ghost use Rattle.machine_core.specs.Queue.{shuffles_stopped};
ghost use Rattle.machine_core.specs.Spans.{count_of};
ghost use Rattle.machine_core.specs.Work.{HasRoom, IsRefusalOf, Performs, command_room};
ghost use Rattle.state_codec.specs.OpsQueue.{queue_refusal};
ghost use Rattle.state_codec.specs.declared.op.Op.TheVariants.{Queue as OfQueue};
ghost use Rattle.state_codec.specs.declared.op.queue_op.QueueOp.TheVariants.{Move, Shuffle};

use super::moving::is_held;
use crate::machine::Machine;
use crate::span::Span;
use crate::work::{Failure, Work};
use command_text::PositionRange;
use player_core::PlayState;
use profile::Profile;
use state_codec::{Op, QueueOp};
use std::alloc::Global;

fn shuffle_op(span: Span) -> Op
    ensures { result ≡ OfQueue (Shuffle span.start span.end) }
{
    Op::Queue(QueueOp::Shuffle {
        start: span.start,
        end: span.end,
    })
}

// The entry at a position comes to another one.
fn move_op(at: u32, to: u32) -> Op
    requires { at + 1 < 2 ^ 32 }
    ensures { result ≡ OfQueue (Move at (at + 1) to) }
{
    Op::Queue(QueueOp::Move {
        start: at,
        end: at + 1,
        to,
    })
}

impl Machine {
    #[tactic(auto, unfolding(crate::specs::Queue::queue_meaning))]
    pub(super) fn shuffle(
        &mut self,
        alloc: Global,
        range: Option<PositionRange>,
        work: &mut Work,
    ) -> Result<(), Failure>
        requires { HasRoom command_room work.old }
        ensures performs { Performs (queue_meaning all_in_mask (commands.Shuffle range) self.old) self.old self.new work.old work.new
            result }
        ensures memory { result ≡ Err Failure.NoMemory → grows (queue_meaning all_in_mask (commands.Shuffle range) self.old) ≡ true }
    {
        let span = self.span_or_all(range)?;
        if span.count() < 2 {
            return Ok(());
        }
        match self.saved.profile() {
            Profile::Named => self.shuffle_plainly(alloc, span, work),
            Profile::Wide => self.shuffle_by_state(alloc, span, work),
        }
    }

    // Whether a range is one: it is told where a shuffle of it is refused.
    fn check_shuffle(&self, span: Span) -> Result<(), Failure>
        ensures fits { OnOk result (queue_refusal (Shuffle span.start span.end) self.now.saved ≡ None) }
        ensures around { (id : ℕ) → (profile : Profile) → (size : ℕ) → IfErr result (IsRefusalOf profile (shuffles_around id span self.now)
            size) }
        ensures stopped { (profile : Profile) → (size : ℕ) → IfErr result (IsRefusalOf profile (shuffles_stopped span self.now) size) }
        ensures memory { result ≢ Err Failure.NoMemory }
    {
        self.saved.check(&shuffle_op(span))?;
        Ok(())
    }

    fn shuffle_plainly(&mut self, alloc: Global, span: Span, work: &mut Work) -> Result<(), Failure>
        requires { HasRoom command_room work.old }
        ensures performs { Performs (shuffles_plainly span self.old) self.old self.new work.old work.new result }
        ensures memory { result ≡ Err Failure.NoMemory → grows (shuffles_plainly span self.old) ≡ true }
    {
        self.edit(alloc, shuffle_op(span), work)
    }

    // As MPD does it, by what the player does.
    fn shuffle_by_state(
        &mut self,
        alloc: Global,
        span: Span,
        work: &mut Work,
    ) -> Result<(), Failure>
        requires room { HasRoom command_room work.old }
        requires several { 2 ≤ count_of span }
        ensures performs { Performs (shuffles_in self.old.player.state span self.old) self.old self.new work.old work.new result }
        ensures memory { result ≡ Err Failure.NoMemory → grows (shuffles_in self.old.player.state span self.old) ≡ true }
    {
        match self.player.state() {
            PlayState::Stop => self.shuffle_stopped(alloc, span, work),
            PlayState::Play | PlayState::Pause => self.shuffle_playing(alloc, span, work),
        }
    }

    // In stop no song stays current.
    fn shuffle_stopped(&mut self, alloc: Global, span: Span, work: &mut Work) -> Result<(), Failure>
        requires { HasRoom command_room work.old }
        ensures performs { Performs (shuffles_stopped span self.old) self.old self.new work.old work.new result }
        ensures memory { result ≡ Err Failure.NoMemory → grows (shuffles_stopped span self.old) ≡ true }
    {
        self.check_shuffle(span)?;
        let op = shuffle_op(span);
        let bytes = work.admit_edit(self.saved.profile(), None, &op)?;
        self.apply(alloc, &op)?;
        self.player.drop_song();
        self.kept.forget();
        work.push_edit(None, op, bytes);
        Ok(())
    }

    // The song that plays or is paused comes to the beginning of the range that holds it.
    fn shuffle_playing(&mut self, alloc: Global, span: Span, work: &mut Work) -> Result<(), Failure>
        requires room { HasRoom command_room work.old }
        requires several { 2 ≤ count_of span }
        ensures performs { Performs (shuffles_playing self.old.player.current span self.old) self.old self.new work.old work.new result }
        ensures memory { result ≡ Err Failure.NoMemory → grows (shuffles_playing self.old.player.current span self.old) ≡ true }
    {
        let Some(id) = self.player.current() else {
            return self.shuffle_plainly(alloc, span, work);
        };
        if is_held(span, self.current_position()) {
            return self.shuffle_around(alloc, id, span, work);
        }
        self.shuffle_plainly(alloc, span, work)
    }

    // The range is shuffled, and then the entry of this id comes to its beginning. The shuffle comes first, since it alone takes memory.
    fn shuffle_around(
        &mut self,
        alloc: Global,
        id: u32,
        span: Span,
        work: &mut Work,
    ) -> Result<(), Failure>
        requires room { HasRoom command_room work.old }
        requires several { 2 ≤ count_of span }
        ensures performs { Performs (shuffles_around id span self.old) self.old self.new work.old work.new result }
        ensures memory { result ≡ Err Failure.NoMemory → grows (shuffles_around id span self.old) ≡ true }
    {
        self.check_shuffle(span)?;
        let op = shuffle_op(span);
        let profile = self.saved.profile();
        // A move takes as many bytes from wherever it is made.
        work.admit_both(profile, &op, &move_op(0, 0))?;
        self.apply(alloc, &op)?;
        let at = self.place_of_id_or(id, span.start);
        self.saved.move_entries(at, at + 1, span.start);
        self.kept.forget();
        work.push_both(profile, op, move_op(at, span.start));
        Ok(())
    }

    // The position of the entry with an id, or another one where no entry has it.
    fn place_of_id_or(&self, id: u32, other: u32) -> u32
        requires { other + 1 < 2 ^ 32 }
        ensures place { result ≡ unwrap_or (position_of self.now.saved.queue.entries id) other }
        ensures within { result + 1 < 2 ^ 32 }
    {
        match self.saved.queue().pos_of(id) {
            Some(at) => at as u32,
            None => other,
        }
    }
}
