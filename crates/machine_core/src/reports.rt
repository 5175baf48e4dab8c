// What the output is to do, and what it reports of the song that it plays.
ghost use Rattle.std.specs.Prelude.{◌≡◌, IfOk, OnErr};
ghost use Rattle.player_core.specs.Order.{order_of};
ghost use Rattle.machine_core.specs.Followed.{current_row};
ghost use Rattle.machine_core.specs.Happening.{HasHappened};
ghost use Rattle.machine_core.specs.Keeping.{kept_event};
ghost use Rattle.machine_core.specs.Reports.{fed_in, when_fed, when_ended, when_broken};

use crate::happened::Happened;
use crate::machine::Machine;
use crate::steps::PlayerStep;
use crate::work::Work;
use no_memory::NoMemory;
use player_core::{BrokenCause, Order};
use std::alloc::Global;

impl Machine {
    /// In play the output is to play the current song from its frame position on, under the present ticket; else it is to wait.
    pub fn order(&self, alloc: Global) -> Result<Order, NoMemory>
        ensures { IfOk result (λ order. order ≡ order_of self.now.saved.queue.entries self.now.saved.volume self.now.player) }
    {
        let entries = self.saved.queue().entries();
        let order = self.player.order(alloc, entries, self.saved.volume())?;
        Ok(order)
    }

    /// The output has played so many frames of the song that was started under this ticket. It needs no memory.
    pub fn fed(&mut self, alloc: Global, ticket: u64, frames: u64) -> Happened
        ensures { HasHappened (when_fed ticket frames self.old) self.old self.new result }
    {
        let before = self.before();
        self.feed(ticket, frames);
        let changed = self.changed_since(&before, &[]);
        Happened {
            ops: Vec::new(alloc),
            changed,
        }
    }

    fn feed(&mut self, ticket: u64, frames: u64)
        ensures { self.new ≡ record self.old {
          player = fed_in (current_row self.old.saved self.old.player) ticket frames self.old.player;
        } }
    {
        let total = match self.current_row() {
            Some(row) => row.info().frames,
            None => return,
        };
        self.player.fed(ticket, frames, total);
    }

    /// The output has played the last frame of the song that was started under this ticket. Without memory it leaves all as it was.
    pub fn ended(&mut self, alloc: Global, ticket: u64) -> Result<Happened, NoMemory>
        ensures ok { IfOk result (HasHappened (kept_event self.old (when_ended ticket self.old)) self.old self.new) }
        ensures err { OnErr result (self.new ≡ self.old) }
    {
        let step = PlayerStep::Ended(ticket);
        if self.lacks_room() {
            return self.step_unsaved(alloc, step);
        }
        let before = self.before();
        let profile = self.saved.profile();
        let mut work = Work::new(alloc, profile)?;
        work.make_room(profile)?;
        if self.make_step(alloc, step, &mut work).is_err() {
            return Err(NoMemory);
        }
        work.keep_place(self, profile, &before);
        let changed = self.changed_since(&before, &work.ops);
        Ok(Happened {
            ops: work.ops,
            changed,
        })
    }

    /// The song that was started under this ticket could not be played on. Without memory it leaves all as it was.
    pub fn broken(
        &mut self,
        alloc: Global,
        ticket: u64,
        cause: BrokenCause,
    ) -> Result<Happened, NoMemory>
        ensures ok { IfOk result (HasHappened (kept_event self.old (when_broken ticket cause self.old)) self.old self.new) }
        ensures err { OnErr result (self.new ≡ self.old) }
    {
        let step = PlayerStep::Failed(ticket, cause);
        if self.lacks_room() {
            return self.step_unsaved(alloc, step);
        }
        let before = self.before();
        let profile = self.saved.profile();
        let mut work = Work::new(alloc, profile)?;
        work.make_room(profile)?;
        if self.make_step(alloc, step, &mut work).is_err() {
            return Err(NoMemory);
        }
        work.keep_place(self, profile, &before);
        let changed = self.changed_since(&before, &work.ops);
        Ok(Happened {
            ops: work.ops,
            changed,
        })
    }
}
