// The daemon's state of one process life: the machine, its clients, and what is looked up in it without an event.
ghost use Rattle.std.specs.Prelude.{◌≡◌, ◌↔◌, false, IfOk, IsTrue, option_copied, option_map};
ghost use Rattle.player_core.specs.declared.playing.PlayState.{PlayState};
ghost use Rattle.player_core.specs.declared.order.Order.{Order as PlayOrder};
ghost use Rattle.daemon_core.specs.State.{start};

use crate::parts::CoreParts;
use crate::pictures::Pictures;
use crate::room::Room;
use crate::talk::Talks;
use crate::views::Views;
use crate::watching::Watching;
use idle_masks::ClientId;
use machine_core::{ClockTime, Machine, WithheldJob};
use no_memory::NoMemory;
use player_core::{Order, PlayState};
use song_db::{LibraryRules, ScanOrder};
use state_codec::Saved;
use std::alloc::Global;
use std::marker::Model;

/// The daemon's state: the machine, and the clients that are connected.
#[derive(Drop)]
pub struct Core {
    pub(crate) parts: CoreParts,
}

impl Model for Core {
    ghost use Rattle.daemon_core.specs.State.{State};

    ghost Value = { State };

    ghost use Rattle.daemon_core.specs.Held.{held};

    ghost view = { held };
}

impl Core {
    ghost use Rattle.machine_core.specs.State.{lacks_room};
    ghost use Rattle.daemon_core.specs.Orders.{play_order, scan_order};
    ghost use Rattle.daemon_core.specs.Seen.{view_of};

    /// A daemon that begins with what was saved: no client is connected. It takes no memory yet.
    pub fn new(alloc: Global, saved: Saved) -> Self
        ensures { result ≡ start saved }
    {
        Core {
            parts: CoreParts {
                machine: Machine::new(alloc, saved),
                watch: Watching::new(alloc),
                views: Views::new(alloc),
                talks: Talks::new(alloc),
                pictures: Pictures::new(alloc),
                room: Room::new(alloc),
            },
        }
    }

    /// The saved half of the state, where it stands.
    pub fn as_saved(&self) -> &Saved
        ensures { result.now ≡ self.now.machine.saved }
    {
        self.parts.machine.saved()
    }

    /// A copy of the saved half of the state.
    pub fn saved(&self, alloc: Global) -> Result<Saved, NoMemory>
        ensures { IfOk result (λ saved. saved ≡ self.now.machine.saved) }
    {
        self.as_saved().try_clone(alloc)
    }

    /// What the output is to do: to play a song from a frame on, or to wait.
    pub fn order(&self, alloc: Global) -> Result<Order, NoMemory>
        ensures { IfOk result (λ order. order ≡ play_order self.now.machine) }
    {
        self.parts.machine.order(alloc)
    }

    /// What is to be read for the job that runs, by the rules of the profile; none where no job runs. Of `rescan` no stamp is known, so
    /// that each file is opened.
    pub fn scan_order(&self, alloc: Global) -> Result<Option<ScanOrder>, NoMemory>
        ensures { IfOk result (λ order. order ≡ scan_order self.now.machine) }
    {
        let machine = &self.parts.machine;
        let job = machine.job();
        if !job.runs {
            return Ok(None);
        }
        let place = match &job.place {
            Some(uri) => Some(uri.try_clone(alloc)?),
            None => None,
        };
        let saved = machine.saved();
        let rules = LibraryRules::of(saved.profile());
        match saved.songs().scan_order(alloc, job.number, place, rules) {
            Ok(order) if job.opens_all => Ok(Some(order.without_stamps())),
            Ok(order) => Ok(Some(order)),
            Err(_) => Err(NoMemory),
        }
    }

    /// What a clock told last.
    pub fn clock(&self) -> ClockTime
        ensures { result ≡ self.now.machine.clock }
    {
        self.parts.machine.clock()
    }

    /// Whether what is saved can't change, since the journal's disk has no room: under the first profile that is never so.
    pub fn lacks_room(&self) -> bool
        ensures { result ≡ lacks_room self.now.machine }
    {
        self.parts.machine.lacks_room()
    }

    /// Whether a song plays: where none does, `order` is to wait. It takes no memory.
    pub fn is_playing(&self) -> bool
        ensures value { IsTrue result ↔ (self.now.machine.player.state ≡ PlayState.Play) }
        ensures waits { result ≡ false → play_order self.now.machine ≡ PlayOrder.Wait }
    {
        match self.parts.machine.player().state() {
            PlayState::Play => true,
            PlayState::Stop | PlayState::Pause => false,
        }
    }

    /// How many bytes of a picture an answer to a client may have. It takes no memory.
    pub fn chunk_limit(&self, client: ClientId) -> u32
        ensures { result ≡ (view_of self.now.views client).limit }
    {
        self.parts.views.seen_by(client).limit
    }

    /// The number of the job that runs, if one does: that of `scan_order`. It takes no memory.
    pub fn running_job(&self) -> Option<u32>
        ensures { result ≡ option_map (λ order. order.job) (scan_order self.now.machine) }
    {
        let job = self.parts.machine.job();
        if job.runs { Some(job.number) } else { None }
    }

    /// The last job that dropped nothing because it missed too many songs, until another goes on. It takes no memory.
    pub fn withheld(&self) -> Option<&WithheldJob>
        ensures { option_copied result ≡ self.now.machine.withheld }
    {
        self.parts.machine.withheld()
    }
}
