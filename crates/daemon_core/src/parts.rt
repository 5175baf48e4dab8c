// What a core is made of. Its methods see the parts, and those above it the state that they stand for.
ghost use Rattle.std.specs.Prelude.{◌≡◌};

use crate::pictures::Pictures;
use crate::room::Room;
use crate::talk::Talks;
use crate::views::Views;
use crate::watching::Watching;
use machine_core::Machine;
use no_memory::NoMemory;
use std::alloc::Global;

#[derive(Drop)]
pub struct CoreParts {
    pub(crate) machine: Machine,
    pub(crate) watch: Watching,
    pub(crate) views: Views,
    pub(crate) talks: Talks,
    pub(crate) pictures: Pictures,
    // Memory for what the clients are told, kept from event to event.
    pub(crate) room: Room,
}

impl CoreParts {
    ghost use Rattle.std.specs.Prelude.{OnOk};
    ghost use Rattle.daemon_core.specs.Room.{CanCloseAll, IsReadyToTell};

    // Takes what is missing to tell the clients, and to close them.
    pub(crate) fn take_room(&mut self, alloc: Global) -> Result<(), NoMemory>
        ensures ok { OnOk result (IsReadyToTell self.new) }
        ensures closes { OnOk result (CanCloseAll self.new) }
        ensures machine { self.new.machine ≡ self.old.machine }
        ensures watch { self.new.watch ≡ self.old.watch }
        ensures views { self.new.views ≡ self.old.views }
        ensures talks { self.new.talks ≡ self.old.talks }
        ensures pictures { self.new.pictures ≡ self.old.pictures }
    {
        self.room.take(alloc, self.watch.len())
    }
}
