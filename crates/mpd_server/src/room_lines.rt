// What the log is told of room on the journal's disk.
use disk_model::Disk;
use log::{Log, info, warn};
use profile::Profile;
use stage_workers::SharedStage;
use std::sync::Wait;
use std::sync::ledger::Ledger;

/// Whether the log was told that there is no room.
#[derive(Clone, Copy, Debug)]
pub(crate) struct RoomLines {
    is_told: bool,
}

impl RoomLines {
    pub(crate) fn new() -> RoomLines {
        RoomLines { is_told: false }
    }

    /// Tells the log once that there is no room, and once that there is again. Under the first profile there is nothing to tell.
    pub(crate) fn look<D: Disk, C: Ledger, P: Ledger, S: Ledger, R: Wait + Log>(
        &mut self,
        rt: &R,
        profile: Profile,
        stage: &SharedStage<D, C, P, S>,
    ) {
        if let Profile::Named = profile {
            return;
        }
        let lacks = stage.lacks_room(rt);
        if lacks == self.is_told {
            return;
        }
        self.is_told = lacks;
        if !lacks {
            info!(rt; "the journal's disk has room again: what changes is kept");
            return;
        }
        match stage.room_refusal(rt) {
            Some((is_b, call, error)) => {
                let file = if is_b { "journal_b" } else { "journal_a" };
                warn!(rt; "{file}: {call}: {error}: until there is room, what would change is refused, and nothing is kept");
            }
            None =>
                warn!(rt; "the journal's disk has no room: until there is, what would change is refused, and nothing is kept"),
        }
    }
}
