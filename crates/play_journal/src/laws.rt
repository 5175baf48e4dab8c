//! What is said of the definitions, and of several calls one after the other.
ghost use Rattle.std.specs.Prelude.{◌≡◌, map, IfOk};
ghost use Rattle.play_journal.specs.Content.{IsWrittenLayout};
ghost use Rattle.play_journal.specs.Laws.{FoundIsSaid};

use crate::{Journal, JournalError, Stored};
use disk_model::Disk;
use std::alloc::Global;

/// What is found in two files is what they say, so two files say one thing at most.
pub fn found_is_said()
    ensures { FoundIsSaid }
{}

/// Makes a journal in this layout, adds these records, and opens it again: the snapshot and the records come back in order.
pub fn keeps_order<D: Disk + Drop>(
    alloc: Global,
    a: D,
    b: D,
    layout: u32,
    snapshot: &[u8],
    bodies: &[Vec<u8>],
) -> Result<Stored, JournalError>
    requires written { IsWrittenLayout layout }
    ensures snapshot { D.honest a → D.honest b → IfOk result (λ stored. stored.snapshot ≡ snapshot.now) }
    ensures records { D.honest a → D.honest b → IfOk result (λ stored. stored.records ≡ map (λ body. body.items) bodies.now) }
{
    let mut journal = match Journal::create(alloc, a, b, layout, snapshot) {
        Ok(journal) => journal,
        Err(refused) => return Err(refused.error),
    };
    for body in bodies {
        journal.append(body)?;
    }
    let (a, b) = journal.into_disks();
    match Journal::open(alloc, a, b) {
        Ok((_, stored)) => Ok(stored),
        Err(refused) => Err(refused.error),
    }
}
