// The ids of the entries that leave the queue leave the played list.
ghost use Rattle.std.specs.Prelude.{◌≡◌, ◌≤◌, nat_eq, IfOk};
ghost use Rattle.indexmap.specs.IndexSet.{spare, IsUnique};
ghost use Rattle.player_core.specs.Player.{left_by};
ghost use Rattle.player_core.specs.Removal.{Reaches, others};

use crate::block::Block;
use crate::played::remove;
use crate::staying::takes;
use indexmap::IndexSet;
use play_queue::Entries;
use song_db::Uri;
use std::alloc::AllocError;

// Fewer ids than these are taken out one by one, each by a move of the ids behind it, without memory.
const MANY: usize = 8;

// Between which positions entries leave: in the block, and anywhere where URIs are dropped.
fn reach(entries: &Entries, block: Block, dropped: &[Uri]) -> Block
    ensures { Reaches block dropped.now entries.now result }
{
    let end = entries.len();
    if !dropped.is_empty() {
        return Block { start: 0, end };
    }
    let end = block.end.min(end);
    Block {
        start: block.start.min(end),
        end,
    }
}

// The ids of the entries that leave the queue leave the list. It costs the block, and a pass over the entries
// only where URIs are dropped; where many ids may leave, it costs the list once more, else the list for each id
// that leaves it. Where no memory is to be had for the ids, it goes on without.
pub(crate) fn leave(played: &mut IndexSet<u32>, entries: &Entries, block: Block, dropped: &[Uri])
    ensures ids { played.new.keys ≡ left_by block dropped.now 0 entries.now played.old.keys }
    ensures room { spare played.old ≤ spare played.new }
{
    let count = played.len();
    if count == 0 {
        return;
    }
    let within = reach(entries, block, dropped);
    if count.min(within.end - within.start) < MANY {
        leave_each(played, entries, within, block, dropped);
        return;
    }
    match leaving(played, entries, within, block, dropped) {
        Ok(ids) => keep_others(played, &ids),
        Err(_) => leave_each(played, entries, within, block, dropped),
    }
}

// They leave one by one.
fn leave_each(
    played: &mut IndexSet<u32>,
    entries: &Entries,
    within: Block,
    block: Block,
    dropped: &[Uri],
)
    requires { Reaches block dropped.now entries.now within }
    ensures ids { played.new.keys ≡ left_by block dropped.now 0 entries.now played.old.keys }
    ensures room { spare played.old ≤ spare played.new }
{
    for at in within.start..within.end {
        let entry = entries.at(at);
        if takes(block, dropped, at, &entry) {
            remove(played, entry.id);
        }
    }
}

// Those ids of the list whose entries leave.
fn leaving(
    played: &IndexSet<u32>,
    entries: &Entries,
    within: Block,
    block: Block,
    dropped: &[Uri],
) -> Result<IndexSet<u32>, AllocError>
    requires reach { Reaches block dropped.now entries.now within }
    requires unique { IsUnique nat_eq played.now }
    ensures { IfOk result (λ ids. others ids.keys played.now.keys ≡ left_by block dropped.now 0 entries.now played.now.keys) }
{
    let mut ids = IndexSet::new(*played.allocator());
    for at in within.start..within.end {
        let entry = entries.at(at);
        if played.contains(&entry.id) && takes(block, dropped, at, &entry) {
            let _ = ids.insert(entry.id)?;
        }
    }
    Ok(ids)
}

// The other ids stay, in one pass.
fn keep_others(played: &mut IndexSet<u32>, leaving: &IndexSet<u32>)
    ensures ids { played.new.keys ≡ others leaving.now.keys played.old.keys }
    ensures room { spare played.old ≤ spare played.new }
{
    played.retain(|id| !leaving.contains(id));
}
