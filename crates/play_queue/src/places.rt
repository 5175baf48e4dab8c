// The positions of entries by their ids, many in one pass.
ghost use Rattle.std.specs.Prelude.{◌≡◌, ℕ, ◌==◌, true, nat_eq, Some, None, if◌then◌else◌, IfOk, OnOk};
ghost use Rattle.std.specs.HashMap.{get};
ghost use Rattle.std.specs.List.{list_any};
ghost use Rattle.std.specs.List.Sorted.{IsSorted};
ghost use Rattle.std.specs.Option.{option_or};
ghost use Rattle.std.specs.Ordering.{nat_cmp};
ghost use Rattle.play_queue.specs.Positions.{position_of};

use crate::entries::Entries;
use std::alloc::{AllocError, Global};
use std::collections::HashMap;

// The positions of the entries that have one of these ids, by one pass over the entries.
pub(crate) fn places_of(
    alloc: Global,
    entries: &Entries,
    ids: &[u32],
) -> Result<HashMap<u32, usize>, AllocError>
    ensures { IfOk result (λ places. (id : ℕ) → list_any (λ other. other == id) ids.now ≡ true
        → get nat_eq places id ≡ position_of entries.now id) }
{
    let mut sorted: Vec<u32> = ids.iter().copied().collect(alloc)?;
    sorted.sort_unstable();
    let mut places = HashMap::new(alloc);
    let order = entries.ids();
    for at in 0..order.len() {
        let id = order[at];
        if has_id(&sorted, id) {
            note(&mut places, id, at)?;
        }
    }
    Ok(places)
}

// Whether an id is one of these.
fn has_id(sorted: &[u32], id: u32) -> bool
    requires { IsSorted nat_cmp sorted.now }
    ensures { result ≡ list_any (λ other. other == id) sorted.now }
{
    sorted.binary_search(&id).is_ok()
}

// Notes the position of an id that has none yet.
fn note(places: &mut HashMap<u32, usize>, id: u32, at: usize) -> Result<(), AllocError>
    ensures { OnOk result ((other : ℕ) → get nat_eq places.new other
        ≡ option_or (get nat_eq places.old other) (if id == other then Some at else None)) }
{
    if places.get(&id).is_none() {
        places.insert(id, at)?;
    }
    Ok(())
}
