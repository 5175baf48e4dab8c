// Random order, of entries that are drawn.
ghost use Rattle.std.specs.Prelude.{◌≡◌, IfOk};
ghost use Rattle.player_core.specs.RandomOrder.{in_order, random_order};

use std::alloc::{AllocError, Global};
use std::cmp::Reverse;

/// The ids of drawn entries, each an id, a priority and a word, in random order: by priority, the greatest first, then by word,
/// then by id. It takes memory for the entries, and gives all but the ids' back.
pub fn random_order(alloc: Global, drawn: &[(u32, u8, u32)]) -> Result<Vec<u32>, AllocError>
    ensures { IfOk result (λ ids. ids.items ≡ random_order drawn.now) }
{
    let sorted = in_order(alloc, drawn)?;
    sorted.iter().map(|one| one.0).collect(alloc)
}

fn in_order(alloc: Global, drawn: &[(u32, u8, u32)]) -> Result<Vec<(u32, u8, u32)>, AllocError>
    ensures { IfOk result (λ sorted. sorted.items ≡ in_order drawn.now) }
{
    let mut sorted = Vec::from_slice(alloc, drawn)?;
    sorted.sort_unstable_by_key(|one| (Reverse(one.1), one.2, one.0));
    Ok(sorted)
}
