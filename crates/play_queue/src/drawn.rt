// Ids that are sorted by words which were drawn for them.
ghost use Rattle.std.specs.Prelude.{◌≡◌, ◌+◌, ◌≤◌, ◌++◌, length, map, take, drop, IfOk};
ghost use Rattle.std.specs.List.Sorted.{IsPermutation};
ghost use Rattle.play_queue.specs.Queue.{AllDiffer};
ghost use Rattle.play_queue.specs.Shuffle.{sorted_by_words};
ghost use Rattle.play_queue.specs.Songs.{Songs, in_order};

use std::alloc::{AllocError, Global};

/// An id with the word that was drawn for it, and with the place at which its song was last known to be.
#[derive(Clone, Copy)]
pub(crate) struct Drawn {
    word: u32,
    id: u32,
    near: u32,
}

// Ids with their places and words.
pub(crate) fn draw(
    alloc: Global,
    ids: &[u32],
    places: &[u32],
    words: &[u32],
) -> Result<Vec<Drawn>, AllocError>
    requires places { length places.now ≡ length ids.now }
    requires words { length words.now ≡ length ids.now }
    ensures ids { IfOk result (λ drawn. map (λ one. one.id) drawn.items ≡ ids.now) }
    ensures words { IfOk result (λ drawn. map (λ one. one.word) drawn.items ≡ words.now) }
{
    let mut drawn = Vec::with_capacity(alloc, ids.len())?;
    for at in 0..ids.len() {
        drawn.push(Drawn {
            word: words[at],
            id: ids[at],
            near: places[at],
        })?;
    }
    Ok(drawn)
}

// Sorts ids by their words, and by themselves where words tie.
pub(crate) fn sort_drawn(drawn: &mut Vec<Drawn>)
    requires { AllDiffer (map (λ one. one.id) drawn.old.items) }
    ensures moved { IsPermutation (map (λ one. one.id) drawn.old.items) (map (λ one. one.id) drawn.new.items) }
    ensures sorted { (songs : Songs) → in_order songs (map (λ one. one.id) drawn.new.items)
        ≡ sorted_by_words (map (λ one. one.word) drawn.old.items) (in_order songs (map (λ one. one.id) drawn.old.items)) }
{
    drawn.sort_unstable_by_key(|one| (one.word, one.id));
}

// Writes ids over those of a list, and places over the places there.
pub(crate) fn put_back(drawn: &Vec<Drawn>, ids: &mut Vec<u32>, places: &mut Vec<u32>, start: usize)
    requires in_ids { start + length drawn.now.items ≤ length ids.old.items }
    requires in_places { length places.old.items ≡ length ids.old.items }
    ensures ids { ids.new.items
        ≡ take start ids.old.items ++ (map (λ one. one.id) drawn.now.items ++ drop (start + length drawn.now.items) ids.old.items) }
    ensures places { length places.new.items ≡ length places.old.items }
{
    put_back_in(drawn, ids, places, start);
}

fn put_back_in(drawn: &[Drawn], ids: &mut [u32], places: &mut [u32], start: usize)
    requires in_ids { start + length drawn.now ≤ length ids.old }
    requires in_places { length places.old ≡ length ids.old }
    ensures { ids.new ≡ take start ids.old ++ (map (λ one. one.id) drawn.now ++ drop (start + length drawn.now) ids.old) }
{
    for at in 0..drawn.len() {
        ids[start + at] = drawn[at].id;
        places[start + at] = drawn[at].near;
    }
}
