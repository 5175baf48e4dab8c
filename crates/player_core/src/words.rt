// The words by which entries are put in random order.
ghost use Rattle.std.specs.Prelude.{◌≡◌, ◌≤◌, length, map, IfOk};
ghost use Rattle.play_queue.specs.Entries.{block};
ghost use Rattle.player_core.specs.Words.{word, next_order};

use crate::round_words::WordTable;
use play_queue::Entries;
use rand_chacha::ChaCha8Rng;
use rand_core::SeedableRng;
use rand_core::utils::NextWord;
use std::alloc::{AllocError, Global};

/// The random word of an id: the word at place `id` of stream `order` of ChaCha with 8 rounds under the key.
pub fn word(key: [u8; 32], order: u64, id: u32) -> u32
    ensures { result ≡ word key order id }
{
    let mut words = ChaCha8Rng::from_seed(key);
    words.set_stream(order);
    words.set_word_pos(u128::from(id));
    words.next_word()
}

/// The words of the entries from `start` up to, but not including, `end`, in their order, as a shuffle of them takes. Where there is
/// memory for words that were made, entries whose ids lie near each other share them, however far apart they stand.
pub fn words_of(
    alloc: Global,
    key: [u8; 32],
    order: u64,
    entries: &Entries,
    start: usize,
    end: usize,
) -> Result<Vec<u32>, AllocError>
    requires forward { start ≤ end }
    requires in_range { end ≤ length entries.now }
    ensures { IfOk result (λ words. words.items ≡ map (λ entry. word key order entry.id) (block entries.now start end)) }
{
    let ids = entries.ids();
    let part = &ids[start..end];
    let mut table = WordTable::new(alloc, key, order);
    table.turn_to(key, order, part.len());
    let mut words = Vec::with_capacity(alloc, part.len())?;
    for id in part {
        words.push(table.word(*id))?;
    }
    Ok(words)
}

/// The order number after one; 0 follows 2^64-1.
pub fn next_order(order: u64) -> u64
    ensures { result ≡ next_order order }
{
    if order == u64::MAX { 0 } else { order + 1 }
}
