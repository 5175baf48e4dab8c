// The words of a random round. The generator makes those of four blocks at once, and ids that were added together lie near each other.
ghost use Rattle.std.specs.Prelude.{◌≡◌, ◌<◌, length, IfOk};
ghost use Rattle.std.specs.List.{All};
ghost use Rattle.player_core.specs.Words.{Round, word, AreWords};

use rand_chacha::ChaCha8Rng;
use rand_core::SeedableRng;
use rand_core::utils::NextWord;
use std::alloc::{AllocError, Global};
use std::marker::Model;

// How many words are made at once.
const MADE: u32 = 64;

// How many of them are kept beside each other at most, 600 KiB.
const MOST_ROUNDS: usize = 2_048;

// The words of a round, the last ones that were made kept.
#[derive(Debug, Drop)]
pub(crate) struct RoundWords {
    key: [u8; 32],
    order: u64,
    // Whether any were made, and from which id on.
    is_made: bool,
    first: u32,
    made: [u32; 64],
}

impl Model for RoundWords {
    ghost use Rattle.std.specs.Prelude.{IsTrue};
    ghost use Rattle.player_core.specs.Words.{Round, AreWords};

    ghost Value = { Round };

    ghost view = { λ w. record { key = w.key; order = w.order } };

    ghost invariant = { λ w. IsTrue w.is_made → AreWords w.key w.order w.first w.made };
}

impl RoundWords {
    // No word is made yet.
    pub(crate) fn new(key: [u8; 32], order: u64) -> RoundWords
        ensures { result ≡ record { key = key; order = order } }
    {
        RoundWords {
            key,
            order,
            is_made: false,
            first: 0,
            made: [0; 64],
        }
    }

    // The word of an id.
    pub(crate) fn word(&mut self, id: u32) -> u32
        ensures word { result ≡ word self.old.key self.old.order id }
        ensures round { self.new ≡ self.old }
    {
        let place = id % MADE;
        let first = id - place;
        if self.is_made && self.first == first {
            return self.made[place as usize];
        }
        self.made = words_from(self.key, self.order, first);
        self.first = first;
        self.is_made = true;
        self.made[place as usize]
    }
}

// The words of a round for ids in any order: those that were made are kept at a place that the ids give. Where no memory is to be had for
// them, the last ones alone are kept.
#[derive(Debug, Drop)]
pub(crate) struct WordTable {
    alloc: Global,
    key: [u8; 32],
    order: u64,
    last: RoundWords,
    rounds: Vec<RoundWords>,
}

impl Model for WordTable {
    ghost use Rattle.std.specs.Prelude.{◌≡◌};
    ghost use Rattle.std.specs.List.{All};
    ghost use Rattle.player_core.specs.Words.{Round};

    ghost Value = { Round };

    ghost view = { λ t. record { key = t.key; order = t.order } };

    ghost invariant = { λ t. (t.last ≡ record { key = t.key; order = t.order })
        × All (λ round. round ≡ record { key = t.key; order = t.order }) t.rounds.items };
}

impl WordTable {
    // No word is made yet, and no memory taken.
    pub(crate) fn new(alloc: Global, key: [u8; 32], order: u64) -> WordTable
        ensures { result ≡ record { key = key; order = order } }
    {
        WordTable {
            alloc,
            key,
            order,
            last: RoundWords::new(key, order),
            rounds: Vec::new(alloc),
        }
    }

    // Turns to a round, of which words that were made are kept, with room for the words of so many ids that follow each other, and for as
    // many again, if there is memory for them.
    pub(crate) fn turn_to(&mut self, key: [u8; 32], order: u64, ids: usize)
        ensures { self.new ≡ record { key = key; order = order } }
    {
        let count = count_for(ids);
        if self.order == order && self.key == key && count <= self.rounds.len() {
            return;
        }
        self.rounds = match rounds_for(self.alloc, key, order, count) {
            Ok(rounds) => rounds,
            Err(_) => Vec::new(self.alloc),
        };
        self.last = RoundWords::new(key, order);
        self.key = key;
        self.order = order;
    }

    // The word of an id.
    pub(crate) fn word(&mut self, id: u32) -> u32
        ensures word { result ≡ word self.old.key self.old.order id }
        ensures round { self.new ≡ self.old }
    {
        if self.rounds.is_empty() {
            self.last.word(id)
        } else {
            word_in(&mut self.rounds, id)
        }
    }
}

// How many are kept for the words of so many ids: more than they need, so that a queue that grows seldom needs more of them.
fn count_for(ids: usize) -> usize {
    if ids <= 512 {
        MOST_ROUNDS / 64
    } else if ids <= 8_192 {
        MOST_ROUNDS / 8
    } else {
        MOST_ROUNDS
    }
}

fn rounds_for(
    alloc: Global,
    key: [u8; 32],
    order: u64,
    count: usize,
) -> Result<Vec<RoundWords>, AllocError>
    ensures { IfOk result (λ rounds. All (λ round. round ≡ record { key = key; order = order }) rounds.items) }
{
    let mut rounds = Vec::with_capacity(alloc, count)?;
    for _ in 0..count {
        rounds.push(RoundWords::new(key, order))?;
    }
    Ok(rounds)
}

// The word of an id, by the one of these that keeps the words of the ids near it.
fn word_in(rounds: &mut Vec<RoundWords>, id: u32) -> u32
    requires { 0 < length rounds.old.items }
    ensures word { (round : Round) → All (λ other. other ≡ round) rounds.old.items → result ≡ word round.key round.order id }
    ensures rounds { rounds.new.items ≡ rounds.old.items }
{
    let at = (id / MADE) as usize % MOST_ROUNDS;
    let len = rounds.len();
    // Most often there are all, and no division is made.
    let at = if at < len { at } else { at % len };
    rounds[at].word(id)
}

// The words of the ids from one on.
fn words_from(key: [u8; 32], order: u64, first: u32) -> [u32; 64]
    ensures { AreWords key order first result }
{
    let mut generator = ChaCha8Rng::from_seed(key);
    generator.set_stream(order);
    generator.set_word_pos(u128::from(first));
    let mut words = [0; 64];
    for at in 0..64 {
        words[at] = generator.next_word();
    }
    words
}
