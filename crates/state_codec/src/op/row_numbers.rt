// Numbers of the song database's rows, as many as an op can have.
ghost use Rattle.std.specs.Prelude.{◌≡◌, length, Some, None, if◌then◌else◌};
ghost use Rattle.state_codec.specs.Numbers.{are_few, AreRowNumbers};

use std::marker::Model;

/// How many row numbers or ranges an op may have.
pub const MAX_COUNT: usize = 4_294_967_295;

/// The numbers of rows, in order: at most 4,294,967,295 of them. A row may come more than once.
#[derive(Debug, Drop)]
pub struct RowNumbers {
    numbers: Vec<u32>,
}

impl Model for RowNumbers {
    ghost use Rattle.std.specs.Prelude.{ℕ, List};
    ghost use Rattle.state_codec.specs.Numbers.{AreRowNumbers};

    ghost Value = { List ℕ };

    ghost view = { λ r. r.numbers.items };

    ghost invariant = { λ r. AreRowNumbers r.numbers.items };
}

impl RowNumbers {
    /// These numbers; `None` where they are too many.
    pub fn new(numbers: Vec<u32>) -> Option<RowNumbers>
        ensures { result ≡ (if are_few numbers.items then Some numbers.items else None) }
    {
        if MAX_COUNT < numbers.len() {
            return None;
        }
        Some(RowNumbers { numbers })
    }

    pub fn as_slice(&self) -> &[u32]
        ensures numbers { result.now ≡ self.now }
        ensures within { AreRowNumbers self.now }
    {
        self.numbers.as_slice()
    }

    pub fn len(&self) -> usize
        ensures { result ≡ length self.now }
    {
        self.numbers.len()
    }
}
