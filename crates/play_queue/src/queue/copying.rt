// A queue once more.
ghost use Rattle.std.specs.Prelude.{◌≡◌, IfOk};

use super::Queue;
use std::alloc::{AllocError, Global};

impl Queue {
    /// The same queue once more, in memory of its own.
    pub fn try_clone(&self, alloc: Global) -> Result<Queue, AllocError>
        ensures { IfOk result (λ copy. copy ≡ self.now) }
    {
        Ok(Queue {
            entries: self.entries.try_clone(alloc)?,
            version: self.version,
            next_id: self.next_id,
        })
    }
}
