// The end of a daemon's life, told to those of its threads that wait for the system.
use std::alloc::{AllocError, Global};
use std::sync::Arc;
use std::sync::atomic::{AtomicBool, Ordering};

/// Tells the output and the folders that the daemon's life ends: from then on each of their calls fails at once.
#[derive(Drop)]
pub struct StopFlag {
    is_set: Arc<AtomicBool>,
}

impl StopFlag {
    /// A flag that is not set.
    pub fn new(alloc: Global) -> Result<StopFlag, AllocError> {
        Ok(StopFlag {
            is_set: Arc::new(alloc, AtomicBool::new(false))?,
        })
    }

    /// The same flag.
    pub fn again(&self) -> Result<StopFlag, AllocError> {
        Ok(StopFlag {
            is_set: Arc::try_clone(&self.is_set)?,
        })
    }

    pub fn is_set(&self) -> bool {
        self.is_set.load(Ordering::SeqCst)
    }

    /// Sets the flag, or for a further life takes it back.
    pub fn set(&self, is_set: bool) {
        self.is_set.store(is_set, Ordering::SeqCst);
    }
}
