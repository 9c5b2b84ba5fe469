use std::sync::Wait;
use std::sync::atomic::AtomicU64;
use std::sync::atomic::Ordering::SeqCst;
use std::time::Duration;

// What the word is once the run is over. Until then it is 0.
const OVER: u64 = 1;

/// The word that tells watchers that the run is over.
#[derive(Drop)]
pub struct Ending {
    word: AtomicU64,
}

impl Ending {
    /// The run is not over. It takes no memory.
    pub fn new() -> Ending {
        Ending {
            word: AtomicU64::new(0),
        }
    }

    /// Whether the run is over.
    pub fn is_over(&self) -> bool {
        self.word.load(SeqCst) == OVER
    }

    /// Tells that the run is over, and wakes those that sleep.
    pub fn set(&self) {
        self.word.store(OVER, SeqCst);
        self.word.wake_all();
    }

    /// Sleeps for some time, and no longer than until the run is over.
    pub fn nap<R: Wait>(&self, rt: &R, time: Duration) {
        self.word.park_timeout(rt, 0, time);
    }
}

impl Default for Ending {
    fn default() -> Ending {
        Ending::new()
    }
}
