// The workers of a run that have begun.
ghost use Rattle.std.specs.Prelude.{◌≡◌, ◌<◌, IfSome};

use std::sync::Wait;
use std::sync::atomic::AtomicU64;
use std::sync::atomic::Ordering::SeqCst;
use std::time::Duration;

/// How often the lead sleeps at most until all workers are here: with naps of `NAP` that is ten seconds.
const NAPS_FOR_ALL: u32 = 1000;

/// How often it sleeps at most until the first one is here: that is a minute.
const NAPS_FOR_ONE: u32 = 6000;

/// How many milliseconds the lead sleeps at most before it counts the workers again.
const NAP: u64 = 10;

/// How many workers of a run are here, each in a thread of its own, and how many are expected.
#[derive(Drop)]
pub(crate) struct Arrivals {
    count: AtomicU64,
    expected: u32,
}

impl Arrivals {
    /// Expects this many workers, none of which has arrived. It takes no memory.
    pub(crate) fn new(expected: u32) -> Arrivals
        ensures { result.expected ≡ expected }
    {
        Arrivals {
            count: AtomicU64::new(0),
            expected,
        }
    }

    /// Reports that one more worker is here, and wakes the lead.
    pub(crate) fn arrive(&self) {
        self.count.fetch_add(1, SeqCst);
        self.count.wake_all();
    }

    // How many are here, where some are not.
    fn too_few(&self) -> Option<u32>
        ensures { IfSome result (λ here. here < self.now.expected) }
    {
        let here = u32::try_from(self.count.load(SeqCst)).unwrap_or(u32::MAX);
        if here < self.expected {
            Some(here)
        } else {
            None
        }
    }

    /// Waits for all workers, but after ten seconds for the first one alone, and for that no longer than a minute. Returns how
    /// many are here where some are not.
    pub(crate) fn wait_for_all<R: Wait>(&self, rt: &R) -> Option<u32>
        ensures { IfSome result (λ here. here < self.now.expected) }
    {
        for nap in 0..NAPS_FOR_ONE {
            let here = self.too_few()?;
            if nap >= NAPS_FOR_ALL && here > 0 {
                return Some(here);
            }
            self.count
                .park_timeout(rt, here, Duration::from_millis(NAP));
        }
        self.too_few()
    }
}
