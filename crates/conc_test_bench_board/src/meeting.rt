use std::sync::atomic::Ordering::SeqCst;
use std::sync::atomic::{AtomicBool, AtomicU64};
use std::thread;

// After so many looks a thread that waits yields.
const LOOKS: u64 = 4096;

/// Where threads wait for each other.
#[derive(Drop)]
pub(crate) struct Meeting {
    threads: u64,
    came: AtomicU64,
    broken: AtomicBool,
}

impl Meeting {
    /// For so many threads. It takes no memory.
    pub(crate) fn new(threads: u32) -> Self {
        Meeting {
            threads: u64::from(threads),
            came: AtomicU64::new(0),
            broken: AtomicBool::new(false),
        }
    }

    /// Lets all go on, for nothing more is measured.
    pub(crate) fn break_off(&self) {
        self.broken.store(true, SeqCst);
    }

    // Comes, and waits until so many came in all. False where a thread broke off.
    fn wait_for(&self, due: u64) -> bool {
        self.came.fetch_add(1, SeqCst);
        for look in 0..u64::MAX {
            if self.came.load(SeqCst) >= due {
                return true;
            }
            if self.broken.load(SeqCst) {
                return false;
            }
            if look % LOOKS == LOOKS - 1 {
                thread::yield_now();
            }
        }
        false
    }
}

/// One of the threads that meet.
#[derive(Drop)]
pub(crate) struct Member<'a> {
    meeting: &'a Meeting,
    due: u64,
}

impl<'a> Member<'a> {
    /// A thread that was at no meeting yet.
    pub(crate) fn new(meeting: &'a Meeting) -> Self {
        Member { meeting, due: 0 }
    }

    /// Waits for the others. False where one of them broke off.
    pub(crate) fn meet(&mut self) -> bool {
        self.due = self.due.saturating_add(self.meeting.threads);
        self.meeting.wait_for(self.due)
    }
}
