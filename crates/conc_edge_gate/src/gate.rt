ghost use Rattle.std.specs.Prelude.{⊤};
ghost use Rattle.conc_types.specs.declared.event.RequestId.{RequestId};

use conc_types::RequestId;
use std::sync::atomic::AtomicBool;
use std::sync::atomic::Ordering::SeqCst;
use std::thread;

/// A gate through which each worker goes between the permit for a request and its report. It may
/// hold the worker for a while.
pub trait Gate {
    /// That a request came through the gate. Whoever has a gate of any kind learns it from `before` alone.
    ghost came: { Self → RequestId → Type 0 };

    /// Goes through the gate with a request.
    fn before(&self, request: RequestId)
        ensures { came self.now request };
}

/// The gate that holds nobody.
#[derive(Clone, Copy, Debug)]
pub struct FreeGate;

impl Gate for FreeGate {
    ghost came = { λ _ _. ⊤ };

    fn before(&self, _: RequestId) {}
}

/// A gate that holds each of two requests until the other one has come to it, or until the worker
/// has used up its turns. Each turn yields the thread. Other requests go through.
#[derive(Drop)]
pub struct PairGate {
    first: RequestId,
    second: RequestId,
    turns: u64,
    first_came: AtomicBool,
    second_came: AtomicBool,
    gave_up: AtomicBool,
}

impl PairGate {
    /// A gate of two requests, to which neither has come. It takes no memory.
    pub fn new(first: RequestId, second: RequestId, turns: u64) -> Self {
        PairGate {
            first,
            second,
            turns,
            first_came: AtomicBool::new(false),
            second_came: AtomicBool::new(false),
            gave_up: AtomicBool::new(false),
        }
    }

    /// Whether a worker used up its turns. It takes no memory.
    pub fn gave_up(&self) -> bool {
        self.gave_up.load(SeqCst)
    }

    /// Whether both requests came, and each was still held when the other one came. It takes no memory.
    pub fn held_both(&self) -> bool {
        self.first_came.load(SeqCst) && self.second_came.load(SeqCst) && !self.gave_up()
    }

    // Yields until the other request has come, as long as there are turns.
    fn hold(&self, other_came: &AtomicBool) {
        for _ in 0..self.turns {
            if other_came.load(SeqCst) {
                return;
            }
            thread::yield_now();
        }
        if !other_came.load(SeqCst) {
            self.gave_up.store(true, SeqCst);
        }
    }
}

impl Gate for PairGate {
    ghost came = { λ _ _. ⊤ };

    fn before(&self, request: RequestId) {
        if request == self.first {
            self.first_came.store(true, SeqCst);
            self.hold(&self.second_came);
        } else if request == self.second {
            self.second_came.store(true, SeqCst);
            self.hold(&self.first_came);
        }
    }
}
