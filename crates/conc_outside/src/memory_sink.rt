ghost use Rattle.std.specs.Prelude.{◌≡◌, ◌≢◌, ◌≤◌, ◌<◌, [], Some, length, take, IfOk, OnErr};
ghost use Rattle.conc_outside.specs.Counts.{Rose};
ghost use Rattle.conc_outside.specs.Taken.{Took};

use crate::{Failed, Sink};
use std::alloc::Global;

/// A sink that keeps what it takes in memory. A write takes the whole piece, or fails and is
/// counted: at the listed writes, and where there is no memory, which is counted apart too. The
/// counts are of 64 bits and stand still at their end.
#[derive(Drop)]
pub struct MemSink {
    bytes: Vec<u8>,
    fails: Vec<u64>,
    writes: u64,
    starved: u64,
    faults: u64,
    ghost counted: { starved ≤ faults },
}

impl MemSink {
    ghost use Rattle.conc_outside.specs.Writes.{fails_of, starved_of, writes_of};

    /// A sink that has taken nothing. The writes with these numbers, counted from 0, are to fail.
    /// It takes no memory.
    pub fn new(alloc: Global, fails: Vec<u64>) -> Self
        ensures taken { (⟦<MemSink as Sink>⟧.state result).taken ≡ Some [] }
        ensures faults { (⟦<MemSink as Sink>⟧.state result).faults ≡ 0 }
        ensures fails { fails_of result ≡ fails.items }
        ensures writes { writes_of result ≡ 0 }
        ensures starved { starved_of result ≡ 0 }
    {
        MemSink {
            bytes: Vec::new(alloc),
            fails,
            writes: 0,
            starved: 0,
            faults: 0,
        }
    }

    /// The bytes taken so far.
    pub fn bytes(&self) -> &[u8]
        ensures { (⟦<MemSink as Sink>⟧.state self.now).taken ≡ Some result.now }
    {
        &self.bytes
    }

    /// How often a write found no memory. Each of these writes is a fault too.
    pub fn starved(&self) -> u64
        ensures count { result ≡ starved_of self.now }
        ensures within { result ≤ (⟦<MemSink as Sink>⟧.state self.now).faults }
    {
        self.starved
    }
}

impl Sink for MemSink {
    ghost use Rattle.conc_outside.specs.Writes.{FailsAsListed, sink_state};

    ghost state = { λ s. sink_state s };

    fn write(&mut self, piece: &[u8]) -> Result<usize, Failed>
        ensures faults { (sink_state self.old).faults ≤ (sink_state self.new).faults }
        ensures within { IfOk result (λ n. n ≤ length piece.now) }
        ensures some { IfOk result (λ n. piece.now ≢ [] → 0 < n) }
        ensures taken { IfOk result (λ n. Took (sink_state self.old).taken
            (sink_state self.new).taken (take n piece.now)) }
        ensures unchanged { OnErr result ((sink_state self.new).taken
            ≡ (sink_state self.old).taken) }
        ensures failed { OnErr result (Rose (sink_state self.old).faults
            (sink_state self.new).faults) }
        ensures exact { FailsAsListed self.old self.new result }
        ensures whole { IfOk result (λ n. n ≡ length piece.now) }
    {
        let number = self.writes;
        self.writes = number.saturating_add(1);
        if self.fails.contains(&number) {
            self.faults = self.faults.saturating_add(1);
            return Err(Failed);
        }
        if self.bytes.extend_from_slice(piece).is_err() {
            self.starved = self.starved.saturating_add(1);
            self.faults = self.faults.saturating_add(1);
            return Err(Failed);
        }
        Ok(piece.len())
    }
}
