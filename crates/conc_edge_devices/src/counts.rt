ghost use Rattle.std.specs.Prelude.{◌≡◌, ◌≤◌, is_err, IfOk, OnErr, OnOk};
ghost use Rattle.conc_outside.specs.Counts.{Rose};

use conc_outside::Failed;

/// The calls of an object, those of them that are to fail, and how often one failed. The counts are
/// of 64 bits and stand still at their end.
#[derive(Drop)]
pub(crate) struct Counts {
    fails: Vec<u64>,
    calls: u64,
    starved: u64,
    faults: u64,
    ghost counted: { starved ≤ faults },
}

impl Counts {
    ghost use Rattle.conc_edge_devices.specs.Faults.{is_listed, IsNextCall};

    /// No call yet. Those with these numbers, counted from 0, are to fail. It takes no memory.
    pub(crate) fn new(fails: Vec<u64>) -> Counts
        ensures fails { result.fails.items ≡ fails.items }
        ensures calls { result.calls ≡ 0 }
        ensures starved { result.starved ≡ 0 }
        ensures faults { result.faults ≡ 0 }
    {
        Counts {
            fails,
            calls: 0,
            starved: 0,
            faults: 0,
        }
    }

    /// How often there was no memory.
    pub(crate) fn starved(&self) -> u64
        ensures count { result ≡ self.now.starved }
        ensures within { result ≤ self.now.faults }
    {
        self.starved
    }

    /// Counts a call and gives its number, or fails where the call is listed.
    pub(crate) fn begin(&mut self) -> Result<u64, Failed>
        ensures number { IfOk result (λ n. n ≡ self.old.calls) }
        ensures next { IsNextCall self.old self.new }
        ensures listed { is_err result ≡ is_listed self.old }
        ensures starved { self.new.starved ≡ self.old.starved }
        ensures faults { self.old.faults ≤ self.new.faults }
        ensures fault { OnErr result (Rose self.old.faults self.new.faults) }
        ensures no_fault { OnOk result (self.new.faults ≡ self.old.faults) }
    {
        let number = self.calls;
        self.calls = number.saturating_add(1);
        if self.fails.contains(&number) {
            self.faults = self.faults.saturating_add(1);
            return Err(Failed);
        }
        Ok(number)
    }

    /// Counts a want of memory, which is a fault too.
    pub(crate) fn starve(&mut self) -> Failed
        ensures fails { self.new.fails.items ≡ self.old.fails.items }
        ensures calls { self.new.calls ≡ self.old.calls }
        ensures starved { self.old.starved ≤ self.new.starved }
        ensures want { Rose self.old.starved self.new.starved }
        ensures faults { self.old.faults ≤ self.new.faults }
        ensures fault { Rose self.old.faults self.new.faults }
    {
        self.starved = self.starved.saturating_add(1);
        self.faults = self.faults.saturating_add(1);
        Failed
    }
}
