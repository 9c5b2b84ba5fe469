ghost use Rattle.std.specs.Prelude.{◌≡◌, ◌≤◌, OnErr};
ghost use Rattle.conc_outside.specs.Counts.{Rose};

use conc_outside::Failed;

/// How often a call failed. The count is of 64 bits and stands still at its end.
#[derive(Drop)]
pub(crate) struct Faults {
    count: u64,
}

impl Faults {
    /// No call has failed yet.
    pub(crate) fn new() -> Faults
        ensures { result.count ≡ 0 }
    {
        Faults { count: 0 }
    }

    /// Counts a fault where a call ended in one.
    pub(crate) fn counted<T>(&mut self, done: Result<T, Failed>) -> Result<T, Failed>
        ensures same { result ≡ done }
        ensures later { self.old.count ≤ self.new.count }
        ensures failed { OnErr result (Rose self.old.count self.new.count) }
    {
        if done.is_err() {
            self.count = self.count.saturating_add(1);
        }
        done
    }
}
