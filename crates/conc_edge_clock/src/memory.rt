ghost use Rattle.std.specs.Prelude.{◌≡◌, ◌≤◌, Some, IfOk, OnErr};
ghost use Rattle.conc_outside.specs.Counts.{Rose};
ghost use Rattle.conc_edge_clock.specs.Clocks.{Gives};

use crate::Clock;
use conc_outside::Failed;
use conc_types::Moment;
use std::collections::VecDeque;

/// A clock whose moments stand in memory. It gives them in their order. Where none is left it fails,
/// and that is counted. The count is of 64 bits and stands still at its end.
#[derive(Drop)]
pub struct MemClock {
    left: VecDeque<Moment>,
    faults: u64,
}

impl MemClock {
    /// A clock that gives these moments. It takes no memory.
    pub fn new(moments: Vec<Moment>) -> Self
        ensures { ⟦<MemClock as Clock>⟧.state result
            ≡ record { moments = Some moments.items; faults = 0 } }
    {
        MemClock {
            left: VecDeque::from(moments),
            faults: 0,
        }
    }
}

impl Clock for MemClock {
    ghost use Rattle.conc_edge_clock.specs.Memory.{clock_state, FailsAtTheEnd};

    ghost state = { λ c. clock_state c };

    fn now(&mut self) -> Result<Moment, Failed>
        ensures faults { (clock_state self.old).faults ≤ (clock_state self.new).faults }
        ensures given { IfOk result (λ moment. Gives (clock_state self.old).moments moment
            (clock_state self.new).moments) }
        ensures unchanged { OnErr result ((clock_state self.new).moments
            ≡ (clock_state self.old).moments) }
        ensures failed { OnErr result (Rose (clock_state self.old).faults
            (clock_state self.new).faults) }
        ensures exact { FailsAtTheEnd self.old self.new result }
    {
        match self.left.pop_front() {
            Some(moment) => Ok(moment),
            None => {
                self.faults = self.faults.saturating_add(1);
                Err(Failed)
            }
        }
    }
}
