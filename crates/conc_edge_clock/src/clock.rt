ghost use Rattle.std.specs.Prelude.{◌≡◌, ◌≤◌, IfOk, OnErr};
ghost use Rattle.conc_edge_clock.specs.Clocks.{ClockState, Gives};
ghost use Rattle.conc_outside.specs.Counts.{Rose};

use conc_outside::Failed;
use conc_types::Moment;

/// A clock, which gives one moment after the other.
pub trait Clock {
    /// The moments that it still gives, if the clock exposes them, and its count of faults.
    ghost state: { Self → ClockState };

    /// The moment now: the first of those that the clock exposed. The count of faults never falls.
    fn now(&mut self) -> Result<Moment, Failed>
        ensures faults { (state self.old).faults ≤ (state self.new).faults }
        ensures given { IfOk result (λ moment. Gives (state self.old).moments moment
            (state self.new).moments) }
        ensures unchanged { OnErr result ((state self.new).moments ≡ (state self.old).moments) }
        ensures failed { OnErr result (Rose (state self.old).faults (state self.new).faults) };
}
