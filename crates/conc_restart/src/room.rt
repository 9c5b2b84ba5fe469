ghost use Rattle.std.specs.Prelude.{◌≡◌};
ghost use Rattle.conc_restart.specs.Need as spec;

use conc_types::{Plan, Readings};

/// For how many events there has to be room so that one more life of the plan fits. It takes no memory.
pub fn need(plan: &Plan, readings: &Readings) -> u64
    ensures { result ≡ spec.need plan.now readings.now.list }
{
    8 * plan.requests.len() as u64
        + 2 * plan.script.commands.len() as u64
        + readings.list.len() as u64
        + 2
}
