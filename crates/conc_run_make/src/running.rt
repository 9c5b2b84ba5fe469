ghost use Rattle.std.specs.Prelude.{[], IfOk};
ghost use Rattle.conc_base_law.specs.Alone.{Alone};

use crate::generating::Generated;
use conc_machine::Machine;
use conc_run_choice::next_event;
use conc_types::{Event, NoMemory};
use std::alloc::Global;

/// The finished history, without workers, of what was generated, from no events. It is kept in memory and
/// in no journal, and the texts of its reports are not kept.
pub(crate) fn run_in_memory(alloc: Global, generated: &Generated) -> Result<Vec<Event>, NoMemory>
    ensures { IfOk result (λ history. Alone generated.now.plan generated.now.readings.list []
        history.items) }
{
    let mut machine = Machine::new(alloc, &generated.plan)?;
    machine.take_readings(alloc, &generated.readings)?;
    let mut history = Vec::new(alloc);
    while let Some(next) = next_event(alloc, &machine)? {
        history.push(next.event)?;
        machine.apply(next.event);
    }
    Ok(history)
}
