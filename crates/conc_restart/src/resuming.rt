ghost use Rattle.std.specs.Prelude.{◌≡◌, IfErr, IfOk, None, reverse};
ghost use Rattle.conc_base_law.specs.Law.{LawfulSoFar};
ghost use Rattle.conc_machine.specs.StandsFor.{plan_of, readings_of, StandsFor};
ghost use Rattle.conc_types.specs.declared.error.CheckFail.TheVariants as fail;
ghost use Rattle.conc_restart.specs.FirstBad.{IsListRefused};

use conc_machine::Machine;
use conc_types::{CheckFail, Event, Plan};
use std::alloc::Global;

/// The machine that stands for the events of a journal, where each may follow those before it with
/// every life judged as an earlier one; else the position, from 1, of the first that may not. It reads
/// the events once, and takes no memory but the machine's.
pub fn resume<'p>(alloc: Global, plan: &'p Plan, events: &[Event]) -> Result<Machine<'p>, CheckFail>
    ensures plan { IfOk result (λ machine. plan_of machine ≡ plan.now) }
    ensures unknown { IfOk result (λ machine. readings_of machine ≡ None) }
    ensures stands { IfOk result (λ machine. StandsFor machine (reverse events.now)) }
    ensures lawful_so_far { IfOk result (λ machine. LawfulSoFar plan.now events.now) }

    ensures unlawful { IfErr result (IsListRefused plan.now events.now) }
    // A list whose events may all follow is refused only for want of memory.
    ensures lawful { LawfulSoFar plan.now events.now → IfErr result (λ e. e ≡ fail.NoMemory) }
{
    let mut machine = Machine::new(alloc, plan)?;
    for (place, event) in events.iter().enumerate() {
        if !machine.judge(event) {
            return Err(CheckFail::Unlawful {
                position: place as u64 + 1,
            });
        }
        machine.apply(*event);
    }
    Ok(machine)
}
