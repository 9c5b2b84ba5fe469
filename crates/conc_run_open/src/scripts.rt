ghost use Rattle.std.specs.Prelude.{◌≡◌, IfOk, MatchOption, length, count_by};
ghost use Rattle.conc_base_law.specs.Law.{LawfulSoFar};
ghost use Rattle.conc_journal_image.specs.Fields.{has_stamp};
ghost use Rattle.conc_run_state.specs.Inputs.{AreStampsOf};
ghost use Rattle.conc_run_open.specs.Scripts.{IsOtherCommand};

use conc_run_state::HistoryFail;
use conc_types::{Event, NoMemory, Plan};
use std::alloc::Global;

/// The first command among these events that the plan lacks, or that has another stamp than the plan's.
pub(crate) fn first_other(plan: &Plan, events: &[Event], stamps: &[u64]) -> Option<HistoryFail>
    requires { length stamps.now ≡ count_by has_stamp events.now }
    ensures { MatchOption result (AreStampsOf plan.now events.now stamps.now)
        (IsOtherCommand plan.now events.now stamps.now) }
{
    let mut number = 0;
    for event in events {
        if let Event::Command { number: command } = *event {
            let found = stamps[number];
            let given = plan.stamp(command);
            if given != Some(found) {
                return Some(HistoryFail::OtherScript {
                    command,
                    found,
                    given: given.unwrap_or(0),
                });
            }
            number += 1;
        }
    }
    None
}

/// The stamps of the commands among these events, each of which the plan has.
pub(crate) fn stamps_due(alloc: Global, plan: &Plan, events: &[Event]) -> Result<Vec<u64>, NoMemory>
    requires { LawfulSoFar plan.now events.now }
    ensures { IfOk result (λ stamps. AreStampsOf plan.now events.now stamps.items) }
{
    let mut stamps = Vec::new(alloc);
    for event in events {
        if let Event::Command { number } = *event {
            stamps.push(plan.stamp(number).unwrap_or(0))?;
        }
    }
    Ok(stamps)
}
