ghost use Rattle.std.specs.Prelude.{◌≡◌, ℕ, ◌<◌, ◌≤◌, IfErr, IfOk, None, OnOk, Option, reverse};
ghost use Rattle.conc_base_law.specs.Law.{LawfulSoFar};
ghost use Rattle.conc_base_law.specs.State.{used};
ghost use Rattle.conc_restart.specs.Machines.{plan_of, StandsFor};
ghost use Rattle.conc_run_open.specs.Extents.{counted};
ghost use Rattle.conc_run_open.specs.Refusals.{IsRefused};
ghost use Rattle.conc_run_open.specs.Listing.{IsUnlisted};

use crate::extents::first_beyond;
use conc_restart::{Machine, resume};
use conc_run_state::HistoryFail;
use conc_types::{CheckFail, Event, Plan};
use std::alloc::Global;

/// Why these events are refused where the spool has only so many bytes, which are too few for all
/// extents: the number of the first that may not follow, or whose extent ends past the spool.
pub(crate) fn refuse_short(alloc: Global, plan: &Plan, events: &[Event], len: u64) -> HistoryFail
    requires { len < used (reverse events.now) }
    ensures { (broken : Option ℕ) → IsRefused plan.now len events.now broken result }
{
    let beyond = first_beyond(events, len);
    match resume(alloc, plan, events) {
        Ok(_) => HistoryFail::Unlawful { number: beyond },
        Err(CheckFail::Unlawful { position }) => HistoryFail::Unlawful {
            number: position.min(beyond),
        },
        Err(CheckFail::NoMemory) => HistoryFail::NoMemory,
    }
}

/// The machine that stands for these events, where none of them is refused and no record is broken, and
/// the spool has as many bytes as all extents.
pub(crate) fn resume_whole<'p>(
    alloc: Global,
    plan: &'p Plan,
    events: &[Event],
    broken: Option<u64>,
) -> Result<Machine<'p>, HistoryFail>
    ensures plan { IfOk result (λ machine. plan_of machine ≡ plan.now) }
    ensures stands { IfOk result (λ machine. StandsFor machine (reverse events.now)) }
    ensures lawful_so_far { OnOk result (LawfulSoFar plan.now events.now) }
    ensures whole { OnOk result (broken ≡ None) }
    ensures unlisted { IfErr result (IsUnlisted plan.now events.now broken) }
    ensures refused { (len : ℕ) → counted events.now ≤ len
        → IfErr result (IsRefused plan.now len events.now broken) }
{
    let machine = resume(alloc, plan, events)?;
    match broken {
        Some(number) => Err(HistoryFail::Unlawful { number }),
        None => Ok(machine),
    }
}
