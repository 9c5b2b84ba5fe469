ghost use Rattle.std.specs.Prelude.{◌≡◌, false, unwrap_or};
ghost use Rattle.conc_types.specs.Words.{numbered};
ghost use Rattle.conc_base_law.specs.Next as next_spec;
ghost use Rattle.conc_base_law.specs.Words.{Has};
ghost use Rattle.conc_history_check.specs.Prepared.{IsPrepared};

use crate::prepared::Prepared;
use conc_event_decisions::{facts_at, has_come, is_completed, is_live, is_waiting};
use conc_types::{Plan, Req, Seq, State};

fn flag_numbered(flags: &Seq<bool>, number: u32) -> bool
    ensures { result ≡ unwrap_or (numbered flags.now number) false }
{
    if number == 0 {
        return false;
    }
    flags
        .as_slice()
        .get(number as usize - 1)
        .copied()
        .unwrap_or(false)
}

// Whether r is a set, or of an enabled program and admitted by some manager.
fn is_runnable(_plan: &Plan, prepared: &Prepared, r: &Req) -> bool
    requires prepared { IsPrepared _plan.now prepared.now }
    requires own { Has _plan.now.requests r.now }
    ensures { result ≡ next_spec.can_run _plan.now r.now }
{
    flag_numbered(&prepared.runnable, r.number.number)
}

/// Whether r can be let out, or opened, unless a live request excludes it.
#[tactic(auto, unfolding(conc_base_law::specs::Next::is_ready))]
pub(crate) fn is_ready(plan: &Plan, prepared: &Prepared, state: &State, r: &Req) -> bool
    requires prepared { IsPrepared plan.now prepared.now }
    requires own { Has plan.now.requests r.now }
    ensures { result ≡ next_spec.is_ready plan.now state.now r.now }
{
    let facts = facts_at(state, r);
    facts.entered
        && !is_live(facts)
        && !is_completed(facts)
        && !facts.held
        && has_come(state.time, r.start)
        && is_runnable(plan, prepared, r)
        && !is_waiting(plan, state, r)
}
