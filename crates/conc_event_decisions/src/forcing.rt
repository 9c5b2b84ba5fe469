ghost use Rattle.std.specs.Prelude.{◌≡◌, unwrap_or, false};
ghost use Rattle.std.specs.List.{list_any};
ghost use Rattle.conc_types.specs.Words as words_spec;
ghost use Rattle.conc_base_law.specs.Next as next_spec;
ghost use Rattle.conc_event_decisions.specs.Members.{AreMembers};

use crate::lookup::{facts_at, has_come, is_completed, is_live, is_running, is_waiting};
use crate::stages::set_step;
use conc_rules::{are_exclusive, can_run, is_set};
use conc_types::{Event, Order, Plan, Req, State, numbered};

// ---- interrupts

/// Whether r ran at the stop of the system: it runs, and was not started since.
#[tactic(auto, unfolding(conc_base_law::specs::Next::is_left_running))]
pub fn is_left_running(state: &State, r: &Req) -> bool
    ensures { result ≡ next_spec.is_left_running state.now r.now }
{
    let facts = facts_at(state, r);
    is_running(facts) && !facts.started
}

// ---- commands

fn is_done(state: &State, number: u32) -> bool
    ensures { result ≡ unwrap_or (words_spec.numbered state.now.done number) false }
{
    numbered(state.done.as_slice(), number)
        .copied()
        .unwrap_or(false)
}

/// Whether a command, which is given with its number, is due: it is not done, and its moment has come.
#[tactic(auto, unfolding(conc_base_law::specs::Next::is_due))]
pub fn is_due(state: &State, number: u32, order: &Order) -> bool
    ensures { result ≡ next_spec.is_due state.now (number, order.now) }
{
    !is_done(state, number) && has_come(state.time, order.at)
}

// ---- steps of sets

/// Whether a request is an open set that has something to do. All members of the set stand among the
/// requests that are given.
#[tactic(auto, unfolding(conc_base_law::specs::Next::has_step))]
pub fn has_step(plan: &Plan, state: &State, r: &Req, members: &[Req]) -> bool
    requires { AreMembers plan.now r.now.number members.now }
    ensures { result ≡ next_spec.has_step plan.now state.now r.now }
{
    facts_at(state, r).opened && set_step(plan, state, r, members).is_some()
}

// ---- lets

/// Whether q is live and excludes r.
#[tactic(auto, unfolding(conc_base_law::specs::Next::blocks))]
pub fn blocks(plan: &Plan, state: &State, r: &Req, q: &Req) -> bool
    ensures { result ≡ next_spec.blocks plan.now state.now r.now q.now }
{
    is_live(facts_at(state, q)) && are_exclusive(plan, q, r)
}

fn is_blocked(plan: &Plan, state: &State, r: &Req) -> bool
    ensures { result ≡ list_any (next_spec.blocks plan.now state.now r.now) plan.now.requests }
{
    plan.requests
        .as_slice()
        .iter()
        .any(|q| blocks(plan, state, r, q))
}

/// Whether no live request excludes r.
#[tactic(auto, unfolding(conc_base_law::specs::Next::is_free))]
pub fn is_free(plan: &Plan, state: &State, r: &Req) -> bool
    ensures { result ≡ next_spec.is_free plan.now state.now r.now }
{
    !is_blocked(plan, state, r)
}

/// Whether r can be let out, or opened, unless a live request excludes it.
#[tactic(auto, unfolding(conc_base_law::specs::Next::is_ready))]
pub fn is_ready(plan: &Plan, state: &State, r: &Req) -> bool
    ensures { result ≡ next_spec.is_ready plan.now state.now r.now }
{
    let facts = facts_at(state, r);
    facts.entered
        && !is_live(facts)
        && !is_completed(facts)
        && !facts.held
        && has_come(state.time, r.start)
        && can_run(plan, r)
        && !is_waiting(plan, state, r)
}

/// The let of a request, or the open where it is a set.
pub fn let_event(r: &Req) -> Event
    ensures { result ≡ next_spec.let_event r.now }
{
    if is_set(r.item) {
        Event::OpenSet { set: r.number }
    } else {
        Event::LetOut { request: r.number }
    }
}
