ghost use Rattle.std.specs.Prelude.{◌≡◌, ◌+◌, slice_get};
ghost use Rattle.std.specs.Bool.{then_some};
ghost use Rattle.std.specs.List.{find};
ghost use Rattle.std.specs.Option.{option_and_then, option_copied};
ghost use Rattle.conc_types.specs.declared.event.Event.TheVariants.{Command as command};
ghost use Rattle.conc_base_law.specs.Next as next_spec;
ghost use Rattle.conc_history_check.specs.Active.{IsFirstUndone};
ghost use Rattle.conc_history_check.specs.Kept.{IsKept};
ghost use Rattle.conc_history_check.specs.Prepared.{IsPrepared};

use crate::lets::forced_let;
use crate::live::least_request;
use crate::position::Position;
use conc_event_decisions::{is_due, set_step};
use conc_types::{Event, Plan, Req, State};

// ---- interrupts

// The first request that ran at the stop of the system.
#[tactic(auto, using(crate::proofs::Firsts::first_left))]
fn first_left(position: Position<'_>) -> Option<&Req>
    requires { IsKept position }
    ensures { option_copied result ≡ find (next_spec.is_left_running position.entry.state.now)
        position.entry.plan.now.requests }
{
    least_request(position.plan, &position.marks.left)
}

// The interrupt that is forced, if one is due.
#[tactic(auto, unfolding(conc_base_law::specs::Next::forced_interrupt))]
fn due_interrupt(position: Position<'_>) -> Option<Event>
    requires { IsKept position }
    ensures { result ≡ next_spec.forced_interrupt position.entry.plan.now position.entry.state.now }
{
    match first_left(position) {
        Some(r) => Some(Event::Interrupt { request: r.number }),
        None => None,
    }
}

// ---- commands

// The command at a place, from 0, if it is due.
fn due_at(plan: &Plan, state: &State, place: usize) -> Option<Event>
    ensures { result ≡ option_and_then
        (λ order. then_some (next_spec.is_due state.now (place + 1, order)) (command (place + 1)))
        (slice_get plan.now.script.commands place) }
{
    let order = plan.script.commands.as_slice().get(place)?;
    let number = place as u32 + 1;
    if is_due(state, number, order) {
        Some(Event::Command { number })
    } else {
        None
    }
}

// The command that is forced, if one is due: the first that is not done, where its moment has come.
fn due_command(plan: &Plan, state: &State, undone: usize) -> Option<Event>
    requires { IsFirstUndone state.now undone }
    ensures { result ≡ next_spec.forced_command plan.now state.now }
{
    due_at(plan, state, undone)
}

// ---- steps of sets

// The first open set that has a step.
#[tactic(auto, using(crate::proofs::Firsts::first_step))]
fn first_step(position: Position<'_>) -> Option<&Req>
    requires { IsKept position }
    ensures { option_copied result
        ≡ find (next_spec.has_step position.entry.plan.now position.entry.state.now)
        position.entry.plan.now.requests }
{
    least_request(position.plan, &position.marks.steps)
}

// The step of a set that is forced, if one is due.
#[tactic(auto, unfolding(conc_base_law::specs::Next::forced_step))]
fn due_step(position: Position<'_>) -> Option<Event>
    requires prepared { IsPrepared position.plan.now position.prepared.now }
    requires kept { IsKept position }
    ensures { result ≡ next_spec.forced_step position.entry.plan.now position.entry.state.now }
{
    let plan = position.plan;
    match first_step(position) {
        Some(set) => {
            let members = position.prepared.spans.members(plan, set.number);
            set_step(plan, position.state, set, members)
        }
        None => None,
    }
}

// ---- all four

/// The event that is forced, if one is due.
#[tactic(auto, unfolding(conc_base_law::specs::Next::forced))]
pub(crate) fn forced(position: Position<'_>) -> Option<Event>
    requires prepared { IsPrepared position.plan.now position.prepared.now }
    requires kept { IsKept position }
    ensures { result ≡ next_spec.forced position.entry.plan.now position.entry.state.now }
{
    if let Some(e) = due_interrupt(position) {
        return Some(e);
    }
    if let Some(e) = due_command(position.plan, position.state, position.undone) {
        return Some(e);
    }
    if let Some(e) = due_step(position) {
        return Some(e);
    }
    forced_let(position)
}
