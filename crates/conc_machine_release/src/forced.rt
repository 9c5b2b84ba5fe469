ghost use Rattle.std.specs.Prelude.{◌≡◌};
ghost use Rattle.std.specs.Bool.{then_some};
ghost use Rattle.std.specs.Option.{option_and_then, option_map};
ghost use Rattle.conc_types.specs.Words.{some_and};
ghost use Rattle.conc_base_law.specs.Next as next_spec;
ghost use Rattle.conc_event_queue.specs.Least as least_spec;
ghost use Rattle.conc_event_queue.specs.Turns as turns_spec;
ghost use Rattle.conc_event_reach.specs.Spans.{AreSpans};
ghost use Rattle.conc_machine_release.specs.Forced as forced_spec;

use crate::kin::{live_members, live_parents};
use crate::position::Position;
use conc_event_decisions::{is_ready, let_event};
use conc_event_queue::{lesser, request_at_turn, turn};
use conc_types::{Event, Plan, Req};

// Whether r is of the class and ready, and so many live requests as exclude its class are kin of it.
#[tactic(auto, unfolding(crate::specs::Forced::has_only_kin_rivals))]
fn has_only_kin_rivals(position: Position<'_>, class: u32, rivals: u32, r: &Req) -> bool
    requires { AreSpans position.plan.now position.spans.now }
    ensures { result ≡ forced_spec.has_only_kin position.entry class rivals r.now }
{
    position.classes.class(r) == class
        && is_ready(position.plan, position.state, r)
        && live_members(position, class, r) + live_parents(position, class, r) == rivals as usize
}

fn turn_if_only_kin_rivals(position: Position<'_>, class: u32, rivals: u32, r: &Req) -> Option<u64>
    requires { AreSpans position.plan.now position.spans.now }
    ensures { result ≡ then_some (forced_spec.has_only_kin position.entry class rivals r.now)
        (turns_spec.turn r.now) }
{
    has_only_kin_rivals(position, class, rivals, r).then_some(turn(r))
}

/// Whether the request that has this turn has no live rivals but kin, of so many as are live.
pub(crate) fn has_turn_only_kin_rivals(
    position: Position<'_>,
    class: u32,
    rivals: u32,
    turn: u64,
) -> bool
    requires { AreSpans position.plan.now position.spans.now }
    ensures { result ≡ some_and (forced_spec.has_only_kin position.entry class rivals)
        (turns_spec.request_at_turn position.entry.plan.now turn) }
{
    match request_at_turn(position.plan, turn) {
        Some(r) => has_only_kin_rivals(position, class, rivals, r),
        None => false,
    }
}

/// The least turn of those that have no live rivals but kin, of so many as are live.
pub(crate) fn least_with_only_kin_rivals(
    position: Position<'_>,
    class: u32,
    rivals: u32,
) -> Option<u64>
    requires { AreSpans position.plan.now position.spans.now }
    ensures { result ≡ least_spec.least
        (turns_spec.turns_of (forced_spec.has_only_kin position.entry class rivals)
        position.entry.plan.now.requests) }
{
    let mut best = None;
    for r in position.plan.requests.as_slice() {
        best = lesser(best, turn_if_only_kin_rivals(position, class, rivals, r));
    }
    best
}

/// The let, or open, of the request that has this turn.
pub(crate) fn event_at(plan: &Plan, turn: Option<u64>) -> Option<Event>
    ensures { result ≡ option_map next_spec.let_event
        (option_and_then (turns_spec.request_at_turn plan.now) turn) }
{
    match turn {
        Some(turn) => match request_at_turn(plan, turn) {
            Some(r) => Some(let_event(r)),
            None => None,
        },
        None => None,
    }
}
