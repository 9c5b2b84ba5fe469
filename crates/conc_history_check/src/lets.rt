ghost use Rattle.std.specs.Prelude.{◌≡◌, ◌<◌, Some, length, slice_get};
ghost use Rattle.std.specs.Bool.{then_some};
ghost use Rattle.std.specs.Option.{option_and_then, option_map};
ghost use Rattle.conc_types.specs.declared.plan.Req.{Req};
ghost use Rattle.conc_base_law.specs.Next as next_spec;
ghost use Rattle.conc_base_law.specs.Words.{Has};
ghost use Rattle.conc_event_classes.specs.Classes.{class_at};
ghost use Rattle.conc_event_queue.specs.Least.{least, lesser};
ghost use Rattle.conc_event_queue.specs.Turns as turns_spec;
ghost use Rattle.conc_history_check.specs.At as at_spec;
ghost use Rattle.conc_history_check.specs.Lets as lets_spec;
ghost use Rattle.conc_history_check.specs.Lets.{IsLeastTurn};
ghost use Rattle.conc_history_check.specs.Kept.{IsKept};
ghost use Rattle.conc_history_check.specs.Marks.{AreMarks, queue_at};
ghost use Rattle.conc_history_check.specs.Prepared.{IsPrepared};

use crate::free::is_free;
use crate::position::Position;
use crate::ready::is_ready;
use conc_event_decisions::{is_completed, is_live, let_event};
use conc_event_queue::{lesser, request_at_turn, turn};
use conc_types::{Event, Facts, Plan, Req, State};

// Whether the turn comes before the best one so far.
fn comes_before(turn: u64, best: Option<u64>) -> bool
    ensures { result ≡ lets_spec.comes_before turn best }
{
    match best {
        Some(b) => turn < b,
        None => true,
    }
}

// The best turn so far, or that of r where r may be let out and its turn comes before.
fn better(position: Position<'_>, best: Option<u64>, r: &Req) -> Option<u64>
    requires prepared { IsPrepared position.plan.now position.prepared.now }
    requires marks { AreMarks position.plan.now position.prepared.now.classes position.state.now
        position.marks.now }
    requires own { Has position.plan.now.requests r.now }
    ensures { result ≡ lesser best
        (then_some (next_spec.may_let position.entry.plan.now position.entry.state.now r.now)
        (turns_spec.turn r.now)) }
{
    if !is_ready(position.plan, position.prepared, position.state, r) {
        return best;
    }
    let turn = turn(r);
    if !comes_before(turn, best) {
        return best;
    }
    if !is_free(position, r) {
        return best;
    }
    Some(turn)
}

// Whether a request with these facts waits to be let out, and is not held.
fn waits(own: Facts) -> bool
    ensures { result ≡ at_spec.waits own }
{
    own.entered && !is_live(own) && !is_completed(own) && !own.held
}

// Whether the request at an index does. Its facts stand at the same index.
fn waits_at(state: &State, i: usize) -> bool
    ensures { result ≡ at_spec.waits_at (slice_get state.now.facts i) }
{
    match state.facts.as_slice().get(i) {
        Some(own) => waits(*own),
        None => false,
    }
}

// The best turn so far, or that of the request at an index where it may be let out and its turn comes
// before. It looks at the request only where its facts let it wait.
fn better_at(position: Position<'_>, best: Option<u64>, i: usize) -> Option<u64>
    requires prepared { IsPrepared position.plan.now position.prepared.now }
    requires marks { AreMarks position.plan.now position.prepared.now.classes position.state.now
        position.marks.now }
    requires within { i < length position.plan.now.requests }
    ensures { (r : Req) → slice_get position.entry.plan.now.requests i ≡ Some r → result
        ≡ lesser best
        (then_some (next_spec.may_let position.entry.plan.now position.entry.state.now r)
        (turns_spec.turn r)) }
{
    if !waits_at(position.state, i) {
        return best;
    }
    let r = &position.plan.requests.as_slice()[i];
    better(position, best, r)
}

// The least turn of the requests that may be let out. It looks at all that may be active.
fn least_of_all(position: Position<'_>) -> Option<u64>
    requires prepared { IsPrepared position.plan.now position.prepared.now }
    requires kept { IsKept position }
    ensures { result ≡ least (turns_spec.turns_of
        (next_spec.may_let position.entry.plan.now position.entry.state.now)
        position.entry.plan.now.requests) }
{
    let mut best = None;
    for i in position.active.from..position.active.to {
        best = better_at(position, best, i);
    }
    best
}

// The least turn of those of a class that may be let out, of which r is the first that is ready. It looks at all requests only where
// r is excluded and the class may exclude kin of its own.
fn turn_from(position: Position<'_>, _class: usize, first: u64, r: &Req) -> Option<u64>
    requires prepared { IsPrepared position.plan.now position.prepared.now }
    requires kept { IsKept position }
    requires first { least (queue_at position.marks.now.ready.items _class) ≡ Some first }
    requires at { turns_spec.request_at_turn position.plan.now first ≡ Some r.now }
    ensures { IsLeastTurn position.entry.plan.now position.entry.state.now
        (λ q. class_at position.entry.prepared.now.classes q ≡ _class) result }
{
    if is_free(position, r) {
        return Some(first);
    }
    let classes = &position.prepared.classes;
    if !classes.excludes_kin(classes.class(r)) {
        return None;
    }
    least_of_all(position)
}

// The same, where the first that is ready has this turn.
fn turn_in_class(position: Position<'_>, class: usize, first: u64) -> Option<u64>
    requires prepared { IsPrepared position.plan.now position.prepared.now }
    requires kept { IsKept position }
    requires first { least (queue_at position.marks.now.ready.items class) ≡ Some first }
    ensures { IsLeastTurn position.entry.plan.now position.entry.state.now
        (λ q. class_at position.entry.prepared.now.classes q ≡ class) result }
{
    match request_at_turn(position.plan, first) {
        Some(r) => turn_from(position, class, first, r),
        None => None,
    }
}

// The turn of the first request of a class that is ready.
fn first_ready(position: Position<'_>, class: usize) -> Option<u64>
    requires within { class < length position.marks.now.ready.items }
    ensures { result ≡ least (queue_at position.entry.marks.now.ready.items class) }
{
    position.marks.ready[class].least()
}

// The least turn of those of a class that may be let out.
fn least_in_class(position: Position<'_>, class: usize) -> Option<u64>
    requires prepared { IsPrepared position.plan.now position.prepared.now }
    requires kept { IsKept position }
    requires within { class < length position.marks.now.ready.items }
    ensures { IsLeastTurn position.entry.plan.now position.entry.state.now
        (λ q. class_at position.entry.prepared.now.classes q ≡ class) result }
{
    match first_ready(position, class) {
        Some(first) => turn_in_class(position, class, first),
        None => None,
    }
}

// The least turn of the requests that may be let out, class by class.
fn least_turn(position: Position<'_>) -> Option<u64>
    requires prepared { IsPrepared position.plan.now position.prepared.now }
    requires kept { IsKept position }
    ensures { result ≡ least (turns_spec.turns_of
        (next_spec.may_let position.entry.plan.now position.entry.state.now)
        position.entry.plan.now.requests) }
{
    let mut best = None;
    for class in 0..position.marks.ready.len() {
        best = lesser(best, least_in_class(position, class));
    }
    best
}

fn event_at(plan: &Plan, turn: Option<u64>) -> Option<Event>
    ensures { result ≡ option_map next_spec.let_event
        (option_and_then (turns_spec.request_at_turn plan.now) turn) }
{
    let r = request_at_turn(plan, turn?)?;
    Some(let_event(r))
}

/// The let of the first request in precedence that may be let out, or its open where it is a set.
#[tactic(auto, unfolding(conc_base_law::specs::Next::forced_let))]
pub(crate) fn forced_let(position: Position<'_>) -> Option<Event>
    requires prepared { IsPrepared position.plan.now position.prepared.now }
    requires kept { IsKept position }
    ensures { result ≡ next_spec.forced_let position.entry.plan.now position.entry.state.now }
{
    event_at(position.plan, least_turn(position))
}
