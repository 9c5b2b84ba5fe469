ghost use Rattle.std.specs.Prelude.{◌≡◌, ◌-◌, IsTrue, MatchOption, None, Some, length, not, slice_set};
ghost use Rattle.std.specs.Bool.{then_some};
ghost use Rattle.conc_base_law.specs.State as state_spec;
ghost use Rattle.conc_base_law.specs.Words.{Has};
ghost use Rattle.conc_event_queue.specs.Least.{least};
ghost use Rattle.conc_history_check.specs.Coming as spec;
ghost use Rattle.conc_history_check.specs.Coming.{AreComing, AreStartKeys, HasCome, IsNotLater, NoneHasCome};
ghost use Rattle.conc_history_check.specs.Marks.{AreMarkedSince, AreMarks, HaveRoom, IsMarked, KeepsMarks};
ghost use Rattle.conc_history_check.specs.Prepared.{IsPrepared};

use crate::marks::Marks;
use crate::prepared::Prepared;
use conc_event_decisions::has_come;
use conc_event_queue::{Queue, request_at_turn};
use conc_types::{Moment, Plan, Req, State};

// ---- keys

#[tactic(auto, unfolding(crate::specs::Coming::start_key))]
fn start_key(r: &Req) -> u64
    ensures { result ≡ spec.start_key r.now }
{
    r.start.seconds * (1 << 15) + r.number.number as u64
}

// The key of r, unless its start has come.
fn coming_key(now: Option<Moment>, r: &Req) -> Option<u64>
    ensures { result ≡ then_some (not (state_spec.has_come now r.now.start)) (spec.start_key r.now) }
{
    (!has_come(now, r.start)).then_some(start_key(r))
}

// ---- which one is next

// The request with this key, the least that stands there, if its start has come.
fn come_with<'a>(plan: &'a Plan, _coming: &Queue, now: Option<Moment>, key: u64) -> Option<&'a Req>
    requires keys { AreStartKeys plan.now _coming.now }
    requires least { least _coming.now ≡ Some key }
    ensures { MatchOption result (NoneHasCome plan.now _coming.now now)
        (λ r. HasCome plan.now _coming.now now r.now) }
{
    match request_at_turn(plan, key) {
        Some(r) => {
            if has_come(now, r.start) {
                Some(r)
            } else {
                None
            }
        }
        None => None,
    }
}

// The request with the earliest start of those that stand there, if its start has come.
fn next_come<'a>(plan: &'a Plan, coming: &Queue, now: Option<Moment>) -> Option<&'a Req>
    requires keys { AreStartKeys plan.now coming.now }
    ensures { MatchOption result (NoneHasCome plan.now coming.now now)
        (λ r. HasCome plan.now coming.now now r.now) }
{
    match coming.least() {
        Some(key) => come_with(plan, coming, now, key),
        None => None,
    }
}

// Takes the request out that stands next, whose start has come, and puts it anew among the marks.
fn take_next(
    marks: &mut Marks,
    coming: &mut Queue,
    plan: &Plan,
    prepared: &Prepared,
    state: &State,
    r: &Req,
)
    requires prepared { IsPrepared plan.now prepared.now }
    requires room { HaveRoom plan.now prepared.now.classes marks.old }
    requires size { length coming.old ≡ length plan.now.requests }
    requires known { Has plan.now.requests r.now }
    ensures room { HaveRoom plan.now prepared.now.classes marks.new }
    ensures kept { KeepsMarks plan.now prepared.now.classes state.now marks.old marks.new }
    ensures own { IsMarked plan.now prepared.now.classes state.now r.now marks.new }
    ensures taken { coming.new ≡ slice_set coming.old (r.now.number.number - 1) None }
{
    coming.put(r.number.number as usize - 1, None);
    marks.put(plan, prepared, state, r);
}

// Puts those anew whose start has come since a moment that is not later.
fn bring(
    marks: &mut Marks,
    coming: &mut Queue,
    plan: &Plan,
    prepared: &Prepared,
    state: &State,
    _before: Option<Moment>,
)
    requires prepared { IsPrepared plan.now prepared.now }
    requires room { HaveRoom plan.now prepared.now.classes marks.old }
    requires coming { AreComing plan.now _before coming.old }
    requires later { IsNotLater _before state.now.time }
    ensures room { HaveRoom plan.now prepared.now.classes marks.new }
    ensures kept { KeepsMarks plan.now prepared.now.classes state.now marks.old marks.new }
    ensures since { AreMarkedSince plan.now prepared.now.classes _before state.now marks.new }
    ensures coming { AreComing plan.now state.now.time coming.new }
{
    while let Some(r) = next_come(plan, coming, state.time) {
        take_next(marks, coming, plan, prepared, state, r);
    }
}

// Puts a request anew among the marks and among those whose start has not come.
fn renew(
    marks: &mut Marks,
    coming: &mut Queue,
    plan: &Plan,
    prepared: &Prepared,
    state: &State,
    r: &Req,
)
    requires prepared { IsPrepared plan.now prepared.now }
    requires room { HaveRoom plan.now prepared.now.classes marks.old }
    requires size { length coming.old ≡ length plan.now.requests }
    requires known { Has plan.now.requests r.now }
    ensures room { HaveRoom plan.now prepared.now.classes marks.new }
    ensures kept { KeepsMarks plan.now prepared.now.classes state.now marks.old marks.new }
    ensures own { IsMarked plan.now prepared.now.classes state.now r.now marks.new }
    ensures put { coming.new ≡ slice_set coming.old (r.now.number.number - 1)
        (then_some (not (state_spec.has_come state.now.time r.now.start)) (spec.start_key r.now)) }
{
    coming.put(r.number.number as usize - 1, coming_key(state.time, r));
    marks.put(plan, prepared, state, r);
}

/// Puts all requests anew among the marks and among those whose start has not come.
pub(crate) fn renew_all(
    marks: &mut Marks,
    coming: &mut Queue,
    plan: &Plan,
    prepared: &Prepared,
    state: &State,
)
    requires prepared { IsPrepared plan.now prepared.now }
    requires room { HaveRoom plan.now prepared.now.classes marks.old }
    requires size { length coming.old ≡ length plan.now.requests }
    ensures marks { AreMarks plan.now prepared.now.classes state.now marks.new }
    ensures coming { AreComing plan.now state.now.time coming.new }
{
    for i in 0..plan.requests.len() {
        renew(
            marks,
            coming,
            plan,
            prepared,
            state,
            &plan.requests.as_slice()[i],
        );
    }
}

// Whether what has come at a moment has come at another one.
fn is_not_later(before: Option<Moment>, now: Option<Moment>) -> bool
    ensures { IsTrue result → IsNotLater before now }
{
    match (before, now) {
        (None, _) => true,
        (Some(_), None) => false,
        (Some(b), Some(n)) => b.seconds <= n.seconds,
    }
}

/// Puts those anew whose start has come since a moment; where the moment is a later one, all.
pub(crate) fn come(
    marks: &mut Marks,
    coming: &mut Queue,
    plan: &Plan,
    prepared: &Prepared,
    state: &State,
    before: Option<Moment>,
)
    requires prepared { IsPrepared plan.now prepared.now }
    requires room { HaveRoom plan.now prepared.now.classes marks.old }
    requires coming { AreComing plan.now before coming.old }
    ensures room { HaveRoom plan.now prepared.now.classes marks.new }
    ensures kept { KeepsMarks plan.now prepared.now.classes state.now marks.old marks.new }
    ensures since { AreMarkedSince plan.now prepared.now.classes before state.now marks.new }
    ensures coming { AreComing plan.now state.now.time coming.new }
{
    if is_not_later(before, state.time) {
        bring(marks, coming, plan, prepared, state, before);
    } else {
        renew_all(marks, coming, plan, prepared, state);
    }
}
