ghost use Rattle.std.specs.Prelude.{◌≡◌};
ghost use Rattle.conc_types.specs.Words.{some_and};
ghost use Rattle.conc_base_law.specs.Words.{id_eq};
ghost use Rattle.conc_event_effects.specs.Step as spec;

use crate::kinds::{
    Deed, closes, does, ends_run, is_command, lets, opens, stage_begun_by, start_place, starts,
};
use conc_rules::{has_restart, is_resume, is_set, parent};
use conc_types::{Event, Facts, Outcome, PlaceId, Plan, Req, RequestId, StageSet};

// Whether the request with these facts can be held or cancelled.
#[tactic(auto, unfolding(crate::specs::Step::idle))]
fn is_idle(own: Facts) -> bool
    ensures { result ≡ spec.idle own }
{
    own.entered && own.place.is_none() && !own.opened && own.outcome.is_none()
}

#[tactic(auto, unfolding(crate::specs::Step::cancelled_by))]
fn is_cancelled_by(plan: &Plan, r: &Req, e: Event, own: Facts) -> bool
    ensures { result ≡ spec.cancelled_by plan.now r.now e own }
{
    does(plan, Deed::Cancel, r.number, e) && is_idle(own)
}

#[tactic(auto, unfolding(crate::specs::Step::held_by))]
fn is_held_by(plan: &Plan, r: &Req, e: Event, own: Facts) -> bool
    ensures { result ≡ spec.held_by plan.now r.now e own }
{
    does(plan, Deed::Hold, r.number, e) && is_idle(own)
}

#[tactic(auto, unfolding(crate::specs::Step::unheld_by))]
fn is_unheld_by(plan: &Plan, r: &Req, e: Event, own: Facts) -> bool
    ensures { result ≡ spec.unheld_by plan.now r.now e own }
{
    does(plan, Deed::Unhold, r.number, e) && own.outcome.is_none()
}

#[tactic(auto, unfolding(crate::specs::Step::cancels_set))]
fn cancels_set(plan: &Plan, r: &Req, e: Event) -> bool
    ensures { result ≡ spec.cancels_set plan.now r.now e }
{
    match parent(plan, r) {
        Some(set) => does(plan, Deed::Cancel, set.number, e),
        None => false,
    }
}

#[tactic(auto, unfolding(crate::specs::Step::waits_in))]
fn waits_in(plan: &Plan, named: Facts, r: &Req) -> bool
    ensures { result ≡ spec.waits_in plan.now named r.now }
{
    match parent(plan, r) {
        Some(_) => !named.begun.contains(r.stage),
        None => false,
    }
}

fn is_member_of(r: &Req, set: RequestId) -> bool
    ensures { result ≡ some_and (id_eq set) r.now.parent }
{
    match r.parent {
        Some(parent) => set.number == parent.number,
        None => false,
    }
}

#[tactic(auto, unfolding(crate::specs::Step::outcome_by))]
fn outcome_by(plan: &Plan, named: Facts, r: &Req, e: Event, own: Facts) -> Option<Outcome>
    ensures { result ≡ spec.outcome_by plan.now named r.now e own }
{
    match e {
        Event::Ended {
            request,
            outcome,
            ..
        } if request.number == r.number.number => Some(outcome),
        Event::CloseSet { set, outcome } if set.number == r.number.number => Some(outcome),
        Event::CloseSet { set, .. } if is_member_of(r, set) && waits_in(plan, named, r) => {
            Some(Outcome::Cancelled)
        }
        Event::Interrupt { request }
            if request.number == r.number.number && !has_restart(plan, r) => Some(Outcome::Error),
        Event::Command { .. } => {
            if is_cancelled_by(plan, r, e, own) || (cancels_set(plan, r, e) && is_idle(named)) {
                Some(Outcome::Cancelled)
            } else {
                None
            }
        }
        _ => None,
    }
}

// ---- each fact after the event

#[tactic(auto, unfolding(crate::specs::Step::entered_after))]
fn entered_after(r: &Req, e: Event, own: Facts) -> bool
    ensures { result ≡ spec.entered_after r.now e own }
{
    is_command(r.command, e) || own.entered
}

#[tactic(auto, unfolding(crate::specs::Step::held_after))]
fn held_after(plan: &Plan, r: &Req, e: Event, own: Facts) -> bool
    ensures { result ≡ spec.held_after plan.now r.now e own }
{
    is_held_by(plan, r, e, own) || (!is_unheld_by(plan, r, e, own) && own.held)
}

#[tactic(auto, unfolding(crate::specs::Step::opened_after))]
fn opened_after(r: &Req, e: Event, own: Facts) -> bool
    ensures { result ≡ spec.opened_after r.now e own }
{
    (is_set(r.item) && opens(r.number, e)) || (!closes(r.number, e) && own.opened)
}

#[tactic(auto, unfolding(crate::specs::Step::stage_after))]
fn stage_after(r: &Req, e: Event, own: Facts) -> Option<u32>
    ensures { result ≡ spec.stage_after r.now e own }
{
    stage_begun_by(r.number, e).or(own.stage)
}

#[tactic(auto, unfolding(crate::specs::Step::begun_after))]
fn begun_after(r: &Req, e: Event, own: Facts) -> StageSet
    ensures { result.bits ≡ spec.begun_after r.now e own }
{
    match stage_begun_by(r.number, e) {
        Some(stage) => own.begun.with(stage),
        None => own.begun,
    }
}

#[tactic(auto, unfolding(crate::specs::Step::unlet_by))]
fn is_unlet_by(plan: &Plan, r: &Req, e: Event, own: Facts) -> bool
    ensures { result ≡ spec.unlet_by plan.now r.now e own }
{
    ends_run(r.number, e) || is_held_by(plan, r, e, own) || is_cancelled_by(plan, r, e, own)
}

#[tactic(auto, unfolding(crate::specs::Step::let_after))]
fn let_after(plan: &Plan, r: &Req, e: Event, own: Facts) -> bool
    ensures { result ≡ spec.let_after plan.now r.now e own }
{
    lets(r.number, e) || (!is_unlet_by(plan, r, e, own) && own.let_out)
}

#[tactic(auto, unfolding(crate::specs::Step::place_after))]
fn place_after(r: &Req, e: Event, own: Facts) -> Option<PlaceId>
    ensures { result ≡ spec.place_after r.now e own }
{
    let kept = if ends_run(r.number, e) {
        None
    } else {
        own.place
    };
    start_place(r.number, e).or(kept)
}

#[tactic(auto, unfolding(crate::specs::Step::started_after))]
fn started_after(r: &Req, e: Event, own: Facts) -> bool
    ensures { result ≡ spec.started_after r.now e own }
{
    !is_resume(e) && (starts(r.number, e) || own.started)
}

#[tactic(auto, unfolding(crate::specs::Step::terminated_after))]
fn terminated_after(plan: &Plan, r: &Req, e: Event, own: Facts) -> bool
    ensures { result ≡ spec.terminated_after plan.now r.now e own }
{
    (does(plan, Deed::Terminate, r.number, e) && own.place.is_some())
        || (!starts(r.number, e) && own.terminated)
}

/// The facts of a request after one more event. `named` are those of the request that a cancel or a
/// close names, before the event.
#[tactic(auto, unfolding(crate::specs::Step::facts_after))]
pub fn facts_after(plan: &Plan, named: Facts, e: Event, r: &Req, own: Facts) -> Facts
    ensures { result ≡ spec.facts_after plan.now named e r.now own }
{
    Facts {
        entered: entered_after(r, e, own),
        held: held_after(plan, r, e, own),
        opened: opened_after(r, e, own),
        stage: stage_after(r, e, own),
        begun: begun_after(r, e, own),
        let_out: let_after(plan, r, e, own),
        place: place_after(r, e, own),
        started: started_after(r, e, own),
        terminated: terminated_after(plan, r, e, own),
        outcome: own.outcome.or(outcome_by(plan, named, r, e, own)),
    }
}
