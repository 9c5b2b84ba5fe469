ghost use Rattle.std.specs.Prelude.{◌≡◌};
ghost use Rattle.conc_base_law.specs.Status as spec;
ghost use Rattle.conc_base_law.specs.Status.{status_of, status_of_outcome};

use crate::lookup::{facts_at, has_come, is_running, is_stopping, is_waiting};
use conc_rules::{is_admitted, is_enabled, is_set};
use conc_types::{Facts, Outcome, Phase, Plan, Req, State, Status};

fn of_outcome(outcome: Outcome) -> Status
    ensures { result ≡ status_of_outcome outcome }
{
    match outcome {
        Outcome::Normal => Status::Normal,
        Outcome::Warning => Status::Warning,
        Outcome::Error => Status::Error,
        Outcome::Terminated => Status::Terminated,
        Outcome::Cancelled => Status::Cancelled,
    }
}

#[tactic(auto, unfolding(conc_base_law::specs::Status::waiting_status))]
fn waiting_status(plan: &Plan, state: &State, r: &Req, facts: Facts) -> (Phase, Status)
    ensures { result ≡ spec.waiting_status plan.now state.now r.now facts }
{
    if is_waiting(plan, state, r) {
        (Phase::Pending, Status::Waiting)
    } else if !has_come(state.time, r.start) {
        (Phase::Pending, Status::Scheduled)
    } else if facts.let_out {
        (Phase::Pending, Status::Normal)
    } else {
        (Phase::Pending, Status::Standby)
    }
}

#[tactic(auto, unfolding(conc_base_law::specs::Status::open_status))]
fn open_status(plan: &Plan, state: &State, r: &Req, facts: Facts) -> (Phase, Status)
    ensures { result ≡ spec.open_status plan.now state.now r.now facts }
{
    if is_running(facts) {
        if is_stopping(facts) {
            (Phase::Running, Status::Terminating)
        } else {
            (Phase::Running, Status::Normal)
        }
    } else if facts.opened {
        if facts.stage.is_some() {
            (Phase::Running, Status::Paused)
        } else {
            (Phase::Running, Status::Normal)
        }
    } else if facts.held {
        (Phase::Inactive, Status::OnHold)
    } else if !is_set(r.item) && !is_enabled(plan, r) {
        (Phase::Inactive, Status::Disabled)
    } else if !is_set(r.item) && !is_admitted(plan, r) {
        (Phase::Inactive, Status::NoManager)
    } else {
        waiting_status(plan, state, r, facts)
    }
}

/// The phase and status of a request; None exactly where it is not submitted.
#[tactic(auto, unfolding(conc_base_law::specs::Status::status_of))]
pub fn status(plan: &Plan, state: &State, r: &Req) -> Option<(Phase, Status)>
    ensures { result ≡ status_of plan.now state.now r.now }
{
    let facts = facts_at(state, r);
    if !facts.entered {
        return None;
    }
    match facts.outcome {
        Some(outcome) => Some((Phase::Completed, of_outcome(outcome))),
        None => Some(open_status(plan, state, r, facts)),
    }
}
