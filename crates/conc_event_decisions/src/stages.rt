ghost use Rattle.std.specs.Prelude.{◌≡◌, ◌+◌, ◌<◌, ◌^◌, [], ◌∷◌, IfSome, length, map};
ghost use Rattle.std.specs.List.{enumerate_from, filter, filter_map, list_all};
ghost use Rattle.conc_types.specs.Words.{greatest, is_empty};
ghost use Rattle.conc_base_law.specs.Plans as plans_spec;
ghost use Rattle.conc_base_law.specs.Stages as stages_spec;
ghost use Rattle.conc_base_law.specs.Stages.{worst};
ghost use Rattle.conc_event_decisions.specs.Members.{AreMembers, worst_among};

use crate::lookup::{facts_at, is_completed};
use conc_rules::{is_member, stages_of};
use conc_types::{Event, Facts, Outcome, Plan, Req, RequestId, Stage, State};

fn severity(outcome: Outcome) -> u32
    ensures { result ≡ stages_spec.severity outcome }
{
    match outcome {
        Outcome::Normal => 0,
        Outcome::Warning => 1,
        _ => 2,
    }
}

fn of_severity(severity: u32) -> Outcome
    ensures { result ≡ stages_spec.of_severity severity }
{
    match severity {
        0 => Outcome::Normal,
        1 => Outcome::Warning,
        _ => Outcome::Error,
    }
}

#[tactic(auto, unfolding(conc_base_law::specs::Stages::completed_at))]
fn is_completed_at(state: &State, r: &Req) -> bool
    ensures { result ≡ stages_spec.completed_at state.now r.now }
{
    is_completed(facts_at(state, r))
}

#[tactic(auto, unfolding(conc_base_law::specs::Stages::outcome_at))]
fn outcome_at(state: &State, r: &Req) -> Option<Outcome>
    ensures { result ≡ stages_spec.outcome_at state.now r.now }
{
    facts_at(state, r).outcome
}

// Whether those of the requests that are members of the stage are completed.
fn are_members_completed(state: &State, set: RequestId, stage: u32, requests: &[Req]) -> bool
    ensures { result ≡ list_all (stages_spec.completed_at state.now)
        (filter (plans_spec.is_member set stage) requests.now) }
{
    requests
        .iter()
        .filter(|r| is_member(set, stage, r))
        .all(|r| is_completed_at(state, r))
}

// The severity of the request's outcome, where it is a completed member of the stage, else 0.
fn member_severity(state: &State, set: RequestId, stage: u32, r: &Req) -> u32
    ensures { result ≡ worst_among state.now set stage (r.now ∷ []) }
{
    if !is_member(set, stage, r) {
        return 0;
    }
    match outcome_at(state, r) {
        Some(outcome) => severity(outcome),
        None => 0,
    }
}

// The worst severity among those of the requests that are members of the stage.
fn worst_member(state: &State, set: RequestId, stage: u32, requests: &[Req]) -> u32
    ensures { result ≡ worst_among state.now set stage requests.now }
{
    let mut worst = 0;
    for r in requests {
        worst = member_severity(state, set, stage, r).max(worst);
    }
    worst
}

// The worst outcome among those of the requests that are members of the stage.
#[tactic(auto, unfolding(conc_base_law::specs::Stages::worst))]
fn worst_outcome(state: &State, set: RequestId, stage: u32, requests: &[Req]) -> Outcome
    ensures { result ≡ worst (filter_map (stages_spec.outcome_at state.now)
        (filter (plans_spec.is_member set stage) requests.now)) }
{
    of_severity(worst_member(state, set, stage, requests))
}

fn link(stage: &Stage, outcome: Outcome) -> Option<u32>
    ensures link { result ≡ stages_spec.link stage.now outcome }
    ensures bound { IfSome result (λ place. place < 64) }
{
    match outcome {
        Outcome::Normal => stage.links[0],
        Outcome::Warning => stage.links[1],
        _ => stage.links[2],
    }
}

#[tactic(auto, unfolding(conc_base_law::specs::Stages::next_stage, conc_base_law::specs::Stages::stage_outcome))]
fn next_stage(plan: &Plan, state: &State, set: &Req, stage: u32, members: &[Req]) -> Option<u32>
    requires { AreMembers plan.now set.now.number members.now }
    ensures { result ≡ stages_spec.next_stage plan.now state.now set.now stage }
{
    if stage == 0 {
        return None;
    }
    match stages_of(plan, set).get(stage as usize - 1) {
        Some(found) => match link(found, worst_outcome(state, set.number, stage, members)) {
            Some(place) => Some(place + 1),
            None => None,
        },
        None => None,
    }
}

#[tactic(auto, unfolding(conc_base_law::specs::Stages::counts_for_set))]
fn counts_for_set(facts: Facts, number: u32, stage: &Stage) -> bool
    ensures { result ≡ stages_spec.counts_for_set facts (number, stage.now) }
{
    stage.critical && facts.begun.contains(number)
}

// Whether none of the stages, the first of which has this number, is critical and ran.
fn none_counts(facts: Facts, stages: &[Stage], number: u32) -> bool
    requires { number + length stages.now < 2 ^ 32 }
    ensures { result ≡ is_empty (filter (stages_spec.counts_for_set facts)
        (enumerate_from number stages.now)) }
{
    match stages.split_first() {
        None => true,
        Some((stage, rest)) => {
            !counts_for_set(facts, number, stage) && none_counts(facts, rest, number + 1)
        }
    }
}

// The worst severity among those of the stages that are critical and ran.
fn worst_critical(
    state: &State,
    set: RequestId,
    facts: Facts,
    stages: &[Stage],
    number: u32,
    members: &[Req],
) -> u32
    requires { number + length stages.now < 2 ^ 32 }
    ensures { result ≡ greatest (map stages_spec.severity
        (map (λ stage. worst (filter_map (stages_spec.outcome_at state.now)
        (filter (plans_spec.is_member set stage.0) members.now)))
        (filter (stages_spec.counts_for_set facts) (enumerate_from number stages.now)))) }
{
    match stages.split_first() {
        None => 0,
        Some((stage, rest)) => {
            let below = worst_critical(state, set, facts, rest, number + 1, members);
            if counts_for_set(facts, number, stage) {
                severity(worst_outcome(state, set, number, members)).max(below)
            } else {
                below
            }
        }
    }
}

fn set_outcome(plan: &Plan, state: &State, set: &Req, last: u32, members: &[Req]) -> Outcome
    requires { AreMembers plan.now set.now.number members.now }
    ensures { result ≡ stages_spec.set_outcome plan.now state.now set.now last }
{
    let facts = facts_at(state, set);
    let stages = stages_of(plan, set);
    if none_counts(facts, stages, 1) {
        worst_outcome(state, set.number, last, members)
    } else {
        of_severity(worst_critical(state, set.number, facts, stages, 1, members))
    }
}

/// What an open set does next, where something is due: its first stage, the stage that follows, or
/// its close. All members of the set stand among the requests that are given.
#[tactic(auto, unfolding(conc_base_law::specs::Stages::set_step, conc_base_law::specs::Stages::has_ended))]
pub fn set_step(plan: &Plan, state: &State, set: &Req, members: &[Req]) -> Option<Event>
    requires { AreMembers plan.now set.now.number members.now }
    ensures { result ≡ stages_spec.set_step plan.now state.now set.now }
{
    match facts_at(state, set).stage {
        None => Some(Event::Stage {
            set: set.number,
            stage: 1,
        }),
        Some(stage) => {
            if !are_members_completed(state, set.number, stage, members) {
                return None;
            }
            match next_stage(plan, state, set, stage, members) {
                Some(next) => Some(Event::Stage {
                    set: set.number,
                    stage: next,
                }),
                None => Some(Event::CloseSet {
                    set: set.number,
                    outcome: set_outcome(plan, state, set, stage, members),
                }),
            }
        }
    }
}
