ghost use Rattle.std.specs.Prelude.{◌≡◌};
ghost use Rattle.std.specs.Option.{option_copied};
ghost use Rattle.conc_types.specs.declared.event.Event.TheVariants as event;
ghost use Rattle.conc_types.specs.declared.facts.Facts.{Facts};
ghost use Rattle.conc_types.specs.declared.plan.Plan.{Plan};
ghost use Rattle.conc_base_law.specs.Words.{id_eq};
ghost use Rattle.conc_event_effects.specs.Step as step_spec;
ghost use Rattle.conc_history_replay.specs.Changes as spec;

use conc_event_effects::facts_after;
use conc_types::{Act, Event, Facts, Item, Outcome, Plan, Req, RequestId};

// ---- commands that enter requests and do nothing else

/// Whether a command does something to requests, and does not only enter some.
pub(crate) fn acts(act: Option<&Act>) -> bool
    ensures { result ≡ spec.acts (option_copied act.entry) }
{
    match act {
        Some(Act::Submit { .. }) => false,
        Some(_) => true,
        None => false,
    }
}

// ---- events that change the facts of one request alone

/// Makes the facts of the request that a let, a start or an end names what they are after it. Where the
/// kind of the event is known, the other kinds cost nothing.
#[inline(always)]
pub(crate) fn change_alone(e: Event, own: &mut Facts)
    ensures { own.new ≡ spec.alone_after e own.old }
{
    match e {
        Event::LetOut { .. } => own.let_out = true,
        Event::Started { place, .. } => {
            own.place = Some(place);
            own.started = true;
            own.terminated = false;
        }
        Event::Ended { outcome, .. } => {
            own.let_out = false;
            own.place = None;
            own.outcome = own.outcome.or(Some(outcome));
        }
        _ => {}
    }
}

// ---- events of sets

fn is_own(id: RequestId, r: &Req) -> bool
    ensures { result ≡ id_eq id r.now.number }
{
    id.number == r.number.number
}

fn opens(set: RequestId, r: &Req) -> bool
    ensures { result ≡ spec.opens set r.now }
{
    is_own(set, r) && matches!(r.item, Item::Set(_))
}

// The facts of a request after a set was opened.
fn after_open(set: RequestId, r: &Req, own: Facts) -> Facts
    ensures { (plan : Plan) (named : Facts) → result
        ≡ step_spec.facts_after plan named (event.OpenSet set) r.now own }
{
    if !opens(set, r) {
        return own;
    }
    Facts {
        opened: true,
        ..own
    }
}

// The facts of a request after a stage of a set began.
fn after_stage(set: RequestId, stage: u32, r: &Req, own: Facts) -> Facts
    ensures { (plan : Plan) (named : Facts) → result
        ≡ step_spec.facts_after plan named (event.Stage set stage) r.now own }
{
    if !is_own(set, r) {
        return own;
    }
    let begun = own.begun.with(stage);
    Facts {
        stage: Some(stage),
        begun,
        ..own
    }
}

// The facts of a request after a set was closed. Those of a completed member stay.
fn after_close(
    plan: &Plan,
    named: Facts,
    set: RequestId,
    outcome: Outcome,
    r: &Req,
    own: Facts,
) -> Facts
    ensures { result
        ≡ step_spec.facts_after plan.now named (event.CloseSet set outcome) r.now own }
{
    if is_own(set, r) {
        return Facts {
            opened: false,
            outcome: own.outcome.or(Some(outcome)),
            ..own
        };
    }
    if own.outcome.is_some() {
        return own;
    }
    facts_after(plan, named, Event::CloseSet { set, outcome }, r, own)
}

/// The facts of a request after one more event, as `facts_after` gives them; those of sets, which are
/// the most of the others, are asked for first.
#[inline(always)]
pub(crate) fn own_after(plan: &Plan, named: Facts, e: Event, r: &Req, own: Facts) -> Facts
    ensures { result ≡ step_spec.facts_after plan.now named e r.now own }
{
    match e {
        Event::OpenSet { set } => after_open(set, r, own),
        Event::Stage { set, stage } => after_stage(set, stage, r, own),
        Event::CloseSet { set, outcome } => after_close(plan, named, set, outcome, r, own),
        _ => facts_after(plan, named, e, r, own),
    }
}
