ghost use Rattle.std.specs.Prelude.{◌≡◌, ◌<◌, ◌^◌};
ghost use Rattle.std.specs.Option.{option_copied};
ghost use Rattle.conc_types.specs.Words.{some_and};
ghost use Rattle.conc_base_law.specs.Kinds as spec;
ghost use Rattle.conc_base_law.specs.Kinds.{act_of};
ghost use Rattle.conc_event_effects.specs.Deeds as deeds_spec;

use conc_types::{Act, Event, PlaceId, Plan, RequestId, numbered};

pub(crate) fn is_command(number: u32, e: Event) -> bool
    ensures { result ≡ spec.is_command number e }
{
    match e {
        Event::Command { number: n } => n == number,
        _ => false,
    }
}

pub(crate) fn opens(set: RequestId, e: Event) -> bool
    ensures { result ≡ spec.opens set e }
{
    match e {
        Event::OpenSet { set: s } => s.number == set.number,
        _ => false,
    }
}

pub(crate) fn closes(set: RequestId, e: Event) -> bool
    ensures { result ≡ spec.closes set e }
{
    match e {
        Event::CloseSet { set: s, .. } => s.number == set.number,
        _ => false,
    }
}

pub(crate) fn lets(r: RequestId, e: Event) -> bool
    ensures { result ≡ spec.lets r e }
{
    match e {
        Event::LetOut { request } => request.number == r.number,
        _ => false,
    }
}

pub(crate) fn starts(r: RequestId, e: Event) -> bool
    ensures { result ≡ spec.starts r e }
{
    match e {
        Event::Started { request, .. } => request.number == r.number,
        _ => false,
    }
}

pub(crate) fn start_place(r: RequestId, e: Event) -> Option<PlaceId>
    ensures { result ≡ spec.start_place r e }
{
    match e {
        Event::Started { request, place } if request.number == r.number => Some(place),
        _ => None,
    }
}

pub(crate) fn ends_run(r: RequestId, e: Event) -> bool
    ensures { result ≡ spec.ends_run r e }
{
    match e {
        Event::Ended { request, .. } | Event::Interrupt { request } => request.number == r.number,
        _ => false,
    }
}

pub(crate) fn stage_begun_by(set: RequestId, e: Event) -> Option<u32>
    ensures { result ≡ spec.stage_begun_by set e }
{
    match e {
        Event::Stage { set: s, stage } if s.number == set.number => Some(stage),
        _ => None,
    }
}

pub(crate) fn extent_length(e: Event) -> u32
    ensures { result ≡ spec.extent_length e }
{
    match e {
        Event::Ended {
            extent: Some(extent),
            ..
        } => extent.length,
        _ => 0,
    }
}

// ---- commands

/// What the command of an event does.
#[tactic(auto, unfolding(conc_base_law::specs::Kinds::act_of))]
pub fn act(plan: &Plan, e: Event) -> Option<&Act>
    ensures { option_copied result ≡ act_of plan.now e }
{
    match e {
        Event::Command { number } => match numbered(plan.script.commands.as_slice(), number) {
            Some(order) => Some(&order.act),
            None => None,
        },
        _ => None,
    }
}

/// What a command does to a request.
#[derive(Clone, Copy)]
pub(crate) enum Deed {
    Hold,
    Unhold,
    Cancel,
    Terminate,
}

// Whether what a command does is this, to this request.
fn is_deed(deed: Deed, r: RequestId, act: &Act) -> bool
    ensures { result ≡ deeds_spec.is_deed deed r act.now }
{
    match (deed, act) {
        (Deed::Hold, Act::Hold { request }) => request.number == r.number,
        (Deed::Unhold, Act::Unhold { request }) => request.number == r.number,
        (Deed::Cancel, Act::Cancel { request }) => request.number == r.number,
        (Deed::Terminate, Act::Terminate { request }) => request.number == r.number,
        _ => false,
    }
}

/// Whether an event is a command that does this to a request.
pub(crate) fn does(plan: &Plan, deed: Deed, r: RequestId, e: Event) -> bool
    ensures { result ≡ some_and (deeds_spec.is_deed deed r) (act_of plan.now e) }
{
    match act(plan, e) {
        Some(act) => is_deed(deed, r, act),
        None => false,
    }
}
