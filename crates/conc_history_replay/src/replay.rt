ghost use Rattle.std.specs.Prelude.{◌≡◌, ◌∷◌, IfOk, IsTrue, List, Some, false, reverse, slice_get};
ghost use Rattle.std.specs.Option.{option_or};
ghost use Rattle.conc_types.specs.declared.event.Event.{Event};
ghost use Rattle.conc_types.specs.declared.event.Event.TheVariants as event;
ghost use Rattle.conc_types.specs.declared.facts.Facts.{Facts};
ghost use Rattle.conc_event_effects.specs.Advance as advance_spec;
ghost use Rattle.conc_event_effects.specs.Advance.{all_after, done_after, IsAfter, one_by};
ghost use Rattle.conc_base_law.specs.Kinds.{tick_of};
ghost use Rattle.conc_base_law.specs.State as spec;
ghost use Rattle.conc_event_reach.specs.Spans.{AreSpans, is_within};
ghost use Rattle.conc_event_reach.specs.Started.{AreStartedWithin, LeavesFacts};
ghost use Rattle.conc_history_replay.specs.Changes as changes_spec;
ghost use Rattle.conc_history_replay.specs.Entries.{AreEntries, IsEntry};

use crate::changes::{change_alone, own_after};
use crate::entries::Entries;
use conc_event_effects::{begin, mark_done, named_facts, used_after};
use conc_event_reach::{Span, Spans, started_after};
use conc_types::{Event, Facts, NoMemory, Plan, RequestId, Seq, State};
use std::alloc::Global;

// Makes the facts of the request at an index what they are after an event.
#[inline(always)]
fn step_at(plan: &Plan, named: Facts, e: Event, facts: &mut Seq<Facts>, i: usize)
    ensures { facts.new ≡ one_by plan.now named e facts.old i (slice_get plan.now.requests i)
        (slice_get facts.old i) }
{
    if let Some(r) = plan.requests.as_slice().get(i) {
        if let Some(own) = facts.as_slice().get(i).copied() {
            facts.set(i, own_after(plan, named, e, r, own));
        }
    }
}

// Makes the facts of the one request that an event can change what they are after it. The event is none
// that cancels.
#[inline(always)]
fn step_one(plan: &Plan, e: Event, facts: &mut Seq<Facts>, id: RequestId)
    requires { changes_spec.named_one e ≡ Some id }
    ensures { facts.new ≡ all_after plan.now spec.no_facts e plan.now.requests facts.old }
{
    if id.number == 0 {
        return;
    }
    step_at(plan, Facts::NONE, e, facts, id.number as usize - 1);
}

// Makes the facts of all requests what they are after an event that changes those within a span alone.
fn step_within(plan: &Plan, named: Facts, e: Event, facts: &mut Seq<Facts>, span: Span)
    requires { LeavesFacts plan.now e facts.old span }
    ensures { facts.new ≡ all_after plan.now named e plan.now.requests facts.old }
{
    for i in span.from..span.to {
        step_at(plan, named, e, facts, i);
    }
}

// Makes the facts of the request that a let, a start or an end names what they are after it.
#[inline(always)]
fn step_alone(plan: &Plan, e: Event, facts: &mut Seq<Facts>, id: RequestId)
    requires { changes_spec.named_alone e ≡ Some id }
    ensures { (named : Facts) → facts.new ≡ all_after plan.now named e plan.now.requests facts.old }
{
    if id.number == 0 {
        return;
    }
    if id.number as usize > plan.requests.len() {
        return;
    }
    let i = id.number as usize - 1;
    if let Some(own) = facts.get_mut(i) {
        change_alone(e, own);
    }
}

// Makes the facts of the request at an index what they are after the command that enters it and does no
// more.
fn enter_at(_plan: &Plan, _number: u32, facts: &mut Seq<Facts>, _span: Span, i: usize)
    requires entry { IsEntry _plan.now _number _span }
    requires within { IsTrue (is_within i _span) }
    ensures { (named : Facts) → facts.new ≡ one_by _plan.now named (event.Command _number)
        facts.old i (slice_get _plan.now.requests i) (slice_get facts.old i) }
{
    if let Some(own) = facts.get_mut(i) {
        own.entered = true;
    }
}

// Makes the facts of all requests what they are after such a command, which changes those of the span
// alone.
#[inline(always)]
fn enter(plan: &Plan, number: u32, facts: &mut Seq<Facts>, span: Span)
    requires { IsEntry plan.now number span }
    ensures { (named : Facts) → facts.new
        ≡ all_after plan.now named (event.Command number) plan.now.requests facts.old }
{
    for i in span.from..span.to {
        enter_at(plan, number, facts, span, i);
    }
}

// Makes all that stands but the facts what it is after an event.
#[inline(always)]
fn settle(state: &mut State, e: Event)
    ensures empty { state.new.empty ≡ false }
    ensures time { state.new.time ≡ option_or (tick_of e) state.old.time }
    ensures used { state.new.used ≡ advance_spec.used_after state.old.used e }
    ensures done { state.new.done ≡ done_after state.old.done e }
    ensures facts { state.new.facts ≡ state.old.facts }
{
    match e {
        Event::Tick { moment } => state.time = Some(moment),
        Event::Command { .. } => mark_done(&mut state.done, e),
        _ => {}
    }
    state.used = used_after(state.used, e);
    state.empty = false;
}

// Takes a let, a start or an end into the state.
#[inline(always)]
fn take_in_alone(plan: &Plan, state: &mut State, e: Event, id: RequestId)
    requires { changes_spec.named_alone e ≡ Some id }
    ensures { IsAfter plan.now state.old state.new e }
{
    step_alone(plan, e, &mut state.facts, id);
    settle(state, e);
}

// Takes the opening or a stage of a set into the state.
#[inline(always)]
fn take_in_one(plan: &Plan, state: &mut State, e: Event, id: RequestId)
    requires { changes_spec.named_one e ≡ Some id }
    ensures { IsAfter plan.now state.old state.new e }
{
    step_one(plan, e, &mut state.facts, id);
    settle(state, e);
}

// Takes any event into the state. Those that were started in this life stand within a span.
#[inline(never)]
fn take_in_any(plan: &Plan, spans: &Spans, state: &mut State, started: Span, e: Event)
    requires spans { AreSpans plan.now spans.now }
    requires started { AreStartedWithin plan.now state.old.facts started }
    ensures { IsAfter plan.now state.old state.new e }
{
    let named = named_facts(plan, state.facts.as_slice(), e);
    let span = spans.reach_in_life(plan, started, e);
    step_within(plan, named, e, &mut state.facts, span);
    settle(state, e);
}

// Takes a command into the state that does no more than enter the requests of the span.
#[inline(always)]
fn take_in_entry(plan: &Plan, state: &mut State, number: u32, span: Span)
    requires { IsEntry plan.now number span }
    ensures { IsAfter plan.now state.old state.new (event.Command number) }
{
    enter(plan, number, &mut state.facts, span);
    settle(state, Event::Command { number });
}

// Takes a command into the state. Most commands do no more than enter requests.
#[inline(always)]
fn take_in_command(
    plan: &Plan,
    spans: &Spans,
    entries: &Entries,
    state: &mut State,
    started: Span,
    number: u32,
)
    requires spans { AreSpans plan.now spans.now }
    requires entries { AreEntries plan.now entries.now }
    requires started { AreStartedWithin plan.now state.old.facts started }
    ensures { IsAfter plan.now state.old state.new (event.Command number) }
{
    match entries.span(plan, number) {
        Some(span) => take_in_entry(plan, state, number, span),
        None => take_in_any(plan, spans, state, started, Event::Command { number }),
    }
}

// Takes one more event into the state. What most events are is asked first: they change the facts of
// one request, or enter some.
#[inline(always)]
fn take_in_state(
    plan: &Plan,
    spans: &Spans,
    entries: &Entries,
    state: &mut State,
    started: Span,
    e: &Event,
)
    requires spans { AreSpans plan.now spans.now }
    requires entries { AreEntries plan.now entries.now }
    requires started { AreStartedWithin plan.now state.old.facts started }
    ensures { IsAfter plan.now state.old state.new e.now }
{
    match *e {
        Event::LetOut { request } => {
            take_in_alone(plan, state, Event::LetOut { request }, request)
        }
        Event::Started { request, place } => {
            take_in_alone(plan, state, Event::Started { request, place }, request)
        }
        Event::Ended {
            request,
            outcome,
            extent,
        } => {
            let ended = Event::Ended {
                request,
                outcome,
                extent,
            };
            take_in_alone(plan, state, ended, request)
        }
        Event::Command { number } => {
            take_in_command(plan, spans, entries, state, started, number)
        }
        Event::OpenSet { set } => take_in_one(plan, state, Event::OpenSet { set }, set),
        Event::Stage { set, stage } => {
            take_in_one(plan, state, Event::Stage { set, stage }, set)
        }
        _ => take_in_any(plan, spans, state, started, *e),
    }
}

/// Takes one more event into the state, and into the span within which those stand that were started in
/// this life, so that a life costs no look at the others. It is put into its caller, since a history is
/// taken in event by event.
#[inline(always)]
pub fn take_in(
    plan: &Plan,
    spans: &Spans,
    entries: &Entries,
    state: &mut State,
    started: &mut Span,
    e: &Event,
)
    requires spans { AreSpans plan.now spans.now }
    requires entries { AreEntries plan.now entries.now }
    requires started { AreStartedWithin plan.now state.old.facts started.old }
    ensures after { IsAfter plan.now state.old state.new e.now }
    ensures started { AreStartedWithin plan.now state.new.facts started.new }
{
    take_in_state(plan, spans, entries, state, *started, e);
    *started = started_after(plan, *started, *e);
}

// Takes one more event: the state after some events becomes the state after these and the event.
fn advance(
    plan: &Plan,
    spans: &Spans,
    entries: &Entries,
    state: &mut State,
    started: &mut Span,
    e: &Event,
)
    requires spans { AreSpans plan.now spans.now }
    requires entries { AreEntries plan.now entries.now }
    requires started { AreStartedWithin plan.now state.old.facts started.old }
    ensures state { (past : List Event) → state.old ≡ spec.state plan.now past
        → state.new ≡ spec.state plan.now (e.now ∷ past) }
    ensures started { AreStartedWithin plan.now state.new.facts started.new }
{
    take_in(plan, spans, entries, state, started, e);
}

/// The state after these events of the plan, which stand in the order in which they came. Each event
/// costs a step for each request whose facts it can change.
pub fn state_after(alloc: Global, plan: &Plan, events: &[Event]) -> Result<State, NoMemory>
    ensures { IfOk result (λ s. s ≡ spec.state plan.now (reverse events.now)) }
{
    let spans = Spans::new(alloc, plan)?;
    let entries = Entries::new(alloc, plan, &spans)?;
    let mut state = begin(alloc, plan)?;
    let mut started = Span::NONE;
    for e in events {
        advance(plan, &spans, &entries, &mut state, &mut started, e);
    }
    Ok(state)
}
