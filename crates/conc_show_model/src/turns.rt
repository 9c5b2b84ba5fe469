ghost use Rattle.std.specs.Prelude.{◌≡◌, IfOk, Some, if◌then◌else◌, is_some};
ghost use Rattle.conc_show_model.specs.Turns as spec;
ghost use Rattle.conc_show_model.specs.Turns.{is_end as is_end_of, is_let as is_let_of, is_start as is_start_of, moments_of, no_turn};

use crate::runs::ends_run;
use conc_types::{Event, Moment, NoMemory, RequestId};
use std::alloc::Global;

/// A start and the first end behind it, as indexes of events, where they are there.
#[derive(Clone, Copy, Debug, PartialEq, Eq)]
pub struct Begun {
    pub start: Option<usize>,
    pub end: Option<usize>,
}

/// The last turn of a request: its last let, for a set its last open, and the first start behind
/// it, for a set the first stage, with the first end behind that, for a set the first close.
#[derive(Clone, Copy, Debug, PartialEq, Eq)]
pub struct Turn {
    /// The index of the event.
    pub let_out: Option<usize>,
    pub begun: Begun,
}

// What later events say of a request: its last turn, its first start, and its first end.
#[derive(Clone, Copy)]
struct Later {
    turn: Turn,
    begun: Begun,
    end: Option<usize>,
}

const NOT_BEGUN: Begun = Begun {
    start: None,
    end: None,
};

const NO_TURN: Turn = Turn {
    let_out: None,
    begun: NOT_BEGUN,
};

fn is_let(request: RequestId, event: Event) -> bool
    ensures { result ≡ spec.is_let request event }
{
    match event {
        Event::LetOut { request: out } => out.number == request.number,
        Event::OpenSet { set } => set.number == request.number,
        _ => false,
    }
}

fn is_start(request: RequestId, event: Event) -> bool
    ensures { result ≡ spec.is_start request event }
{
    match event {
        Event::Started {
            request: started,
            ..
        } => started.number == request.number,
        Event::Stage { set, .. } => set.number == request.number,
        _ => false,
    }
}

fn is_end(request: RequestId, event: Event) -> bool
    ensures { result ≡ spec.is_end request event }
{
    match event {
        Event::CloseSet { set, .. } => set.number == request.number,
        _ => ends_run(request, event),
    }
}

// The moment of an event, where this is the one of the event before.
fn moment_after(now: Option<Moment>, event: Event) -> Option<Moment>
    ensures { result ≡ spec.moment_after now event }
{
    match event {
        Event::Tick { moment } => Some(moment),
        _ => now,
    }
}

/// The moment of each event: that of the last tick before it, or its own where it is a tick.
pub fn moments(alloc: Global, events: &[Event]) -> Result<Vec<Option<Moment>>, NoMemory>
    ensures { IfOk result (λ moments. moments.items ≡ moments_of events.now) }
{
    let mut moments = Vec::new(alloc);
    let mut now = None;
    for event in events {
        now = moment_after(now, *event);
        moments.push(now)?;
    }
    Ok(moments)
}

fn end_with(request: RequestId, i: usize, event: Event, later: Later) -> Option<usize>
    ensures { result ≡ (if is_end_of request event then Some i else later.end) }
{
    if is_end(request, event) {
        Some(i)
    } else {
        later.end
    }
}

fn begun_with(request: RequestId, i: usize, event: Event, later: Later) -> Begun
    ensures { result ≡ (if is_start_of request event then
        record { start = Some i; end = later.end } else later.begun) }
{
    if is_start(request, event) {
        Begun {
            start: Some(i),
            end: later.end,
        }
    } else {
        later.begun
    }
}

fn turn_with(request: RequestId, i: usize, event: Event, later: Later) -> Turn
    ensures { result ≡ (if is_some later.turn.let_out then later.turn
        else (if is_let_of request event then record { let_out = Some i; begun = later.begun }
        else no_turn)) }
{
    if later.turn.let_out.is_some() {
        later.turn
    } else if is_let(request, event) {
        Turn {
            let_out: Some(i),
            begun: later.begun,
        }
    } else {
        NO_TURN
    }
}

// What an event and those behind it say of a request.
fn with(request: RequestId, i: usize, event: Event, later: Later) -> Later
    ensures end { result.end ≡ (if is_end_of request event then Some i else later.end) }
    ensures begun { result.begun ≡ (if is_start_of request event then
        record { start = Some i; end = later.end } else later.begun) }
    ensures turn { result.turn ≡ (if is_some later.turn.let_out then later.turn
        else (if is_let_of request event then record { let_out = Some i; begun = later.begun }
        else no_turn)) }
{
    Later {
        turn: turn_with(request, i, event, later),
        begun: begun_with(request, i, event, later),
        end: end_with(request, i, event, later),
    }
}

/// The last turn of a request.
pub fn turn_of(events: &[Event], request: RequestId) -> Turn
    ensures { result ≡ spec.turn_of request events.now }
{
    let mut later = Later {
        turn: NO_TURN,
        begun: NOT_BEGUN,
        end: None,
    };
    for i in (0..events.len()).rev() {
        later = with(request, i, events[i], later);
    }
    later.turn
}
