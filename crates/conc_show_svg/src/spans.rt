//! How long requests wait, and how long sets are open.
ghost use Rattle.std.specs.Prelude.{◌≡◌, ◌≤◌, IfOk, drop, length};
ghost use Rattle.conc_show_svg.specs.Spans as spec;
ghost use Rattle.conc_show_svg.specs.Spans.{first_end, spans_from};

use conc_types::{Event, NoMemory, RequestId};
use std::alloc::Global;

/// What spans are told: those from a `let` to the start, or those from the opening of a set to its close.
#[derive(Clone, Copy)]
pub(crate) enum Kind {
    Waits,
    Sets,
}

/// A span of a request, from an event to the first later one that ends it, where there is one.
#[derive(Clone, Copy)]
pub(crate) struct Span {
    pub kind: Kind,
    pub request: RequestId,
    pub from: usize,
    pub to: Option<usize>,
}

// The request of which the event begins a span.
fn begun_by(kind: Kind, event: &Event) -> Option<RequestId>
    ensures { result ≡ spec.begun_by kind event.now }
{
    match (kind, *event) {
        (Kind::Waits, Event::LetOut { request }) => Some(request),
        (Kind::Sets, Event::OpenSet { set }) => Some(set),
        _ => None,
    }
}

fn ends(kind: Kind, request: RequestId, event: &Event) -> bool
    ensures { result ≡ spec.ends kind request event.now }
{
    match (kind, *event) {
        (Kind::Waits, Event::Started { request: other, .. }) => other.number == request.number,
        (Kind::Sets, Event::CloseSet { set, .. }) => set.number == request.number,
        _ => false,
    }
}

// The index of the first event, from this index on, that ends the span of the request.
fn end_from(kind: Kind, request: RequestId, events: &[Event], from: usize) -> Option<usize>
    requires { from ≤ length events.now }
    ensures { result ≡ first_end kind request from (drop from events.now) }
{
    for i in from..events.len() {
        if ends(kind, request, &events[i]) {
            return Some(i);
        }
    }
    None
}

/// The spans of a kind, in order of their first events.
pub(crate) fn spans_of(alloc: Global, kind: Kind, events: &[Event]) -> Result<Vec<Span>, NoMemory>
    ensures { IfOk result (λ spans. spans.items ≡ spans_from kind 0 events.now) }
{
    let mut spans = Vec::new(alloc);
    for from in 0..events.len() {
        if let Some(request) = begun_by(kind, &events[from]) {
            let to = end_from(kind, request, events, from + 1);
            spans.push(Span {
                kind,
                request,
                from,
                to,
            })?;
        }
    }
    Ok(spans)
}
