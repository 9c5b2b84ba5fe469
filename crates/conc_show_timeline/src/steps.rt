//! What the events of a history do to one request.
ghost use Rattle.std.specs.Prelude.{◌≡◌, ◌<◌, IfOk, length};
ghost use Rattle.conc_show_timeline.specs.Columns as columns;
ghost use Rattle.conc_show_timeline.specs.Steps as spec;

use conc_types::{Event, NoMemory, Outcome, RequestId};
use std::alloc::Global;

/// Over how many columns the events are drawn.
pub(crate) const COLUMNS: usize = 48;

/// What an event does to a request. An end has the letter that stands for it.
#[derive(Clone, Copy)]
pub(crate) enum Deed {
    Let,
    Start,
    Stop(u8),
    Open,
    Close(u8),
}

/// A deed, and the column of its event.
#[derive(Clone, Copy)]
pub(crate) struct Step {
    pub column: usize,
    pub deed: Deed,
}

/// The column of the event with this index, of so many.
pub(crate) fn column_of(count: usize, index: usize) -> usize
    requires { index < count }
    ensures column { result ≡ columns.column_of count index }
    ensures within { result < 48 }
{
    (index as u128 * COLUMNS as u128 / count as u128) as usize
}

fn outcome_letter(outcome: Outcome) -> u8
    ensures { result ≡ spec.outcome_letter outcome }
{
    match outcome {
        Outcome::Normal => b'N',
        Outcome::Warning => b'W',
        Outcome::Error => b'E',
        Outcome::Terminated => b'T',
        Outcome::Cancelled => b'C',
    }
}

fn deed_of(request: RequestId, event: &Event) -> Option<Deed>
    ensures { result ≡ spec.deed_of request event.now }
{
    let (of, deed) = match *event {
        Event::LetOut { request } => (request, Deed::Let),
        Event::Started { request, .. } => (request, Deed::Start),
        Event::Ended {
            request,
            outcome,
            ..
        } => (request, Deed::Stop(outcome_letter(outcome))),
        Event::Interrupt { request } => (request, Deed::Stop(b'!')),
        Event::OpenSet { set } => (set, Deed::Open),
        Event::CloseSet { set, outcome } => (set, Deed::Close(outcome_letter(outcome))),
        _ => return None,
    };
    if of.number == request.number {
        Some(deed)
    } else {
        None
    }
}

/// The steps of a request, in the order of the events.
pub(crate) fn steps_of(
    alloc: Global,
    events: &[Event],
    request: RequestId,
) -> Result<Vec<Step>, NoMemory>
    ensures { IfOk result (λ steps.
        steps.items ≡ spec.steps_from request (length events.now) 0 events.now) }
{
    let mut steps = Vec::new(alloc);
    for i in 0..events.len() {
        if let Some(deed) = deed_of(request, &events[i]) {
            let column = column_of(events.len(), i);
            steps.push(Step { column, deed })?;
        }
    }
    Ok(steps)
}
