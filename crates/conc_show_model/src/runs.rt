ghost use Rattle.std.specs.Prelude.{◌≡◌, ◌≤◌, drop, length, IfOk};
ghost use Rattle.conc_base_law.specs.Kinds as kinds_spec;
ghost use Rattle.conc_show_model.specs.Runs as spec;
ghost use Rattle.conc_show_model.specs.Runs.{first_end};

use crate::{Place, Run};
use conc_types::{Event, NoMemory, PlaceId, RequestId};
use std::alloc::Global;

// How many places a manager has at most.
const MOST_OF_MANAGER: u32 = 64;

/// The place that an index stands for in a chart.
pub fn place_of(place: PlaceId) -> Place
    ensures { result ≡ spec.place_of place }
{
    Place {
        manager: place.index / MOST_OF_MANAGER + 1,
        number: place.index % MOST_OF_MANAGER + 1,
    }
}

/// Whether an event ends a run of a request.
pub(crate) fn ends_run(request: RequestId, event: Event) -> bool
    ensures { result ≡ kinds_spec.ends_run request event }
{
    match event {
        Event::Ended { request: ended, .. } => ended.number == request.number,
        Event::Interrupt { request: ended } => ended.number == request.number,
        _ => false,
    }
}

// The index of the first event from an index on that ends a run of a request.
fn end_of(events: &[Event], request: RequestId, from: usize) -> Option<usize>
    requires { from ≤ length events.now }
    ensures { result ≡ first_end request from (drop from events.now) }
{
    for i in from..events.len() {
        if ends_run(request, events[i]) {
            return Some(i);
        }
    }
    None
}

/// The runs that events start.
pub(crate) fn runs_of(alloc: Global, events: &[Event]) -> Result<Vec<Run>, NoMemory>
    ensures { IfOk result (λ runs. runs.items ≡ spec.runs_of events.now) }
{
    let mut runs = Vec::new(alloc);
    for i in 0..events.len() {
        let event = events[i];
        if let Event::Started { request, place } = event {
            runs.push(Run {
                request,
                place: place_of(place),
                from: i,
                to: end_of(events, request, i + 1),
            })?;
        }
    }
    Ok(runs)
}
