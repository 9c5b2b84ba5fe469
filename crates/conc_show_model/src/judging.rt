ghost use Rattle.std.specs.Prelude.{◌≡◌, ◌==◌, not, None, filter, IfErr, OnOk};
ghost use Rattle.std.specs.List.{list_any};
ghost use Rattle.conc_show_model.specs.Judging as spec;
ghost use Rattle.conc_show_model.specs.Judging.{events_fault, going_after};
ghost use Rattle.conc_show_model.specs.Whys.{IsFailure};

use crate::runs::place_of;
use crate::{ChartFail, ChartFile, ChartWhy, Place, Row};
use conc_types::{Event, NoMemory, PlaceId, RequestId};
use std::alloc::Global;

/// A request that runs, and its place.
#[derive(Clone, Copy)]
pub(crate) struct Going {
    request: RequestId,
    place: Place,
}

// The request that an event is about.
fn named(event: Event) -> Option<RequestId>
    ensures { result ≡ spec.named event }
{
    match event {
        Event::OpenSet { set } => Some(set),
        Event::Stage { set, .. } => Some(set),
        Event::CloseSet { set, .. } => Some(set),
        Event::LetOut { request } => Some(request),
        Event::Started { request, .. } => Some(request),
        Event::Ended { request, .. } => Some(request),
        Event::Interrupt { request } => Some(request),
        Event::Tick { .. } | Event::Command { .. } | Event::Resume => None,
    }
}

// Whether a request has a line in the table.
#[tactic(auto, unfolding(crate::specs::Judging::has_row))]
fn has_row(rows: &[Row], request: RequestId) -> bool
    ensures { result ≡ spec.has_row rows.now request }
{
    rows.iter().any(|row| row.request.number == request.number)
}

fn goes_on(going: &[Going], request: RequestId) -> bool
    ensures { result ≡ list_any (spec.is_of request) going.now }
{
    going.iter().any(|g| g.request.number == request.number)
}

fn is_taken(going: &[Going], place: Place) -> bool
    ensures { result ≡ list_any (spec.stands_at place) going.now }
{
    going.iter().any(|g| g.place.manager == place.manager && g.place.number == place.number)
}

// What is wrong with a start.
fn start_fault(going: &[Going], request: RequestId, place: Place) -> Option<ChartWhy>
    ensures { result ≡ spec.start_fault going.now request place }
{
    if goes_on(going, request) {
        Some(ChartWhy::RunsAlready)
    } else if is_taken(going, place) {
        Some(ChartWhy::PlaceTaken)
    } else {
        None
    }
}

// What is wrong with an end.
fn end_fault(going: &[Going], request: RequestId) -> Option<ChartWhy>
    ensures { result ≡ spec.end_fault going.now request }
{
    if goes_on(going, request) {
        None
    } else {
        Some(ChartWhy::DoesNotRun)
    }
}

fn going_fault(going: &[Going], event: Event) -> Option<ChartWhy>
    ensures { result ≡ spec.going_fault going.now event }
{
    match event {
        Event::Started { request, place } => start_fault(going, request, place_of(place)),
        Event::Ended { request, .. } => end_fault(going, request),
        Event::Interrupt { request } => end_fault(going, request),
        _ => None,
    }
}

// What is wrong with an event, where these requests run before it.
#[tactic(auto, unfolding(crate::specs::Judging::fault_at))]
fn fault_at(rows: &[Row], going: &[Going], event: Event) -> Option<ChartWhy>
    ensures { result ≡ spec.fault_at rows.now going.now event }
{
    match named(event) {
        Some(request) if !has_row(rows, request) => Some(ChartWhy::NoSuchRequest),
        _ => going_fault(going, event),
    }
}

// Takes a request out of those that run.
fn leave(going: &mut Vec<Going>, request: RequestId)
    ensures { going.new.items ≡ filter (λ g. not (spec.is_of request g)) going.old.items }
{
    going.retain(|g| g.request.number != request.number);
}

// The requests that run after an event.
fn go_on(going: &mut Vec<Going>, event: Event) -> Result<(), NoMemory>
    ensures { OnOk result (going.new.items ≡ going_after going.old.items event) }
{
    match event {
        Event::Started { request, place } => going.push(Going {
            request,
            place: place_of(place),
        })?,
        Event::Ended { request, .. } => leave(going, request),
        Event::Interrupt { request } => leave(going, request),
        _ => {}
    }
    Ok(())
}

/// Refuses the events where one names a request that has no row, a request starts that runs or at a
/// place that is taken, or one ends that does not run.
pub(crate) fn judge(alloc: Global, rows: &[Row], events: &[Event]) -> Result<(), ChartFail>
    ensures ok { OnOk result (events_fault rows.now events.now ≡ None) }
    ensures err { IfErr result (IsFailure (events_fault rows.now events.now)) }
{
    let mut going = Vec::new(alloc);
    for i in 0..events.len() {
        let event = events[i];
        if let Some(why) = fault_at(rows, going.as_slice(), event) {
            return Err(ChartFile::History.refused(i as u64 + 1, why));
        }
        go_on(&mut going, event)?;
    }
    Ok(())
}
