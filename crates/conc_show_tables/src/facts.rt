ghost use Rattle.std.specs.Prelude.{◌≡◌};
ghost use Rattle.conc_base_law.specs.Kinds as kinds_spec;
ghost use Rattle.conc_show_model.specs.Turns.{moments_of};
ghost use Rattle.conc_show_tables.specs.Facts as spec;
ghost use Rattle.conc_show_tables.specs.Facts.{first_done};

use conc_show_model::{Chart, Place, Planned, Row, place_of, turn_of};
use conc_types::{Event, Extent, Moment, RequestId, numbered};

/// What a chart tells of the last turn of a row's request, and what the plan tells of it.
#[derive(Clone, Copy)]
pub(crate) struct Facts {
    /// The moment at which the command is done that entered the request.
    pub done_at: Option<Moment>,
    pub let_at: Option<Moment>,
    pub start_at: Option<Moment>,
    pub end_at: Option<Moment>,
    pub place: Option<Place>,
    pub extent: Option<Extent>,
    pub set: Option<RequestId>,
}

// The moment of the event at an index.
fn moment_in(moments: &[Option<Moment>], index: Option<usize>) -> Option<Moment>
    ensures { result ≡ spec.moment_in moments.now index }
{
    match moments.get(index?) {
        Some(moment) => *moment,
        None => None,
    }
}

// The event at an index.
fn event_in(events: &[Event], index: Option<usize>) -> Option<Event>
    ensures { result ≡ spec.event_in events.now index }
{
    events.get(index?).copied()
}

// The place of the event at an index, where it is a start.
fn place_in(chart: &Chart, index: Option<usize>) -> Option<Place>
    ensures { result ≡ spec.place_in chart.now.events index }
{
    match event_in(chart.events.as_slice(), index)? {
        Event::Started { place, .. } => Some(place_of(place)),
        _ => None,
    }
}

// The extent of the event at an index, where it is an end with one.
fn extent_in(chart: &Chart, index: Option<usize>) -> Option<Extent>
    ensures { result ≡ spec.extent_in chart.now.events index }
{
    match event_in(chart.events.as_slice(), index)? {
        Event::Ended { extent, .. } => extent,
        _ => None,
    }
}

fn set_of(planned: Option<Planned>) -> Option<RequestId>
    ensures { result ≡ spec.set_of planned }
{
    planned?.set
}

fn command_of(planned: Option<Planned>) -> Option<u32>
    ensures { result ≡ spec.command_of planned }
{
    planned?.command
}

// Whether an event is the one with which the command of this number is done.
fn is_command(number: u32, event: Event) -> bool
    ensures { result ≡ kinds_spec.is_command number event }
{
    match event {
        Event::Command { number: done } => done == number,
        _ => false,
    }
}

// The index of the first event with which the command of this number is done.
fn first_done(number: u32, events: &[Event]) -> Option<usize>
    ensures { result ≡ first_done number 0 events.now }
{
    for i in 0..events.len() {
        if is_command(number, events[i]) {
            return Some(i);
        }
    }
    None
}

// The same for the command that entered a request, if it is known.
fn done_of(events: &[Event], planned: Option<Planned>) -> Option<usize>
    ensures { result ≡ spec.done_of events.now planned }
{
    first_done(command_of(planned)?, events)
}

/// The seconds from one moment to another, where both are there.
pub(crate) fn seconds_between(from: Option<Moment>, to: Option<Moment>) -> Option<u64>
    ensures { result ≡ spec.seconds_between from to }
{
    match (from, to) {
        (Some(from), Some(to)) => Some(to.seconds.saturating_sub(from.seconds)),
        _ => None,
    }
}

/// The facts of a row, where these are the moments of the events.
#[tactic(auto, unfolding(crate::specs::Facts::facts_of))]
pub(crate) fn facts_of(chart: &Chart, moments: &[Option<Moment>], row: &Row) -> Facts
    requires { moments.now ≡ moments_of chart.now.events }
    ensures { result ≡ spec.facts_of chart.now row.now }
{
    let turn = turn_of(chart.events.as_slice(), row.request);
    let planned = numbered(chart.planned.as_slice(), row.request.number).copied();
    Facts {
        done_at: moment_in(moments, done_of(chart.events.as_slice(), planned)),
        let_at: moment_in(moments, turn.let_out),
        start_at: moment_in(moments, turn.begun.start),
        end_at: moment_in(moments, turn.begun.end),
        place: place_in(chart, turn.begun.start),
        extent: extent_in(chart, turn.begun.end),
        set: set_of(planned),
    }
}
