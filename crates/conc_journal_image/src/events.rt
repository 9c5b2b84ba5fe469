ghost use Rattle.std.specs.Prelude.{◌≡◌, ◌<◌, IsTrue, Some};
ghost use Rattle.conc_types.specs.declared.event.Event.{Event};
ghost use Rattle.conc_base_law.specs.Calendar.{moment_at};
ghost use Rattle.conc_journal_image.specs.Fields.{close_of, command_stamp, end_of, event_of, has_record, is_report_outcome, outcome_number, report_outcome, tick_of};

use crate::fields::Fields;
use conc_types::{Event, Extent, Moment, Outcome, PlaceId, RequestId};

// The seconds of a moment are below this.
const SECONDS_OF_ALL_YEARS: u64 = 315_537_897_600;

// No event.
const EMPTY: Fields = Fields {
    kind: 0,
    outcome: 0,
    first: 0,
    second: 0,
    wide: 0,
    length: 0,
};

// The outcome that a report can have.
fn report_outcome(outcome: u8) -> Option<Outcome>
    ensures { result ≡ report_outcome outcome }
{
    match outcome {
        1 => Some(Outcome::Normal),
        2 => Some(Outcome::Warning),
        3 => Some(Outcome::Error),
        _ => None,
    }
}

// The moment at this number of seconds.
fn moment_at(seconds: u64) -> Moment
    requires { seconds < 315537897600 }
    ensures { result ≡ moment_at seconds }
{
    Moment { seconds }
}

// The tick of these fields.
fn tick_of(fields: &Fields) -> Option<Event>
    ensures { result ≡ tick_of fields.now }
{
    if fields.has_a_wide_number() && fields.wide < SECONDS_OF_ALL_YEARS {
        Some(Event::Tick {
            moment: moment_at(fields.wide),
        })
    } else {
        None
    }
}

// The end of a request of these fields.
fn end_of(fields: &Fields) -> Option<Event>
    ensures { result ≡ end_of fields.now }
{
    let request = RequestId {
        number: fields.first,
    };
    if fields.outcome == 4 {
        return fields.has_first_and_outcome().then_some(Event::Ended {
            request,
            outcome: Outcome::Terminated,
            extent: None,
        });
    }
    if fields.second != 0 || fields.length == 0 {
        return None;
    }
    let outcome = report_outcome(fields.outcome)?;
    Some(Event::Ended {
        request,
        outcome,
        extent: Some(Extent {
            offset: fields.wide,
            length: fields.length,
        }),
    })
}

// The end of a set of these fields.
fn close_of(fields: &Fields) -> Option<Event>
    ensures { result ≡ close_of fields.now }
{
    if !fields.has_first_and_outcome() {
        return None;
    }
    let outcome = report_outcome(fields.outcome)?;
    Some(Event::CloseSet {
        set: RequestId {
            number: fields.first,
        },
        outcome,
    })
}

// The event of these fields.
#[tactic(auto, unfolding(crate::specs::Fields::event_of))]
pub(crate) fn event_of(fields: &Fields) -> Option<Event>
    ensures { result ≡ event_of fields.now }
{
    let request = RequestId {
        number: fields.first,
    };
    match fields.kind {
        1 => tick_of(fields),
        2 => fields.has_first_and_wide().then_some(Event::Command {
            number: fields.first,
        }),
        3 => fields
            .has_first_alone()
            .then_some(Event::OpenSet { set: request }),
        4 => fields.has_two_numbers().then_some(Event::Stage {
            set: request,
            stage: fields.second,
        }),
        5 => close_of(fields),
        6 => fields
            .has_first_alone()
            .then_some(Event::LetOut { request }),
        7 => fields.has_two_numbers().then_some(Event::Started {
            request,
            place: PlaceId {
                index: fields.second,
            },
        }),
        8 => end_of(fields),
        9 => (fields.has_first_alone() && fields.first == 0).then_some(Event::Resume),
        10 => fields
            .has_first_alone()
            .then_some(Event::Interrupt { request }),
        _ => None,
    }
}

// A report can have this outcome.
fn is_report_outcome(outcome: Outcome) -> bool
    ensures { result ≡ is_report_outcome outcome }
{
    matches!(outcome, Outcome::Normal | Outcome::Warning | Outcome::Error)
}

// The number of an outcome. What was cancelled has none.
fn outcome_number(outcome: Outcome) -> u8
    ensures { result ≡ outcome_number outcome }
{
    match outcome {
        Outcome::Normal => 1,
        Outcome::Warning => 2,
        Outcome::Error => 3,
        Outcome::Terminated => 4,
        Outcome::Cancelled => 0,
    }
}

/// The event can stand in a journal: a set closes with a report's outcome, and a request that ends has
/// the extent of a report, which is not empty, or was terminated and has none.
pub fn has_record(event: &Event) -> bool
    ensures { result ≡ has_record event.now }
{
    match *event {
        Event::CloseSet { outcome, .. } => is_report_outcome(outcome),
        Event::Ended {
            outcome: Outcome::Terminated,
            extent,
            ..
        } => extent.is_none(),
        Event::Ended {
            outcome,
            extent,
            ..
        } => is_report_outcome(outcome) && extent.is_some_and(|extent| extent.length > 0),
        _ => true,
    }
}

// The fields of a tick.
fn tick_fields(moment: Moment) -> Fields
    ensures { event_of result ≡ Some (Event.Tick moment) }
{
    Fields {
        kind: 1,
        wide: moment.seconds,
        ..EMPTY
    }
}

// The fields of an event whose record has one number beside its kind.
fn one_number(kind: u8, first: u32) -> Fields
    ensures { result ≡ record {
      kind = kind;
      outcome = 0;
      first = first;
      second = 0;
      wide = 0;
      length = 0;
    } }
{
    Fields {
        kind,
        first,
        ..EMPTY
    }
}

// The same with two numbers.
fn two_numbers(kind: u8, first: u32, second: u32) -> Fields
    ensures { result ≡ record {
      kind = kind;
      outcome = 0;
      first = first;
      second = second;
      wide = 0;
      length = 0;
    } }
{
    Fields {
        second,
        ..one_number(kind, first)
    }
}

// The fields of a command with this stamp.
fn command_fields(number: u32, stamp: u64) -> Fields
    ensures { result ≡ record {
      kind = 2;
      outcome = 0;
      first = number;
      second = 0;
      wide = stamp;
      length = 0;
    } }
{
    Fields {
        wide: stamp,
        ..one_number(2, number)
    }
}

// The fields of this event, with this stamp where it is a command.
#[tactic(auto, unfolding(crate::specs::Fields::event_of))]
pub(crate) fn fields_for(event: Event, stamp: u64) -> Fields
    requires { IsTrue (has_record event) }
    ensures event { event_of result ≡ Some event }
    ensures stamp { command_stamp event result.wide ≡ command_stamp event stamp }
{
    match event {
        Event::Tick { moment } => tick_fields(moment),
        Event::Command { number } => command_fields(number, stamp),
        Event::OpenSet { set } => one_number(3, set.number),
        Event::Stage { set, stage } => two_numbers(4, set.number, stage),
        Event::CloseSet { set, outcome } => Fields {
            outcome: outcome_number(outcome),
            ..one_number(5, set.number)
        },
        Event::LetOut { request } => one_number(6, request.number),
        Event::Started { request, place } => two_numbers(7, request.number, place.index),
        Event::Ended {
            request,
            outcome,
            extent,
        } => Fields {
            outcome: outcome_number(outcome),
            wide: extent.map_or(0, |extent| extent.offset),
            length: extent.map_or(0, |extent| extent.length),
            ..one_number(8, request.number)
        },
        Event::Resume => one_number(9, 0),
        Event::Interrupt { request } => one_number(10, request.number),
    }
}
