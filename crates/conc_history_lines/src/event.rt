ghost use Rattle.std.specs.Prelude.{◌≡◌};
ghost use Rattle.conc_history_lines.specs.EventLines as spec;
ghost use Rattle.conc_history_lines.specs.EventLines.{event_of_line};

use crate::words::{extent_of, id_of, number_of, outcome_of, place_of, split_word, stage_of};
use conc_time::read_moment;
use conc_types::{Event, Outcome, RequestId};

// The event of a word alone.
#[tactic(auto, unfolding(crate::specs::EventLines::bare_event))]
fn bare_event(word: &[u8]) -> Option<Event>
    ensures { result ≡ spec.bare_event word.now }
{
    if word == b"resume".as_slice() {
        Some(Event::Resume)
    } else {
        None
    }
}

// The event of a word and the request or set that it is about.
fn event_about(word: &[u8], id: RequestId) -> Option<Event>
    ensures { result ≡ spec.event_about word.now id }
{
    if word == b"open".as_slice() {
        Some(Event::OpenSet { set: id })
    } else if word == b"let".as_slice() {
        Some(Event::LetOut { request: id })
    } else if word == b"interrupt".as_slice() {
        Some(Event::Interrupt { request: id })
    } else {
        None
    }
}

// The event of a word and what it is about.
#[tactic(auto, unfolding(crate::specs::EventLines::short_event))]
fn short_event(word: &[u8], what: &[u8]) -> Option<Event>
    ensures { result ≡ spec.short_event word.now what.now }
{
    if word == b"tick".as_slice() {
        let moment = read_moment(what)?;
        Some(Event::Tick { moment })
    } else if word == b"do".as_slice() {
        let number = number_of(what)?;
        Some(Event::Command { number })
    } else {
        event_about(word, id_of(what)?)
    }
}

// The event of a word, a request or a set, and how it goes on.
#[tactic(auto, unfolding(crate::specs::EventLines::long_event))]
fn long_event(starts: &[u32], word: &[u8], what: &[u8], how: &[u8]) -> Option<Event>
    ensures { result ≡ spec.long_event starts.now word.now what.now how.now }
{
    if word == b"stage".as_slice() {
        let set = id_of(what)?;
        let stage = stage_of(how)?;
        Some(Event::Stage { set, stage })
    } else if word == b"close".as_slice() {
        let set = id_of(what)?;
        let outcome = outcome_of(how)?;
        Some(Event::CloseSet { set, outcome })
    } else if word == b"start".as_slice() {
        let request = id_of(what)?;
        let place = place_of(starts, how)?;
        Some(Event::Started { request, place })
    } else if word == b"end".as_slice() && how == b"Terminated".as_slice() {
        let request = id_of(what)?;
        Some(Event::Ended {
            request,
            outcome: Outcome::Terminated,
            extent: None,
        })
    } else {
        None
    }
}

// The event of an end with an extent.
#[tactic(auto, unfolding(crate::specs::EventLines::report_event))]
fn report_event(word: &[u8], what: &[u8], how: &[u8], offset: &[u8], length: &[u8]) -> Option<Event>
    ensures { result ≡ spec.report_event word.now what.now how.now offset.now length.now }
{
    if word != b"end".as_slice() {
        return None;
    }
    let request = id_of(what)?;
    let outcome = outcome_of(how)?;
    let extent = extent_of(offset, length)?;
    Some(Event::Ended {
        request,
        outcome,
        extent: Some(extent),
    })
}

/// The event that a line without its LF is, by the table of places; None where it is no event line.
#[tactic(auto, unfolding(crate::specs::EventLines::event_of_line))]
pub(crate) fn event_of(line: &[u8], starts: &[u32]) -> Option<Event>
    ensures { result ≡ event_of_line starts.now line.now }
{
    let (word, rest) = split_word(line);
    let Some(rest) = rest else {
        return bare_event(word);
    };
    let (what, rest) = split_word(rest);
    let Some(rest) = rest else {
        return short_event(word, what);
    };
    let (how, rest) = split_word(rest);
    let Some(rest) = rest else {
        return long_event(starts, word, what, how);
    };
    let (offset, rest) = split_word(rest);
    let (length, rest) = split_word(rest?);
    match rest {
        None => report_event(word, what, how, offset, length),
        Some(_) => None,
    }
}
