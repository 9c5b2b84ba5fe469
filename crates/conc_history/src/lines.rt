ghost use Rattle.std.specs.Prelude.{◌≡◌, ◌++◌, ◌∷◌, [], codes, OnOk};
ghost use Rattle.std.specs.Fmt.{decimal};
ghost use Rattle.conc_base_law.specs.Moments.{moment_text};
ghost use Rattle.conc_base_law.specs.Text.{event_words, events_text, extent_words, id_word, line_of, outcome_word, spaced};

use crate::words::{put_bytes, put_place};
use conc_history_lines::outcome_bytes;
use conc_time::put_moment;
use conc_types::{Event, Extent, Moment, NoMemory, Outcome, Plan, RequestId, put_decimal};

fn put_tick(out: &mut Vec<u8>, moment: Moment) -> Result<(), NoMemory>
    ensures { OnOk result (out.new.items ≡ out.old.items
        ++ spaced (codes "tick" ∷ moment_text moment ∷ [])) }
{
    put_bytes(out, b"tick ")?;
    put_moment(out, moment)
}

// A word and a number, with a blank between them.
fn put_numbered(out: &mut Vec<u8>, word: &[u8], n: u32) -> Result<(), NoMemory>
    ensures { OnOk result (out.new.items ≡ out.old.items ++ spaced (word.now ∷ decimal n ∷ [])) }
{
    put_bytes(out, word)?;
    put_bytes(out, b" ")?;
    put_decimal(out, u64::from(n))
}

// A word, a request or a set, and the blank before what follows.
fn put_about(out: &mut Vec<u8>, word: &[u8], id: RequestId) -> Result<(), NoMemory>
    ensures { OnOk result (out.new.items ≡ out.old.items
        ++ (spaced (word.now ∷ id_word id ∷ []) ++ codes " ")) }
{
    put_numbered(out, word, id.number)?;
    put_bytes(out, b" ")
}

// An extent, with the blank that parts it from the outcome.
fn put_extent(out: &mut Vec<u8>, extent: Extent) -> Result<(), NoMemory>
    ensures { OnOk result (out.new.items ≡ out.old.items ++ 32
        ∷ spaced (decimal extent.offset ∷ decimal extent.length ∷ [])) }
{
    put_bytes(out, b" ")?;
    put_decimal(out, extent.offset)?;
    put_bytes(out, b" ")?;
    put_decimal(out, u64::from(extent.length))
}

// The outcome of an end, and the extent of its report, if it has one.
fn put_report(out: &mut Vec<u8>, outcome: Outcome, extent: Option<Extent>) -> Result<(), NoMemory>
    ensures { OnOk result (out.new.items ≡ out.old.items
        ++ spaced (outcome_word outcome ∷ extent_words extent)) }
{
    put_bytes(out, outcome_bytes(outcome))?;
    match extent {
        Some(extent) => put_extent(out, extent),
        None => Ok(()),
    }
}

// The words of an event, with a blank between two.
#[tactic(auto, unfolding(conc_base_law::specs::Text::event_words))]
fn put_words(out: &mut Vec<u8>, plan: &Plan, event: Event) -> Result<(), NoMemory>
    ensures { OnOk result (out.new.items ≡ out.old.items ++ spaced (event_words plan.now event)) }
{
    match event {
        Event::Tick { moment } => put_tick(out, moment),
        Event::Command { number } => put_numbered(out, b"do", number),
        Event::OpenSet { set } => put_numbered(out, b"open", set.number),
        Event::Stage { set, stage } => {
            put_about(out, b"stage", set)?;
            put_decimal(out, u64::from(stage))
        }
        Event::CloseSet { set, outcome } => {
            put_about(out, b"close", set)?;
            put_bytes(out, outcome_bytes(outcome))
        }
        Event::LetOut { request } => put_numbered(out, b"let", request.number),
        Event::Started { request, place } => {
            put_about(out, b"start", request)?;
            put_place(out, plan, place)
        }
        Event::Ended {
            request,
            outcome,
            extent,
        } => {
            put_about(out, b"end", request)?;
            put_report(out, outcome, extent)
        }
        Event::Resume => put_bytes(out, b"resume"),
        Event::Interrupt { request } => put_numbered(out, b"interrupt", request.number),
    }
}

// Appends the line of an event.
fn put_event(out: &mut Vec<u8>, plan: &Plan, event: Event) -> Result<(), NoMemory>
    ensures { OnOk result (out.new.items ≡ out.old.items ++ line_of (event_words plan.now event)) }
{
    put_words(out, plan, event)?;
    put_bytes(out, b"\n")
}

/// Appends a line for each event.
#[tactic(auto, unfolding(conc_base_law::specs::Text::events_text))]
pub(crate) fn put_events(out: &mut Vec<u8>, plan: &Plan, events: &[Event]) -> Result<(), NoMemory>
    ensures { OnOk result (out.new.items ≡ out.old.items ++ events_text plan.now events.now) }
{
    for event in events {
        put_event(out, plan, *event)?;
    }
    Ok(())
}
