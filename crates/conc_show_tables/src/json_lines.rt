ghost use Rattle.std.specs.Prelude.{◌≡◌, ◌++◌, OnOk, codes, flat_map};
ghost use Rattle.conc_show_model.specs.Runs.{place_of as place_from};
ghost use Rattle.conc_show_tables.specs.Json as spec;
ghost use Rattle.conc_show_tables.specs.Json.{escaped, json_event, json_events, json_outcome, json_request, json_text, json_what, json_with, quoted};

use crate::facts::{Facts, seconds_between};
use crate::rows::{RowFormat, put_rows};
use conc_history_lines::{outcome_bytes, phase_bytes, status_bytes};
use conc_show_model::{Chart, Place, Row, place_of, put_bytes, put_place};
use conc_time::put_moment;
use conc_types::{Event, Extent, Moment, NoMemory, Outcome, PlaceId, RequestId, put_decimal};
use std::alloc::Global;

// The format of the lines.
struct Json;

fn put_byte(out: &mut Vec<u8>, byte: u8) -> Result<(), NoMemory>
    ensures { OnOk result (out.new.items ≡ out.old.items ++ escaped byte) }
{
    if byte == b'"' || byte == b'\\' {
        put_bytes(out, b"\\")?;
    }
    out.push(byte)?;
    Ok(())
}

fn put_escaped(out: &mut Vec<u8>, text: &[u8]) -> Result<(), NoMemory>
    ensures { OnOk result (out.new.items ≡ out.old.items ++ flat_map escaped text.now) }
{
    for byte in text {
        put_byte(out, *byte)?;
    }
    Ok(())
}

// A comma, a key and a colon.
fn put_key(out: &mut Vec<u8>, key: &[u8]) -> Result<(), NoMemory>
    ensures { OnOk result (out.new.items ≡ out.old.items ++ spec.key_text key.now) }
{
    put_bytes(out, b",\"")?;
    put_bytes(out, key)?;
    put_bytes(out, b"\":")
}

fn put_quoted(out: &mut Vec<u8>, text: &[u8]) -> Result<(), NoMemory>
    ensures { OnOk result (out.new.items ≡ out.old.items ++ quoted text.now) }
{
    put_bytes(out, b"\"")?;
    put_bytes(out, text)?;
    put_bytes(out, b"\"")
}

fn put_member_number(out: &mut Vec<u8>, key: &[u8], number: u64) -> Result<(), NoMemory>
    ensures { OnOk result (out.new.items ≡ out.old.items ++ spec.number_member key.now number) }
{
    put_key(out, key)?;
    put_decimal(out, number)
}

fn put_null(out: &mut Vec<u8>, key: &[u8]) -> Result<(), NoMemory>
    ensures { OnOk result (out.new.items ≡ out.old.items ++ spec.null_member key.now) }
{
    put_key(out, key)?;
    put_bytes(out, b"null")
}

fn put_number(out: &mut Vec<u8>, key: &[u8], number: Option<u64>) -> Result<(), NoMemory>
    ensures { OnOk result (out.new.items ≡ out.old.items ++ spec.json_number key.now number) }
{
    put_key(out, key)?;
    match number {
        Some(number) => put_decimal(out, number),
        None => put_bytes(out, b"null"),
    }
}

fn put_word(out: &mut Vec<u8>, key: &[u8], word: &[u8]) -> Result<(), NoMemory>
    ensures { OnOk result (out.new.items ≡ out.old.items ++ spec.word_member key.now word.now) }
{
    put_key(out, key)?;
    put_quoted(out, word)
}

fn put_member_moment(out: &mut Vec<u8>, key: &[u8], moment: Moment) -> Result<(), NoMemory>
    ensures { OnOk result (out.new.items ≡ out.old.items ++ spec.moment_member key.now moment) }
{
    put_key(out, key)?;
    put_bytes(out, b"\"")?;
    put_moment(out, moment)?;
    put_bytes(out, b"\"")
}

fn put_time(out: &mut Vec<u8>, key: &[u8], moment: Option<Moment>) -> Result<(), NoMemory>
    ensures { OnOk result (out.new.items ≡ out.old.items ++ spec.json_moment key.now moment) }
{
    match moment {
        Some(moment) => put_member_moment(out, key, moment),
        None => put_null(out, key),
    }
}

fn put_member_place(out: &mut Vec<u8>, place: Place) -> Result<(), NoMemory>
    ensures { OnOk result (out.new.items ≡ out.old.items ++ spec.place_member place) }
{
    put_key(out, b"place")?;
    put_bytes(out, b"\"")?;
    put_place(out, place)?;
    put_bytes(out, b"\"")
}

fn put_start_place(out: &mut Vec<u8>, place: Option<Place>) -> Result<(), NoMemory>
    ensures { OnOk result (out.new.items ≡ out.old.items ++ spec.json_place place) }
{
    match place {
        Some(place) => put_member_place(out, place),
        None => put_null(out, b"place"),
    }
}

fn put_set(out: &mut Vec<u8>, set: Option<RequestId>) -> Result<(), NoMemory>
    ensures { OnOk result (out.new.items ≡ out.old.items ++ spec.json_set set) }
{
    match set {
        Some(set) => put_member_number(out, b"set", u64::from(set.number)),
        None => put_null(out, b"set"),
    }
}

fn put_extent(out: &mut Vec<u8>, extent: Option<Extent>) -> Result<(), NoMemory>
    ensures { OnOk result (out.new.items ≡ out.old.items ++ spec.json_extent extent) }
{
    match extent {
        Some(extent) => {
            put_member_number(out, b"offset", extent.offset)?;
            put_member_number(out, b"length", u64::from(extent.length))
        }
        None => {
            put_null(out, b"offset")?;
            put_null(out, b"length")
        }
    }
}

// The word of an event of one request, and the request.
fn put_about(out: &mut Vec<u8>, word: &[u8], request: RequestId) -> Result<(), NoMemory>
    ensures { OnOk result (out.new.items
        ≡ out.old.items ++ (quoted word.now ++ json_request request)) }
{
    put_quoted(out, word)?;
    put_member_number(out, b"request", u64::from(request.number))
}

fn put_tick(out: &mut Vec<u8>, moment: Moment) -> Result<(), NoMemory>
    ensures { OnOk result (out.new.items ≡ out.old.items
        ++ (quoted (codes "tick") ++ spec.moment_member (codes "moment") moment)) }
{
    put_quoted(out, b"tick")?;
    put_member_moment(out, b"moment", moment)
}

fn put_do(out: &mut Vec<u8>, number: u32) -> Result<(), NoMemory>
    ensures { OnOk result (out.new.items ≡ out.old.items
        ++ (quoted (codes "do") ++ spec.number_member (codes "command") number)) }
{
    put_quoted(out, b"do")?;
    put_member_number(out, b"command", u64::from(number))
}

fn put_stage(out: &mut Vec<u8>, set: RequestId, stage: u32) -> Result<(), NoMemory>
    ensures { OnOk result (out.new.items ≡ out.old.items
        ++ (quoted (codes "stage") ++ json_request set ++ spec.number_member (codes "stage") stage)) }
{
    put_about(out, b"stage", set)?;
    put_member_number(out, b"stage", u64::from(stage))
}

// The word of an event with an outcome, and the outcome.
fn put_outcome(
    out: &mut Vec<u8>,
    word: &[u8],
    request: RequestId,
    outcome: Outcome,
) -> Result<(), NoMemory>
    ensures { OnOk result (out.new.items ≡ out.old.items
        ++ (quoted word.now ++ json_request request ++ json_outcome outcome)) }
{
    put_about(out, word, request)?;
    put_word(out, b"outcome", outcome_bytes(outcome))
}

fn put_start(out: &mut Vec<u8>, request: RequestId, place: PlaceId) -> Result<(), NoMemory>
    ensures { OnOk result (out.new.items ≡ out.old.items
        ++ (quoted (codes "start") ++ json_request request ++ spec.place_member (place_from place))) }
{
    put_about(out, b"start", request)?;
    put_member_place(out, place_of(place))
}

// What an event is.
fn put_what(out: &mut Vec<u8>, event: Event) -> Result<(), NoMemory>
    ensures { OnOk result (out.new.items ≡ out.old.items ++ json_what event) }
{
    match event {
        Event::Tick { moment } => put_tick(out, moment),
        Event::Command { number } => put_do(out, number),
        Event::OpenSet { set } => put_about(out, b"open", set),
        Event::Stage { set, stage } => put_stage(out, set, stage),
        Event::CloseSet { set, outcome } => put_outcome(out, b"close", set, outcome),
        Event::LetOut { request } => put_about(out, b"let", request),
        Event::Started { request, place } => put_start(out, request, place),
        Event::Ended {
            request,
            outcome,
            extent,
        } => {
            put_outcome(out, b"end", request, outcome)?;
            put_extent(out, extent)
        }
        Event::Resume => put_quoted(out, b"resume"),
        Event::Interrupt { request } => put_about(out, b"interrupt", request),
    }
}

#[tactic(auto, unfolding(crate::specs::Json::json_event))]
fn put_event(out: &mut Vec<u8>, number: u64, event: Event) -> Result<(), NoMemory>
    ensures { OnOk result (out.new.items ≡ out.old.items ++ json_event number event) }
{
    put_bytes(out, b"{\"event\":")?;
    put_decimal(out, number)?;
    put_bytes(out, b",\"what\":")?;
    put_what(out, event)?;
    put_bytes(out, b"}\n")
}

// A line for each event.
fn put_events(out: &mut Vec<u8>, events: &[Event]) -> Result<(), NoMemory>
    ensures { OnOk result (out.new.items ≡ out.old.items ++ json_events 1 events.now) }
{
    for i in 0..events.len() {
        put_event(out, i as u64 + 1, events[i])?;
    }
    Ok(())
}

fn put_name(out: &mut Vec<u8>, name: &[u8]) -> Result<(), NoMemory>
    ensures { OnOk result (out.new.items ≡ out.old.items ++ spec.name_member name.now) }
{
    put_key(out, b"program")?;
    put_bytes(out, b"\"")?;
    put_escaped(out, name)?;
    put_bytes(out, b"\"")
}

// The first five members of a row.
fn put_names(out: &mut Vec<u8>, row: &Row, facts: Facts) -> Result<(), NoMemory>
    ensures { OnOk result (out.new.items ≡ out.old.items ++ spec.json_names row.now facts) }
{
    put_bytes(out, b"\"request\":")?;
    put_decimal(out, u64::from(row.request.number))?;
    put_name(out, row.name.as_bytes())?;
    put_set(out, facts.set)?;
    put_word(out, b"phase", phase_bytes(row.phase))?;
    put_word(out, b"status", status_bytes(row.status))
}

// The others.
fn put_facts(out: &mut Vec<u8>, facts: Facts) -> Result<(), NoMemory>
    ensures { OnOk result (out.new.items ≡ out.old.items ++ spec.json_facts facts) }
{
    put_start_place(out, facts.place)?;
    put_time(out, b"do", facts.done_at)?;
    put_time(out, b"let", facts.let_at)?;
    put_time(out, b"start", facts.start_at)?;
    put_time(out, b"end", facts.end_at)?;
    put_number(
        out,
        b"waited",
        seconds_between(facts.let_at, facts.start_at),
    )?;
    put_number(out, b"ran", seconds_between(facts.start_at, facts.end_at))?;
    put_extent(out, facts.extent)
}

impl RowFormat for Json {
    ghost line = { json_with };

    fn put_line(out: &mut Vec<u8>, row: &Row, facts: Facts) -> Result<(), NoMemory> {
        put_bytes(out, b"{")?;
        put_names(out, row, facts)?;
        put_facts(out, facts)?;
        put_bytes(out, b"}\n")
    }
}

/// Appends a line of JSON for each event of a chart, and then one for each row.
#[tactic(auto, unfolding(crate::specs::Json::json_text))]
pub fn put_json(alloc: Global, out: &mut Vec<u8>, chart: &Chart) -> Result<(), NoMemory>
    ensures { OnOk result (out.new.items ≡ out.old.items ++ json_text chart.now) }
{
    put_events(out, chart.events.as_slice())?;
    put_rows::<Json>(alloc, out, chart)
}
