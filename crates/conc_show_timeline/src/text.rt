//! The whole text.
ghost use Rattle.std.specs.Prelude.{◌≡◌, ◌++◌, All, Contains, OnOk, decimal, flat_map};
ghost use Rattle.conc_show_model.specs.Places.{places_of};
ghost use Rattle.conc_show_timeline.specs.Lanes.{lane_text, words_at};
ghost use Rattle.conc_show_timeline.specs.Parts.{HasPart};
ghost use Rattle.conc_show_timeline.specs.Rows.{row_text};
ghost use Rattle.conc_show_timeline.specs.Timeline.{timeline_text};

use crate::lanes::put_lane;
use crate::rows::put_row;
use crate::ruler::put_ruler;
use conc_show_model::{Chart, Row, Run, places, put_bytes};
use conc_types::{Event, NoMemory};
use std::alloc::Global;

// The lines of all places.
fn put_lanes(
    alloc: Global,
    out: &mut Vec<u8>,
    events: &[Event],
    runs: &[Run],
) -> Result<(), NoMemory>
    ensures { OnOk result (out.new.items
        ≡ out.old.items ++ flat_map (lane_text events.now) (places_of runs.now)) }
{
    let all = places(alloc, runs)?;
    for place in &all {
        put_lane(out, events, *place)?;
    }
    Ok(())
}

// The lines of all requests.
fn put_rows(
    alloc: Global,
    out: &mut Vec<u8>,
    colours: bool,
    events: &[Event],
    rows: &[Row],
) -> Result<(), NoMemory>
    ensures { OnOk result (out.new.items
        ≡ out.old.items ++ flat_map (row_text colours events.now) rows.now) }
{
    for row in rows {
        put_row(alloc, out, colours, events, row)?;
    }
    Ok(())
}

#[tactic(auto, unfolding(crate::specs::Timeline::timeline_text))]
fn put_text(alloc: Global, out: &mut Vec<u8>, chart: &Chart, colours: bool) -> Result<(), NoMemory>
    ensures { OnOk result (out.new.items ≡ out.old.items ++ timeline_text colours chart.now) }
{
    let events = chart.events.as_slice();
    put_lanes(alloc, out, events, chart.runs.as_slice())?;
    put_bytes(out, b"\n")?;
    put_ruler(out, events)?;
    put_rows(alloc, out, colours, events, chart.rows.as_slice())
}

/// Appends the timeline of a history, with the codes of a terminal for colours where they are wanted.
pub fn put_timeline(
    alloc: Global,
    out: &mut Vec<u8>,
    chart: &Chart,
    colours: bool,
) -> Result<(), NoMemory>
    ensures text { OnOk result (out.new.items ≡ out.old.items ++ timeline_text colours chart.now) }

    // Each request of the table has its line.
    ensures rows { OnOk result (All
        (λ row. HasPart out.new.items (row_text colours chart.now.events row)) chart.now.rows) }

    // The place of each run has its lines, and the request is one of their words.
    ensures places { OnOk result (All
        (λ run. HasPart out.new.items (lane_text chart.now.events run.place)) chart.now.runs) }
    ensures runs { All (λ run. Contains
        (flat_map (words_at run.place) chart.now.events) (decimal run.request.number))
        chart.now.runs }
{
    put_text(alloc, out, chart, colours)
}
