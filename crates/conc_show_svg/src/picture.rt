//! The whole picture.
ghost use Rattle.std.specs.Prelude.{◌≡◌, ◌++◌, All, OnOk, flat_map, length};
ghost use Rattle.conc_show_svg.specs.Bars.{bar_in_lane, bar_in_row, bar_text, lane_bar, row_bar, view_of};
ghost use Rattle.conc_show_svg.specs.Parts.{HasPart};
ghost use Rattle.conc_show_svg.specs.Picture.{AreClear, AreClearEach, HasFrames, IsInside, bands_text, lane_frames, picture, row_frames, view};
ghost use Rattle.conc_show_svg.specs.Rows.{span_text};
ghost use Rattle.conc_show_svg.specs.Spans.{spans_from};

use crate::bars::{Band, put_bar};
use crate::frame::{bottom_of, put_head, put_lane};
use crate::moments::moments_of;
use crate::readings::put_readings;
use crate::rows::{put_row, put_span};
use crate::scene::Scene;
use crate::spans::{Kind, spans_of};
use conc_show_model::{Chart, Place, Planned, Row, Run, places, put_bytes};
use conc_types::NoMemory;
use std::alloc::Global;

// The frames of the lanes.
#[tactic(auto, unfolding(crate::specs::Picture::lane_frames))]
fn put_lanes(out: &mut Vec<u8>, places: &[Place]) -> Result<(), NoMemory>
    ensures { OnOk result (out.new.items ≡ out.old.items ++ lane_frames places.now) }
{
    for i in 0..places.len() {
        put_lane(out, i, places[i])?;
    }
    Ok(())
}

// The frames of the rows, below so many lanes.
#[tactic(auto, unfolding(crate::specs::Picture::row_frames))]
fn put_rows(
    out: &mut Vec<u8>,
    planned: &[Planned],
    lanes: usize,
    rows: &[Row],
) -> Result<(), NoMemory>
    ensures { OnOk result (out.new.items ≡ out.old.items ++ row_frames planned.now lanes rows.now) }
{
    for i in 0..rows.len() {
        put_row(out, planned, lanes, i, &rows[i])?;
    }
    Ok(())
}

// The lines of the waits, or the brackets of the sets.
fn put_spans(
    alloc: Global,
    out: &mut Vec<u8>,
    scene: &Scene<'_>,
    kind: Kind,
) -> Result<(), NoMemory>
    ensures { OnOk result (out.new.items
        ≡ out.old.items ++ flat_map (span_text (view_of scene.now))
        (spans_from kind 0 scene.now.events.now)) }
{
    let spans = spans_of(alloc, kind, scene.events)?;
    for span in &spans {
        put_span(out, scene, span)?;
    }
    Ok(())
}

// The bars of the runs in a band.
fn put_bars(out: &mut Vec<u8>, scene: &Scene<'_>, band: Band, runs: &[Run]) -> Result<(), NoMemory>
    ensures { OnOk result (out.new.items
        ≡ out.old.items ++ flat_map (bar_text (view_of scene.now) band) runs.now) }
{
    for run in runs {
        put_bar(out, scene, band, run)?;
    }
    Ok(())
}

// What stands behind the head.
#[tactic(auto, unfolding(crate::specs::Picture::bands_text))]
fn put_bands(
    alloc: Global,
    out: &mut Vec<u8>,
    scene: &Scene<'_>,
    chart: &Chart,
) -> Result<(), NoMemory>
    ensures { OnOk result (out.new.items
        ≡ out.old.items ++ bands_text (view_of scene.now) chart.now) }
{
    let runs = chart.runs.as_slice();
    put_lanes(out, scene.places.as_slice())?;
    put_rows(
        out,
        chart.planned.as_slice(),
        scene.places.len(),
        scene.rows,
    )?;
    put_readings(out, scene.events, bottom_of(scene))?;
    put_spans(alloc, out, scene, Kind::Waits)?;
    put_spans(alloc, out, scene, Kind::Sets)?;
    put_bars(out, scene, Band::Rows, runs)?;
    put_bars(out, scene, Band::Lanes, runs)
}

#[tactic(auto, unfolding(crate::specs::Picture::picture))]
fn put_picture(alloc: Global, out: &mut Vec<u8>, chart: &Chart) -> Result<(), NoMemory>
    ensures { OnOk result (out.new.items ≡ out.old.items ++ picture chart.now) }
{
    let events = chart.events.as_slice();
    let places = places(alloc, chart.runs.as_slice())?;
    let moments = moments_of(alloc, events)?;
    let scene = Scene {
        events,
        rows: chart.rows.as_slice(),
        places,
        moments,
    };
    put_head(out, &scene, chart.runs.len())?;
    put_bands(alloc, out, &scene, chart)?;
    put_bytes(out, b"</svg>\n")
}

/// Appends the picture of a history.
pub fn put_svg(alloc: Global, out: &mut Vec<u8>, chart: &Chart) -> Result<(), NoMemory>
    ensures text { OnOk result (out.new.items ≡ out.old.items ++ picture chart.now) }

    // Each run has its bar in the lane of its place and in the row of its request, and each request has its row.
    ensures lane_bars { OnOk result (All
        (λ run. HasPart out.new.items (lane_bar (view chart.now) run)) chart.now.runs) }
    ensures row_bars { OnOk result (All
        (λ run. HasPart out.new.items (row_bar (view chart.now) run)) chart.now.runs) }
    ensures frames { OnOk result (HasFrames out.new.items chart.now.planned
        (length (view chart.now).places) chart.now.rows) }

    // The bars of a lane and those of a request do not overlap, and lie where the events are drawn.
    ensures lanes_clear { AreClear (bar_in_lane (view chart.now)) chart.now.runs }
    ensures rows_clear { AreClearEach (bar_in_row (view chart.now)) chart.now.runs }
    ensures inside { All (λ run. IsInside (bar_in_lane (view chart.now) run)) chart.now.runs }
{
    put_picture(alloc, out, chart)
}
