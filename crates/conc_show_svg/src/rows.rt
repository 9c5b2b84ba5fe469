//! The rows of the requests, without their bars.
ghost use Rattle.std.specs.Prelude.{◌≡◌, ◌++◌, OnOk};
ghost use Rattle.conc_show_svg.specs.Bars.{view_of};
ghost use Rattle.conc_show_svg.specs.Rows.{band_text, group_text, hook_text, labels_text, member_part, member_text, name_text, number_text, row_frame, set_text, span_text, status_text, wait_text};

use crate::escaped::put_escaped;
use crate::geometry::{Bar, end_of, row_top, x_of};
use crate::labels::{is_member, row_of};
use crate::marks::{Path, put_box, put_label, put_path};
use crate::scene::Scene;
use crate::spans::{Kind, Span};
use conc_show_model::{Planned, Row, put_bytes, put_state};
use conc_types::{NoMemory, put_decimal};

// A band behind the row, of one of two classes in turn.
#[tactic(auto, unfolding(crate::specs::Rows::band_text))]
fn put_band(out: &mut Vec<u8>, lanes: usize, index: usize) -> Result<(), NoMemory>
    ensures { OnOk result (out.new.items ≡ out.old.items ++ band_text lanes index) }
{
    let bar = Bar {
        lane: index,
        left: 0,
        width: 120_000,
    };
    let class = if index % 2 == 0 {
        b"even".as_slice()
    } else {
        b"odd"
    };
    put_box(out, class, bar, row_top(lanes, index), 18)?;
    put_bytes(out, b"/>\n")
}

// A piece of the line at the left of the members of a set.
#[tactic(auto, unfolding(crate::specs::Rows::member_text))]
fn put_member(out: &mut Vec<u8>, lanes: usize, index: usize) -> Result<(), NoMemory>
    ensures { OnOk result (out.new.items ≡ out.old.items ++ member_text lanes index) }
{
    let top = row_top(lanes, index);
    put_path(out, b"member", Path::Down(300, top, top + 18))?;
    put_bytes(out, b"/>\n")
}

#[tactic(auto, unfolding(crate::specs::Rows::number_text))]
fn put_number(out: &mut Vec<u8>, row: &Row, y: u128) -> Result<(), NoMemory>
    ensures { OnOk result (out.new.items ≡ out.old.items ++ number_text row.now y) }
{
    put_label(out, b"end", 4_400, y)?;
    put_decimal(out, u64::from(row.request.number))?;
    put_bytes(out, b"</text>\n")
}

#[tactic(auto, unfolding(crate::specs::Rows::name_text))]
fn put_name(out: &mut Vec<u8>, row: &Row, y: u128) -> Result<(), NoMemory>
    ensures { OnOk result (out.new.items ≡ out.old.items ++ name_text row.now y) }
{
    put_label(out, b"name", 5_200, y)?;
    put_escaped(out, row.name.as_bytes())?;
    put_bytes(out, b"</text>\n")
}

#[tactic(auto, unfolding(crate::specs::Rows::status_text))]
fn put_status(out: &mut Vec<u8>, row: &Row, y: u128) -> Result<(), NoMemory>
    ensures { OnOk result (out.new.items ≡ out.old.items ++ status_text row.now y) }
{
    put_label(out, b"soft", 105_200, y)?;
    put_state(out, row.phase, row.status)?;
    put_bytes(out, b"</text>\n")
}

// The piece of the line, where the request is a member.
#[tactic(auto, unfolding(crate::specs::Rows::member_part))]
fn put_member_part(
    out: &mut Vec<u8>,
    row: &Row,
    planned: &[Planned],
    lanes: usize,
    index: usize,
) -> Result<(), NoMemory>
    ensures { OnOk result (out.new.items
        ≡ out.old.items ++ member_part planned.now lanes index row.now) }
{
    if is_member(planned, row.request) {
        put_member(out, lanes, index)
    } else {
        Ok(())
    }
}

// The beginning of a row.
#[tactic(auto, unfolding(crate::specs::Rows::group_text))]
fn put_group(out: &mut Vec<u8>, row: &Row) -> Result<(), NoMemory>
    ensures { OnOk result (out.new.items ≡ out.old.items ++ group_text row.now) }
{
    put_bytes(out, b"<g class=\"row\" data-request=\"")?;
    put_decimal(out, u64::from(row.request.number))?;
    put_bytes(out, b"\">\n")
}

// Number, name, phase and status.
#[tactic(auto, unfolding(crate::specs::Rows::labels_text))]
fn put_labels(out: &mut Vec<u8>, row: &Row, y: u128) -> Result<(), NoMemory>
    ensures { OnOk result (out.new.items ≡ out.old.items ++ labels_text row.now y) }
{
    put_number(out, row, y)?;
    put_name(out, row, y)?;
    put_status(out, row, y)
}

/// The frame of the row with this index, below so many lanes.
#[tactic(auto, unfolding(crate::specs::Rows::row_frame))]
pub(crate) fn put_row(
    out: &mut Vec<u8>,
    planned: &[Planned],
    lanes: usize,
    index: usize,
    row: &Row,
) -> Result<(), NoMemory>
    ensures { OnOk result (out.new.items
        ≡ out.old.items ++ row_frame planned.now lanes index row.now) }
{
    put_group(out, row)?;
    put_band(out, lanes, index)?;
    put_member_part(out, row, planned, lanes, index)?;
    put_labels(out, row, row_top(lanes, index) + 13)?;
    put_bytes(out, b"</g>\n")
}

// The thin line of a wait.
#[tactic(auto, unfolding(crate::specs::Rows::wait_text))]
fn put_wait(out: &mut Vec<u8>, scene: &Scene<'_>, wait: &Span) -> Result<(), NoMemory>
    ensures { OnOk result (out.new.items ≡ out.old.items ++ wait_text (view_of scene.now) wait.now) }
{
    let count = scene.events.len();
    let y = row_top(scene.places.len(), row_of(scene.rows, wait.request)) + 9;
    let left = x_of(count, wait.from);
    let right = end_of(count, wait.to);
    put_path(out, b"wait", Path::Across(left, right, y))?;
    put_bytes(out, b"/>\n")
}

// An end of a bracket.
#[tactic(auto, unfolding(crate::specs::Rows::hook_text))]
fn put_hook(out: &mut Vec<u8>, x: u128, top: u128, bottom: u128) -> Result<(), NoMemory>
    ensures { OnOk result (out.new.items ≡ out.old.items ++ hook_text x top bottom) }
{
    put_path(out, b"set", Path::Down(x, top, bottom))?;
    put_bytes(out, b"/>\n")
}

// The bracket of an open set.
#[tactic(auto, unfolding(crate::specs::Rows::set_text))]
fn put_set(out: &mut Vec<u8>, scene: &Scene<'_>, set: &Span) -> Result<(), NoMemory>
    ensures { OnOk result (out.new.items ≡ out.old.items ++ set_text (view_of scene.now) set.now) }
{
    let count = scene.events.len();
    let left = x_of(count, set.from);
    let right = end_of(count, set.to);
    let top = row_top(scene.places.len(), row_of(scene.rows, set.request));
    put_path(out, b"set", Path::Across(left, right, top + 9))?;
    put_bytes(out, b"/>\n")?;
    put_hook(out, left, top + 5, top + 13)?;
    put_hook(out, right, top + 5, top + 13)
}

/// The line of a wait, or the bracket of an open set.
pub(crate) fn put_span(out: &mut Vec<u8>, scene: &Scene<'_>, span: &Span) -> Result<(), NoMemory>
    ensures { OnOk result (out.new.items ≡ out.old.items ++ span_text (view_of scene.now) span.now) }
{
    match span.kind {
        Kind::Waits => put_wait(out, scene, span),
        Kind::Sets => put_set(out, scene, span),
    }
}
