//! The bars of runs.
ghost use Rattle.std.specs.Prelude.{◌≡◌, ◌≤◌, ◌+◌, ◌++◌, OnOk};
ghost use Rattle.conc_show_svg.specs.Bars as spec;
ghost use Rattle.conc_show_svg.specs.Bars.{bar_text, lane_bar, lane_bar_head, number_text, row_bar, row_bar_head, run_title, title_end, titled_text, view_of};

use crate::escaped::put_escaped;
use crate::geometry::{Bar, bar_of, lane_of, lane_top, row_top};
use crate::labels::{name_of, row_of};
use crate::marks::{put_heights, put_label, put_sides};
use crate::moments::put_moment_at;
use crate::scene::Scene;
use conc_show_model::{Run, put_bytes, put_place};
use conc_types::{Event, NoMemory, Outcome, RequestId, put_decimal};
use itoa::Buffer;

/// Where the bars of the runs lie.
#[derive(Clone, Copy)]
pub(crate) enum Band {
    /// In the lanes of their places.
    Lanes,
    /// In the rows of their requests.
    Rows,
}

fn result_word(outcome: Outcome) -> &'static [u8]
    ensures { result.now ≡ spec.result_word outcome }
{
    match outcome {
        Outcome::Normal => b"normal",
        Outcome::Warning => b"warning",
        Outcome::Error => b"error",
        Outcome::Terminated => b"terminated",
        Outcome::Cancelled => b"cancelled",
    }
}

fn end_word(event: &Event) -> &'static [u8]
    ensures { result.now ≡ spec.end_word event.now }
{
    match *event {
        Event::Ended { outcome, .. } => result_word(outcome),
        _ => b"interrupted",
    }
}

// The word for how a run ends, which is the class of its bar.
#[tactic(auto, unfolding(crate::specs::Bars::outcome_word))]
fn outcome_word(events: &[Event], to: Option<usize>) -> &'static [u8]
    ensures { result.now ≡ spec.outcome_word events.now to }
{
    match to {
        Some(index) if index < events.len() => end_word(&events[index]),
        _ => b"running",
    }
}

#[tactic(auto, unfolding(crate::specs::Bars::title_end))]
fn put_title_end(out: &mut Vec<u8>, scene: &Scene<'_>, to: Option<usize>) -> Result<(), NoMemory>
    ensures { OnOk result (out.new.items ≡ out.old.items ++ title_end (view_of scene.now) to) }
{
    match to {
        Some(index) => {
            put_bytes(out, b" to ")?;
            put_moment_at(out, scene.moments.as_slice(), index)?;
            put_bytes(out, b": ")?;
            put_bytes(out, outcome_word(scene.events, to))
        }
        None => put_bytes(out, b", still running"),
    }
}

// Who runs, and where.
#[tactic(auto, unfolding(crate::specs::Bars::title_head))]
fn put_title_head(out: &mut Vec<u8>, scene: &Scene<'_>, run: &Run) -> Result<(), NoMemory>
    ensures { OnOk result (out.new.items
        ≡ out.old.items ++ spec.title_head (view_of scene.now) run.now) }
{
    put_bytes(out, b"Request ")?;
    put_decimal(out, u64::from(run.request.number))?;
    put_bytes(out, b" ")?;
    put_escaped(out, name_of(scene.rows, run.request))?;
    put_bytes(out, b" at ")?;
    put_place(out, run.place)
}

#[tactic(auto, unfolding(crate::specs::Bars::run_title))]
fn put_run_title(out: &mut Vec<u8>, scene: &Scene<'_>, run: &Run) -> Result<(), NoMemory>
    ensures { OnOk result (out.new.items ≡ out.old.items ++ run_title (view_of scene.now) run.now) }
{
    put_title_head(out, scene, run)?;
    put_bytes(out, b", from ")?;
    put_moment_at(out, scene.moments.as_slice(), run.from)?;
    put_title_end(out, scene, run.to)
}

// A bar of a run behind its class: where it stands, and its title.
#[tactic(auto, unfolding(crate::specs::Bars::titled_text))]
fn put_titled(
    out: &mut Vec<u8>,
    scene: &Scene<'_>,
    run: &Run,
    bar: Bar,
    top: u128,
    height: u128,
) -> Result<(), NoMemory>
    ensures { OnOk result (out.new.items
        ≡ out.old.items ++ titled_text (view_of scene.now) run.now bar top height) }
{
    put_sides(out, bar)?;
    put_heights(out, top, height)?;
    put_bytes(out, b"><title>")?;
    put_run_title(out, scene, run)?;
    put_bytes(out, b"</title></rect>\n")
}

// The beginning of the bar of a run in a lane.
#[tactic(auto, unfolding(crate::specs::Bars::lane_bar_head))]
fn put_lane_bar_head(out: &mut Vec<u8>, scene: &Scene<'_>, run: &Run) -> Result<(), NoMemory>
    ensures { OnOk result (out.new.items
        ≡ out.old.items ++ lane_bar_head (view_of scene.now) run.now) }
{
    put_bytes(out, b"<rect class=\"bar ")?;
    put_bytes(out, outcome_word(scene.events, run.to))?;
    put_bytes(out, b"\" data-request=\"")?;
    put_decimal(out, u64::from(run.request.number))?;
    put_bytes(out, b"\" data-lane=\"")?;
    put_place(out, run.place)
}

// The same in the row of its request.
#[tactic(auto, unfolding(crate::specs::Bars::row_bar_head))]
fn put_row_bar_head(out: &mut Vec<u8>, scene: &Scene<'_>, run: &Run) -> Result<(), NoMemory>
    ensures { OnOk result (out.new.items
        ≡ out.old.items ++ row_bar_head (view_of scene.now) run.now) }
{
    put_bytes(out, b"<rect class=\"")?;
    put_bytes(out, outcome_word(scene.events, run.to))
}

// The number of a request in its bar, where it has room.
#[tactic(auto, unfolding(crate::specs::Bars::number_text))]
fn put_number(out: &mut Vec<u8>, request: RequestId, bar: Bar, y: u128) -> Result<(), NoMemory>
    requires { bar.left + bar.width ≤ 104000 }
    ensures { OnOk result (out.new.items ≡ out.old.items ++ number_text request bar y) }
{
    let mut buffer = Buffer::new();
    let digits = buffer.format(request.number).as_bytes();
    if bar.width < 700 * digits.len() as u128 + 200 {
        return Ok(());
    }
    put_label(out, b"k", bar.left + bar.width / 2, y)?;
    put_bytes(out, digits)?;
    put_bytes(out, b"</text>\n")
}

// The bar of a run in the lane of its place.
#[tactic(auto, unfolding(crate::specs::Bars::lane_bar))]
fn put_lane_bar(out: &mut Vec<u8>, scene: &Scene<'_>, run: &Run) -> Result<(), NoMemory>
    ensures { OnOk result (out.new.items ≡ out.old.items ++ lane_bar (view_of scene.now) run.now) }
{
    let bar = bar_of(
        scene.events.len(),
        lane_of(scene.places.as_slice(), run.place),
        run,
    );
    let top = lane_top(bar.lane);
    put_lane_bar_head(out, scene, run)?;
    put_titled(out, scene, run, bar, top + 3, 14)?;
    put_number(out, run.request, bar, top + 14)
}

// The bar of a run in the row of its request.
#[tactic(auto, unfolding(crate::specs::Bars::row_bar))]
fn put_row_bar(out: &mut Vec<u8>, scene: &Scene<'_>, run: &Run) -> Result<(), NoMemory>
    ensures { OnOk result (out.new.items ≡ out.old.items ++ row_bar (view_of scene.now) run.now) }
{
    let bar = bar_of(scene.events.len(), row_of(scene.rows, run.request), run);
    let top = row_top(scene.places.len(), bar.lane);
    put_row_bar_head(out, scene, run)?;
    put_titled(out, scene, run, bar, top + 4, 10)
}

/// The bar of a run in a band.
pub(crate) fn put_bar(
    out: &mut Vec<u8>,
    scene: &Scene<'_>,
    band: Band,
    run: &Run,
) -> Result<(), NoMemory>
    ensures { OnOk result (out.new.items
        ≡ out.old.items ++ bar_text (view_of scene.now) band run.now) }
{
    match band {
        Band::Lanes => put_lane_bar(out, scene, run),
        Band::Rows => put_row_bar(out, scene, run),
    }
}
