//! What stands round the bands: the head, the legend and the labels of the places.
ghost use Rattle.std.specs.Prelude.{◌≡◌, ◌++◌, OnOk};
ghost use Rattle.conc_show_svg.specs.Bars.{view_of};
ghost use Rattle.conc_show_svg.specs.Frame as spec;
ghost use Rattle.conc_show_svg.specs.Frame.{counts_text, ends_text, head_text, headings_text, lane_frame, size_text, span_text, title_text};

use crate::geometry::{Bar, LEFT, SPAN, lane_top, row_top};
use crate::marks::{put_box, put_label, put_number};
use crate::scene::Scene;
use conc_show_model::{Place, put_bytes, put_place};
use conc_time::put_moment;
use conc_types::{Moment, NoMemory};

/// The colours, in light and in dark.
pub(crate) const STYLE: &[u8] = b"<style>
text{font:11px sans-serif;fill:#1f2328}
.title{font-size:18px;font-weight:600}
.head{font-size:12px;font-weight:600}
.soft{fill:#59636e;font-size:10px}
.end{text-anchor:end;font-size:10px;fill:#59636e}
.name{clip-path:url(#names)}
.k{font-size:9px;fill:#fff;text-anchor:middle;paint-order:stroke;stroke:#1f2328;stroke-opacity:.5;stroke-width:2px}
.page{fill:#fff}
.even,.lane{fill:#f4f6f8}
.odd{fill:none}
.reading{stroke:#c8d0d8;fill:none}
.wait{stroke:#8b949e;stroke-dasharray:2 2;fill:none}
.set{stroke:#59636e;stroke-width:2;fill:none}
.member{stroke:#59636e;stroke-width:3;fill:none}
.normal{fill:#2b7bba}
.warning{fill:#e6a100}
.error{fill:#c8352b}
.terminated{fill:#7a3fa0}
.cancelled{fill:#6e7781}
.interrupted{fill:url(#hatch)}
.running{fill:#cfe3f5;stroke:#2b7bba;stroke-width:1}
@media (prefers-color-scheme:dark){
text{fill:#e6edf3}
.soft,.end{fill:#9198a1}
.page{fill:#0d1117}
.even,.lane{fill:#151b23}
.reading{stroke:#333b46}
.wait{stroke:#7d8590}
.set,.member{stroke:#9198a1}
.normal{fill:#4a9fe0}
.warning{fill:#f0b429}
.error{fill:#e5534b}
.terminated{fill:#a371d3}
.running{fill:#12304d;stroke:#4a9fe0}
}
</style>
<defs>
<pattern id=\"hatch\" width=\"4\" height=\"4\" patternUnits=\"userSpaceOnUse\" patternTransform=\"rotate(45)\"><rect width=\"4\" height=\"4\" fill=\"#b9c0c8\"/><rect width=\"2\" height=\"4\" fill=\"#57606a\"/></pattern>
<clipPath id=\"names\"><rect x=\"50\" y=\"0\" width=\"204\" height=\"100%\"/></clipPath>
</defs>
<rect class=\"page\" width=\"100%\" height=\"100%\"/>
";

/// The element of the picture, up to its height.
pub(crate) const SVG: &[u8] =
    b"<svg xmlns=\"http://www.w3.org/2000/svg\" role=\"img\" width=\"1200\" height=\"";

/// The heading of the lanes.
pub(crate) const PLACES: &[u8] = b"<text class=\"head\" x=\"16\" y=\"108\">Places</text>\n";

/// The legend, in one line.
pub(crate) const LEGEND: &[u8] =
    b"<rect class=\"normal\" x=\"260\" y=\"53\" width=\"18\" height=\"10\"/><text x=\"283\" y=\"62\">Normal</text>
<rect class=\"warning\" x=\"344\" y=\"53\" width=\"18\" height=\"10\"/><text x=\"367\" y=\"62\">Warning</text>
<rect class=\"error\" x=\"434\" y=\"53\" width=\"18\" height=\"10\"/><text x=\"457\" y=\"62\">Error</text>
<rect class=\"terminated\" x=\"508\" y=\"53\" width=\"18\" height=\"10\"/><text x=\"531\" y=\"62\">Terminated</text>
<rect class=\"interrupted\" x=\"616\" y=\"53\" width=\"18\" height=\"10\"/><text x=\"639\" y=\"62\">interrupted</text>
<rect class=\"running\" x=\"724\" y=\"53\" width=\"18\" height=\"10\"/><text x=\"747\" y=\"62\">running</text>
<path class=\"wait\" d=\"M814 58H832\"/><text x=\"837\" y=\"62\">waits</text>
<path class=\"set\" d=\"M892 58H910M892 54V62M910 54V62\"/><text x=\"915\" y=\"62\">open set</text>
<path class=\"reading\" d=\"M990 52V64\"/><text x=\"998\" y=\"62\">reading of the clock</text>
";

fn put_span(out: &mut Vec<u8>, first: Moment, last: Moment) -> Result<(), NoMemory>
    ensures { OnOk result (out.new.items ≡ out.old.items ++ span_text first last) }
{
    put_bytes(out, b" from ")?;
    put_moment(out, first)?;
    put_bytes(out, b" to ")?;
    put_moment(out, last)
}

fn last_of(moments: &[Option<Moment>]) -> Option<Moment>
    ensures { result ≡ spec.last_of moments.now }
{
    if moments.is_empty() {
        return None;
    }
    moments[moments.len() - 1]
}

fn first_of(moments: &[Option<Moment>]) -> Option<Moment>
    ensures { result ≡ spec.first_of moments.now }
{
    for moment in moments {
        if let Some(first) = *moment {
            return Some(first);
        }
    }
    None
}

// The first and the last of the moments of events, where there is one.
#[tactic(auto, unfolding(crate::specs::Frame::ends_text))]
fn put_ends(out: &mut Vec<u8>, moments: &[Option<Moment>]) -> Result<(), NoMemory>
    ensures { OnOk result (out.new.items ≡ out.old.items ++ ends_text moments.now) }
{
    match first_of(moments) {
        Some(first) => put_span(out, first, last_of(moments).unwrap_or(first)),
        None => Ok(()),
    }
}

#[tactic(auto, unfolding(crate::specs::Frame::title_text))]
fn put_title(out: &mut Vec<u8>, scene: &Scene<'_>) -> Result<(), NoMemory>
    ensures { OnOk result (out.new.items ≡ out.old.items ++ title_text (view_of scene.now)) }
{
    put_bytes(out, b"<text class=\"title\" x=\"16\" y=\"30\">History")?;
    put_ends(out, scene.moments.as_slice())?;
    put_bytes(out, b"</text>\n")
}

#[tactic(auto, unfolding(crate::specs::Frame::counts_text))]
fn put_counts(out: &mut Vec<u8>, scene: &Scene<'_>, runs: usize) -> Result<(), NoMemory>
    ensures { OnOk result (out.new.items ≡ out.old.items ++ counts_text (view_of scene.now) runs) }
{
    put_number(
        out,
        b"<text class=\"soft\" x=\"16\" y=\"62\">",
        scene.events.len() as u128,
    )?;
    put_number(out, b" events, ", scene.rows.len() as u128)?;
    put_number(out, b" requests, ", runs as u128)?;
    put_bytes(out, b" runs</text>\n")
}

/// Where the rows end.
pub(crate) fn bottom_of(scene: &Scene<'_>) -> u128
    ensures { result ≡ spec.bottom_of (view_of scene.now) }
{
    row_top(scene.places.len(), scene.rows.len())
}

fn height_of(scene: &Scene<'_>) -> u128
    ensures { result ≡ spec.height_of (view_of scene.now) }
{
    row_top(scene.places.len(), scene.rows.len()) + 16
}

// The size of the picture.
fn put_size(out: &mut Vec<u8>, height: u128) -> Result<(), NoMemory>
    ensures { OnOk result (out.new.items ≡ out.old.items ++ size_text height) }
{
    put_number(out, SVG, height)?;
    put_number(out, b"\" viewBox=\"0 0 1200 ", height)?;
    put_bytes(out, b"\">\n")
}

// The headings of the bands: that of the rows has its foot at y.
fn put_headings(out: &mut Vec<u8>, y: u128) -> Result<(), NoMemory>
    ensures { OnOk result (out.new.items ≡ out.old.items ++ headings_text y) }
{
    put_bytes(out, PLACES)?;
    put_number(out, b"<text class=\"head\" x=\"16\" y=\"", y)?;
    put_bytes(out, b"\">Requests</text>\n")
}

/// The head of the picture, up to the bands.
#[tactic(auto, unfolding(crate::specs::Frame::head_text))]
pub(crate) fn put_head(out: &mut Vec<u8>, scene: &Scene<'_>, runs: usize) -> Result<(), NoMemory>
    ensures { OnOk result (out.new.items ≡ out.old.items ++ head_text (view_of scene.now) runs) }
{
    put_size(out, height_of(scene))?;
    put_bytes(out, STYLE)?;
    put_title(out, scene)?;
    put_counts(out, scene, runs)?;
    put_bytes(out, LEGEND)?;
    put_headings(out, row_top(scene.places.len(), 0) - 8)
}

/// The frame of a lane.
#[tactic(auto, unfolding(crate::specs::Frame::lane_frame))]
pub(crate) fn put_lane(out: &mut Vec<u8>, index: usize, place: Place) -> Result<(), NoMemory>
    ensures { OnOk result (out.new.items ≡ out.old.items ++ lane_frame index place) }
{
    let top = lane_top(index);
    let bar = Bar {
        lane: index,
        left: LEFT,
        width: SPAN,
    };
    put_box(out, b"lane", bar, top + 1, 18)?;
    put_bytes(out, b"/>\n")?;
    put_label(out, b"end", 25_000, top + 14)?;
    put_place(out, place)?;
    put_bytes(out, b"</text>\n")
}
