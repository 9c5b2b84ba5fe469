//! Where events and bars stand.
ghost use Rattle.std.specs.Prelude.{◌≡◌, ◌≤◌, ◌+◌};
ghost use Rattle.conc_show_svg.specs.Geometry as spec;
ghost use Rattle.conc_show_svg.specs.Geometry.{x_of};

use conc_show_model::{Place, Run, is_same};

/// Where the first event begins, and over how much the events lie, in hundredths of a unit.
pub(crate) const LEFT: u128 = 26_000;

pub(crate) const SPAN: u128 = 78_000;

/// A bar, in a lane that is counted from 0. Its left end and its width are told in hundredths of a unit.
#[derive(Clone, Copy)]
pub(crate) struct Bar {
    pub lane: usize,
    pub left: u128,
    pub width: u128,
}

/// Where the event with this index begins, of so many events; and the right end, where it is so many.
#[tactic(auto, unfolding(crate::specs::Geometry::x_of))]
pub(crate) fn x_of(count: usize, index: usize) -> u128
    ensures x { result ≡ spec.x_of count index }
    ensures from { 26000 ≤ result }
    ensures within { result ≤ 104000 }
{
    LEFT + SPAN * index.min(count) as u128 / count.max(1) as u128
}

/// Where a span ends that an event ends, if one does.
pub(crate) fn end_of(count: usize, to: Option<usize>) -> u128
    ensures x { result ≡ spec.end_of count to }
    ensures within { result ≤ 104000 }
{
    match to {
        Some(index) => x_of(count, index),
        None => LEFT + SPAN,
    }
}

/// The bar of a run in a lane. It lies within the picture.
pub(crate) fn bar_of(count: usize, lane: usize, run: &Run) -> Bar
    ensures bar { result ≡ spec.bar_of count lane run.now }
    ensures from { 26000 ≤ result.left }
    ensures within { result.left + result.width ≤ 104000 }
{
    let left = x_of(count, run.from);
    let right = end_of(count, run.to);
    Bar {
        lane,
        left,
        width: right.saturating_sub(left),
    }
}

/// The index of the first of these places that is this one, or how many they are.
pub(crate) fn lane_of(places: &[Place], place: Place) -> usize
    ensures { result ≡ spec.lane_of places.now place }
{
    for i in 0..places.len() {
        if is_same(places[i], place) {
            return i;
        }
    }
    places.len()
}

/// Where a lane begins, from the top.
pub(crate) fn lane_top(index: usize) -> u128
    ensures { result ≡ spec.lane_top index }
{
    116 + 20 * index as u128
}

/// Where a row begins, below so many lanes, from the top.
pub(crate) fn row_top(lanes: usize, index: usize) -> u128
    ensures { result ≡ spec.row_top lanes index }
{
    148 + 20 * lanes as u128 + 18 * index as u128
}
