ghost use Rattle.std.specs.Prelude.{◌≡◌, ◌<◌, ◌++◌, All, Some, length, map, IfOk, OnOk};
ghost use Rattle.conc_repeat.specs.Script.{dues_at, dues_from, IsByMoment};

use crate::courses::Course;
use crate::series::Series;
use conc_types::{Moment, NoMemory};
use std::alloc::Global;

/// A submission: its moment, and the place of its series, from 0.
#[derive(Clone, Copy, Debug, PartialEq, Eq)]
pub struct Due {
    pub at: Moment,
    pub series: usize,
}

// Appends the submissions of the series at a place.
fn push_dues(dues: &mut Vec<Due>, place: usize, course: &Course) -> Result<(), NoMemory>
    ensures { OnOk result (dues.new.items ≡ dues.old.items ++ dues_at place (Some course.now)) }
{
    for k in 0..course.times {
        if let Some(at) = course.moment(k) {
            dues.push(Due { at, series: place })?;
        }
    }
    Ok(())
}

// The submissions of all series, series by series.
fn all_dues(alloc: Global, all: &[Series]) -> Result<Vec<Due>, NoMemory>
    ensures list { IfOk result (λ dues. dues.items
        ≡ dues_from 0 (map (λ series. Some series.course) all.now)) }
    ensures known { IfOk result (λ dues. All (λ due. due.series < length all.now) dues.items) }
{
    let mut dues = Vec::new(alloc);
    for (place, series) in all.iter().enumerate() {
        push_dues(&mut dues, place, &series.course)?;
    }
    Ok(dues)
}

/// The submissions of all series, by their moments. Those at one moment stand in the order of their
/// series.
pub(crate) fn dues_by_moment(alloc: Global, all: &[Series]) -> Result<Vec<Due>, NoMemory>
    ensures by_moment { IfOk result (λ dues. IsByMoment
        (dues_from 0 (map (λ series. Some series.course) all.now)) dues.items) }
    ensures known { IfOk result (λ dues. All (λ due. due.series < length all.now) dues.items) }
{
    let mut dues = all_dues(alloc, all)?;
    dues.sort_by_key(|due| due.at.seconds)?;
    Ok(dues)
}
