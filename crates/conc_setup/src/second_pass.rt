ghost use Rattle.std.specs.Prelude.{◌≡◌, ◌≤◌, ◌+◌, ◌<◌, ◌-◌, ◌^◌, Option, drop, length, map, take};
ghost use Rattle.conc_setup.specs.FirstPass.{IsFew};
ghost use Rattle.conc_setup.specs.SecondPass as spec;

use crate::names::{Named, are_distinct, is_among};
use crate::raw::{Fault, RawSetup};
use conc_data_entries::RawSet;
use conc_types::{Name, Program, RefusalKind};

// The first of the items from a place on that has the name of one before it, where the item at this
// place has the line given.
#[tactic(auto, unfolding(crate::specs::SecondPass::first_again))]
fn again_from<T: Named>(line: u64, items: &[T], place: usize) -> Option<Fault>
    requires within { place ≤ length items.now }
    requires fits { line + (length items.now - place) < 2 ^ 64 }
    ensures { result ≡ spec.first_again line (map T.name_of (take place items.now))
        (map T.name_of (drop place items.now)) }
{
    if place == items.len() {
        return None;
    }
    if is_among(&items[..place], items[place].name()) {
        Some((line, RefusalKind::Duplicate))
    } else {
        again_from(line + 1, items, place + 1)
    }
}

fn is_again(programs: &[Program], before: &[RawSet], set: &RawSet) -> bool
    ensures { result ≡ spec.is_again (map (λ p. p.name) programs.now) (map (λ s. s.name) before.now)
        set.now }
{
    is_among(programs, &set.name)
        || is_among(before, &set.name)
        || !are_distinct(set.stages.list.as_slice())
}

// The first of the sets from a place on that has the name of a program or of a set before it, or two
// stages of one name, where the set at this place has the line given.
#[tactic(auto, unfolding(crate::specs::SecondPass::first_set_again))]
fn set_again_from(line: u64, programs: &[Program], sets: &[RawSet], place: usize) -> Option<Fault>
    requires within { place ≤ length sets.now }
    requires fits { line + (length sets.now - place) < 2 ^ 64 }
    ensures { result ≡ spec.first_set_again line (map (λ p. p.name) programs.now)
        (map (λ s. s.name) (take place sets.now)) (drop place sets.now) }
{
    if place == sets.len() {
        return None;
    }
    if is_again(programs, &sets[..place], &sets[place]) {
        Some((line, RefusalKind::Duplicate))
    } else {
        set_again_from(line + 1, programs, sets, place + 1)
    }
}

fn table_again(tables: &[Name]) -> Option<Fault>
    ensures { result ≡ spec.table_again tables.now }
{
    if are_distinct(tables) {
        None
    } else {
        Some((0, RefusalKind::Duplicate))
    }
}

/// The first line with a name that stands twice where it may not: that of a program or set, that of a
/// manager, that of a stage in its set, or that of a table, which is on line 0.
#[tactic(auto, unfolding(crate::specs::SecondPass::name_again))]
pub(crate) fn second_pass(raw: &RawSetup) -> Option<Fault>
    requires { IsFew raw.now }
    ensures { result ≡ spec.name_again raw.now }
{
    let programs = raw.programs.as_slice();
    let first_manager = 1 + programs.len() as u64 + raw.entries.len() as u64;
    let first_set = first_manager + raw.managers.len() as u64;
    table_again(raw.tables.list.as_slice())
        .or(again_from(1, programs, 0))
        .or(again_from(first_manager, raw.managers.as_slice(), 0))
        .or(set_again_from(first_set, programs, raw.sets.as_slice(), 0))
}
