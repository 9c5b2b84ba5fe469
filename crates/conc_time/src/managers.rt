ghost use Rattle.std.specs.Prelude.{◌≡◌, ◌≤◌, ◌+◌, ◌<◌, ◌^◌, ℕ, length, map};
ghost use Rattle.std.specs.List.{sum_by};
ghost use Rattle.std.specs.Option.{option_map};
ghost use Rattle.conc_types.specs.declared.manager.Manager.{Manager};
ghost use Rattle.conc_types.specs.Shifts as shifts_spec;
ghost use Rattle.conc_types.specs.Words.{greatest, some_and};
ghost use Rattle.conc_base_law.specs.Managers as managers_spec;
ghost use Rattle.conc_base_law.specs.Places as places_spec;
ghost use Rattle.conc_base_law.specs.Places.{count_of_places};

use crate::shifts::places;
use conc_rules::admits;
use conc_types::{Manager, Moment, PlaceId, Plan, Req, Shift};

fn greatest_shift(shifts: &[Shift]) -> u32
    ensures { result ≡ greatest (map (λ shift. shift.places) shifts.now) }
{
    match shifts.split_first() {
        None => 0,
        Some((shift, rest)) => shift.places.max(greatest_shift(rest)),
    }
}

// The places of a manager in all.
fn most_places(manager: &Manager) -> u32
    ensures { result ≡ shifts_spec.most_places manager.now.shifts }
{
    if manager.shifts.is_empty() {
        1
    } else {
        greatest_shift(manager.shifts.as_slice())
    }
}

// The number of the manager that has the place with this index, where the first of the managers has
// the number `owner`; this manager; and the place's number within it, from 1.
fn place_among(managers: &[Manager], owner: u32, index: u32) -> Option<(u32, &Manager, u32)>
    requires { owner + length managers.now < 2 ^ 32 }
    ensures { option_map {U = ℕ × Manager × ℕ} (λ p. (p.0, p.1.now, p.2)) result
        ≡ option_map {U = ℕ × Manager × ℕ} (λ p. (p.owner, p.manager, p.number))
        (places_spec.place_from owner managers.now index) }
{
    let (manager, rest) = managers.split_first()?;
    let size = most_places(manager);
    if index < size {
        Some((owner, manager, index + 1))
    } else {
        place_among(rest, owner + 1, index - size)
    }
}

/// The number of the manager that has a place of the plan, from 1, this manager, and the place's
/// number within it, from 1.
#[tactic(auto, unfolding(conc_base_law::specs::Places::place_of))]
pub fn place_of(plan: &Plan, place: PlaceId) -> Option<(u32, &Manager, u32)>
    ensures { option_map {U = ℕ × Manager × ℕ} (λ p. (p.0, p.1.now, p.2)) result
        ≡ option_map {U = ℕ × Manager × ℕ} (λ p. (p.owner, p.manager, p.number))
        (places_spec.place_of plan.now place) }
{
    place_among(plan.setup.managers.as_slice(), 1, place.index)
}

/// Whether a place is usable at a moment: whether its number is within its manager's places then.
#[tactic(auto, unfolding(conc_base_law::specs::Places::is_usable))]
pub fn is_usable(plan: &Plan, t: Moment, place: PlaceId) -> bool
    ensures { result ≡ places_spec.is_usable plan.now t place }
{
    match place_of(plan, place) {
        Some((_, manager, number)) => number <= places(manager, t),
        None => false,
    }
}

/// Whether the manager that has a place admits the request.
pub fn is_admitted_at(plan: &Plan, place: PlaceId, r: &Req) -> bool
    ensures { result ≡ some_and (λ p. managers_spec.admits p.manager r.now)
        (places_spec.place_of plan.now place) }
{
    match place_of(plan, place) {
        Some((_, manager, _)) => admits(manager, r),
        None => false,
    }
}

// The places of these managers together.
fn count(managers: &[Manager]) -> u32
    requires { sum_by (λ m. shifts_spec.most_places m.shifts) managers.now ≤ 64 }
    ensures { result ≡ sum_by (λ m. shifts_spec.most_places m.shifts) managers.now }
{
    match managers.split_first() {
        None => 0,
        Some((manager, rest)) => most_places(manager) + count(rest),
    }
}

/// How many places the managers of the plan have together, at most 64.
#[tactic(auto, unfolding(conc_base_law::specs::Places::count_of_places))]
pub fn place_count(plan: &Plan) -> u32
    ensures count { result ≡ count_of_places plan.now }
    ensures few { result ≤ 64 }
{
    count(plan.setup.managers.as_slice())
}
