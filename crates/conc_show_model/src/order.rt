ghost use Rattle.std.specs.Prelude.{◌≡◌, All, AllPairs, Contains, IfOk, IsTrue, OnOk};
ghost use Rattle.conc_show_model.specs.Places as spec;
ghost use Rattle.conc_show_model.specs.Places.{RunsAt, place_eq, places_of, with_place};

use crate::{Place, Run};
use conc_types::NoMemory;
use std::alloc::Global;

/// Whether the first place stands before the second one: by its manager, and then by its own number.
pub fn precedes(a: Place, b: Place) -> bool
    ensures { result ≡ spec.precedes a b }
{
    a.manager < b.manager || (a.manager == b.manager && a.number < b.number)
}

/// Whether these are the same place.
pub fn is_same(a: Place, b: Place) -> bool
    ensures { result ≡ place_eq a b }
{
    a.manager == b.manager && a.number == b.number
}

// Puts a place where it stands in the order of places, unless it is there.
fn add_place(places: &mut Vec<Place>, place: Place) -> Result<(), NoMemory>
    ensures { OnOk result (places.new.items ≡ with_place place places.old.items) }
{
    for i in 0..places.len() {
        if precedes(place, places[i]) {
            places.insert(i, place)?;
            return Ok(());
        }
        if is_same(place, places[i]) {
            return Ok(());
        }
    }
    places.push(place)?;
    Ok(())
}

/// The places at which these runs are, each once, in order of manager and number.
pub fn places(alloc: Global, runs: &[Run]) -> Result<Vec<Place>, NoMemory>
    ensures are { IfOk result (λ places. places.items ≡ places_of runs.now) }
    ensures ordered { IfOk result (λ places.
        AllPairs (λ a b. IsTrue (spec.precedes a b)) places.items) }
    ensures all { IfOk result (λ places. All (λ r. Contains places.items r.place) runs.now) }
    ensures used { IfOk result (λ places. All (RunsAt runs.now) places.items) }
{
    let mut places = Vec::new(alloc);
    for run in runs {
        add_place(&mut places, run.place)?;
    }
    Ok(places)
}
