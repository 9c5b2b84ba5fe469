ghost use Rattle.std.specs.Prelude.{◌≡◌, IfOk, slice_get};
ghost use Rattle.conc_base_law.specs.Places.{count_of_places};
ghost use Rattle.conc_board.specs.Owners.{AreOwners, manager_at};

use conc_time::{place_count, place_of};
use conc_types::{NoMemory, PlaceId, Plan};
use std::alloc::Global;

// The place in the setup of the manager that has a place, from 0; no manager's where it is none of the plan.
fn owner_at(plan: &Plan, place: PlaceId) -> u32
    ensures { slice_get plan.now.setup.managers result ≡ manager_at plan.now place }
{
    match place_of(plan, place) {
        Some((owner, _, _)) => owner - 1,
        None => u32::MAX,
    }
}

/// For each place of a plan the place in the setup of its manager.
pub(crate) fn owners_of(alloc: Global, plan: &Plan) -> Result<Vec<u32>, NoMemory>
    ensures { IfOk result (λ owners. AreOwners plan.now (count_of_places plan.now) owners.items) }
{
    let count = place_count(plan);
    let mut owners = Vec::with_capacity(alloc, count as usize)?;
    for index in 0..count {
        owners.push(owner_at(plan, PlaceId { index }))?;
    }
    Ok(owners)
}
