ghost use Rattle.std.specs.Prelude.{◌<◌, IfSome, length};

use conc_time::place_of;
use conc_types::{PlaceId, Plan};

/// The place in the setup, from 0, of the manager that has a place of the plan.
pub(crate) fn manager_of(plan: &Plan, place: PlaceId) -> Option<u32>
    ensures { IfSome result (λ manager. manager < length plan.now.setup.managers) }
{
    match place_of(plan, place) {
        Some((owner, _, _)) => Some(owner - 1),
        None => None,
    }
}
