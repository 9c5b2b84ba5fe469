ghost use Rattle.std.specs.Prelude.{◌≡◌, IfOk, map, max};
ghost use Rattle.std.specs.List.{reduce};
ghost use Rattle.conc_types.specs.Shifts as shifts_spec;
ghost use Rattle.conc_history_lines.specs.Places as places_spec;

use conc_types::{Manager, NoMemory, Plan, Shift};
use std::alloc::Global;

// The places of the greatest of some shifts.
fn greatest_shift(shifts: &[Shift]) -> Option<u32>
    ensures { result ≡ reduce max (map (λ shift. shift.places) shifts.now) }
{
    shifts.iter().map(|shift| shift.places).max()
}

// The places of a manager in all.
#[tactic(auto, using(crate::proofs::Tables::most_from))]
fn most_places(manager: &Manager) -> u32
    ensures { result ≡ shifts_spec.most_places manager.now.shifts }
{
    greatest_shift(manager.shifts.as_slice()).unwrap_or(1)
}

/// The table of the places of a plan: for each manager the index of its first place, and then the
/// count of all places.
#[tactic(auto, unfolding(crate::specs::Places::starts_of))]
pub fn starts_of(alloc: Global, plan: &Plan) -> Result<Vec<u32>, NoMemory>
    ensures { IfOk result (λ starts. starts.items ≡ places_spec.starts_of plan.now) }
{
    let mut starts = Vec::new(alloc);
    let mut first = 0;
    for manager in plan.setup.managers.as_slice() {
        starts.push(first)?;
        first += most_places(manager);
    }
    starts.push(first)?;
    Ok(starts)
}
