ghost use Rattle.std.specs.Prelude.{◌≡◌, ◌≤◌, ◌*◌, length, map};
ghost use Rattle.conc_types.specs.Shifts as shifts_spec;
ghost use Rattle.conc_types.specs.Words.{greatest};
ghost use Rattle.conc_data_fields.specs.Arrays.{goods};
ghost use Rattle.conc_setup.specs.Places as places_spec;

use conc_data_entries::RawManager;
use conc_data_fields::{Counted, Judged};
use conc_types::Shift;

fn greatest_shift(shifts: &[Shift]) -> u32
    ensures { result ≡ greatest (map (λ shift. shift.places) shifts.now) }
{
    match shifts.split_first() {
        None => 0,
        Some((shift, rest)) => shift.places.max(greatest_shift(rest)),
    }
}

fn most_places(shifts: &[Shift]) -> u32
    ensures { result ≡ shifts_spec.most_places shifts.now }
{
    if shifts.is_empty() {
        1
    } else {
        greatest_shift(shifts)
    }
}

#[tactic(auto, unfolding(conc_data_fields::specs::Arrays::goods))]
fn places_of(managers: &[Judged<RawManager>]) -> u64
    requires { length managers.now ≤ 64 }
    ensures value { result ≡ places_spec.places_in_all (goods managers.now) }
    ensures small { result ≤ 4294967296 * length managers.now }
{
    match managers.split_first() {
        None => 0,
        Some((Ok(manager), rest)) => {
            u64::from(most_places(manager.shifts.list.as_slice())) + places_of(rest)
        }
        Some((Err(_), rest)) => places_of(rest),
    }
}

/// How many places the managers with which nothing is wrong have together.
pub(crate) fn places_in_all(managers: &Counted<Judged<RawManager>, 0, 64>) -> u64
    ensures { result ≡ places_spec.places_in_all (goods managers.now.list) }
{
    places_of(managers.list.as_slice())
}
