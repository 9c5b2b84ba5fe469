ghost use Rattle.std.specs.Prelude.{◌≡◌, ◌^◌, ◌<◌, ℕ, List, IfSome, OnOk, Some};
ghost use Rattle.conc_reports.specs.Figures.{figures_at, grown_at};

use crate::figures::Figures;
use conc_types::NoMemory;
use std::collections::BTreeMap;

/// The figures of each key, in the order of the keys' bytes.
pub type Groups<'a> = BTreeMap<&'a [u8], Figures>;

/// One more row under a key, which adds a value.
pub fn add_to_group<'a>(groups: &mut Groups<'a>, key: &'a [u8], value: i64) -> Result<(), NoMemory>
    requires { IfSome (figures_at groups.old key.now) (λ figures. figures.0 < 2 ^ 63) }
    ensures { OnOk result ((k : List ℕ)
        → figures_at groups.new k ≡ grown_at (Some key.now) value (figures_at groups.old) k) }
{
    match groups.get_mut(&key) {
        Some(figures) => {
            *figures = figures.with(value);
            Ok(())
        }
        None => {
            groups.insert(key, Figures::none().with(value))?;
            Ok(())
        }
    }
}
