ghost use Rattle.std.specs.Prelude.{◌≡◌, ◌≤◌, length, IsTrue};
ghost use Rattle.std.specs.List.{position, sum_by};
ghost use Rattle.std.specs.Str.{bytes_eq};
ghost use Rattle.conc_types.specs.Setups.{are_named, are_references};
ghost use Rattle.conc_types.specs.Shifts.{most_places};

use crate::{Entry, Item, Manager, Name, Program, Seq, SetDef, Table};

/// All that a setup file says.
#[derive(Drop)]
pub struct Setup {
    pub tables: Seq<Name>,
    pub programs: Seq<Program>,
    pub entries: Seq<Entry>,
    pub managers: Seq<Manager>,
    pub sets: Seq<SetDef>,
    ghost few_tables: { length tables ≤ 64 },
    ghost few_programs: { length programs ≤ 1024 },
    ghost few_entries: { length entries ≤ 4096 },
    ghost few_managers: { length managers ≤ 64 },
    ghost few_sets: { length sets ≤ 256 },
    ghost few_places: { sum_by (λ m. most_places m.shifts) managers ≤ 64 },
    ghost named: { IsTrue (are_named tables programs managers sets) },
    ghost references: { IsTrue (are_references programs entries managers sets) },
}

fn place_of(names: &[Name], name: &Name) -> Option<usize>
    ensures { result ≡ position (bytes_eq name.now) names.now }
{
    names
        .iter()
        .position(|other| name.as_bytes() == other.as_bytes())
}

impl Setup {
    ghost use Rattle.std.specs.Option.{option_copied};
    ghost use Rattle.conc_types.specs.Scripts.{count_of};
    ghost use Rattle.conc_types.specs.Tables as spec;

    /// How many requests a submission of the item enters: one, and for a set one more for each of its
    /// members.
    pub fn request_count(&self, item: Item) -> u32
        ensures count { result ≡ count_of self.now item }
        ensures few { result ≤ 4097 }
    {
        match item {
            Item::Program(_) => 1,
            Item::Set(place) => match self.sets.as_slice().get(place as usize) {
                Some(set) => 1 + set.member_count(),
                None => 1,
            },
        }
    }

    /// The table with this name, of tables that stand in the order of the setup's names. It takes no
    /// memory.
    pub fn table_named<'a>(&self, tables: &'a [Table], name: &Name) -> Option<&'a Table>
        ensures { option_copied result ≡ spec.table_named self.now tables.now name.now }
    {
        match place_of(self.tables.as_slice(), name) {
            Some(place) => tables.get(place),
            None => None,
        }
    }
}
