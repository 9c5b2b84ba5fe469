ghost use Rattle.std.specs.Prelude.{◌≡◌, List, Option, ℕ};
ghost use Rattle.conc_data_fields.specs.Fields as fields_spec;
ghost use Rattle.conc_data_fields.specs.Reads.{good_read};
ghost use Rattle.conc_data_entries.specs.Entries as spec;
ghost use Rattle.toml.specs.View.{table_view};

use crate::RawEntry;
use crate::table::{FromTable, FromWord, TableForm, WordForm, one_of};
use conc_data_fields::{FieldFail, NameForm, beside, both, default, keys_kind, required};
use conc_types::{Name, Reach, RefusalKind, Scope};
use std::alloc::Global;
use toml::Table;

impl FromWord for Scope {
    ghost of_word = { spec.scope_of };

    fn from_word(word: &str) -> Option<Self> {
        one_of(&[("program", Scope::Program), ("set", Scope::Set)], word)
    }
}

impl FromWord for Reach {
    ghost of_word = { spec.reach_of };

    fn from_word(word: &str) -> Option<Self> {
        one_of(
            &[("domain", Reach::Domain), ("global", Reach::Global)],
            word,
        )
    }
}

fn entry_keys(table: &Table) -> Option<RefusalKind>
    ensures { result ≡ fields_spec.keys_kind spec.entry_keys (table_view table.now) }
{
    keys_kind(&["program", "with", "scope", "type"], table)
}

fn to_entry(parts: Result<(Name, (Name, (Scope, Reach))), FieldFail>) -> Result<RawEntry, FieldFail>
    ensures { result ≡ good_read spec.to_entry parts }
{
    let (owner, (other, (scope, reach))) = parts?;
    Ok(RawEntry {
        owner,
        other,
        scope,
        reach,
    })
}

impl FromTable for RawEntry {
    ghost fields = { spec.entry_of };

    fn from_table(alloc: Global, table: &Table) -> Result<Self, FieldFail> {
        let owner = required::<NameForm>(alloc, table, "program");
        let other = required::<NameForm>(alloc, table, "with");
        let scope = default::<WordForm<Scope>>(alloc, Scope::Program, table, "scope");
        let reach = default::<WordForm<Reach>>(alloc, Reach::Domain, table, "type");
        let entry = to_entry(both(owner, both(other, both(scope, reach))));
        beside(entry_keys(table), entry)
    }
}

/// An entry of the incompatibilities: a table of the array `incompatible`, with the names of two
/// programs or sets. Without a scope it covers the other item alone, and without a type it counts in
/// one conflict domain.
pub type EntryForm = TableForm<RawEntry>;
