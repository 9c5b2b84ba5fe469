ghost use Rattle.std.specs.Prelude.{◌≡◌, ◌<◌, ◌^◌, List, length, ℕ};
ghost use Rattle.conc_data_fields.specs.Fields as fields_spec;
ghost use Rattle.conc_data_fields.specs.Reads.{judged_read};
ghost use Rattle.conc_data_entries.specs.Managers as spec;
ghost use Rattle.toml.specs.View.{table_view};

use crate::rule::RuleForm;
use crate::shift::ShiftForm;
use crate::table::{FromTable, TableForm};
use crate::{RawManager, RawRule};
use conc_data_fields::{
    ArrayForm, Counted, FieldFail, Judged, ListForm, NameForm, beside, both, default, keys_kind,
    no_values, required,
};
use conc_types::{Name, RefusalKind, Seq, Shift};
use std::alloc::Global;
use toml::Table;

fn manager_keys(table: &Table) -> Option<RefusalKind>
    ensures { result ≡ fields_spec.keys_kind spec.manager_keys (table_view table.now) }
{
    keys_kind(&["name", "include", "exclude", "shift"], table)
}

fn manager_of_few(
    name: Name,
    include: Seq<RawRule>,
    exclude: Seq<RawRule>,
    shifts: Counted<Shift, 0, 64>,
) -> Judged<RawManager>
    ensures { result ≡ spec.to_manager (name, (include, (exclude, shifts))) }
{
    if include.len() + exclude.len() <= 64 {
        Ok(RawManager {
            name,
            include,
            exclude,
            shifts,
        })
    } else {
        Err(RefusalKind::TooMany)
    }
}

type ManagerParts = (Name, (Seq<RawRule>, (Seq<RawRule>, Counted<Shift, 0, 64>)));

fn to_manager(parts: Result<ManagerParts, FieldFail>) -> Result<RawManager, FieldFail>
    ensures { result ≡ judged_read spec.to_manager parts }
{
    let (name, (include, (exclude, shifts))) = parts?;
    Ok(manager_of_few(name, include, exclude, shifts)?)
}

impl FromTable for RawManager {
    ghost fields = { spec.manager_of };

    fn from_table(alloc: Global, table: &Table) -> Result<Self, FieldFail> {
        let name = required::<NameForm>(alloc, table, "name");
        let include = default::<ListForm<RuleForm>>(
            alloc,
            Seq::from_vec(Vec::new(alloc)),
            table,
            "include",
        );
        let exclude = default::<ListForm<RuleForm>>(
            alloc,
            Seq::from_vec(Vec::new(alloc)),
            table,
            "exclude",
        );
        let shifts = default::<ArrayForm<ShiftForm, 0, 64>>(
            alloc,
            no_values(alloc),
            table,
            "shift",
        );
        let manager = to_manager(both(name, both(include, both(exclude, shifts))));
        beside(manager_keys(table), manager)
    }
}

/// A manager: a table of the array `manager`. More than 64 rules, those that include and those that
/// exclude together, are `TooMany`, as are more than 64 shifts.
pub type ManagerForm = TableForm<RawManager>;
