ghost use Rattle.std.specs.Prelude.{◌≡◌, option_map};
ghost use Rattle.conc_data_fields.specs.Fields as spec;
ghost use Rattle.conc_data_fields.specs.Reads.{IfRead};
ghost use Rattle.toml.specs.Data.{get_member};
ghost use Rattle.toml.specs.View.{table_view, view};

use crate::{FieldFail, Form};
use conc_types::RefusalKind;
use std::alloc::Global;
use toml::{Table, Value};

/// What the table has at a key, if it has the key.
pub fn field<'a>(table: &'a Table, key: &str) -> Option<&'a Value>
    ensures { option_map (λ value. view value.now) result
        ≡ get_member key.now (table_view table.now) }
{
    table.get(key)
}

/// The value of a key that has to be there: `Missing` where it is not, and else what the form makes
/// of it.
pub fn required<F: Form>(alloc: Global, table: &Table, key: &str) -> Result<F::Out, FieldFail>
    ensures { IfRead result (λ r. r ≡ spec.required F.form
        (get_member key.now (table_view table.now))) }
{
    match field(table, key) {
        None => Err(FieldFail::Refused(RefusalKind::Missing)),
        Some(value) => F::read(alloc, value),
    }
}

/// The value of a key that may be absent, as the form makes it, and None where it is absent.
pub fn optional<F: Form>(
    alloc: Global,
    table: &Table,
    key: &str,
) -> Result<Option<F::Out>, FieldFail>
    ensures { IfRead result (λ r. r ≡ spec.optional F.form
        (get_member key.now (table_view table.now))) }
{
    match field(table, key) {
        None => Ok(None),
        Some(value) => Ok(Some(F::read(alloc, value)?)),
    }
}

/// The value of a key, as the form makes it, or the value given where the key is absent.
pub fn default<F: Form>(
    alloc: Global,
    otherwise: F::Out,
    table: &Table,
    key: &str,
) -> Result<F::Out, FieldFail>
    ensures { IfRead result (λ r. r ≡ spec.default otherwise F.form
        (get_member key.now (table_view table.now))) }
{
    match field(table, key) {
        None => Ok(otherwise),
        Some(value) => F::read(alloc, value),
    }
}
