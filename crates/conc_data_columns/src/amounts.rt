ghost use Rattle.std.specs.Prelude.{◌≡◌, ◌≢◌, ◌<◌, IfOk, Some, length};
ghost use Rattle.conc_types.specs.Kept.{AreAmounts};
ghost use Rattle.conc_types.specs.declared.kept.TheConstants.{NOT_KEPT};

use conc_reports::whole_number;
use conc_types::{Amounts, NOT_KEPT, NoMemory, Table};
use std::alloc::Global;

// A number in 32 bits, where they hold it.
fn short(number: Option<i64>) -> i32
    ensures { result ≢ NOT_KEPT → number ≡ Some result }
{
    match number {
        Some(number) if i64::from(NOT_KEPT) < number && number <= i64::from(i32::MAX) => {
            number as i32
        }
        _ => NOT_KEPT,
    }
}

/// The whole numbers of the cells of a column, as far as 32 bits hold them.
pub fn amounts_of(alloc: Global, table: &Table, column: usize) -> Result<Amounts, NoMemory>
    requires { column < length table.now.columns }
    ensures stand { IfOk result (AreAmounts table.now.rows) }
    ensures column { IfOk result (λ amounts. amounts.column ≡ column) }
{
    let mut values = Vec::with_capacity(alloc, table.row_count())?;
    for row in 0..table.row_count() {
        values.push(short(whole_number(table.cell(row, column))))?;
    }
    Ok(Amounts { column, values })
}
