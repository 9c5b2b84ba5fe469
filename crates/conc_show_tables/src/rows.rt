ghost use Rattle.std.specs.Prelude.{◌≡◌, ◌++◌, List, OnOk, ℕ};
ghost use Rattle.conc_show_model.specs.declared.model.Row.{Row};
ghost use Rattle.conc_show_tables.specs.declared.facts.Facts.{Facts};
ghost use Rattle.conc_show_tables.specs.Facts.{rows_text};

use crate::facts::{Facts, facts_of};
use conc_show_model::{Chart, Row, moments};
use conc_types::NoMemory;
use std::alloc::Global;

/// A format of the rows of a chart: a line for each.
pub(crate) trait RowFormat {
    ghost line: { Row → Facts → List ℕ };

    /// Appends the line of a row with these facts.
    fn put_line(out: &mut Vec<u8>, row: &Row, facts: Facts) -> Result<(), NoMemory>
        ensures { OnOk result (out.new.items ≡ out.old.items ++ line row.now facts) };
}

/// Appends a line for each row of a chart.
pub(crate) fn put_rows<F: RowFormat>(
    alloc: Global,
    out: &mut Vec<u8>,
    chart: &Chart,
) -> Result<(), NoMemory>
    ensures { OnOk result (out.new.items ≡ out.old.items ++ rows_text F.line chart.now) }
{
    let moments = moments(alloc, chart.events.as_slice())?;
    for row in chart.rows.as_slice() {
        F::put_line(out, row, facts_of(chart, moments.as_slice(), row))?;
    }
    Ok(())
}
