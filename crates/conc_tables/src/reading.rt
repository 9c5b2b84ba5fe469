ghost use Rattle.std.specs.Prelude.{◌≡◌, ◌≤◌, ◌++◌, length, IfErr, IfOk, OnOk, None as no_fault};
ghost use Rattle.conc_types.specs.declared.refusal.FileKind.TheVariants as file;
ghost use Rattle.conc_types.specs.Faults.{IsFailure};
ghost use Rattle.conc_types.specs.Pieces.{concat};
ghost use Rattle.conc_tables.specs.Gathered.{AreWhole, cells_of};
ghost use Rattle.conc_tables.specs.Rows as spec;
ghost use Rattle.conc_tables.specs.Rows.{rows_fault};
ghost use Rattle.conc_tables.specs.Tables.{table_fault, SpellsTable};
ghost use Rattle.conc_tables.specs.declared.reading.TheConstants.{MOST_ROWS};

use crate::columns::{are_distinct, columns_of};
use crate::gathered::Gathered;
use conc_data_records::{ByteRecord, Records};
use conc_types::{FileKind, ReadFail, RefusalKind, Table};
use std::alloc::Global;

/// How many bytes a table's file has at most.
const MOST_BYTES: usize = 67_108_864;

/// How many rows a table has at most.
pub const MOST_ROWS: u64 = 1_048_576;

/// The line of the last row that a table may have. The columns are line 1.
const LAST_LINE: u64 = MOST_ROWS + 1;

// The kind of the first rule that a row on this line breaks, with so many fields under so many columns.
fn row_fault(width: usize, line: u64, fields: usize) -> Option<RefusalKind>
    ensures { result ≡ spec.row_fault width line fields }
{
    if LAST_LINE < line {
        Some(RefusalKind::TooLarge)
    } else if fields != width {
        Some(RefusalKind::RaggedRow)
    } else {
        None
    }
}

// Reads the rows that are left into the cells, up to the first with a fault.
fn read_rows(
    records: &mut Records<'_>,
    row: &mut ByteRecord,
    width: usize,
    number: u32,
    cells: &mut Gathered,
) -> Result<(), ReadFail>
    requires whole { AreWhole cells.old }
    ensures whole { OnOk result (AreWhole cells.new) }
    ensures faultless { OnOk result (rows_fault width 2 records.old ≡ no_fault) }
    ensures cells { OnOk result (cells_of cells.new ≡ cells_of cells.old ++ concat records.old) }
    ensures err { IfErr result (IsFailure (file.Table number) (rows_fault width 2 records.old)) }
{
    let mut line = 2;
    while records.read(row)? {
        if let Some(kind) = row_fault(width, line, row.len()) {
            return Err(ReadFail::refused(FileKind::Table(number), line, kind));
        }
        cells.push_row(row)?;
        line += 1;
    }
    Ok(())
}

/// The table that the bytes are, where `number` is its place in the setup's list of tables, from 0.
/// They are records of fields with commas between them, one on each line. A field in quotes may hold
/// commas, line ends and, doubled, quotes. The first record is the names of the columns, and each
/// later one a row. A line with nothing on it is no record, and a byte order mark before the first
/// is no part of it.
///
/// A file of more than 67,108,864 bytes is refused as a whole, as line 0 (`TooLarge`). Else the
/// first record that breaks a rule is refused, by its place among the records, from 1, and by the
/// first of these that it breaks: there are columns (`NoHeader`), no two of them have one name
/// (`DuplicateColumn`); there are at most 1,048,576 rows (`TooLarge`), each with a field for each
/// column (`RaggedRow`). `NoMemory` tells that there was no memory, whatever the file.
pub fn read_table(alloc: Global, bytes: &[u8], number: u32) -> Result<Table, ReadFail>
    ensures ok { IfOk result (λ table. SpellsTable bytes.now table) }
    ensures few { IfOk result (λ table. length table.rows ≤ MOST_ROWS) }
    ensures err { IfErr result (IsFailure (file.Table number) (table_fault bytes.now)) }
{
    if MOST_BYTES < bytes.len() {
        return Err(ReadFail::refused(FileKind::Table(number), 0, RefusalKind::TooLarge));
    }
    let mut records = Records::of_text(alloc, bytes);
    let mut record = ByteRecord::new(alloc);
    if !records.read(&mut record)? {
        return Err(ReadFail::refused(FileKind::Table(number), 1, RefusalKind::NoHeader));
    }
    if !are_distinct(alloc, &record)? {
        return Err(ReadFail::refused(FileKind::Table(number), 1, RefusalKind::DuplicateColumn));
    }
    let columns = columns_of(alloc, &record)?;
    let mut cells = Gathered::with_capacity(alloc, bytes.len())?;
    read_rows(&mut records, &mut record, columns.len(), number, &mut cells)?;
    Ok(Table::new(columns, cells.into_cells()))
}
