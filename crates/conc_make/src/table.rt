ghost use Rattle.std.specs.Prelude.{◌≡◌, ◌++◌, OnOk};
ghost use Rattle.conc_make.specs.Draws.{after};
ghost use Rattle.conc_make.specs.Files.{line, row, table_text};

use crate::draws::Draws;
use crate::words::{put_bytes, put_numbered};
use conc_types::NoMemory;

/// How many rows a table has.
const ROW_COUNT: u64 = 64;

// Appends a row: a letter k with one of 5 numbers, and a value below 1,000.
#[tactic(auto, unfolding(crate::specs::Draws::after))]
fn put_row(out: &mut Vec<u8>, draws: &mut Draws) -> Result<(), NoMemory>
    ensures text { OnOk result (out.new.items ≡ out.old.items ++ line (row draws.old.number)) }
    ensures number { OnOk result (draws.new.number ≡ after 2 draws.old.number) }
{
    let key = draws.draw(5);
    let value = draws.draw(1000);
    put_numbered(out, b"k", key)?;
    put_numbered(out, b",", value)?;
    put_bytes(out, b"\n")?;
    Ok(())
}

/// Appends the table: the columns `k` and `v`, and 64 rows.
pub(crate) fn put_table(out: &mut Vec<u8>, draws: &mut Draws) -> Result<(), NoMemory>
    ensures text { OnOk result (out.new.items ≡ out.old.items ++ table_text draws.old.number) }
    ensures number { OnOk result (draws.new.number ≡ after 128 draws.old.number) }
{
    put_bytes(out, b"k,v\n")?;
    for _row in 0..ROW_COUNT {
        put_row(out, draws)?;
    }
    Ok(())
}
