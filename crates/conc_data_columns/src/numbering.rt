ghost use Rattle.std.specs.Prelude.{◌≡◌, ◌<◌, ◌≤◌, ℕ, IfOk, IfSome, length};
ghost use Rattle.std.specs.List.{All};
ghost use Rattle.conc_types.specs.Kept.{IsNumbering, cell_of};
ghost use Rattle.conc_data_columns.specs.Numberings.{IsFoundAt};

use conc_types::{NoMemory, Numbering, Table};
use std::alloc::Global;

/// How many different cells a column has at most whose rows are numbered.
pub const MOST_NUMBERS: usize = 32_768;

// How many slots there are, by the first bits of a hash.
const SLOTS: usize = 65_536;

// A number that no cell has.
const VACANT: u16 = u16::MAX;

// How many slots are tried for a cell.
const MOST_TRIES: usize = 64;

// Where a cell is found among those with a number.
#[derive(Clone, Copy)]
enum Found {
    // It has this number.
    At(u16),
    // It has none so far, and this slot is vacant.
    Vacant(usize),
    // None of the slots that were tried has it, or is vacant.
    Nowhere,
}

// A number of 16 bits that is mostly another one for another cell.
fn first_slot(cell: &[u8]) -> usize
    ensures { result < SLOTS }
{
    let mut hash = 0u64;
    for byte in cell {
        hash = (hash ^ u64::from(*byte)).wrapping_mul(0x9e37_79b9_7f4a_7c15);
        hash ^= hash >> 32;
    }
    (hash >> 48) as usize
}

fn next_slot(slot: usize) -> usize
    requires { slot < SLOTS }
    ensures { result < SLOTS }
{
    if slot + 1 < SLOTS { slot + 1 } else { 0 }
}

// Looks for a cell among those of the samples.
fn find(table: &Table, column: usize, cell: &[u8], samples: &[u32], slots: &[u16]) -> Found
    requires column { column < length table.now.columns }
    requires within { All (λ row. row < length table.now.rows) samples.now }
    requires slots { length slots.now ≡ SLOTS }
    ensures { IsFoundAt (λ row. cell_of table.now.rows row column) cell.now samples.now result }
{
    let mut slot = first_slot(cell);
    for _ in 0..MOST_TRIES {
        let number = slots[slot];
        if number as usize >= samples.len() {
            return Found::Vacant(slot);
        }
        if table.cell(samples[number as usize] as usize, column) == cell {
            return Found::At(number);
        }
        slot = next_slot(slot);
    }
    Found::Nowhere
}

// So many slots that are all vacant.
fn vacant_slots(alloc: Global, count: usize) -> Result<Vec<u16>, NoMemory>
    ensures { IfOk result (λ slots. length slots.items ≡ count) }
{
    let slots = vec![in alloc; VACANT; count]?;
    Ok(slots)
}

/// The numbers of the rows of a column, if few enough of its cells differ.
pub fn numbering_of(
    alloc: Global,
    table: &Table,
    column: usize,
) -> Result<Option<Numbering>, NoMemory>
    requires { column < length table.now.columns }
    ensures stands { IfOk result (λ made. IfSome made (IsNumbering table.now.rows)) }
    ensures column { IfOk result (λ made. IfSome made (λ n. n.column ≡ column)) }
{
    let mut slots = vacant_slots(alloc, SLOTS)?;
    let mut numbers = Vec::with_capacity(alloc, table.row_count())?;
    let mut samples = Vec::new(alloc);
    for row in 0..table.row_count() {
        let cell = table.cell(row, column);
        match find(table, column, cell, samples.as_slice(), slots.as_slice()) {
            Found::At(number) => numbers.push(number)?,
            Found::Vacant(slot) if samples.len() < MOST_NUMBERS => {
                let number = samples.len() as u16;
                samples.push(row as u32)?;
                slots[slot] = number;
                numbers.push(number)?;
            }
            _ => return Ok(None),
        }
    }
    Ok(Some(Numbering {
        column,
        numbers,
        samples,
    }))
}
