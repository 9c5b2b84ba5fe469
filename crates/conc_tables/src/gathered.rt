ghost use Rattle.std.specs.Prelude.{◌≡◌, ◌++◌, [], true, length, IfOk, OnOk};
ghost use Rattle.csv.specs.Records.{fields_of, text_of};
ghost use Rattle.conc_types.specs.Pieces.{concat};
ghost use Rattle.conc_tables.specs.Gathered.{AreWhole, cells_of, ends_behind};

use conc_data_records::ByteRecord;
use conc_types::{Cells, NoMemory};
use std::alloc::Global;

/// The cells of the rows that were read: their bytes, and where each of them ends.
#[derive(Drop)]
pub(crate) struct Gathered {
    bytes: Vec<u8>,
    ends: Vec<u32>,
}

impl Gathered {
    /// No cell, and room for so many bytes.
    pub(crate) fn with_capacity(alloc: Global, bytes: usize) -> Result<Gathered, NoMemory>
        ensures whole { IfOk result AreWhole }
        ensures none { IfOk result (λ gathered. cells_of gathered ≡ []) }
    {
        Ok(Gathered {
            bytes: Vec::with_capacity(alloc, bytes)?,
            ends: Vec::new(alloc),
        })
    }

    /// Takes the fields of a row as cells: all its text at once, if every field has a byte, and
    /// else field by field. More than `u32::MAX` bytes in all are `NoMemory`.
    pub(crate) fn push_row(&mut self, row: &ByteRecord) -> Result<(), NoMemory>
        requires whole { AreWhole self.old }
        ensures whole { OnOk result (AreWhole self.new) }
        ensures cells { OnOk result (cells_of self.new ≡ cells_of self.old ++ fields_of row.now) }
    {
        if push_ends(&mut self.ends, self.bytes.len(), row)? {
            self.bytes.extend_from_slice(row.as_slice())?;
        } else {
            push_fields(&mut self.bytes, row)?;
        }
        Ok(())
    }

    /// The cells. It takes no memory.
    pub(crate) fn into_cells(self) -> Cells
        requires { AreWhole self }
        ensures { result ≡ cells_of self }
    {
        Cells::from_parts(self.bytes, self.ends)
    }
}

// Notes where the fields of a row end behind a place, and says whether each has a byte and they are
// all of its text.
fn push_ends(ends: &mut Vec<u32>, start: usize, row: &ByteRecord) -> Result<bool, NoMemory>
    ensures ends { OnOk result (ends.new.items ≡ ends.old.items ++ ends_behind start (fields_of row.now)) }
    ensures text { IfOk result (λ all. all ≡ true → concat (fields_of row.now) ≡ text_of row.now) }
{
    let mut end = start;
    let mut full = true;
    for field in row.iter() {
        end = end.saturating_add(field.len());
        if end > u32::MAX as usize {
            return Err(NoMemory);
        }
        full = full && !field.is_empty();
        ends.push(end as u32)?;
    }
    Ok(full && end - start == row.as_slice().len())
}

fn push_fields(bytes: &mut Vec<u8>, row: &ByteRecord) -> Result<(), NoMemory>
    ensures { OnOk result (bytes.new.items ≡ bytes.old.items ++ concat (fields_of row.now)) }
{
    for field in row.iter() {
        bytes.extend_from_slice(field)?;
    }
    Ok(())
}
