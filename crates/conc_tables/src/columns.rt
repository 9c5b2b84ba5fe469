ghost use Rattle.std.specs.Prelude.{◌≡◌, IfOk};
ghost use Rattle.std.specs.Str.{bytes_eq};
ghost use Rattle.csv.specs.Records.{fields_of};
ghost use Rattle.conc_types.specs.Words as spec;

use conc_data_records::ByteRecord;
use conc_types::{Bytes, NoMemory, Seq};
use std::alloc::Global;
use std::collections::BTreeSet;

/// The fields of a record, as the names of columns.
pub(crate) fn columns_of(alloc: Global, header: &ByteRecord) -> Result<Seq<Bytes>, NoMemory>
    ensures { IfOk result (λ columns. columns ≡ fields_of header.now) }
{
    let mut columns = Vec::with_capacity(alloc, header.len())?;
    for name in header.iter() {
        columns.push(Seq::from_vec(name.to_vec(alloc)?))?;
    }
    Ok(Seq::from_vec(columns))
}

/// Whether no two fields of a header are the same.
pub(crate) fn are_distinct(alloc: Global, header: &ByteRecord) -> Result<bool, NoMemory>
    ensures { IfOk result (λ distinct. distinct
        ≡ spec.are_distinct bytes_eq (fields_of header.now)) }
{
    let mut seen = BTreeSet::new(alloc);
    for field in header.iter() {
        if !seen.insert(field)? {
            return Ok(false);
        }
    }
    Ok(true)
}
