ghost use Rattle.std.specs.Prelude.{◌≡◌, ◌∷◌, true, IfErr, IfOk};
ghost use Rattle.csv.specs.Records.{fields_of};
ghost use Rattle.conc_types.specs.declared.refusal.FileKind.TheVariants as kind;
ghost use Rattle.conc_types.specs.Faults.{IsFailure};
ghost use Rattle.conc_repeat.specs.Kept.{AreSeries, begins_with_header, fault_behind};
ghost use Rattle.conc_repeat.specs.Refusing.{repeats_fault, same_fields};
ghost use Rattle.conc_repeat.specs.Script.{Expands};
ghost use Rattle.conc_repeat.specs.Series.{header};

use crate::dues::dues_by_moment;
use crate::fields::fields_in;
use crate::judging::judge;
use crate::series::Series;
use crate::writing::script_bytes;
use conc_data_records::{ByteRecord, Records};
use conc_types::{FileKind, NoMemory, ReadFail, RefusalKind};
use std::alloc::Global;

// The greatest length of a file of repeats, in bytes.
const MOST_BYTES: usize = 67_108_864;

fn is_header(row: &ByteRecord) -> bool
    ensures { result ≡ same_fields (fields_of row.now) header }
{
    match fields_in(row) {
        Some(fields) => fields.are_header(),
        None => false,
    }
}

// Whether the first record is the header, which is read then.
fn read_header(alloc: Global, records: &mut Records) -> Result<bool, NoMemory>
    ensures value { IfOk result (λ found. found ≡ begins_with_header records.old) }
    ensures rest { IfOk result (λ found. found ≡ true → records.old ≡ header ∷ records.new) }
{
    let mut row = ByteRecord::new(alloc);
    let some = records.read(&mut row)?;
    Ok(some && is_header(&row))
}

// The series of all records behind the header, none of which breaks a rule.
fn read_series(alloc: Global, records: &mut Records) -> Result<Vec<Series>, ReadFail>
    ensures ok { IfOk result (λ all. AreSeries records.old all.items) }
    ensures err { IfErr result (IsFailure kind.Repeats (fault_behind records.old)) }
{
    let mut all = Vec::new(alloc);
    let mut commands = 0;
    let mut row = ByteRecord::new(alloc);
    while records.read(&mut row)? {
        let number = all.len() + 2;
        match judge(commands, &row) {
            Err(kind) => return Err(ReadFail::refused(FileKind::Repeats, number as u64, kind)),
            Ok((course, fields)) => {
                let series = Series::of_fields(alloc, course, &fields)?;
                commands += usize::from(course.times);
                all.push(series)?;
            }
        }
    }
    Ok(all)
}

/// The script to which a file of repeats expands. Each record behind the header
/// `from,every,unit,times,what,user,priority,domain,argument` is a series of submissions. A byte
/// order mark at the start of the file, and empty lines, belong to no record.
///
/// `from` is the first moment of a series, and `times`, from 1 to 4,096, the number of its moments.
/// Counted from 0, moment k is `from` moved by k times `every` units: from 1 to 1,000 `hours`,
/// `days`, `weeks` or `months`. A move by months keeps the time and the day, or takes the last day of
/// a month that is shorter. The submissions have the other fields as they are in the record.
///
/// The script has the header of scripts and a submission for each moment, as `csv` writes them by
/// default. They are in the order of their moments, and those at one moment in the order of their
/// records.
///
/// A file that breaks a rule is refused for the first record that does, where the header is record 1,
/// and of that record for the first rule in this order: it has nine fields of UTF-8, and the first
/// record is the header (`NotRepeats`); each field but the unit has its form (`BadRepeat`); the unit
/// is one of the four (`UnknownUnit`); no moment of the series is past the end of the year 9999
/// (`PastEnd`); there are at most 4,096 submissions so far (`TooManyCommands`). A file of more than
/// 67,108,864 bytes is refused at line 0 (`TooManyCommands`).
///
/// Where memory runs out, the answer is `NoMemory`, whatever the file is.
pub fn expand(alloc: Global, bytes: &[u8]) -> Result<Vec<u8>, ReadFail>
    ensures ok { IfOk result (λ script. Expands bytes.now script.items) }
    ensures err { IfErr result (IsFailure kind.Repeats (repeats_fault bytes.now)) }
{
    if bytes.len() > MOST_BYTES {
        return Err(ReadFail::refused(FileKind::Repeats, 0, RefusalKind::TooManyCommands));
    }
    let mut records = Records::of_text(alloc, bytes);
    if !read_header(alloc, &mut records)? {
        return Err(ReadFail::refused(FileKind::Repeats, 1, RefusalKind::NotRepeats));
    }
    let all = read_series(alloc, &mut records)?;
    let dues = dues_by_moment(alloc, all.as_slice())?;
    let script = script_bytes(alloc, all.as_slice(), dues.as_slice())?;
    Ok(script)
}
