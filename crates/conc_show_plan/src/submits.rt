ghost use Rattle.std.specs.Prelude.{◌≡◌, ◌+◌, ◌++◌, [], None, drop, get_or, option_map, IfErr, IfOk, OnOk};
ghost use Rattle.csv.specs.Records.{fields_of};
ghost use Rattle.conc_show_model.specs.Whys.{IsFailure};
ghost use Rattle.conc_show_plan.specs.Submits as spec;
ghost use Rattle.conc_show_plan.specs.Submits.{in_script, script_fault, short_record, submits_from, submits_of};

use conc_data_records::{ByteRecord, Records};
use conc_show_model::{ChartFail, ChartFile, ChartWhy};
use conc_types::NoMemory;
use std::alloc::Global;

// The second field of a record, and nothing where there is none.
fn second(row: &ByteRecord) -> &[u8]
    ensures { result.now ≡ get_or (fields_of row.now) 1 [] }
{
    row.get(1).unwrap_or(&[])
}

fn is_submit(row: &ByteRecord) -> bool
    ensures { result ≡ spec.is_submit (fields_of row.now) }
{
    second(row) == b"submit".as_slice()
}

// Notes the number of a record that submits.
fn note(submits: &mut Vec<u32>, number: u32, row: &ByteRecord) -> Result<(), NoMemory>
    ensures { OnOk result (submits.new.items
        ≡ submits.old.items ++ spec.submit_in number (fields_of row.now)) }
{
    if is_submit(row) {
        submits.push(number)?;
    }
    Ok(())
}

// Passes over the head of a script.
fn skip_head(alloc: Global, records: &mut Records) -> Result<(), NoMemory>
    ensures { IfOk result (λ _. records.new ≡ drop 1 records.old) }
{
    let mut row = ByteRecord::new(alloc);
    let _found = records.read(&mut row)?;
    Ok(())
}

// The number after another one.
fn after(number: u32) -> Result<u32, NoMemory>
    ensures { IfOk result (λ next. next ≡ number + 1) }
{
    number.checked_add(1).ok_or(NoMemory)
}

// The numbers of the records that submit, of those behind the head.
fn submits_in(alloc: Global, records: &mut Records) -> Result<Vec<u32>, ChartFail>
    ensures submits { IfOk result (λ submits. submits.items ≡ submits_from 1 records.old) }
    ensures ok { IfOk result (λ _. short_record 2 records.old ≡ None) }
    ensures err { IfErr result (IsFailure (option_map in_script (short_record 2 records.old))) }
{
    let mut submits = Vec::new(alloc);
    let mut number: u32 = 1;
    let mut row = ByteRecord::new(alloc);
    while records.read(&mut row)? {
        let next = after(number)?;
        if row.len() < 2 {
            let place = u64::from(next);
            return Err(ChartFile::Script.refused(place, ChartWhy::NoScriptRecord));
        }
        note(&mut submits, number, &row)?;
        number = next;
    }
    Ok(submits)
}

/// The numbers of the commands of a script that submit, from 1 behind the head.
pub(crate) fn read_submits(alloc: Global, script: &[u8]) -> Result<Vec<u32>, ChartFail>
    ensures submits { IfOk result (λ submits. submits.items ≡ submits_of script.now) }
    ensures ok { IfOk result (λ _. script_fault script.now ≡ None) }
    ensures err { IfErr result (IsFailure (script_fault script.now)) }
{
    let mut records = Records::of_text(alloc, script);
    skip_head(alloc, &mut records)?;
    submits_in(alloc, &mut records)
}
