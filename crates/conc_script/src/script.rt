ghost use Rattle.std.specs.Prelude.{◌≡◌, ◌∷◌, true, IfErr, IfOk, IsTrue};
ghost use Rattle.csv.specs.Records.{fields_of};
ghost use Rattle.conc_types.specs.declared.refusal.FileKind.TheVariants as kind;
ghost use Rattle.conc_types.specs.Faults.{IsFailure};
ghost use Rattle.conc_types.specs.Scripts.{are_commands};
ghost use Rattle.conc_script.specs.Orders.{begins_with_header, fault_behind, ReadsRecords};
ghost use Rattle.conc_script.specs.Script.{header, same_fields, script_fault, SpellsScript};

use crate::fields::fields_in;
use crate::judging::judge;
use crate::owning::{entered_with, own};
use conc_data_records::{ByteRecord, Records};
use conc_types::{FileKind, NoMemory, Order, ReadFail, RefusalKind, Script, Seq, Setup};
use std::alloc::Global;

// The greatest length of a script, in bytes.
const MOST_BYTES: usize = 67_108_864;

fn is_header(row: &ByteRecord) -> bool
    ensures { result ≡ same_fields (fields_of row.now) header }
{
    match fields_in(row) {
        Some(fields) => fields.are_header(),
        None => false,
    }
}

// Whether the first record is the header, which is read then.
fn read_header(alloc: Global, records: &mut Records) -> Result<bool, NoMemory>
    ensures value { IfOk result (λ found. found ≡ begins_with_header records.old) }
    ensures rest { IfOk result (λ found. found ≡ true → records.old ≡ header ∷ records.new) }
{
    let mut row = ByteRecord::new(alloc);
    let some = records.read(&mut row)?;
    Ok(some && is_header(&row))
}

// The commands of all records behind the header, none of which breaks a rule.
fn read_commands(
    alloc: Global,
    setup: &Setup,
    records: &mut Records,
) -> Result<Vec<Order>, ReadFail>
    ensures ok { IfOk result (λ commands. ReadsRecords setup.now records.old commands.items) }
    ensures err { IfErr result (IsFailure kind.Script (fault_behind setup.now records.old)) }
{
    let mut commands = Vec::new(alloc);
    let mut entered = 0;
    let mut before = None;
    let mut row = ByteRecord::new(alloc);
    while records.read(&mut row)? {
        let number = commands.len() + 2;
        match judge(setup, number, entered, before, &row) {
            Err(kind) => return Err(ReadFail::refused(FileKind::Script, number as u64, kind)),
            Ok((at, action)) => {
                let act = own(alloc, &action)?;
                entered += u64::from(entered_with(setup, &action));
                before = Some(at);
                commands.push(Order { at, act })?;
            }
        }
    }
    Ok(commands)
}

/// The commands of a script for a setup, one in each record of comma-separated fields after the
/// header `at,do,what,user,priority,start,domain,argument`. A byte order mark at the start of the
/// script, and lines with nothing on them, are no part of any record.
///
/// `at` is the moment of the command, and `do` its word. `submit` enters the program or set that
/// `what` names: for a user, with a priority of 1 to 99 (50 where it is empty), a start (`at` where it
/// is empty), a conflict domain (`Standard` where it is empty) and an argument of at most 200 bytes.
/// `hold`, `unhold`, `cancel` and `terminate` act on a request, which `what` names by its number; they
/// may name a user, and leave the fields behind empty. Requests are numbered from 1 in the order in
/// which the submissions stand in the script, a set before its members.
///
/// Where the script breaks a rule it is refused for the first record that does, numbered from 1 with
/// the header, and of that record for the first rule in this order: it has eight fields of UTF-8, and
/// the first record is the header (`NotCsv`); it is one of at most 4,097 records (`TooManyLines`); `at`
/// is a moment (`BadField`), and not earlier than in the record before (`MomentBack`); the word is one
/// of the five (`UnknownWord`); a submission names a program or set of the setup (`UnknownItem`), any
/// other command a number (`BadField`), which is that of a request of an earlier record
/// (`UnknownRequest`); the fields behind have their form (`BadField`). A script of more than 67,108,864
/// bytes is refused at line 0 (`TooManyLines`). Where memory lacks there is neither a script nor a
/// refusal.
pub fn read_script(alloc: Global, bytes: &[u8], setup: &Setup) -> Result<Script, ReadFail>
    ensures ok { IfOk result (λ script. SpellsScript setup.now bytes.now script) }
    ensures fits { IfOk result (λ script. IsTrue (are_commands setup.now script.commands)) }
    ensures err { IfErr result (IsFailure kind.Script (script_fault setup.now bytes.now)) }
{
    if bytes.len() > MOST_BYTES {
        return Err(ReadFail::refused(FileKind::Script, 0, RefusalKind::TooManyLines));
    }
    let mut records = Records::of_text(alloc, bytes);
    if !read_header(alloc, &mut records)? {
        return Err(ReadFail::refused(FileKind::Script, 1, RefusalKind::NotCsv));
    }
    let commands = read_commands(alloc, setup, &mut records)?;
    Ok(Script {
        commands: Seq::from_vec(commands),
    })
}
