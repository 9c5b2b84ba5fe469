ghost use Rattle.std.specs.Prelude.{◌≡◌, ◌++◌, IfOk, OnOk, codes};
ghost use Rattle.std.specs.Fmt.{decimal};
ghost use Rattle.hex.specs.Hex.{encode_lower};
ghost use Rattle.conc_types.specs.RefusalKinds.{number_of};
ghost use Rattle.conc_top.specs.Lines.{line_of};

use crate::Exit;
use conc_run_state::DiskName;
use conc_types::{Name, NoMemory, Refusal, put_decimal};
use std::alloc::Global;

pub(crate) fn put(out: &mut Vec<u8>, piece: &[u8]) -> Result<(), NoMemory>
    ensures { OnOk result (out.new.items ≡ out.old.items ++ piece.now) }
{
    out.extend_from_slice(piece)?;
    Ok(())
}

// A line of a word and a name.
fn put_name(out: &mut Vec<u8>, word: &[u8], name: &Name) -> Result<(), NoMemory>
    ensures { OnOk result (out.new.items ≡ out.old.items ++ (word.now ++ name.now ++ codes "\n")) }
{
    put(out, word)?;
    put(out, name.as_bytes())?;
    put(out, b"\n")
}

fn put_refusal(out: &mut Vec<u8>, refusal: Refusal, name: &Name) -> Result<(), NoMemory>
    ensures { OnOk result (out.new.items ≡ out.old.items ++ (codes "refused: " ++ name.now
        ++ codes ": " ++ decimal refusal.line ++ codes ": " ++ decimal (number_of refusal.kind)
        ++ codes "\n")) }
{
    put(out, b"refused: ")?;
    put(out, name.as_bytes())?;
    put(out, b": ")?;
    put_decimal(out, refusal.line)?;
    put(out, b": ")?;
    put_decimal(out, u64::from(refusal.kind.number()))?;
    put(out, b"\n")
}

// A line of a word and a number.
fn put_number(out: &mut Vec<u8>, word: &[u8], number: u64) -> Result<(), NoMemory>
    ensures { OnOk result (out.new.items ≡ out.old.items
        ++ (word.now ++ decimal number ++ codes "\n")) }
{
    put(out, word)?;
    put_decimal(out, number)?;
    put(out, b"\n")
}

// The two digests, each in 64 digits.
fn put_digests(
    alloc: Global,
    out: &mut Vec<u8>,
    found: &[u8; 32],
    given: &[u8; 32],
) -> Result<(), NoMemory>
    ensures { OnOk result (out.new.items ≡ out.old.items
        ++ (codes "other input: " ++ encode_lower found.now ++ codes " " ++ encode_lower given.now
        ++ codes "\n")) }
{
    put(out, b"other input: ")?;
    put(out, hex::encode(alloc, *found)?.as_bytes())?;
    put(out, b" ")?;
    put(out, hex::encode(alloc, *given)?.as_bytes())?;
    put(out, b"\n")
}

fn put_full(out: &mut Vec<u8>, len: u64, need: u64) -> Result<(), NoMemory>
    ensures { OnOk result (out.new.items ≡ out.old.items
        ++ (codes "journal full: " ++ decimal len ++ codes " " ++ decimal need ++ codes "\n")) }
{
    put(out, b"journal full: ")?;
    put_decimal(out, len)?;
    put(out, b" ")?;
    put_decimal(out, need)?;
    put(out, b"\n")
}

fn put_line(alloc: Global, out: &mut Vec<u8>, exit: &Exit) -> Result<(), NoMemory>
    ensures { OnOk result (out.new.items ≡ out.old.items ++ line_of exit.now) }
{
    match exit {
        Exit::Done => Ok(()),
        Exit::Usage => put(out, b"usage: conc run|plan|check|status|output|make\n"),
        Exit::Refused { refusal, name } => put_refusal(out, *refusal, name),
        Exit::Absent { name } => put_name(out, b"absent: ", name),
        Exit::ReadFault { name } => put_name(out, b"read fault: ", name),
        Exit::WriteFault => put(out, b"write fault\n"),
        Exit::DiskFault {
            disk: DiskName::Journal,
        } => put(out, b"disk fault: journal\n"),
        Exit::DiskFault {
            disk: DiskName::Spool,
        } => put(out, b"disk fault: spool\n"),
        Exit::ClockFault => put(out, b"clock fault\n"),
        Exit::NotJournal => put(out, b"not a journal\n"),
        Exit::OtherInput { found, given } => put_digests(alloc, out, found, given),
        Exit::JournalFull { len, need } => put_full(out, *len, *need),
        Exit::NoMemory => put(out, b"no memory\n"),
        Exit::Unlawful { number } => put_number(out, b"unlawful record: ", *number),
        Exit::NotLawful { line } => put_number(out, b"not lawful: ", *line),
        Exit::NotEnded { number } => put_number(out, b"not ended: ", u64::from(*number)),
        Exit::OtherScript { command, .. } => {
            put_number(out, b"other script: ", u64::from(*command))
        }
    }
}

/// The line that tells an exit on standard error; nothing where the command is done.
pub fn exit_text(alloc: Global, exit: &Exit) -> Result<Vec<u8>, NoMemory>
    ensures { IfOk result (λ text. text.items ≡ line_of exit.now) }
{
    let mut text = Vec::new(alloc);
    put_line(alloc, &mut text, exit)?;
    Ok(text)
}
