ghost use Rattle.std.specs.Prelude.{◌≡◌, ◌≤◌, IfErr, IfOk, IsTrue, List, Ok, Some, ℕ};
ghost use Rattle.conc_types.specs.declared.refusal.FileKind.TheVariants as kind;
ghost use Rattle.conc_types.specs.Scripts.{are_commands};
ghost use Rattle.conc_outside.specs.Files.{Gives, IsLater};
ghost use Rattle.conc_setup.specs.Setups.{fault_in, setup_in};
ghost use Rattle.conc_script.specs.Clock.{clock_fault, SpellsClock};
ghost use Rattle.conc_script.specs.Script.{script_fault, SpellsScript};
ghost use Rattle.conc_top_inputs.specs.Refusals.{fault_of_table};
ghost use Rattle.conc_top_inputs.specs.FileFails.{Ends, EndsUnread};
ghost use Rattle.conc_top_inputs.specs.Reading.{TakesTable};

use crate::error::FileFail;
use crate::pace::{Pace, TableFile};
use conc_data_digests::InputDigest;
use conc_outside::Shelf;
use conc_script::{read_clock, read_script};
use conc_setup::read_setup;
use conc_types::{FileKind, Name, Readings, Refusal, RefusalKind, Script, Setup, Table};
use std::alloc::Global;

// The most bytes that all tables together may have.
const MOST_BYTES: usize = 134_217_728;

// The bytes of the file with this name.
pub(crate) fn read<F: Shelf>(alloc: Global, shelf: &mut F, name: &Name) -> Result<Vec<u8>, FileFail>
    ensures later { IsLater (F.state shelf.old) (F.state shelf.new) }
    ensures ok { IfOk result (λ bytes. Gives (F.state shelf.old).files name.now bytes.items) }
    ensures err { IfErr result (EndsUnread (F.state shelf.old) (F.state shelf.new) name.now) }
{
    Ok(shelf.read_file(alloc, name)?)
}

// The setup under this name, and its bytes.
pub(crate) fn judge_setup<F: Shelf>(
    alloc: Global,
    shelf: &mut F,
    name: &Name,
) -> Result<(Setup, Vec<u8>), FileFail>
    ensures later { IsLater (F.state shelf.old) (F.state shelf.new) }
    ensures ok { IfOk result (λ p. Gives (F.state shelf.old).files name.now p.1.items
        × (setup_in p.1.items ≡ Ok p.0)) }
    ensures err { IfErr result (Ends (F.state shelf.old) (F.state shelf.new)
        (λ bytes fault. fault_in bytes ≡ Some fault) kind.Setup name.now) }
{
    let bytes = read(alloc, shelf, name)?;
    let setup = read_setup(alloc, &bytes)?;
    Ok((setup, bytes))
}

// The script under this name, which fits the setup, and its bytes.
pub(crate) fn judge_script<F: Shelf>(
    alloc: Global,
    shelf: &mut F,
    name: &Name,
    setup: &Setup,
) -> Result<(Script, Vec<u8>), FileFail>
    ensures later { IsLater (F.state shelf.old) (F.state shelf.new) }
    ensures ok { IfOk result (λ p. Gives (F.state shelf.old).files name.now p.1.items
        × SpellsScript setup.now p.1.items p.0) }
    ensures fits { IfOk result (λ p. IsTrue (are_commands setup.now p.0.commands)) }
    ensures err { IfErr result (Ends (F.state shelf.old) (F.state shelf.new)
        (λ bytes fault. script_fault setup.now bytes ≡ Some fault) kind.Script name.now) }
{
    let bytes = read(alloc, shelf, name)?;
    let script = read_script(alloc, &bytes, setup)?;
    Ok((script, bytes))
}

// The readings of the clock under this name.
pub(crate) fn judge_clock<F: Shelf>(
    alloc: Global,
    shelf: &mut F,
    name: &Name,
) -> Result<Readings, FileFail>
    ensures later { IsLater (F.state shelf.old) (F.state shelf.new) }
    ensures ok { IfOk result (λ readings. (bytes : List ℕ)
        × Gives (F.state shelf.old).files name.now bytes × SpellsClock bytes readings) }
    ensures err { IfErr result (Ends (F.state shelf.old) (F.state shelf.new)
        (λ bytes fault. clock_fault bytes ≡ Some fault) kind.Clock name.now) }
{
    let bytes = read(alloc, shelf, name)?;
    Ok(read_clock(alloc, &bytes)?)
}

// What the tables that were read come to.
#[derive(Drop)]
pub(crate) struct Progress {
    // How many bytes they have together.
    pub(crate) bytes: usize,
    // Of the setup and the script, and of these tables.
    pub(crate) digest: InputDigest,
}

// The table with this number under this name, and what the tables come to with it.
pub(crate) fn judge_table<F: Shelf, P: Pace>(
    alloc: Global,
    shelf: &mut F,
    pace: &P,
    name: &Name,
    number: u32,
    before: Progress,
) -> Result<(Table, Progress), FileFail>
    requires { before.bytes ≤ 134217728 }
    ensures later { IsLater (F.state shelf.old) (F.state shelf.new) }
    ensures ok { IfOk result (λ p. TakesTable (F.state shelf.old).files name.now before p.1 p.0) }
    ensures err { IfErr result (Ends (F.state shelf.old) (F.state shelf.new)
        (λ bytes fault. fault_of_table before.bytes bytes ≡ Some fault) (kind.Table number)
        name.now) }
{
    let Progress {
        bytes: taken,
        digest,
    } = before;
    let bytes = read(alloc, shelf, name)?;
    let total = taken + bytes.len();
    if total > MOST_BYTES {
        return Err(FileFail::Refused(Refusal {
            file: FileKind::Table(number),
            line: 0,
            kind: RefusalKind::TooLarge,
        }));
    }
    let file = TableFile {
        number,
        name: name.as_bytes(),
        bytes,
    };
    let (table, digest) = pace.read_and_digest(alloc, file, digest)?;
    let progress = Progress {
        bytes: total,
        digest,
    };
    Ok((table, progress))
}
