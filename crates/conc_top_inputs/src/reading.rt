ghost use Rattle.std.specs.Prelude.{◌≡◌, ◌≤◌, length, IfErr, IfOk, IsTrue};
ghost use Rattle.conc_types.specs.Scripts.{are_commands};
ghost use Rattle.conc_outside.specs.Files.{IsLater};
ghost use Rattle.conc_top_inputs.specs.Accepting.{StartsReading};
ghost use Rattle.conc_top_inputs.specs.FileFails.{FailsInTables};
ghost use Rattle.conc_top_inputs.specs.Reading.{HasTablesIn};

use crate::InputFail;
use crate::error::named;
use crate::given::{Progress, judge_script, judge_setup, judge_table};
use crate::pace::Pace;
use conc_data_digests::InputDigest;
use conc_outside::Shelf;
use conc_types::{Name, Script, Setup, Table};
use std::alloc::Global;

// What a setup and a script say.
#[derive(Drop)]
pub(crate) struct Start {
    pub(crate) setup: Setup,
    pub(crate) script: Script,
    // Of the two files.
    pub(crate) digest: InputDigest,
}

// Reads the setup and the script, each of them judged before the next one is read.
pub(crate) fn read_start<F: Shelf>(
    alloc: Global,
    shelf: &mut F,
    setup: &Name,
    script: &Name,
) -> Result<Start, InputFail>
    ensures later { IsLater (F.state shelf.old) (F.state shelf.new) }
    ensures answer { StartsReading (F.state shelf.old) (F.state shelf.new) setup.now script.now
        result }
    ensures fits { IfOk result (λ start. IsTrue (are_commands start.setup start.script.commands)) }
{
    let (setup_read, setup_bytes) = named(alloc, setup, judge_setup(alloc, shelf, setup))?;
    let judged = judge_script(alloc, shelf, script, &setup_read);
    let (script_read, script_bytes) = named(alloc, script, judged)?;
    Ok(Start {
        digest: InputDigest::new(alloc, setup_bytes, script_bytes),
        setup: setup_read,
        script: script_read,
    })
}

// The tables with these names, each of them judged before the next one is read, and the digest with them.
pub(crate) fn read_tables<F: Shelf, P: Pace>(
    alloc: Global,
    shelf: &mut F,
    pace: &P,
    names: &[Name],
    digest: InputDigest,
) -> Result<(Vec<Table>, InputDigest), InputFail>
    requires { length names.now ≤ 64 }
    ensures later { IsLater (F.state shelf.old) (F.state shelf.new) }
    ensures ok { IfOk result (λ p. HasTablesIn (F.state shelf.old).files names.now digest p.1
        p.0.items) }
    ensures err { IfErr result (FailsInTables (F.state shelf.old) (F.state shelf.new) names.now) }
{
    let mut tables = Vec::new(alloc);
    let mut progress = Progress { bytes: 0, digest };
    let mut number = 0;
    for name in names {
        let judged = judge_table(alloc, shelf, pace, name, number, progress);
        let (table, longer) = named(alloc, name, judged)?;
        tables.push(table)?;
        progress = longer;
        number += 1;
    }
    Ok((tables, progress.digest))
}
