ghost use Rattle.std.specs.Prelude.{◌≡◌, IsTrue, None};
ghost use Rattle.conc_edge_clock.specs.Clocks.{ClockState};
ghost use Rattle.conc_types.specs.Scripts.{are_commands};
ghost use Rattle.conc_outside.specs.Files.{IsLater};
ghost use Rattle.conc_top_inputs.specs.Accepting.{CompletesReading, IsAnswer, IsTimedAnswer};
ghost use Rattle.conc_top_inputs.specs.Given.{named, names_of, sources};
ghost use Rattle.conc_top_inputs.specs.Refusals.{name_of};
ghost use Rattle.conc_top_inputs.specs.Ways as spec;

use crate::clocks::read_readings;
use crate::pace::Pace;
use crate::reading::{Start, read_start, read_tables};
use crate::{FileNames, InputFail};
use conc_data_digests::LazyDigests;
use conc_edge_clock::Clock;
use conc_outside::Shelf;
use conc_plan::make_plan;
use conc_types::{FileKind, Name, Plan, ReadFail, Readings, Seq};
use std::alloc::Global;

/// What files give, once all are accepted.
#[derive(Drop)]
pub struct Accepted {
    pub plan: Plan,
    /// Of the files that were read, but for the clock's.
    pub digests: LazyDigests,
}

impl Accepted {
    ghost use Rattle.std.specs.Prelude.{◌≡◌};

    /// The same, with what the reports of a run ask of the columns of its tables kept beside the cells.
    pub fn with_columns<P: Pace>(self, alloc: Global, pace: &P) -> Self
        ensures { result ≡ self }
    {
        let Accepted { plan, digests } = self;
        Accepted {
            plan: pace.keep_columns(alloc, plan),
            digests,
        }
    }
}

// The name of the setup's or the script's file: a plan is refused in one of them.
fn name_of(file: FileKind, setup: Name, script: Name) -> Name
    ensures { result ≡ name_of setup script file }
{
    match file {
        FileKind::Script => script,
        _ => setup,
    }
}

// The failure where the files with these names give no plan.
fn fail_without_plan(fail: ReadFail, setup: Name, script: Name) -> InputFail
    ensures { result ≡ spec.fail_without_plan setup script fail }
{
    match fail {
        ReadFail::Refused(refusal) => InputFail::Refused {
            refusal,
            name: name_of(refusal.file, setup, script),
        },
        ReadFail::NoMemory => InputFail::NoMemory,
    }
}

// Reads the tables of the setup, and makes the plan of what was read.
fn plan_from<F: Shelf, P: Pace>(
    alloc: Global,
    shelf: &mut F,
    pace: &P,
    start: Start,
    setup: Name,
    script: Name,
) -> Result<Accepted, InputFail>
    requires { IsTrue (are_commands start.setup start.script.commands) }
    ensures later { IsLater (F.state shelf.old) (F.state shelf.new) }
    ensures answer { CompletesReading (F.state shelf.old) (F.state shelf.new) setup script start
        result }
{
    let Start {
        setup: setup_read,
        script: script_read,
        digest,
    } = start;
    let (tables, digest) = read_tables(alloc, shelf, pace, setup_read.tables.as_slice(), digest)?;
    match make_plan(alloc, setup_read, script_read, Seq::from_vec(tables)) {
        Ok(plan) => Ok(Accepted {
            plan,
            digests: digest.finish(),
        }),
        Err(fail) => Err(fail_without_plan(fail, setup, script)),
    }
}

/// Reads the files with these names in the order setup, script, tables, each of them judged before the
/// next one is read, and makes the plan of what they say. The first file that is lacking, that cannot be
/// read or that is refused ends the call. Then the plan may be refused. A table is read and digested at
/// this pace, which changes no answer.
pub fn accept<F: Shelf, P: Pace>(
    alloc: Global,
    shelf: &mut F,
    pace: &P,
    setup: Name,
    script: Name,
) -> Result<Accepted, InputFail>
    ensures later { IsLater (F.state shelf.old) (F.state shelf.new) }
    ensures answer { (clock : ClockState) → IsAnswer (sources (F.state shelf.old) clock)
        (sources (F.state shelf.new) clock) (named setup script None) None result }
{
    let start = read_start(alloc, shelf, &setup, &script)?;
    plan_from(alloc, shelf, pace, start, setup, script)
}

/// Does what `accept` does, with a clock that is read between the script and the tables. A clock with the
/// name `system` is no file: its one reading is the moment that `clock` gives, which is not asked
/// otherwise. A clock that gives no moment ends the call.
pub fn accept_timed<F: Shelf, C: Clock, P: Pace>(
    alloc: Global,
    shelf: &mut F,
    clock: &mut C,
    pace: &P,
    files: FileNames,
) -> Result<(Accepted, Readings), InputFail>
    ensures later { IsLater (F.state shelf.old) (F.state shelf.new) }
    ensures answer { IsTimedAnswer (sources (F.state shelf.old) (C.state clock.old))
        (sources (F.state shelf.new) (C.state clock.new)) (names_of files) result }
{
    let FileNames {
        setup,
        script,
        clock: file,
    } = files;
    let start = read_start(alloc, shelf, &setup, &script)?;
    let readings = read_readings(alloc, shelf, clock, &file)?;
    let accepted = plan_from(alloc, shelf, pace, start, setup, script)?;
    Ok((accepted, readings))
}
