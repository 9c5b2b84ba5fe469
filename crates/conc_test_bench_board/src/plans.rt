ghost use Rattle.std.specs.Prelude.{◌≡◌, IfOk, IsTrue};
ghost use Rattle.std.specs.List.{list_any};
ghost use Rattle.conc_test_bench_board.specs.Benches.{ExcludesNothing, IsBench};

use crate::Fail;
use conc_plan::make_plan;
use conc_rules::admits;
use conc_script::read_script;
use conc_setup::read_setup;
use conc_tables::read_table;
use conc_time::place_count;
use conc_types::{Plan, Program, ReadFail, Seq, Table};
use std::alloc::Global;

/// The places of the plan, and the requests of a round.
pub(crate) const PLACES: u32 = 64;

pub(crate) const ROUNDS: u32 = 60;

/// The requests of the plan.
pub(crate) const REQUESTS: u32 = ROUNDS * PLACES;

// A manager that runs P at all places.
const SETUP: &[u8] = b"tables = [\"t.csv\"]
program = [{ name = \"P\", table = \"t.csv\" }]
[[manager]]
name = \"M\"
include = [{ program = \"P\" }]
shift = [{ places = 64 }]
";

const HEAD: &[u8] = b"at,do,what,user,priority,start,domain,argument\n";

const SUBMIT: &[u8] = b"2025-03-03T09:00:00,submit,P,ann,,,,\n";

fn some_run_alone(programs: &[Program]) -> bool
    ensures { result ≡ list_any (λ p. p.run_alone) programs.now }
{
    programs.iter().any(|program| program.run_alone)
}

// Whether no two requests of a plan exclude each other: no programs are incompatible, and none runs
// alone.
fn excludes_nothing(plan: &Plan) -> bool
    ensures { IsTrue result → ExcludesNothing plan.now }
{
    plan.setup.entries.is_empty() && !some_run_alone(plan.setup.programs.as_slice())
}

// The one table, on which nothing reports.
fn tables_of(alloc: Global) -> Result<Vec<Table>, ReadFail> {
    let mut tables = Vec::new(alloc);
    tables.push(read_table(alloc, b"k,v\na,1\n", 0)?)?;
    Ok(tables)
}

/// Whether the manager admits each request of the plan. A thread that asks this first has the plan in its
/// cache when it measures.
pub(crate) fn admits_all(plan: &Plan) -> bool {
    match plan.setup.managers.as_slice() {
        [manager] => plan.requests.as_slice().iter().all(|r| admits(manager, r)),
        _ => false,
    }
}

/// A plan with so many requests of one program, which exclude nothing.
pub(crate) fn bench_plan(alloc: Global) -> Result<Plan, Fail>
    ensures { IfOk result IsBench }
{
    let setup = read_setup(alloc, SETUP)?;
    let mut text = Vec::new(alloc);
    text.extend_from_slice(HEAD)?;
    for _ in 0..REQUESTS {
        text.extend_from_slice(SUBMIT)?;
    }
    let script = read_script(alloc, text.as_slice(), &setup)?;
    let tables = tables_of(alloc)?;
    if tables.len() != setup.tables.len() {
        return Err(Fail::Plan);
    }
    let plan = make_plan(alloc, setup, script, Seq::from_vec(tables))?;
    if plan.requests.len() == REQUESTS as usize
        && place_count(&plan) == PLACES
        && excludes_nothing(&plan)
    {
        Ok(plan)
    } else {
        Err(Fail::Plan)
    }
}
