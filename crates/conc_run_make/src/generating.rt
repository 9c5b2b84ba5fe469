ghost use Rattle.std.specs.Prelude.{◌≡◌, ◌≤◌, ◌∷◌, [], IfErr, IfOk, Ok};
ghost use Rattle.conc_types.specs.declared.error.ReadFail.TheVariants.{NoMemory as out_of_memory};
ghost use Rattle.conc_run_make.specs.Generated.{AreGenerated};

use conc_data_columns::keep_columns;
use conc_make::{Inputs, make};
use conc_plan::make_plan;
use conc_script::{read_clock, read_script};
use conc_setup::read_setup;
use conc_tables::read_table;
use conc_types::{NoMemory, Plan, ReadFail, Readings, Seq, Table};
use std::alloc::Global;

/// What generated files give for a run: the plan and the readings.
#[derive(Drop)]
pub(crate) struct Generated {
    pub(crate) plan: Plan,
    pub(crate) readings: Readings,
}

// The value of a file that is accepted.
fn accepted<T: Drop>(read: Result<T, ReadFail>) -> Result<T, NoMemory>
    requires { IfErr read (λ e. e ≡ out_of_memory) }
    ensures { IfOk result (λ value. read ≡ Ok value) }
{
    match read {
        Ok(value) => Ok(value),
        Err(ReadFail::NoMemory) => Err(NoMemory),
        Err(ReadFail::Refused(_)) => unreachable!(),
    }
}

fn one_table(alloc: Global, table: Table) -> Result<Seq<Table>, NoMemory>
    ensures { IfOk result (λ tables. tables ≡ table ∷ []) }
{
    let mut tables = Vec::with_capacity(alloc, 1)?;
    tables.push(table)?;
    Ok(Seq::from_vec(tables))
}

/// What the files give that are made of this seed with so many submissions. Want of memory is its only
/// failure, since the readers accept the files and a plan of them has no fault.
pub(crate) fn generate(alloc: Global, seed: u64, size: u32) -> Result<Generated, NoMemory>
    requires some { 1 ≤ size }
    requires few { size ≤ 4000 }
    ensures { IfOk result (λ generated. AreGenerated seed size generated.plan generated.readings) }
{
    let inputs = make(alloc, seed, size)?;
    let setup = accepted(read_setup(alloc, &inputs.setup))?;
    let script = accepted(read_script(alloc, &inputs.script, &setup))?;
    let readings = accepted(read_clock(alloc, &inputs.clock))?;
    let table = accepted(read_table(alloc, &inputs.table, 0))?;
    let tables = one_table(alloc, table)?;
    let plan = accepted(make_plan(alloc, setup, script, tables))?;
    let plan = keep_columns(alloc, plan);
    Ok(Generated { plan, readings })
}
