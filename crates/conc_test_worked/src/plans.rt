use conc_plan::make_plan;
use conc_script::read_script;
use conc_setup::read_setup;
use conc_tables::read_table;
use conc_types::{Plan, ReadFail, Seq};
use std::alloc::Global;

/// The plan of a setup, a script and the one table that the setup names. None where it names another number of
/// tables.
pub fn plan_from(
    alloc: Global,
    setup: &[u8],
    script: &[u8],
    table: &[u8],
) -> Result<Option<Plan>, ReadFail> {
    let setup = read_setup(alloc, setup)?;
    let script = read_script(alloc, script, &setup)?;
    let mut tables = Vec::new(alloc);
    tables.push(read_table(alloc, table, 0)?)?;
    if tables.len() != setup.tables.len() {
        return Ok(None);
    }
    Ok(Some(make_plan(alloc, setup, script, Seq::from_vec(tables))?))
}
