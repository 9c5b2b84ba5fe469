ghost use Rattle.std.specs.Prelude.{◌≡◌, length};
ghost use Rattle.std.specs.List.{list_all};
ghost use Rattle.conc_types.specs.Faults.{first_fault};
ghost use Rattle.conc_types.specs.Tables as tables_spec;
ghost use Rattle.conc_types.specs.Words.{none_or};
ghost use Rattle.conc_plan.specs.Faults as faults_spec;
ghost use Rattle.conc_plan.specs.Faults.{program_kind};

use conc_types::{Filter, Job, Name, Program, RefusalKind, Setup, Table};

fn has_column(table: &Table, name: &[u8]) -> bool
    ensures { result ≡ tables_spec.has_column table.now name.now }
{
    table
        .columns()
        .iter()
        .any(|column| name == column.as_slice())
}

fn may_have_column(table: &Table, name: &Option<Name>) -> bool
    ensures { result ≡ none_or (tables_spec.has_column table.now) name.now }
{
    match name {
        Some(name) => has_column(table, name.as_bytes()),
        None => true,
    }
}

fn has_filtered(filters: &[Filter], table: &Table) -> bool
    ensures { result ≡ list_all (λ f. tables_spec.has_column table.now f.column) filters.now }
{
    filters
        .iter()
        .all(|filter| has_column(table, filter.column.as_bytes()))
}

fn has_columns(job: &Job, table: &Table) -> bool
    ensures { result ≡ tables_spec.has_columns job.now table.now }
{
    has_filtered(job.filters.as_slice(), table)
        && may_have_column(table, &job.group)
        && may_have_column(table, &job.sum)
}

// The kind of the first rule that the program breaks.
#[tactic(auto, unfolding(crate::specs::Faults::kind_for))]
fn kind_for(setup: &Setup, tables: &[Table], program: &Program) -> Option<RefusalKind>
    ensures { result ≡ faults_spec.kind_for setup.now tables.now program.now }
{
    match setup.table_named(tables, &program.job.table) {
        None => Some(RefusalKind::UnknownTable),
        Some(table) if has_columns(&program.job, table) => None,
        Some(_) => Some(RefusalKind::UnknownColumn),
    }
}

/// The number of the first program that breaks a rule, and the kind of the first rule that it breaks.
pub(crate) fn first_bad_program(setup: &Setup, tables: &[Table]) -> Option<(u64, RefusalKind)>
    ensures { result ≡ first_fault (program_kind setup.now tables.now) 1
        (length setup.now.programs) }
{
    let mut number = 1;
    for program in setup.programs.as_slice() {
        if let Some(kind) = kind_for(setup, tables, program) {
            return Some((number, kind));
        }
        number += 1;
    }
    None
}
