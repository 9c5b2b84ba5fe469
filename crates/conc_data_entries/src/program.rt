ghost use Rattle.std.specs.Prelude.{◌≡◌, List, Option, ℕ};
ghost use Rattle.conc_data_fields.specs.Fields as fields_spec;
ghost use Rattle.conc_data_fields.specs.Reads.{IfRead, good_read};
ghost use Rattle.conc_data_entries.specs.Programs as spec;
ghost use Rattle.toml.specs.View.{table_view};

use crate::table::{FromTable, FromWord, TableForm, WordForm, one_of};
use conc_data_fields::{
    ArrayForm, Counted, FieldFail, NameForm, ShortText, TextForm, TruthForm, WholeForm, beside,
    both, default, keys_kind, no_text, no_values, optional, required,
};
use conc_types::{Filter, Job, Name, Program, RefusalKind, Test};
use std::alloc::Global;
use toml::Table;

impl FromWord for Test {
    ghost of_word = { spec.test_of };

    fn from_word(word: &str) -> Option<Self> {
        one_of(
            &[
                ("is", Test::Is),
                ("is_not", Test::IsNot),
                ("starts_with", Test::StartsWith),
                ("above", Test::Above),
                ("below", Test::Below),
            ],
            word,
        )
    }
}

fn filter_keys(table: &Table) -> Option<RefusalKind>
    ensures { result ≡ fields_spec.keys_kind spec.filter_keys (table_view table.now) }
{
    keys_kind(&["column", "test", "value"], table)
}

fn filter_with(column: Name, test: Test, value: ShortText<200>) -> Filter
    ensures { result ≡ spec.to_filter (column, (test, value)) }
{
    Filter {
        column,
        test,
        value: value.text,
    }
}

fn to_filter(parts: Result<(Name, (Test, ShortText<200>)), FieldFail>) -> Result<Filter, FieldFail>
    ensures { result ≡ good_read spec.to_filter parts }
{
    let (column, (test, value)) = parts?;
    Ok(filter_with(column, test, value))
}

impl FromTable for Filter {
    ghost fields = { spec.filter_of };

    fn from_table(alloc: Global, table: &Table) -> Result<Self, FieldFail> {
        let column = required::<NameForm>(alloc, table, "column");
        let test = required::<WordForm<Test>>(alloc, table, "test");
        let value = required::<TextForm<200>>(alloc, table, "value");
        let filter = to_filter(both(column, both(test, value)));
        beside(filter_keys(table), filter)
    }
}

/// A filter of a program's rows.
type FilterForm = TableForm<Filter>;

fn job_with(
    table: Name,
    filters: Counted<Filter, 0, 16>,
    group: Option<Name>,
    sum: Option<Name>,
    warn_over: Option<u64>,
    error_over: Option<u64>,
) -> Job
    ensures { result ≡ spec.to_job (table, (filters, (group, (sum, (warn_over, error_over))))) }
{
    Job {
        table,
        filters: filters.list,
        group,
        sum,
        warn_over,
        error_over,
    }
}

type JobParts = (
    Name,
    (
        Counted<Filter, 0, 16>,
        (Option<Name>, (Option<Name>, (Option<u64>, Option<u64>))),
    ),
);

fn to_job(parts: Result<JobParts, FieldFail>) -> Result<Job, FieldFail>
    ensures { result ≡ good_read spec.to_job parts }
{
    let (table, (filters, (group, (sum, (warn_over, error_over))))) = parts?;
    Ok(job_with(table, filters, group, sum, warn_over, error_over))
}

#[tactic(auto, unfolding(crate::specs::Programs::job_of))]
fn job_of(alloc: Global, table: &Table) -> Result<Job, FieldFail>
    ensures { IfRead result (λ r. r ≡ spec.job_of (table_view table.now)) }
{
    let name = required::<NameForm>(alloc, table, "table");
    let filters = default::<ArrayForm<FilterForm, 0, 16>>(alloc, no_values(alloc), table, "filter");
    let group = optional::<NameForm>(alloc, table, "group");
    let sum = optional::<NameForm>(alloc, table, "sum");
    let warn_over = optional::<WholeForm>(alloc, table, "warn_over");
    let error_over = optional::<WholeForm>(alloc, table, "error_over");
    let parts = both(
        name,
        both(filters, both(group, both(sum, both(warn_over, error_over)))),
    );
    to_job(parts)
}

fn program_keys(table: &Table) -> Option<RefusalKind>
    ensures { result ≡ fields_spec.keys_kind spec.program_keys (table_view table.now) }
{
    keys_kind(
        &[
            "name",
            "type",
            "enabled",
            "run_alone",
            "restart",
            "table",
            "filter",
            "group",
            "sum",
            "warn_over",
            "error_over",
        ],
        table,
    )
}

fn program_with(
    name: Name,
    request_type: ShortText<80>,
    enabled: bool,
    run_alone: bool,
    restart: bool,
    job: Job,
) -> Program
    ensures { result ≡ spec.to_program
        (name, (request_type, (enabled, (run_alone, (restart, job))))) }
{
    Program {
        name,
        request_type: request_type.text,
        enabled,
        run_alone,
        restart,
        job,
        post: None,
    }
}

type ProgramParts = (Name, (ShortText<80>, (bool, (bool, (bool, Job)))));

fn to_program(parts: Result<ProgramParts, FieldFail>) -> Result<Program, FieldFail>
    ensures { result ≡ good_read spec.to_program parts }
{
    let (name, (request_type, (enabled, (run_alone, (restart, job))))) = parts?;
    Ok(program_with(name, request_type, enabled, run_alone, restart, job))
}

impl FromTable for Program {
    ghost fields = { spec.program_of };

    fn from_table(alloc: Global, table: &Table) -> Result<Self, FieldFail> {
        let name = required::<NameForm>(alloc, table, "name");
        let request_type = default::<TextForm<80>>(alloc, no_text(alloc), table, "type");
        let enabled = default::<TruthForm>(alloc, true, table, "enabled");
        let run_alone = default::<TruthForm>(alloc, false, table, "run_alone");
        let restart = default::<TruthForm>(alloc, false, table, "restart");
        let job = job_of(alloc, table);
        let parts = both(
            name,
            both(
                request_type,
                both(enabled, both(run_alone, both(restart, job))),
            ),
        );
        beside(program_keys(table), to_program(parts))
    }
}

/// A program: a table of the array `program`, with the table that its requests report on. Without
/// the keys for them, its type is the empty text, it is enabled, it does not run alone, and its
/// requests do not run again after a crash.
pub type ProgramForm = TableForm<Program>;
