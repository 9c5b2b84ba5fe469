ghost use Rattle.std.specs.Prelude.{◌≡◌, ◌<◌, ℕ, List, IfOk, length};
ghost use Rattle.std.specs.List.{list_all};
ghost use Rattle.conc_base_law.specs.Report as report_spec;
ghost use Rattle.conc_base_law.specs.Report.{Row, passes_filter, passes_test};
ghost use Rattle.conc_reports.specs.Checks as checks_spec;
ghost use Rattle.conc_reports.specs.Checks.{holds};
ghost use Rattle.conc_reports.specs.Columns.{cells_at};

use crate::columns::{Place, cell_at, place_of};
use crate::numbers::whole_number;
use conc_types::{Filter, Job, NoMemory, Table, Test};
use std::alloc::Global;

/// What a cell is tested for. A number is None where the filter's value is no whole number.
#[derive(Clone, Copy)]
pub enum Check<'a> {
    Is(&'a [u8]),
    IsNot(&'a [u8]),
    StartsWith(&'a [u8]),
    Above(Option<i64>),
    Below(Option<i64>),
}

/// A filter for the rows of one table: the place of its column, and what the cell there is tested
/// for.
#[derive(Clone, Copy)]
pub struct Condition<'a> {
    pub place: Place,
    pub check: Check<'a>,
}

fn check_of<'a>(test: Test, value: &'a [u8]) -> Check<'a>
    ensures { (cell : List ℕ) → checks_spec.meets result cell ≡ passes_test test cell value.now }
{
    match test {
        Test::Is => Check::Is(value),
        Test::IsNot => Check::IsNot(value),
        Test::StartsWith => Check::StartsWith(value),
        Test::Above => Check::Above(whole_number(value)),
        Test::Below => Check::Below(whole_number(value)),
    }
}

// The value of a filter; `$` alone stands for the argument.
#[tactic(auto, unfolding(conc_base_law::specs::Report::filter_value))]
fn filter_value<'a>(argument: &'a [u8], filter: &'a Filter) -> &'a [u8]
    ensures { result.now ≡ report_spec.filter_value argument.now filter.now }
{
    if filter.value.as_slice() == b"$".as_slice() {
        argument
    } else {
        filter.value.as_slice()
    }
}

#[tactic(auto, unfolding(conc_base_law::specs::Report::passes_filter, conc_base_law::specs::Report::cell))]
fn condition_of<'a>(argument: &'a [u8], table: &Table, filter: &'a Filter) -> Condition<'a>
    ensures { (row : Row) → holds row.1 result
        ≡ passes_filter table.now argument.now row filter.now }
{
    Condition {
        place: place_of(table, filter.column.as_bytes()),
        check: check_of(filter.test, filter_value(argument, filter)),
    }
}

/// The conditions that the job's filters ask of a row of this table.
#[tactic(auto, unfolding(conc_base_law::specs::Report::passes))]
pub fn conditions<'a>(
    alloc: Global,
    job: &'a Job,
    argument: &'a [u8],
    table: &Table,
) -> Result<Vec<Condition<'a>>, NoMemory>
    ensures { IfOk result (λ conditions. (row : Row)
        → list_all (holds row.1) conditions.items
        ≡ report_spec.passes job.now argument.now table.now row) }
{
    let mut conditions = Vec::with_capacity(alloc, job.filters.len())?;
    for filter in job.filters.as_slice() {
        conditions.push(condition_of(argument, table, filter))?;
    }
    Ok(conditions)
}

/// Whether both numbers are there, and the first is less.
pub fn is_less(a: Option<i64>, b: Option<i64>) -> bool
    ensures { result ≡ checks_spec.is_less a b }
{
    match (a, b) {
        (Some(m), Some(n)) => m < n,
        _ => false,
    }
}

/// Whether a cell meets a check.
pub fn meets(check: Check<'_>, cell: &[u8]) -> bool
    ensures { result ≡ checks_spec.meets check.entry cell.now }
{
    match check {
        Check::Is(value) => cell == value,
        Check::IsNot(value) => cell != value,
        Check::StartsWith(value) => cell.starts_with(value),
        Check::Above(value) => is_less(value, whole_number(cell)),
        Check::Below(value) => is_less(whole_number(cell), value),
    }
}

/// Whether a row, from 0, meets each condition.
pub fn passes(conditions: &[Condition<'_>], table: &Table, row: usize) -> bool
    requires { row < length table.now.rows }
    ensures { result ≡ list_all (holds (cells_at table.now row)) conditions.now }
{
    conditions.iter().all(|condition| meets(condition.check, cell_at(table, row, condition.place)))
}
