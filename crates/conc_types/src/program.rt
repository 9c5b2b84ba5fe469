ghost use Rattle.std.specs.Prelude.{◌≤◌, length, IsTrue};
ghost use Rattle.conc_types.specs.Fields.{posts_sums};
ghost use Rattle.conc_types.specs.Texts.{is_text};

use crate::{Name, Seq, Text};

/// How a cell is compared with a value.
#[derive(Clone, Copy, Debug, PartialEq, Eq)]
pub enum Test {
    Is,
    IsNot,
    StartsWith,
    Above,
    Below,
}

/// A condition on the rows of a report. The value `$` stands for the request's argument.
#[derive(Drop)]
pub struct Filter {
    pub column: Name,
    pub test: Test,
    pub value: Text,
    ghost short: { IsTrue (is_text 200 value) },
}

/// What a program reports on its table.
#[derive(Drop)]
pub struct Job {
    pub table: Name,
    pub filters: Seq<Filter>,
    pub group: Option<Name>,
    pub sum: Option<Name>,
    pub warn_over: Option<u64>,
    pub error_over: Option<u64>,
    ghost few: { length filters ≤ 16 },
}

/// A program. A request of a program with the mark `restart` runs again after a crash. A program
/// that posts adds the groups of its report and their sums to a table, which has two columns.
#[derive(Drop)]
pub struct Program {
    pub name: Name,
    pub request_type: Text,
    pub enabled: bool,
    pub run_alone: bool,
    pub restart: bool,
    pub job: Job,
    pub post: Option<Name>,
    ghost short: { IsTrue (is_text 80 request_type) },
    ghost sums: { IsTrue (posts_sums post job.group job.sum) },
}
