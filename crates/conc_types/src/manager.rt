ghost use Rattle.std.specs.Prelude.{◌≤◌, ◌+◌, length, IsTrue};
ghost use Rattle.conc_types.specs.Fields.{is_rule, is_shift};

use crate::{Name, Seq, Text};

/// A specialization rule: it matches a request that agrees with all that it names.
#[derive(Drop)]
pub struct Rule {
    pub program: Option<u32>,
    pub request_type: Option<Text>,
    pub user: Option<Name>,
    ghost names: { IsTrue (is_rule program request_type user) },
}

/// A work shift: how many places a manager has at which moments.
#[derive(Clone, Copy, Debug, PartialEq, Eq)]
pub struct Shift {
    /// A day, counted from 0 for 0001-01-01.
    pub date: Option<u32>,
    /// The days of the week, one bit for each, the lowest for Monday. 0 is no condition.
    pub days: u8,
    /// From the first second of the day to before the second one.
    pub times: Option<(u32, u32)>,
    pub places: u32,
    ghost valid: { IsTrue (is_shift date days times places) },
}

/// A manager, which runs the requests that its rules admit. Without a shift it has one place at
/// every moment.
#[derive(Drop)]
pub struct Manager {
    pub name: Name,
    pub include: Seq<Rule>,
    pub exclude: Seq<Rule>,
    pub shifts: Seq<Shift>,
    ghost few_rules: { length include + length exclude ≤ 64 },
    ghost few_shifts: { length shifts ≤ 64 },
}
