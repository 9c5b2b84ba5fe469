ghost use Rattle.std.specs.Prelude.{IsTrue, length, ◌+◌, ◌≤◌};
ghost use Rattle.conc_data_entries.specs.Named.{names_any};

use conc_data_fields::{Counted, ShortText};
use conc_types::{Name, Reach, Scope, Seq, Shift};

/// An entry of the incompatibilities, with the names of its items.
#[derive(Drop)]
pub struct RawEntry {
    pub owner: Name,
    pub other: Name,
    pub scope: Scope,
    pub reach: Reach,
}

/// A specialization rule, with the name of its program. It names a program, a type or a user.
#[derive(Drop)]
pub struct RawRule {
    pub program: Option<Name>,
    pub request_type: Option<ShortText<80>>,
    pub user: Option<Name>,
    ghost names: { IsTrue (names_any program request_type user) },
}

/// A manager, whose rules have the names of their programs.
#[derive(Drop)]
pub struct RawManager {
    pub name: Name,
    pub include: Seq<RawRule>,
    pub exclude: Seq<RawRule>,
    pub shifts: Counted<Shift, 0, 64>,
    ghost few_rules: { length include + length exclude ≤ 64 },
}

/// The names of the stages that a stage leads to, by its outcome.
#[derive(Drop)]
pub struct RawLinks {
    pub success: Option<Name>,
    pub warning: Option<Name>,
    pub error: Option<Name>,
}

/// A stage of a set, with the names of its members.
#[derive(Drop)]
pub struct RawStage {
    pub name: Name,
    pub critical: bool,
    pub links: RawLinks,
    pub members: Counted<Name, 1, 64>,
}

/// A request set, whose stages have the names of what they lead to and of their members.
#[derive(Drop)]
pub struct RawSet {
    pub name: Name,
    pub stages: Counted<RawStage, 1, 64>,
}
