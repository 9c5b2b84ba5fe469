ghost use Rattle.std.specs.Prelude.{◌≡◌, ◌≤◌, length, IsTrue};
ghost use Rattle.conc_types.specs.Expansion.{expansion};
ghost use Rattle.conc_types.specs.Scripts.{are_commands};
ghost use Rattle.conc_types.specs.Tables.{are_tables};

use crate::{Item, Moment, Name, RequestId, Script, Seq, Setup, Table, Text, numbered};

/// A request.
#[derive(Drop)]
pub struct Req {
    pub number: RequestId,
    /// The command that enters it, from 1.
    pub command: u32,
    pub item: Item,
    pub user: Name,
    pub request_type: Text,
    /// From 1, the most urgent, to 99.
    pub priority: u8,
    pub start: Moment,
    pub domain: Name,
    pub argument: Text,
    /// The request of its set, if it is a member.
    pub parent: Option<RequestId>,
    /// Its stage in its set, from 1, and 0 if it is no member.
    pub stage: u32,
}

/// What is to be run: a setup, the commands of a script that fits it, the tables that its programs
/// report on, the requests that the commands enter, in the order of their numbers, and a stamp for each
/// command.
#[derive(Drop)]
pub struct Plan {
    pub setup: Setup,
    pub script: Script,
    pub tables: Seq<Table>,
    pub requests: Seq<Req>,
    /// The stamp of each command, which stands for it and those before it.
    pub stamps: Seq<u64>,
    ghost commands: { IsTrue (are_commands setup script.commands) },
    ghost reports: { IsTrue (are_tables setup tables) },
    ghost expanded: { requests ≡ expansion setup script.commands },
    ghost few: { length requests ≤ 16384 },
    ghost stamped: { length stamps ≡ length script.commands },
}

impl Plan {
    ghost use Rattle.std.specs.Option.{option_copied};
    ghost use Rattle.conc_types.specs.Plans as spec;

    /// The request with this number, if there is one. It takes no memory.
    #[tactic(auto, unfolding(crate::specs::Plans::request))]
    pub fn request(&self, id: RequestId) -> Option<&Req>
        ensures { option_copied result ≡ spec.request self.now id }
    {
        numbered(self.requests.as_slice(), id.number)
    }

    /// The stamp of the command with this number, from 1, if there is one. It takes no memory.
    pub fn stamp(&self, command: u32) -> Option<u64>
        ensures { result ≡ spec.stamp self.now command }
    {
        numbered(self.stamps.as_slice(), command).copied()
    }
}
