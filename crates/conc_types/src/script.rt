ghost use Rattle.std.specs.Prelude.{◌≤◌, length, IsTrue};
ghost use Rattle.conc_types.specs.Scripts.{are_in_order};
ghost use Rattle.conc_types.specs.Words.{is_between};

use crate::{Item, Moment, Name, RequestId, Seq, Text};

/// What a command does. Where the script leaves priority, start or domain of a submission empty,
/// they are 50, the moment of the command and `Standard`.
#[derive(Drop)]
pub enum Act {
    Submit {
        item: Item,
        user: Name,
        priority: u8,
        start: Moment,
        domain: Name,
        argument: Text,
    },
    Hold {
        request: RequestId,
    },
    Unhold {
        request: RequestId,
    },
    Cancel {
        request: RequestId,
    },
    Terminate {
        request: RequestId,
    },
}

/// A command of the script, and the moment from which it is due.
#[derive(Drop)]
pub struct Order {
    pub at: Moment,
    pub act: Act,
}

/// A script: commands, numbered from 1 in their order.
#[derive(Drop)]
pub struct Script {
    pub commands: Seq<Order>,
    ghost few: { length commands ≤ 4096 },
}

/// A reading of the clock. An early one may be taken before the system is at rest.
#[derive(Clone, Copy, Debug, PartialEq, Eq)]
pub struct Reading {
    pub moment: Moment,
    pub early: bool,
}

/// The readings of a clock, none earlier than the one before.
#[derive(Drop)]
pub struct Readings {
    pub list: Seq<Reading>,
    ghost some: { IsTrue (is_between 1 65536 (length list)) },
    ghost in_order: { IsTrue (are_in_order list) },
}
