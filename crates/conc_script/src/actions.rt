ghost use Rattle.std.specs.Prelude.{IsTrue};
ghost use Rattle.conc_types.specs.Texts.{is_name};

use conc_types::{Item, Moment, RequestId};

/// What a command submits, with the bytes of its record.
#[derive(Clone, Copy)]
pub(crate) struct Submission<'a> {
    pub item: Item,
    pub user: &'a [u8],
    pub priority: u8,
    pub start: Moment,
    pub domain: &'a [u8],
    pub argument: &'a [u8],
    ghost user_named: { IsTrue (is_name user.now) },
    ghost domain_named: { IsTrue (is_name domain.now) },
}

/// What a command can do to a request that was submitted before.
#[derive(Clone, Copy, PartialEq, Eq)]
pub(crate) enum Verb {
    Hold,
    Unhold,
    Cancel,
    Terminate,
}

/// What a command does, with the bytes of its record.
#[derive(Clone, Copy)]
pub(crate) enum Action<'a> {
    Submit(Submission<'a>),
    On(Verb, RequestId),
}
