//! The rule of the number that watchers share, and what each step on it tells.
use atomic_table::{Join, Play, Split, Table, TableRule};
use std::alloc::Global;

/// What a seat knows of the number: whether it is the one that raises it, the number, if so, and a
/// number that it has reached. No value of it is made.
pub(crate) struct Known {
    pub(crate) raises: bool,
    pub(crate) number: u64,
    pub(crate) least: u64,
}

/// The number, in one word.
pub(crate) type Number = Table<u64, Known, (), Bounded, Global>;

/// The rule.
pub(crate) struct Bounded;

impl TableRule<u64, Known, ()> for Bounded {
    ghost use Rattle.conc_view.specs.Bounds.{IsBounded, raiser};

    ghost holds = { λ _. IsBounded };

    ghost first = { λ _. raiser 0 };
}

pub(crate) struct Raises;

impl Play<u64, Known> for Raises {
    ghost use Rattle.conc_view.specs.Bounds.{Raised};

    ghost then = { Raised };
}

pub(crate) struct Reads;

impl Play<u64, Known> for Reads {
    ghost use Rattle.conc_view.specs.Bounds.{Read};

    ghost then = { Read };
}

/// A new seat, which has the same bound.
pub(crate) struct Seats;

impl Split<Known> for Seats {
    ghost use Rattle.conc_view.specs.Bounds.{bounded};

    ghost left = { λ known. known };

    ghost right = { λ known. bounded known.least };
}

/// One seat takes over the bound of another.
pub(crate) struct Hears;

impl Join<Known> for Hears {
    ghost use Rattle.conc_view.specs.Bounds.{nothing};

    ghost both = { λ known other. record known { least = other.least } };

    ghost spent = { nothing };
}
