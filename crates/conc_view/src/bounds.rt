//! The number of events that were told: one counter raises it, and each of the others has a number that
//! it has reached.
ghost use Rattle.std.specs.Prelude.{◌≡◌, ◌≤◌, [], IfOk, true};
ghost use Rattle.std.specs.Arc.{arc_value};
ghost use Rattle.conc_view.specs.Bounds.{bounded, raiser};

use crate::marks::{Hears, Known, Number, Raises, Reads, Seats};
use crate::naming::Naming;
use atomic_table::Seat;
use std::alloc::AllocError;
use std::marker::{Model, PhantomData};
use std::mem;
use std::sync::Arc;

/// A share of the number. Contracts see it as what it knows of the number.
#[derive(Drop)]
pub(crate) struct Counter<J: Naming> {
    table: Arc<Number>,
    seat: Seat<u64, Known>,
    of: PhantomData<J>,
}

impl<J: Naming> Model for Counter<J> {
    ghost use Rattle.std.specs.Prelude.{◌≡◌, []};
    ghost use Rattle.std.specs.Arc.{arc_value};
    ghost use Rattle.conc_view.specs.declared.marks.Known.{Known};

    ghost Value = { Known };

    ghost view = { λ c. c.seat.me.0 };

    ghost invariant = { λ c. (c.seat.table_id ≡ (arc_value c.table).shared.table_id)
        × (c.seat.table_id ≡ J.name.number) × (c.seat.table_id.words ≡ 1)
        × (c.seat.me.1 ≡ []) };
}

impl<J: Naming> Counter<J> {
    /// The one that raises the number, which is 0.
    pub(crate) fn over(table: Arc<Number>, seat: Seat<u64, Known>) -> Counter<J>
        requires seated { seat.table_id ≡ (arc_value table).shared.table_id }
        requires named { seat.table_id ≡ J.name.number }
        requires word { seat.table_id.words ≡ 1 }
        requires raises { seat.me ≡ (raiser 0, []) }
        ensures { result ≡ raiser 0 }
    {
        Counter {
            table,
            seat,
            of: PhantomData,
        }
    }

    /// Raises the number.
    pub(crate) fn raise(&mut self, to: u64)
        requires raises { self.old.raises ≡ true }
        requires up { self.old.number ≤ to }
        ensures { self.new ≡ raiser to }
    {
        let table = &self.table;
        table.shared.store::<Raises>(&mut self.seat, 0, to);
    }

    /// One more, which has the same bound.
    pub(crate) fn bound(&mut self) -> Result<Counter<J>, AllocError>
        ensures bound { IfOk result (λ bound. bound ≡ bounded self.old.least) }
        ensures same { self.new ≡ self.old }
    {
        let table = Arc::try_clone(&self.table)?;
        let seat = table.shared.split_seat::<Seats>(&mut self.seat);
        Ok(Counter {
            table,
            seat,
            of: PhantomData,
        })
    }

    /// Reads the number, which is the bound from now on.
    pub(crate) fn read(&mut self) -> u64
        ensures found { result ≡ self.new.least }
        ensures least { self.old.least ≤ self.new.least }
    {
        let table = &self.table;
        table.shared.load::<Reads>(&mut self.seat, 0)
    }

    /// Hears of a bound, which is no greater than the number, and which is the number from now on.
    pub(crate) fn hear(&mut self, bound: &mut Counter<J>)
        requires raises { self.old ≡ raiser self.old.number }
        ensures least { bound.old.least ≤ self.old.number }
        ensures bound { bound.new ≡ bounded self.old.number }
        ensures same { self.new ≡ self.old }
    {
        let table = &self.table;
        let seat = table.shared.split_seat::<Seats>(&mut self.seat);
        let heard = mem::replace(&mut bound.seat, seat);
        table.shared.join_seat::<Hears>(&mut self.seat, heard);
        table.shared.load::<Reads>(&mut self.seat, 0);
    }
}
