ghost use Rattle.std.specs.Prelude.{◌≡◌, [], IfOk};
ghost use Rattle.std.specs.Arc.{arc_value};
ghost use Rattle.conc_view.specs.Book.{first_word};
ghost use Rattle.conc_view.specs.Bounds.{raiser};

use crate::book::{Book, Counted, Reached};
use crate::bounds::Counter;
use crate::marks::{Known, Number};
use crate::naming::Naming;
use atomic_table::{Seat, Table};
use conc_types::{Event, NoMemory};
use logbook::{Seen, Start, Word};
use std::alloc::Global;
use std::sync::Arc;

/// What a view begins with, before it has a name: a book without an event, and the number 0.
#[derive(Drop)]
pub struct Opened {
    head: Word<Event, u64, Counted>,
    seen: Seen<Event, u64, Counted>,
    table: Arc<Number>,
    seat: Seat<u64, Known>,
    ghost empty: { seen.log ≡ [] },
    ghost head_is: { head ≡ first_word seen.book },
    ghost seated: { seat.table_id ≡ (arc_value table).shared.table_id },
    ghost word: { seat.table_id.words ≡ 1 },
    ghost raises: { seat.me ≡ (raiser 0, []) },
}

impl Opened {
    ghost use Rattle.conc_view.specs.Opened.{name_of};

    /// Takes the memory for the number.
    pub fn new(alloc: Global) -> Result<Opened, NoMemory> {
        let (seen, mut first, _second) = Seen::open(Start::alone(), 0, 0);
        let (table, seat) = Table::of_words(alloc, &[0], &())?;
        Ok(Opened {
            head: Word::tracked(0, &mut first),
            seen,
            table: Arc::new(alloc, table)?,
            seat,
        })
    }

    /// The book, the list without an event, and the counter at 0, under their name.
    pub(crate) fn named<J: Naming>(self) -> (Book<J>, Reached<J>, Counter<J>)
        requires { name_of self ≡ J.name }
        ensures reached { result.1 ≡ [] }
        ensures counter { result.2 ≡ raiser 0 }
    {
        let Opened {
            head,
            seen,
            table,
            seat,
        } = self;
        (
            Book::over(head),
            Reached::start(seen),
            Counter::over(table, seat),
        )
    }
}
