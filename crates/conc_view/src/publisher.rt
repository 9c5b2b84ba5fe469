ghost use Rattle.std.specs.Prelude.{◌≡◌, [], length};
ghost use Rattle.conc_view.specs.Bounds.{raiser};
ghost use Rattle.conc_view.specs.Line.{pending, shown};

use crate::book::Book;
use crate::bounds::Counter;
use crate::line::Line;
use crate::listing::Listing;
use crate::naming::Naming;
use crate::store::{Entry, Store};
use crate::told::Told;
use conc_journal::{Receipt, Teller};
use conc_types::{NoMemory, Plan};
use left_right::Absorb;
use std::sync::Wait;

/// Publishes a list of events in a value of type T, which changes by values of type O.
pub struct Publishing<'p, J: Naming, T: Absorb<O> + Listing + Drop, O: Drop> {
    plan: &'p Plan,
    book: Book<J>,
    line: Line<T, O>,
    counter: Counter<J>,
    ghost idle: { pending line ≡ [] },
    ghost counted: { counter ≡ raiser (length (T.list (shown line))) },
}

/// Publishes a list of events. It takes in each event that it is told, and what it has taken in is what
/// is published. End it by `close`.
pub type Publisher<'p, J> = Publishing<'p, J, Store<J>, Entry<J>>;

impl<'p, J: Naming> Publisher<'p, J> {
    ghost use Rattle.conc_view.specs.Publisher.{list_of, told_plan};
    ghost use Rattle.conc_view.specs.Told.{whole_of};

    /// The publisher of what a line shows.
    pub(crate) fn over(
        plan: &'p Plan,
        book: Book<J>,
        line: Line<Store<J>, Entry<J>>,
        counter: Counter<J>,
    ) -> Publisher<'p, J>
        requires idle { pending line ≡ [] }
        requires counted { counter ≡ raiser (length (shown line).reached) }
        ensures list { list_of result ≡ (shown line).reached }
        ensures plan { told_plan result ≡ plan.now }
    {
        Publishing {
            plan,
            book,
            line,
            counter,
        }
    }

    /// Ends the publishing, and waits for watchers that are looking. It takes no memory.
    pub fn close<R: Wait>(self, rt: &R) -> Told<J>
        ensures { whole_of result ≡ list_of self.entry }
    {
        let Publishing {
            plan: _,
            book: _book,
            line,
            counter,
        } = self;
        Told::of(line.take(rt), counter)
    }
}

impl<'p, J: Naming> Teller for Publisher<'p, J> {
    ghost use Rattle.std.specs.Prelude.{Some, true};
    ghost use Rattle.conc_base_law.specs.Law.{LawfulSoFar};
    ghost use Rattle.conc_view.specs.Publisher.{list_of, told_plan};

    ghost list = { λ p. Some (list_of p) };

    ghost takes = { λ p events. LawfulSoFar (told_plan p) events };

    ghost may_lack = { λ _. true };

    /// Publishes the receipt's event. It waits for watchers that still look at what was published before
    /// the last event. Without memory what is published stays, and no later event is taken.
    fn tell<Rt: Wait>(&mut self, rt: &Rt, receipt: &Receipt) -> Result<(), NoMemory> {
        let store = self.line.shown();
        if store.is_full() {
            return Err(NoMemory);
        }
        let Some(entry) = store.next(&self.book, receipt.event()) else {
            return Err(NoMemory);
        };
        let number = entry.reached.len();
        self.line.append(entry)?;
        self.counter.raise(number);
        self.line.publish(rt);
        Ok(())
    }
}
