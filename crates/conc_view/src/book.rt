//! The book of a view: the events that were told, which only grow, and lists that they have reached.
ghost use Rattle.std.specs.Prelude.{◌≡◌, ◌^◌, ◌<◌, ◌≤◌, ◌++◌, ◌∷◌, [], length, IfSome};
ghost use mathlib.Core.List.{IsPrefix};
ghost use Rattle.conc_view.specs.Book.{first_word};

use crate::naming::Naming;
use conc_types::Event;
use logbook::{Gain, Offer, Plain, Play, Rule, Seen, Word};
use std::marker::{Model, PhantomData};

/// The rule of the book.
pub(crate) struct Counted;

impl Rule<Event, u64> for Counted {
    ghost use Rattle.std.specs.Prelude.{[]};
    ghost use base.Fml.{ftrue};
    ghost use Rattle.conc_view.specs.Book.{IsCounted};

    ghost holds = { IsCounted };

    ghost first = { [] };

    ghost hinted = { λ _ _. Unit {0} };

    ghost shows = { λ _. [] };

    ghost keeps = { λ _ _. ftrue };

    ghost moves = { λ _ _ _ _. Unit {0} };
}

/// Whoever adds an event trades nothing for it.
pub(crate) struct Nothing;

impl Gain<Event, u64> for Nothing {
    ghost use base.Fml.{ftrue};

    ghost after = { λ _ _ _. ftrue };
}

/// The step that adds an event.
pub(crate) struct Adds;

impl Play<Event, u64> for Adds {
    ghost use Rattle.conc_view.specs.Book.{AddsOne};

    ghost then = { AddsOne };
}

impl Plain<Event, Event, u64> for Adds {
    ghost use Rattle.std.specs.Prelude.{None};

    ghost ask = { λ event. event };

    ghost state = { λ _. None };
}

/// The word that has the number of events.
#[derive(Drop)]
pub(crate) struct Book<J: Naming> {
    head: Word<Event, u64, Counted>,
    of: PhantomData<J>,
    ghost head_is: { head ≡ first_word J.name.book },
}

impl<J: Naming> Book<J> {
    /// The book with this word.
    pub(crate) fn over(head: Word<Event, u64, Counted>) -> Book<J>
        requires { head ≡ first_word J.name.book }
    {
        Book {
            head,
            of: PhantomData,
        }
    }
}

/// That the events told have reached a list. Contracts see it as that list.
#[derive(Drop)]
pub(crate) struct Reached<J: Naming> {
    count: u64,
    seen: Seen<Event, u64, Counted>,
    of: PhantomData<J>,
}

impl<J: Naming> Model for Reached<J> {
    ghost use Rattle.std.specs.Prelude.{◌≡◌, List, length};
    ghost use Rattle.conc_types.specs.declared.event.Event.{Event};

    ghost Value = { List Event };

    ghost view = { λ r. r.seen.log };

    ghost invariant = { λ r. (r.count ≡ length r.seen.log) × (r.seen.book ≡ J.name.book) };
}

impl<J: Naming> Reached<J> {
    /// The list without an event, which each book has reached.
    pub(crate) fn start(seen: Seen<Event, u64, Counted>) -> Reached<J>
        requires book { seen.book ≡ J.name.book }
        requires empty { seen.log ≡ [] }
        ensures { result ≡ [] }
    {
        Reached {
            count: 0,
            seen,
            of: PhantomData,
        }
    }

    /// How many events it has.
    pub(crate) fn len(&self) -> u64
        ensures { result ≡ length self.now }
    {
        self.count
    }

    /// The same once more.
    pub(crate) fn again(&self) -> Reached<J>
        ensures { result ≡ self.now }
    {
        Reached {
            count: self.count,
            seen: self.seen.again(),
            of: PhantomData,
        }
    }

    /// The list with one more event, which is added to the book. None where the book has more events
    /// than the list.
    pub(crate) fn with(&self, book: &Book<J>, event: Event) -> Option<Reached<J>>
        requires { length self.now < 2 ^ 62 }
        ensures { IfSome result (λ longer. longer ≡ self.now ++ event ∷ []) }
    {
        let mut seen = self.seen.again();
        let mut offer: Offer<Event, u64, Counted, Nothing> = seen.plain::<Nothing, Event, Adds>(
            &event,
        );
        let mut pen = seen.no_pen();
        let count = self.count;
        let found = book
            .head
            .compare_exchange::<Adds, Nothing>(count, count + 1, &mut seen, &mut offer, &mut pen);
        if found == count {
            Some(Reached {
                count: count + 1,
                seen,
                of: PhantomData,
            })
        } else {
            None
        }
    }

    /// Goes on to a list that is no shorter. It begins with this one.
    pub(crate) fn go_on(&mut self, to: &Reached<J>)
        requires { length self.old ≤ length to.now }
        ensures to { self.new ≡ to.now }
        ensures begins { IsPrefix self.old to.now }
    {
        let mut both = self.seen.again();
        both.learn(&to.seen);
        *self = to.again();
    }
}
