//! The value that is published: the list of events.
ghost use Rattle.std.specs.Prelude.{◌≡◌, ◌+◌, ◌-◌, ◌<◌, ◌≤◌, ◌==◌, ◌&&◌, ◌↔◌, ◌∷◌, ◌++◌, [], IfOk, IfSome, IsTrue, length, nat_lt, take, if◌then◌else◌};
ghost use Rattle.std.specs.Vec.{vec_capacity};
ghost use Rattle.conc_journal_image.specs.declared.layout.TheConstants.{MOST_RECORDS};

use crate::book::{Book, Reached};
use crate::listing::Listing;
use crate::naming::Naming;
use conc_journal_image::MOST_RECORDS;
use conc_types::{Event, NoMemory};
use left_right::Absorb;
use std::alloc::{AllocError, Global};

/// A list that the events told have reached, with room for as many events as a journal has at most.
#[derive(Drop)]
pub struct Store<J: Naming> {
    pub(crate) events: Vec<Event>,
    pub(crate) reached: Reached<J>,
    ghost same: { reached ≡ events.items },
    ghost room: { MOST_RECORDS ≤ vec_capacity events },
}

/// An event, with the list that it ends.
#[derive(Drop)]
pub struct Entry<J: Naming> {
    pub(crate) event: Event,
    pub(crate) reached: Reached<J>,
    ghost last: { reached ≡ take (length reached - 1) reached ++ event ∷ [] },
}

impl<J: Naming> Store<J> {
    /// A store of a list that was reached.
    pub(crate) fn of(
        alloc: Global,
        events: &[Event],
        reached: Reached<J>,
    ) -> Result<Store<J>, NoMemory>
        requires few { length events.now ≤ MOST_RECORDS }
        requires same { reached ≡ events.now }
        ensures { IfOk result (λ store. store.reached ≡ events.now) }
    {
        let mut list = Vec::with_capacity(alloc, MOST_RECORDS as usize)?;
        list.extend_from_slice(events)?;
        Ok(Store {
            events: list,
            reached,
        })
    }

    /// Whether there is no room for one more event.
    pub(crate) fn is_full(&self) -> bool
        ensures { IsTrue result ↔ (MOST_RECORDS ≤ length self.now.reached) }
    {
        self.reached.len() >= MOST_RECORDS
    }

    /// The entry of one more event, which is added to the book. None where the book has more events
    /// than the store.
    pub(crate) fn next(&self, book: &Book<J>, event: Event) -> Option<Entry<J>>
        requires { length self.now.reached < MOST_RECORDS }
        ensures { IfSome result (λ entry. (entry.event ≡ event)
            × (entry.reached ≡ self.now.reached ++ event ∷ [])) }
    {
        let reached = self.reached.with(book, event)?;
        Some(Entry { event, reached })
    }
}

impl<J: Naming> Listing for Store<J> {
    ghost list = { λ s. s.reached };
}

impl<J: Naming> Absorb<Entry<J>> for Store<J> {
    // A clause reads an array as a list, of any length.
    type State = [Event; 0];

    ghost state = { λ s. s.events.items };

    ghost applied = { λ events entry. if nat_lt (length events) MOST_RECORDS
        && (length entry.reached == length events + 1)
        then events ++ entry.event ∷ [] else events };

    ghost never_fails = { Unit {0} };

    // An entry for which there is no room, or which is not that of the next event, is passed over.
    fn absorb_first(&mut self, entry: &Entry<J>, _other: &Store<J>) -> Result<(), AllocError> {
        if self.is_full() || entry.reached.len() != self.reached.len() + 1 {
            return Ok(());
        }
        match self.events.push(entry.event) {
            Ok(()) => self.reached.go_on(&entry.reached),
            Err(_) => unreachable!(),
        }
        Ok(())
    }
}
