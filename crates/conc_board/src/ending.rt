ghost use Rattle.std.specs.Prelude.{◌≡◌, ◌↔◌, ℕ, ◌<◌, [], false, List, length, slice_get, slice_index_or, IsTrue};
ghost use Rattle.std.specs.Slots.{IsFull, slots_filled, slots_items, slots_len};

use crate::{Board, Lead};
use atomic_table::Closed;
use conc_pool_seats::Posted;
use std::alloc::Global;
use std::marker::Model;

/// The words of a board at its end. Contracts see them as a list: those of the requests by number,
/// those of the places by index, and that of the end.
pub struct Words {
    closed: Closed<Option<Posted>, Global>,
}

impl Model for Words {
    ghost Value = { List ℕ };

    ghost view = { λ w. slots_items w.closed.words };

    ghost invariant = { λ w. IsFull w.closed.words
        × ((k : ℕ) → k < slots_len w.closed.slots
        → slice_index_or (slots_filled w.closed.slots) k false ≡ false) };
}

impl Drop for Words {
    fn drop(self) {
        let Words { closed } = self;
        closed.free();
    }
}

impl Words {
    /// How many words there are.
    pub fn len(&self) -> usize
        ensures { result ≡ length self.now }
    {
        self.closed.words.len()
    }

    /// Whether there is no word.
    pub fn is_empty(&self) -> bool
        ensures { IsTrue result ↔ (self.now ≡ []) }
    {
        self.len() == 0
    }

    /// The word at an index.
    pub fn get(&self, index: usize) -> Option<u64>
        ensures { result ≡ slice_get self.now index }
    {
        if index < self.len() {
            Some(self.closed.word(index))
        } else {
            None
        }
    }
}

impl Board {
    ghost use Rattle.conc_board.specs.Ends.{Ends};
    ghost use Rattle.conc_board.specs.Seats.{HasAllPlaces, IsLeadOf};

    /// The final words, once the lead has all places again.
    pub fn close(self, lead: Lead) -> Words
        requires lead { IsLeadOf self lead }
        requires all { HasAllPlaces self lead }
        ensures { Ends self lead result }
    {
        let Board {
            table,
            requests: _,
            places: _,
            owners: _,
            bells: _,
            last_claims: _,
        } = self;
        let Lead { seat } = lead;
        let mut closed = table.close_with(seat);
        let mut i = 0;
        while i < closed.slot_count() {
            drop(closed.take(i));
            i += 1;
        }
        Words { closed }
    }
}
