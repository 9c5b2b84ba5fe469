ghost use Rattle.std.specs.Prelude.{◌≡◌, [], ◌++◌, ◌+◌, ◌<◌, ◌≤◌, ◌*◌, ℕ, List, drop, length, IfOk, IfSome, OnOk};
ghost use Rattle.std.specs.Option.{option_map};
ghost use Rattle.conc_journal_image.specs.Fields.{command_stamp};
ghost use Rattle.conc_journal_image.specs.Finding.{AreAll, AreCounted, AreFirst, Begins, HasNextOrEnds, Leads, left_behind};
ghost use Rattle.conc_journal_image.specs.Image.{stamp_at, whole_record};

use crate::fields::stamp_in;
use crate::header::is_closed;
use crate::layout::MOST_RECORDS;
use crate::record::read_record;
use conc_types::{Event, NoMemory};
use std::alloc::Global;

// How many bytes a record takes with the gate behind it.
const WHOLE_BYTES: usize = 33;

/// The first records of a journal, as far as they were found.
#[derive(Debug, Drop)]
pub struct Found {
    pub events: Vec<Event>,
    /// The stamps in the records of the commands among them, in order.
    pub stamps: Vec<u64>,
}

/// Whether there are more records than were found.
#[derive(Clone, Copy, Debug, PartialEq, Eq)]
pub enum Search {
    /// More may stand in the bytes behind.
    GoesOn,
    /// All were found. `broken` is the number of the record behind them, from 1, if one is there that is
    /// broken.
    Ended { broken: Option<u64> },
}

/// A record that is whole.
#[derive(Clone, Copy)]
struct Whole {
    event: Event,
    // What its bytes have where a command has its stamp.
    stamp: u64,
}

// The record that begins these bytes, where the gate of the next one is there too.
fn next_record(bytes: &[u8]) -> Option<Whole>
    ensures event { option_map (λ whole. whole.event) result ≡ whole_record bytes.now }
    ensures stamp { IfSome result (λ whole. whole.stamp ≡ stamp_at bytes.now) }
{
    if bytes.len() < WHOLE_BYTES {
        return None;
    }
    let (record, _) = bytes[1..].split_first_chunk()?;
    Some(Whole {
        event: read_record(record)?,
        stamp: stamp_in(record),
    })
}

// The bytes behind the record that begins these, from its next gate on.
fn behind_record(bytes: &[u8]) -> &[u8]
    requires { 33 ≤ length bytes.now }
    ensures { result.now ≡ drop 32 bytes.now }
{
    &bytes[32..]
}

// Appends the stamp, where the event is a command.
fn push_stamp(stamps: &mut Vec<u64>, event: Event, stamp: u64) -> Result<(), NoMemory>
    ensures { OnOk result (stamps.new.items ≡ stamps.old.items ++ command_stamp event stamp) }
{
    match event {
        Event::Command { .. } => Ok(stamps.push(stamp)?),
        _ => Ok(()),
    }
}

impl Found {
    /// No record so far, and room for so many.
    pub fn with_room(alloc: Global, records: usize) -> Result<Found, NoMemory>
        ensures none { IfOk result (λ found. found.events.items ≡ []) }
        ensures first { IfOk result (λ found. (image : List ℕ) → AreFirst image found) }
        ensures counted { IfOk result AreCounted }
    {
        Ok(Found {
            events: Vec::with_capacity(alloc, records)?,
            stamps: Vec::new(alloc),
        })
    }

    // The number of the record behind those that were found, from 1.
    fn next_number(&self) -> u64
        requires { AreCounted self.now }
        ensures { result ≡ length self.now.events.items + 1 }
    {
        self.events.len() as u64 + 1
    }

    // Takes the record that begins these bytes, which stand behind those that were found.
    fn take_one(&mut self, bytes: &[u8]) -> Result<Search, NoMemory>
        requires counted { AreCounted self.old }
        requires long { 33 ≤ length bytes.now }
        ensures counted { OnOk result (AreCounted self.new) }
        ensures one { IfOk result (HasNextOrEnds self.old self.new) }
        ensures leads { IfOk result (λ search. (image : List ℕ) → AreFirst image self.old
            → Begins bytes.now (left_behind image self.old) → Leads image self.new search) }
    {
        if is_closed(bytes) {
            return Ok(Search::Ended { broken: None });
        }
        if self.events.len() as u64 == MOST_RECORDS {
            return Ok(Search::Ended {
                broken: Some(self.next_number()),
            });
        }
        let Some(whole) = next_record(bytes) else {
            return Ok(Search::Ended {
                broken: Some(self.next_number()),
            });
        };
        push_stamp(&mut self.stamps, whole.event, whole.stamp)?;
        self.events.push(whole.event)?;
        Ok(Search::GoesOn)
    }

    /// Takes the records of the bytes that stand behind those that were found. Where the search goes on,
    /// fewer bytes are left than a record takes with the gate behind it. Without memory no more is known of
    /// what was found.
    pub fn take(&mut self, bytes: &[u8]) -> Result<Search, NoMemory>
        requires counted { AreCounted self.old }
        ensures counted { OnOk result (AreCounted self.new) }
        ensures reaches { IfOk result (λ search. search ≡ Search.GoesOn
            → length bytes.now + 32 * length self.old.events.items
            < 32 * length self.new.events.items + 33) }
        ensures within { IfOk result (λ search. search ≡ Search.GoesOn
            → 32 * length self.new.events.items
            ≤ length bytes.now + 32 * length self.old.events.items) }
        ensures leads { IfOk result (λ search. (image : List ℕ) → AreFirst image self.old
            → Begins bytes.now (left_behind image self.old) → Leads image self.new search) }
    {
        let mut rest = bytes;
        while rest.len() >= WHOLE_BYTES {
            let search = self.take_one(rest)?;
            match search {
                Search::GoesOn => rest = behind_record(rest),
                Search::Ended { .. } => return Ok(search),
            }
        }
        Ok(Search::GoesOn)
    }

    /// The number of the record that is broken, if one is, where these are all the bytes behind those that
    /// were found, and too few for a record with the gate behind it.
    pub fn broken_behind(&self, rest: &[u8]) -> Option<u64>
        requires counted { AreCounted self.now }
        requires short { length rest.now < 33 }
        ensures { (image : List ℕ) → AreFirst image self.now
            → rest.now ≡ left_behind image self.now → AreAll image self.now result }
    {
        if is_closed(rest) {
            None
        } else {
            Some(self.next_number())
        }
    }
}
