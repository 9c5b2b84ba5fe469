//! The lines of a place.
ghost use Rattle.std.specs.Prelude.{◌≡◌, ◌≤◌, ◌++◌, IfOk, OnOk, decimal, flat_map, length};
ghost use Rattle.conc_show_model.specs.Runs as runs;
ghost use Rattle.conc_show_timeline.specs.Lanes.{head_text, lane_text, used_after, words_at, wrapped, wrapped_all};

use crate::names::put_blanks;
use conc_show_model::{Place, is_same, put_bytes, put_place};
use conc_types::{Event, NoMemory, PlaceId, RequestId};
use itoa::Buffer;

// How many columns a line has at most.
const WIDTH: usize = 100;

// How many places a manager has at most.
const OF_MANAGER: u32 = 64;

fn place_of(place: PlaceId) -> Place
    ensures { result ≡ runs.place_of place }
{
    Place {
        manager: place.index / OF_MANAGER + 1,
        number: place.index % OF_MANAGER + 1,
    }
}

// A word behind so many columns: behind a blank, or in the next line. It tells the columns behind it.
fn put_word(out: &mut Vec<u8>, used: usize, word: &[u8]) -> Result<usize, NoMemory>
    requires { length word.now ≤ 40 }
    ensures text { OnOk result (out.new.items ≡ out.old.items ++ wrapped used word.now) }
    ensures used { IfOk result (λ after. after ≡ used_after used word.now) }
{
    if used >= WIDTH - word.len() {
        put_bytes(out, b"\n       ")?;
        put_bytes(out, word)?;
        Ok(7 + word.len())
    } else {
        put_bytes(out, b" ")?;
        put_bytes(out, word)?;
        Ok(used + 1 + word.len())
    }
}

fn put_request(out: &mut Vec<u8>, used: usize, request: RequestId) -> Result<usize, NoMemory>
    ensures text { OnOk result (out.new.items
        ≡ out.old.items ++ wrapped used (decimal request.number)) }
    ensures used { IfOk result (λ after. after ≡ used_after used (decimal request.number)) }
{
    let mut buffer = Buffer::new();
    put_word(out, used, buffer.format(request.number).as_bytes())
}

// The words of the events in the line of a place, behind so many columns.
fn put_words(
    out: &mut Vec<u8>,
    start: usize,
    events: &[Event],
    place: Place,
) -> Result<(), NoMemory>
    ensures { OnOk result (out.new.items
        ≡ out.old.items ++ wrapped_all start (flat_map (words_at place) events.now)) }
{
    let mut used = start;
    for event in events {
        match *event {
            Event::Tick { .. } => used = put_word(out, used, b"|")?,
            Event::Started { request, place: at } if is_same(place_of(at), place) => {
                used = put_request(out, used, request)?;
            }
            _ => {}
        }
    }
    Ok(())
}

// The place, filled up with blanks to six columns. It tells how many columns it takes.
#[tactic(auto, unfolding(crate::specs::Lanes::head_text))]
fn put_head(out: &mut Vec<u8>, place: Place) -> Result<usize, NoMemory>
    ensures text { OnOk result (out.new.items ≡ out.old.items ++ head_text place) }
    ensures long { IfOk result (λ long. long ≡ length (head_text place)) }
{
    let before = out.len();
    put_place(out, place)?;
    let long = out.len() - before;
    if long >= 6 {
        return Ok(long);
    }
    put_blanks(out, 6 - long)?;
    Ok(6)
}

/// Appends the lines of a place.
#[tactic(auto, unfolding(crate::specs::Lanes::lane_text))]
pub(crate) fn put_lane(out: &mut Vec<u8>, events: &[Event], place: Place) -> Result<(), NoMemory>
    ensures { OnOk result (out.new.items ≡ out.old.items ++ lane_text events.now place) }
{
    let used = put_head(out, place)?;
    put_words(out, used, events, place)?;
    put_bytes(out, b"\n")
}
