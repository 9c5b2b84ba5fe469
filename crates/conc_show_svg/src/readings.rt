//! The lines of the readings.
ghost use Rattle.std.specs.Prelude.{◌≡◌, ◌≤◌, ◌++◌, OnOk, length};
ghost use Rattle.conc_show_svg.specs.Readings.{free_after, line_text, reading_text, readings_from, words_text};

use crate::geometry::x_of;
use crate::marks::{Path, put_label, put_path};
use conc_show_model::put_bytes;
use conc_time::put_moment;
use conc_types::{Event, Moment, NoMemory};

// Where the lines begin, and where the words of a reading stand.
const TOP: u128 = 92;

const WORDS: u128 = 88;

// How much room the words of a reading take, in hundredths of a unit.
const ROOM: u128 = 12_400;

// The line of a reading, with the reading in its title.
#[tactic(auto, unfolding(crate::specs::Readings::line_text))]
fn put_line(out: &mut Vec<u8>, x: u128, bottom: u128, moment: Moment) -> Result<(), NoMemory>
    ensures { OnOk result (out.new.items ≡ out.old.items ++ line_text x bottom moment) }
{
    put_path(out, b"reading", Path::Down(x, TOP, bottom))?;
    put_bytes(out, b"><title>")?;
    put_moment(out, moment)?;
    put_bytes(out, b"</title></path>\n")
}

// The words of a reading.
#[tactic(auto, unfolding(crate::specs::Readings::words_text))]
fn put_words(out: &mut Vec<u8>, x: u128, moment: Moment) -> Result<(), NoMemory>
    ensures { OnOk result (out.new.items ≡ out.old.items ++ words_text x moment) }
{
    put_label(out, b"soft", x, WORDS)?;
    put_moment(out, moment)?;
    put_bytes(out, b"</text>\n")
}

// A reading at x, with its words if they have room: what stands left of them ends before x.
#[tactic(auto, unfolding(crate::specs::Readings::reading_text))]
fn put_reading(
    out: &mut Vec<u8>,
    free: u128,
    x: u128,
    bottom: u128,
    moment: Moment,
) -> Result<(), NoMemory>
    ensures { OnOk result (out.new.items ≡ out.old.items ++ reading_text free x bottom moment) }
{
    put_line(out, x, bottom, moment)?;
    if free <= x {
        put_words(out, x, moment)
    } else {
        Ok(())
    }
}

// Where there is room again behind a reading at x.
fn room_after(free: u128, x: u128) -> u128
    requires { x ≤ 104000 }
    ensures { result ≡ free_after free x }
{
    if free <= x { x + ROOM } else { free }
}

/// The lines of all readings, and the words of those that have room.
pub(crate) fn put_readings(
    out: &mut Vec<u8>,
    events: &[Event],
    bottom: u128,
) -> Result<(), NoMemory>
    ensures { OnOk result (out.new.items
        ≡ out.old.items ++ readings_from (length events.now) bottom 0 0 events.now) }
{
    let mut free = 0;
    for i in 0..events.len() {
        if let Event::Tick { moment } = events[i] {
            let x = x_of(events.len(), i);
            put_reading(out, free, x, bottom, moment)?;
            free = room_after(free, x);
        }
    }
    Ok(())
}
