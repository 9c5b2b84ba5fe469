//! The ruler over the rows.
ghost use Rattle.std.specs.Prelude.{◌≡◌, ◌<◌, ◌++◌, ◌∷◌, [], OnOk, length};
ghost use Rattle.conc_show_timeline.specs.Columns.{over_columns};
ghost use Rattle.conc_show_timeline.specs.Timeline as spec;
ghost use Rattle.conc_show_timeline.specs.Timeline.{ruler_mark, ruler_text};

use crate::names::put_blanks;
use crate::steps::{COLUMNS, column_of};
use conc_show_model::put_bytes;
use conc_types::{Event, NoMemory};

fn is_tick(event: &Event) -> bool
    ensures { result ≡ spec.is_tick event.now }
{
    matches!(event, Event::Tick { .. })
}

// Whether a reading stands in the column.
fn has_tick(column: usize, events: &[Event]) -> bool
    ensures { result ≡ spec.has_tick column (length events.now) 0 events.now }
{
    for i in 0..events.len() {
        if is_tick(&events[i]) && column_of(events.len(), i) == column {
            return true;
        }
    }
    false
}

fn mark_of(events: &[Event], column: usize) -> u8
    ensures { result ≡ ruler_mark events.now column }
{
    if has_tick(column, events) { b'|' } else { b'-' }
}

// The characters of all columns.
fn put_columns(out: &mut Vec<u8>, events: &[Event]) -> Result<(), NoMemory>
    ensures { OnOk result (out.new.items
        ≡ out.old.items ++ over_columns (λ c. ruler_mark events.now c ∷ [])) }
{
    for column in 0..COLUMNS {
        put_bytes(out, &[mark_of(events, column)])?;
    }
    Ok(())
}

/// Appends the ruler.
#[tactic(auto, unfolding(crate::specs::Timeline::ruler_text))]
pub(crate) fn put_ruler(out: &mut Vec<u8>, events: &[Event]) -> Result<(), NoMemory>
    ensures { OnOk result (out.new.items ≡ out.old.items ++ ruler_text events.now) }
{
    put_blanks(out, 29)?;
    put_columns(out, events)?;
    put_bytes(out, b"\n")
}
