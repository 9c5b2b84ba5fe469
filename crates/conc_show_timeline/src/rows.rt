//! The row of a request.
ghost use Rattle.std.specs.Prelude.{◌≡◌, ◌≤◌, ◌++◌, IfOk, OnOk, length};
ghost use Rattle.conc_show_timeline.specs.Rows.{label_text, marks_text, number_text, row_text};

use crate::colours::put_mark;
use crate::marks::mark;
use crate::names::{put_blanks, put_name};
use crate::steps::{COLUMNS, Step, steps_of};
use conc_show_model::{Row, put_bytes, put_state};
use conc_types::{Event, NoMemory};
use itoa::Buffer;
use std::alloc::Global;

// The number, right-aligned in five columns. It tells how many columns it takes.
#[tactic(auto, unfolding(crate::specs::Rows::number_text))]
fn put_number(out: &mut Vec<u8>, number: u32) -> Result<usize, NoMemory>
    ensures text { OnOk result (out.new.items ≡ out.old.items ++ number_text number) }
    ensures long { IfOk result (λ long. long ≡ length (number_text number)) }
    ensures short { IfOk result (λ long. long ≤ 10) }
{
    let mut buffer = Buffer::new();
    let digits = buffer.format(number).as_bytes();
    if digits.len() >= 5 {
        put_bytes(out, digits)?;
        return Ok(digits.len());
    }
    put_blanks(out, 5 - digits.len())?;
    put_bytes(out, digits)?;
    Ok(5)
}

// The number, a blank and the name, in 28 columns.
#[tactic(auto, unfolding(crate::specs::Rows::label_text, crate::specs::Rows::number_text))]
fn put_label(alloc: Global, out: &mut Vec<u8>, row: &Row) -> Result<(), NoMemory>
    ensures { OnOk result (out.new.items ≡ out.old.items ++ label_text row.now) }
{
    let columns = put_number(out, row.request.number)?;
    put_bytes(out, b" ")?;
    put_name(alloc, out, &row.name, 27 - columns)
}

// The characters of all columns.
fn put_marks(out: &mut Vec<u8>, colours: bool, steps: &[Step]) -> Result<(), NoMemory>
    ensures { OnOk result (out.new.items ≡ out.old.items ++ marks_text colours steps.now) }
{
    for column in 0..COLUMNS {
        put_mark(out, colours, mark(steps, column))?;
    }
    Ok(())
}

/// Appends the line of a request.
#[tactic(auto, unfolding(crate::specs::Rows::row_text))]
pub(crate) fn put_row(
    alloc: Global,
    out: &mut Vec<u8>,
    colours: bool,
    events: &[Event],
    row: &Row,
) -> Result<(), NoMemory>
    ensures { OnOk result (out.new.items ≡ out.old.items ++ row_text colours events.now row.now) }
{
    let steps = steps_of(alloc, events, row.request)?;
    put_label(alloc, out, row)?;
    put_bytes(out, b" ")?;
    put_marks(out, colours, steps.as_slice())?;
    put_bytes(out, b" ")?;
    put_state(out, row.phase, row.status)?;
    put_bytes(out, b"\n")
}
