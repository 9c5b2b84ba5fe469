//! The character of a request in a column.
ghost use Rattle.std.specs.Prelude.{◌≡◌};
ghost use Rattle.conc_show_timeline.specs.Marks as spec;
ghost use Rattle.conc_show_timeline.specs.Marks.{mark_of};

use crate::steps::{COLUMNS, Deed, Step};

/// A time of a request: it waits, it runs, or it is an open set.
#[derive(Clone, Copy)]
pub(crate) enum Span {
    Wait,
    Run,
    Set,
}

fn begins(span: Span, deed: Deed) -> bool
    ensures { result ≡ spec.begins span deed }
{
    match (span, deed) {
        (Span::Wait, Deed::Let) | (Span::Run, Deed::Start) | (Span::Set, Deed::Open) => true,
        _ => false,
    }
}

fn ends(span: Span, deed: Deed) -> bool
    ensures { result ≡ spec.ends span deed }
{
    match (span, deed) {
        (Span::Wait, Deed::Start) | (Span::Run, Deed::Stop(_)) | (Span::Set, Deed::Close(_)) => {
            true
        }
        _ => false,
    }
}

// The column of the first of these steps that ends the span, or the last column.
fn end_column(span: Span, later: &[Step]) -> usize
    ensures { result ≡ spec.end_column span later.now }
{
    for step in later {
        if ends(span, step.deed) {
            return step.column;
        }
    }
    COLUMNS - 1
}

// Whether one of the spans that these steps begin covers the column.
fn covers(span: Span, column: usize, steps: &[Step]) -> bool
    ensures { result ≡ spec.covers span column steps.now }
{
    for i in 0..steps.len() {
        let step = steps[i];
        if begins(span, step.deed)
            && step.column <= column
            && column <= end_column(span, &steps[i + 1..])
        {
            return true;
        }
    }
    false
}

fn letter_of(deed: Deed) -> Option<u8>
    ensures { result ≡ spec.letter_of deed }
{
    match deed {
        Deed::Stop(letter) => Some(letter),
        Deed::Close(letter) => Some(letter),
        _ => None,
    }
}

// The second letter, if there is one.
fn or_later(before: Option<u8>, later: Option<u8>) -> Option<u8>
    ensures { result ≡ spec.or_later before later }
{
    match later {
        Some(letter) => Some(letter),
        None => before,
    }
}

// The letter of the last end in the column.
fn last_letter(column: usize, steps: &[Step]) -> Option<u8>
    ensures { result ≡ spec.last_letter column None steps.now }
{
    let mut last = None;
    for step in steps {
        if step.column == column {
            last = or_later(last, letter_of(step.deed));
        }
    }
    last
}

/// The character of the request with these steps in a column.
pub(crate) fn mark(steps: &[Step], column: usize) -> u8
    ensures { result ≡ mark_of steps.now column }
{
    if let Some(letter) = last_letter(column, steps) {
        letter
    } else if covers(Span::Run, column, steps) || covers(Span::Set, column, steps) {
        b'='
    } else if covers(Span::Wait, column, steps) {
        b'.'
    } else {
        b' '
    }
}
