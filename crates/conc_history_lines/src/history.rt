ghost use Rattle.std.specs.Prelude.{◌≡◌, ◌+◌, ◌<◌, ◌^◌, [], ◌∷◌, length, unwrap_or, IfOk, IfSome, MatchOption};
ghost use Rattle.conc_history_lines.specs.History as spec;
ghost use Rattle.conc_history_lines.specs.History.{bad_at, history_in, whole_lines};

use crate::event::event_of;
use crate::split::split_once;
use conc_types::{Event, NoMemory, Seq};
use std::alloc::Global;

/// What was read of the text of a history.
#[derive(Drop)]
pub struct Lines {
    /// The events of the lines before the first that is `--` or no event line.
    pub events: Seq<Event>,
    /// The number, from 1, of the first line that is no event line, where no line before it is `--`.
    /// Where all lines are event lines and none is `--`, it is the number after the last one.
    pub bad: Option<u64>,
    /// The offset after the first line `--`, or the length of the text where there is none.
    pub next: usize,
}

// Whether the line is the one that ends the events.
fn is_last(line: &[u8]) -> bool
    ensures { result ≡ spec.is_last line.now }
{
    line == b"--".as_slice()
}

/// The first line that ends with LF, without it, and the text behind it. A text without LF has no such
/// line.
pub fn split_line(bytes: &[u8]) -> Option<(&[u8], &[u8])>
    ensures lines { MatchOption result (whole_lines bytes.now ≡ [])
        (λ p. whole_lines bytes.now ≡ p.0.now ∷ whole_lines p.1.now) }
    ensures length { IfSome result (λ p. length bytes.now ≡ length p.0.now + 1 + length p.1.now) }
{
    split_once(bytes, b'\n')
}

// The number of the first line of the text, unless this line ends the events.
fn bad_line(text: &[u8], number: u64) -> Option<u64>
    ensures { result ≡ bad_at number (whole_lines text.now) }
{
    match split_line(text) {
        Some((line, _)) if is_last(line) => None,
        _ => Some(number),
    }
}

// The offset after the first line that ends the events, or that of the end, of a text that begins
// at an offset.
fn offset_after(mut offset: usize, mut text: &[u8]) -> usize
    requires { offset + length text.now < 2 ^ 64 }
    ensures { result ≡ unwrap_or (spec.offset_after offset (whole_lines text.now))
        (offset + length text.now) }
{
    while let Some((line, after)) = split_line(text) {
        offset += line.len() + 1;
        if is_last(line) {
            return offset;
        }
        text = after;
    }
    offset + text.len()
}

/// Reads the text of a history as far as the table. An event line is exactly one of these, where one
/// blank stands between two words and each number is a decimal as `read_decimal` reads it:
/// `tick MOMENT`, `do NUMBER`, `open SET`, `stage SET STAGE` with a stage from 1, `close SET OUTCOME`
/// with Normal, Warning or Error, `let REQUEST`, `start REQUEST M.N`, `end REQUEST OUTCOME OFFSET LENGTH`
/// with Normal, Warning or Error, `end REQUEST Terminated`, `resume`, `interrupt REQUEST`. Offsets have 64
/// bits and all other numbers 32. `starts` has, for each manager, the index of its first place, and then
/// the count of all places; `M.N` is place N of manager M, both from 1, and a line that names no place
/// is no event line. The events end at the line `--`. Each line ends with LF; bytes after the last LF
/// are a line that is no event line. The text is gone through once.
#[tactic(auto, unfolding(crate::specs::History::history_in))]
pub fn read_history(alloc: Global, bytes: &[u8], starts: &[u32]) -> Result<Lines, NoMemory>
    ensures { IfOk result (λ lines. lines ≡ history_in starts.now bytes.now) }
{
    let mut events = Vec::new(alloc);
    let mut rest = bytes;
    while let Some((line, after)) = split_line(rest) {
        let Some(event) = event_of(line, starts) else {
            break;
        };
        events.push(event)?;
        rest = after;
    }
    Ok(Lines {
        bad: bad_line(rest, events.len() as u64 + 1),
        next: offset_after(bytes.len() - rest.len(), rest),
        events: Seq::from_vec(events),
    })
}
