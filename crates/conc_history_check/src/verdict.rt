ghost use Rattle.std.specs.Prelude.{IfOk};
ghost use Rattle.conc_history_check.specs.Verdicts.{IsVerdict};

use crate::check;
use crate::table::bad_line;
use conc_history_lines::{read_history, starts_of};
use conc_types::{CheckFail, NoMemory, Plan, Readings};
use std::alloc::Global;

/// What is found of the text of a history.
#[derive(Clone, Copy, Debug, PartialEq, Eq)]
pub enum Verdict {
    /// Each line before the line `--` is an event line, the events are lawful, and behind that line
    /// stands the table of the requests after these events.
    Lawful {
        /// How many events there are.
        events: u64,
        /// Whether the system is at rest after them, with all readings of the last life taken.
        finished: bool,
    },
    /// The text is not so.
    NotLawful {
        /// The number, from 1, of the first bad line; where the text ends too early, that of the line
        /// that is lacking.
        line: u64,
    },
}

/// Judges the text of a history of the plan, of whose last life these are the readings. A line is bad
/// where it is no event line and stands before the line `--`, where its event may not follow those
/// before it, and where another line of the table is due in its place. The answer names the first bad
/// line, if there is one. What follows the table is not looked at. Memory is taken for the events, for
/// what their judge keeps, and for the text of the table.
pub fn judge_text(
    alloc: Global,
    plan: &Plan,
    readings: &Readings,
    bytes: &[u8],
) -> Result<Verdict, NoMemory>
    ensures { IfOk result (IsVerdict plan.now readings.now.list bytes.now) }
{
    let starts = starts_of(alloc, plan)?;
    let lines = read_history(alloc, bytes, starts.as_slice())?;
    let finished = match check(alloc, plan, readings, lines.events.as_slice()) {
        Ok(finished) => finished,
        Err(CheckFail::Unlawful { position }) => return Ok(Verdict::NotLawful { line: position }),
        Err(CheckFail::NoMemory) => return Err(NoMemory),
    };
    Ok(match bad_line(alloc, plan, &lines, bytes)? {
        Some(line) => Verdict::NotLawful { line },
        None => Verdict::Lawful {
            events: lines.events.len() as u64,
            finished,
        },
    })
}
