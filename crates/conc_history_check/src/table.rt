ghost use Rattle.std.specs.Prelude.{◌≡◌, ◌≤◌, length, IfOk, IfSome, MatchOption, MatchResult};
ghost use Rattle.conc_history_lines.specs.History.{whole_lines};
ghost use Rattle.conc_history_check.specs.Verdicts.{BeginsWith, IsFirstOther, IsBadLine, IsWhole, read};

use crate::lines::after_line;
use conc_history::put_status_table;
use conc_history_lines::{Lines, split_line};
use conc_types::{NoMemory, Plan};
use std::alloc::Global;

// The number, from 1, of the first line of the table in whose place another stands in the text, or
// none.
fn first_other(mut table: &[u8], mut text: &[u8]) -> Option<u64>
    ensures place { MatchOption result (BeginsWith (whole_lines table.now) (whole_lines text.now))
        (IsFirstOther (whole_lines table.now) (whole_lines text.now)) }
    ensures few { IfSome result (λ number. number ≤ length table.now) }
{
    let mut number = 1;
    while let Some((line, rest)) = split_line(table) {
        let Some(after) = after_line(text, line) else {
            return Some(number);
        };
        table = rest;
        text = after;
        number += 1;
    }
    None
}

/// The number of the first line of the text that is no event line before the line `--`, or in whose
/// place another line of the table is due. These are the lines that were read of the text.
pub(crate) fn bad_line(
    alloc: Global,
    plan: &Plan,
    lines: &Lines,
    bytes: &[u8],
) -> Result<Option<u64>, NoMemory>
    requires { lines.now ≡ read plan.now bytes.now }
    ensures { IfOk result (λ line. MatchOption line (IsWhole plan.now bytes.now)
        (IsBadLine plan.now bytes.now)) }
{
    if lines.bad.is_some() {
        return Ok(lines.bad);
    }
    let table = put_status_table(alloc, plan, lines.events.as_slice())?;
    let place = first_other(table.as_slice(), &bytes[lines.next..]);
    Ok(place.map(|number| lines.events.len() as u64 + 1 + number))
}
