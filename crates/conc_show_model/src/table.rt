ghost use Rattle.std.specs.Prelude.{◌≡◌, ◌==◌, ◌+◌, ◌<◌, ◌^◌, None, AllPairs, Bool, IfErr, IfOk, length, option_map};
ghost use Rattle.conc_history_lines.specs.History.{whole_lines};
ghost use Rattle.conc_show_model.specs.declared.fail.ChartWhy.TheVariants as why;
ghost use Rattle.conc_show_model.specs.Rows as spec;
ghost use Rattle.conc_show_model.specs.Rows.{rows_from, table_fault_of};
ghost use Rattle.conc_show_model.specs.Whys.{in_history, IsFailure};

use crate::rows::row_above;
use crate::{ChartFail, ChartFile, ChartWhy, Row};
use conc_history_lines::split_line;
use std::alloc::Global;

#[tactic(auto, unfolding(crate::specs::Rows::is_watch_line))]
fn is_watch_line(line: &[u8]) -> bool
    ensures { result ≡ spec.is_watch_line line.now }
{
    line.starts_with(b"watch ")
}

// The number of the first line of a text that is none of a watcher, or lacks its LF.
#[tactic(auto, unfolding(crate::specs::Rows::watch_fault))]
fn watch_fault(mut number: u64, mut text: &[u8]) -> Option<u64>
    requires { number + length text.now < 2 ^ 64 }
    ensures { result ≡ spec.watch_fault (spec.is_whole text.now) number (whole_lines text.now) }
{
    while let Some((line, after)) = split_line(text) {
        if !is_watch_line(line) {
            return Some(number);
        }
        number += 1;
        text = after;
    }
    if text.is_empty() { None } else { Some(number) }
}

/// The rows of a table, whose lines are numbered from `first` on. Each of its lines is a line of the
/// table with a number above that of the line before, or stands behind these and is one of a watcher.
pub(crate) fn read_table(alloc: Global, first: u64, text: &[u8]) -> Result<Vec<Row>, ChartFail>
    requires { first + length text.now < 2 ^ 64 }
    ensures rows { IfOk result (λ rows. rows.items ≡ rows_from 0 (whole_lines text.now)) }
    ensures ok { IfOk result (λ _. table_fault_of first text.now ≡ None) }
    ensures err { IfErr result (IsFailure
        (option_map (in_history why.NoTableLine) (table_fault_of first text.now))) }
{
    let mut rows = Vec::new(alloc);
    let mut last = 0;
    let mut rest = text;
    while let Some((line, after)) = split_line(rest) {
        let Some(row) = row_above(alloc, last, line)? else {
            break;
        };
        last = row.request.number;
        rows.push(row)?;
        rest = after;
    }
    match watch_fault(first + rows.len() as u64, rest) {
        Some(line) => Err(ChartFile::History.refused(line, ChartWhy::NoTableLine)),
        None => Ok(rows),
    }
}
