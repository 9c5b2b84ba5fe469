ghost use Rattle.std.specs.Prelude.{◌≡◌, Some, length, IfErr, IfOk};
ghost use Rattle.std.specs.Result.{result_err};
ghost use Rattle.conc_types.specs.declared.refusal.FileKind.TheVariants as kind;
ghost use Rattle.conc_types.specs.Faults.{first_broken, first_fault, IsFailure};
ghost use Rattle.conc_script.specs.Clock as spec;
ghost use Rattle.conc_script.specs.Clock.{clock_fault, line_kind, lines_of, reading_of, SpellsClock};
ghost use Rattle.conc_script.specs.Readings.{line_rules, ReadsLines};

use crate::lines::split_line;
use conc_time::read_moment;
use conc_types::{FileKind, ReadFail, Reading, Readings, RefusalKind, Seq};
use std::alloc::Global;

// The greatest length of a clock file, in bytes.
const MOST_BYTES: usize = 67_108_864;

// How many readings a clock can have.
const MOST_READINGS: usize = 65_536;

// The reading that a line is: a moment, and then a blank and the mark of an early one, or nothing.
#[tactic(auto, unfolding(crate::specs::Clock::reading_of))]
fn read_reading(line: &[u8]) -> Option<Reading>
    ensures { result ≡ reading_of line.now }
{
    let (text, early) = match line.strip_suffix(b" !") {
        Some(text) => (text, true),
        None => (line, false),
    };
    let moment = read_moment(text)?;
    Some(Reading { moment, early })
}

fn is_earlier(reading: Reading, before: Option<Reading>) -> bool
    ensures { result ≡ spec.is_earlier (Some reading) before }
{
    before.is_some_and(|before| reading.moment.seconds < before.moment.seconds)
}

// The reading of the line with this number, from 1, after the one before, or the rule that the line
// breaks.
fn accept(number: usize, line: &[u8], before: Option<Reading>) -> Result<Reading, RefusalKind>
    ensures ok { IfOk result (λ reading. reading_of line.now ≡ Some reading) }
    ensures rules { first_broken (line_rules number (reading_of line.now) before)
        ≡ result_err result }
{
    if number > MOST_READINGS {
        return Err(RefusalKind::TooManyLines);
    }
    let reading = read_reading(line).ok_or(RefusalKind::BadField)?;
    if is_earlier(reading, before) {
        return Err(RefusalKind::ClockBack);
    }
    Ok(reading)
}

// The readings of all lines of a text, none of which breaks a rule.
fn read_lines(alloc: Global, bytes: &[u8]) -> Result<Vec<Reading>, ReadFail>
    ensures ok { IfOk result (λ readings. ReadsLines (lines_of bytes.now) readings.items) }
    ensures err { IfErr result (IsFailure kind.Clock
        (first_fault (line_kind (lines_of bytes.now)) 1 (length (lines_of bytes.now)))) }
{
    let mut readings = Vec::new(alloc);
    let mut rest = bytes;
    while let Some((line, after)) = split_line(rest) {
        let number = readings.len() + 1;
        match accept(number, line, readings.last().copied()) {
            Ok(reading) => readings.push(reading)?,
            Err(kind) => return Err(ReadFail::refused(FileKind::Clock, number as u64, kind)),
        }
        rest = after;
    }
    Ok(readings)
}

/// The readings of a clock file, which has one on each line: a moment as `2025-03-03T09:00:00`, and
/// behind it a blank and `!` where the reading is early. A line ends with LF or CR LF; the last one
/// may lack its end. Where the file breaks a rule it is refused for the first line that does, numbered
/// from 1, and of that line for the first rule in this order: it is one of at most 65,536 lines
/// (`TooManyLines`), it is a reading (`BadField`), and it is not earlier than the line before
/// (`ClockBack`). A file without a line is refused at line 1 (`BadField`), and one of more than
/// 67,108,864 bytes at line 0 (`TooManyLines`). Where memory lacks there is neither readings nor a
/// refusal.
pub fn read_clock(alloc: Global, bytes: &[u8]) -> Result<Readings, ReadFail>
    ensures ok { IfOk result (λ readings. SpellsClock bytes.now readings) }
    ensures err { IfErr result (IsFailure kind.Clock (clock_fault bytes.now)) }
{
    if bytes.len() > MOST_BYTES {
        return Err(ReadFail::refused(FileKind::Clock, 0, RefusalKind::TooManyLines));
    }
    let readings = read_lines(alloc, bytes)?;
    if readings.is_empty() {
        return Err(ReadFail::refused(FileKind::Clock, 1, RefusalKind::BadField));
    }
    Ok(Readings {
        list: Seq::from_vec(readings),
    })
}
