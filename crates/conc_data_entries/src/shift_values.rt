ghost use Rattle.std.specs.Prelude.{◌≡◌, ◌≤◌, ◌==◌, ◌<◌, IfOk, IfSome, List, Option, Result, ℕ};
ghost use Rattle.conc_data_fields.specs.Reads.{IfRead};
ghost use Rattle.conc_data_entries.specs.Shifts as spec;
ghost use Rattle.conc_types.specs.Words as words_spec;
ghost use Rattle.toml.specs.View.{view};

use crate::table::one_of;
use conc_data_fields::{FieldFail, Form, Judged, ListForm, WholeForm, string};
use conc_time::read_moment;
use conc_types::{NoMemory, RefusalKind};
use std::alloc::Global;
use toml::Value;

const SECONDS_PER_DAY: u64 = 86400;

// The day that is spelled, counted from 0 for 0001-01-01.
fn read_day(alloc: Global, bytes: &[u8]) -> Result<Option<u32>, NoMemory>
    ensures { IfOk result (λ day. day ≡ spec.day_spelled bytes.now) }
{
    let mut text = bytes.to_vec(alloc)?;
    text.extend_from_slice(b"T00:00:00")?;
    match read_moment(text.as_slice()) {
        None => Ok(None),
        Some(moment) => Ok(Some((moment.seconds / SECONDS_PER_DAY) as u32)),
    }
}

fn date_of(alloc: Global, bytes: &[u8]) -> Result<u32, FieldFail>
    ensures { IfRead result (λ r. r ≡ spec.date_of bytes.now) }
{
    match read_day(alloc, bytes)? {
        None => Err(FieldFail::Refused(RefusalKind::BadShift)),
        Some(day) => Ok(day),
    }
}

/// A date as `2025-03-03`, in a year from 0001 to 9999.
pub(crate) struct DateForm;

impl Form for DateForm {
    type Out = u32;

    ghost form = { spec.date_in };

    fn read(alloc: Global, value: &Value) -> Result<u32, FieldFail> {
        date_of(alloc, string(value)?.as_bytes())
    }
}

fn is_digit(byte: u8) -> bool
    ensures { result ≡ spec.is_digit byte }
{
    b'0' <= byte && byte <= b'9'
}

fn clock_of(a: u8, b: u8, colon: u8, c: u8, d: u8) -> Judged<u32>
    ensures { result ≡ spec.clock_of a b colon c d }
{
    if (is_digit(a) && (is_digit(b) && (is_digit(c) && is_digit(d))))
        && (colon == b':' && c <= b'5')
    {
        let hours = 10 * u32::from(a - b'0') + u32::from(b - b'0');
        let minutes = 60 * hours + (10 * u32::from(c - b'0') + u32::from(d - b'0'));
        if minutes <= 1440 {
            Ok(60 * minutes)
        } else {
            Err(RefusalKind::BadShift)
        }
    } else {
        Err(RefusalKind::BadShift)
    }
}

fn time_of(bytes: &[u8]) -> Judged<u32>
    ensures { result ≡ spec.time_of bytes.now }
{
    match bytes {
        [a, b, colon, c, d] => clock_of(*a, *b, *colon, *c, *d),
        _ => Err(RefusalKind::BadShift),
    }
}

/// A time of the day as `08:00`, up to `24:00`, in seconds from midnight.
pub(crate) struct TimeForm;

impl Form for TimeForm {
    type Out = u32;

    ghost form = { spec.time_in };

    fn read(_alloc: Global, value: &Value) -> Result<u32, FieldFail> {
        Ok(time_of(string(value)?.as_bytes())?)
    }
}

fn day_of(word: &str) -> Option<u8>
    ensures { result ≡ spec.day_of word.now }
{
    one_of(
        &[
            ("Mon", 0),
            ("Tue", 1),
            ("Wed", 2),
            ("Thu", 3),
            ("Fri", 4),
            ("Sat", 5),
            ("Sun", 6),
        ],
        word,
    )
}

/// A day of the week as `Mon`, counted from 0 for Monday.
struct DayForm;

impl Form for DayForm {
    type Out = u8;

    ghost form = { spec.day_in };

    fn read(_alloc: Global, value: &Value) -> Result<u8, FieldFail> {
        match day_of(string(value)?) {
            None => Err(FieldFail::Refused(RefusalKind::BadShift)),
            Some(day) => Ok(day),
        }
    }
}

fn has_day(day: u8, days: &[u8]) -> bool
    ensures { result ≡ spec.has_day day days.now }
{
    days.iter().any(|d| day == *d)
}

fn are_distinct(days: &[u8]) -> bool
    ensures { result ≡ words_spec.are_distinct ◌==◌ days.now }
{
    match days.split_first() {
        None => true,
        Some((day, rest)) => !has_day(*day, rest) && are_distinct(rest),
    }
}

fn day_bit(bit: u8, day: u8, days: &[u8]) -> u8
    ensures value { result ≡ spec.day_bit bit day days.now }
    ensures small { result ≤ bit }
{
    if has_day(day, days) { bit } else { 0 }
}

fn day_bits(days: &[u8]) -> u8
    ensures { result ≡ spec.day_bits days.now }
{
    day_bit(1, 0, days)
        + (day_bit(2, 1, days)
            + (day_bit(4, 2, days)
                + (day_bit(8, 3, days)
                    + (day_bit(16, 4, days) + (day_bit(32, 5, days) + day_bit(64, 6, days))))))
}

fn days_of(days: &[u8]) -> Judged<u8>
    ensures { result ≡ spec.days_of days.now }
{
    if !days.is_empty() && are_distinct(days) {
        Ok(day_bits(days))
    } else {
        Err(RefusalKind::BadShift)
    }
}

/// Days of the week, of which none stands twice, as one bit for each, the lowest for Monday. No day
/// is `BadShift`, as is a day twice.
pub(crate) struct DaysForm;

impl Form for DaysForm {
    type Out = u8;

    ghost form = { spec.days_in };

    #[tactic(auto, unfolding(crate::specs::Shifts::days_in))]
    fn read(alloc: Global, value: &Value) -> Result<u8, FieldFail> {
        let days = ListForm::<DayForm>::read(alloc, value)?;
        Ok(days_of(days.as_slice())?)
    }
}

fn places_of(count: u64) -> Judged<u32>
    ensures { result ≡ spec.places_of count }
{
    if count > 64 {
        return Err(RefusalKind::OutOfRange);
    }
    Ok(count as u32)
}

/// How many places a shift has: 0 to 64.
pub(crate) struct PlacesForm;

impl Form for PlacesForm {
    type Out = u32;

    ghost form = { spec.places_in };

    fn read(alloc: Global, value: &Value) -> Result<u32, FieldFail> {
        let count = WholeForm::read(alloc, value)?;
        Ok(places_of(count)?)
    }
}
