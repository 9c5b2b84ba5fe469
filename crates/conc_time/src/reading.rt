ghost use Rattle.std.specs.Prelude.{◌≡◌, ◌+◌, ◌<◌, ℕ, IfSome, IsNone, MatchOption, None, Option, Some, if◌then◌else◌, pos, ◌+ℤ◌, ◌<ℤ◌};
ghost use Rattle.jiff.specs.Words.{epoch_day};
ghost use Rattle.conc_types.specs.declared.event.Moment.{Moment};
ghost use Rattle.conc_base_law.specs.Calendar as calendar_spec;
ghost use Rattle.conc_base_law.specs.Calendar.{is_civil, moment_of, SpellsMoment};
ghost use Rattle.conc_time.specs.Fields as fields_spec;
ghost use Rattle.conc_time.specs.Fields.{civil, has_date, has_time, two_at};

use crate::SECONDS_PER_DAY;
use crate::civil::Civil;
use conc_types::Moment;
use jiff::civil::{Date, date};

// The digit at a place, or some digit where another byte or none stands there.
fn digit_at(bytes: &[u8], place: usize) -> u8
    ensures { result ≡ fields_spec.digit_at bytes.now place }
{
    let byte = bytes.get(place).copied().unwrap_or(0);
    byte.saturating_sub(b'0').min(9)
}

fn number_at(bytes: &[u8], place: usize) -> u8
    requires { place < 100 }
    ensures value { result ≡ two_at bytes.now place }
    ensures digits { result < 100 }
{
    10 * digit_at(bytes, place) + digit_at(bytes, place + 1)
}

// The numbers at the places of `YYYY-MM-DDTHH:MM:SS`. Where the bytes are no such spelling, they
// are not the text of these numbers.
#[tactic(auto, unfolding(crate::specs::Fields::numbers_at))]
fn numbers_at(bytes: &[u8]) -> Civil
    ensures { civil result ≡ fields_spec.numbers_at bytes.now }
{
    Civil {
        year: 100 * u16::from(number_at(bytes, 0)) + u16::from(number_at(bytes, 2)),
        month: number_at(bytes, 5),
        day: number_at(bytes, 8),
        hour: number_at(bytes, 11),
        minute: number_at(bytes, 14),
        second: number_at(bytes, 17),
    }
}

// The days from 0001-01-01 to a date; negative before it.
fn days_until(day: Date) -> i64
    ensures { result ≡ epoch_day day +ℤ pos 719162 }
{
    date(1, 1, 1).duration_until(day).as_hours() / 24
}

/// The days from 0001-01-01 to a date, or None before it.
pub fn days_from_start(day: Date) -> Option<u64>
    ensures { MatchOption result ((epoch_day day +ℤ pos 719162) <ℤ pos 0)
        (λ days. pos days ≡ epoch_day day +ℤ pos 719162) }
{
    u64::try_from(days_until(day)).ok()
}

// The days from 0001-01-01 to a date. None exactly where the calendar has no such date in a year
// from 1 on.
fn days_before(numbers: &Civil) -> Option<u64>
    ensures days { result ≡ (if has_date (civil numbers.now) then Some
        (calendar_spec.days_before (civil numbers.now)) else None) }
    ensures few { IfSome result (λ days. days < 3652059) }
{
    let Ok(day) = Date::new(numbers.year as i16, numbers.month as i8, numbers.day as i8) else {
        return None;
    };
    days_from_start(day)
}

// The seconds from midnight. None exactly where a day has no such time.
#[tactic(auto, unfolding(crate::specs::Fields::has_time))]
fn time_of(numbers: &Civil) -> Option<u64>
    ensures seconds { result ≡ (if has_time (civil numbers.now) then Some
        (fields_spec.time (civil numbers.now)) else None) }
    ensures few { IfSome result (λ seconds. seconds < 86400) }
{
    if numbers.hour < 24 && numbers.minute < 60 && numbers.second < 60 {
        Some(
            3600 * u64::from(numbers.hour)
                + 60 * u64::from(numbers.minute)
                + u64::from(numbers.second),
        )
    } else {
        None
    }
}

// The seconds from 0001-01-01T00:00:00. None exactly where the calendar has no such date in a year
// from 1 on, or a day has no such time.
#[tactic(auto, unfolding(conc_base_law::specs::Calendar::is_civil, conc_base_law::specs::Calendar::seconds_of, crate::specs::Fields::has_date, crate::specs::Fields::has_time))]
fn seconds_of(numbers: &Civil) -> Option<u64>
    ensures seconds { result ≡ (if is_civil (civil numbers.now) then Some
        (calendar_spec.seconds_of (civil numbers.now)) else None) }
    ensures few { IfSome result (λ seconds. seconds < 315537897600) }
{
    Some(SECONDS_PER_DAY * days_before(numbers)? + time_of(numbers)?)
}

/// The moment that the bytes spell as `YYYY-MM-DDTHH:MM:SS`, in a year from 0001 to 9999 of the
/// Gregorian calendar. None exactly where they spell none: another form, a date that the calendar
/// has not, or a time that a day has not, as 24:00:00 and a second 60. It takes no memory.
pub fn read_moment(bytes: &[u8]) -> Option<Moment>
    ensures value { result ≡ moment_of bytes.now }
    ensures spelled { IfSome result (λ t. SpellsMoment bytes.now t) }
    ensures none { IsNone result → (t : Moment) → ¬ (SpellsMoment bytes.now t) }
{
    let numbers = numbers_at(bytes);
    let seconds = seconds_of(&numbers)?;
    if bytes == numbers.text().as_slice() {
        Some(Moment { seconds })
    } else {
        None
    }
}
