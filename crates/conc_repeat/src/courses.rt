ghost use Rattle.std.specs.Prelude.{◌≡◌, ◌<◌, IfSome, nat_le};
ghost use Rattle.std.specs.Bool.{then_some};
ghost use Rattle.conc_base_law.specs.Calendar.{days_before};
ghost use Rattle.conc_repeat.specs.Moves as moves_spec;
ghost use Rattle.conc_repeat.specs.Moves.{civil_at, moment_by, moment_within, months_later};
ghost use Rattle.conc_repeat.specs.Refusing as refusing_spec;
ghost use Rattle.conc_repeat.specs.Series as series_spec;

use conc_time::{date_of, days_from_start};
use conc_types::Moment;
use jiff::ToSpan;

// The seconds from 0001-01-01T00:00:00 to the end of 9999-12-31.
const CALENDAR_SECONDS: u64 = 315_537_897_600;

// The months of the years from 1 to 9999.
const CALENDAR_MONTHS: u32 = 119_988;

const SECONDS_PER_HOUR: u64 = 3600;

const SECONDS_PER_DAY: u64 = 86_400;

const SECONDS_PER_WEEK: u64 = 604_800;

/// The unit of time by which the moments of a series lie apart.
#[derive(Clone, Copy, Debug, PartialEq, Eq)]
pub enum TimeUnit {
    Hours,
    Days,
    Weeks,
    Months,
}

impl TimeUnit {
    /// The unit with this name, if there is one.
    #[tactic(auto, unfolding(crate::specs::Series::unit_of))]
    pub(crate) fn named(word: &[u8]) -> Option<TimeUnit>
        ensures { result ≡ series_spec.unit_of word.now }
    {
        if word == b"hours".as_slice() {
            Some(TimeUnit::Hours)
        } else if word == b"days".as_slice() {
            Some(TimeUnit::Days)
        } else if word == b"weeks".as_slice() {
            Some(TimeUnit::Weeks)
        } else if word == b"months".as_slice() {
            Some(TimeUnit::Months)
        } else {
            None
        }
    }
}

/// The moments of a series: `times` of them, from the first one on, each `every` units apart.
#[derive(Clone, Copy, Debug)]
pub struct Course {
    pub from: Moment,
    pub every: u16,
    pub unit: TimeUnit,
    pub times: u16,
}

impl Course {
    /// The moment at a place, from 0, if the calendar has it.
    #[tactic(auto, unfolding(crate::specs::Series::moment_in))]
    pub(crate) fn moment(&self, place: u16) -> Option<Moment>
        ensures { result ≡ series_spec.moment_in self.now place }
    {
        moved(
            self.from,
            self.unit,
            u32::from(place) * u32::from(self.every),
        )
    }

    /// Whether the calendar has each moment.
    #[tactic(auto, unfolding(crate::specs::Refusing::is_within_calendar))]
    pub(crate) fn is_within_calendar(&self) -> bool
        ensures { result ≡ refusing_spec.is_within_calendar self.now }
    {
        (0..self.times).all(|place| self.moment(place).is_some())
    }
}

fn moment_at(seconds: u64) -> Option<Moment>
    ensures { result ≡ moment_within seconds }
{
    if seconds < CALENDAR_SECONDS {
        Some(Moment { seconds })
    } else {
        None
    }
}

// The day, counted from 0 for 0001-01-01, that is so many months after the day of a moment.
fn day_later(from: Moment, months: u32) -> Option<u64>
    ensures day { result ≡ then_some (nat_le (months_later months (civil_at from)).year 9999)
        (days_before (months_later months (civil_at from))) }
    ensures few { IfSome result (λ day. day < 3652059) }
{
    if months >= CALENDAR_MONTHS {
        return None;
    }
    let day = date_of(from.seconds / SECONDS_PER_DAY);
    let Ok(later) = day.checked_add(i64::from(months).months()) else {
        return None;
    };
    days_from_start(later)
}

// The moment that is so many months later.
fn months_after(from: Moment, months: u32) -> Option<Moment>
    ensures { result ≡ moment_by (months_later months (civil_at from)) }
{
    let day = day_later(from, months)?;
    Some(Moment {
        seconds: SECONDS_PER_DAY * day + from.seconds % SECONDS_PER_DAY,
    })
}

// The moment that is so many units later, if the calendar has it.
fn moved(from: Moment, unit: TimeUnit, count: u32) -> Option<Moment>
    ensures { result ≡ moves_spec.moved from unit count }
{
    match unit {
        TimeUnit::Hours => moment_at(from.seconds + SECONDS_PER_HOUR * u64::from(count)),
        TimeUnit::Days => moment_at(from.seconds + SECONDS_PER_DAY * u64::from(count)),
        TimeUnit::Weeks => moment_at(from.seconds + SECONDS_PER_WEEK * u64::from(count)),
        TimeUnit::Months => months_after(from, count),
    }
}
