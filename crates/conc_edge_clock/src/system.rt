// The edge, which is trusted: that a moment of a `SystemClock` is what the system's clock shows in
// the system's zone. No clause can say so, and the type exposes no moments.
ghost use Rattle.std.specs.Prelude.{◌≡◌, pos, None, IfOk, MatchOption};
ghost use Rattle.conc_edge_clock.specs.Civil.{IsOffYears, shown_at};

use crate::Clock;
use conc_outside::Failed;
use conc_types::{Moment, NoMemory};
use jiff::tz::{SystemTimeZone, TimeZone, TimeZoneDatabase};
use jiff::{Error, Timestamp};
use std::alloc::Global;
use std::rt::{Env, Files};
use std::time;

/// From 0001-01-01T00:00:00 to 1970-01-01T00:00:00.
const SECONDS_BEFORE_1970: i64 = 62_135_596_800;

/// From 0001-01-01T00:00:00 to 10000-01-01T00:00:00.
const SECONDS_OF_ALL_YEARS: u64 = 315_537_897_600;

/// The zone of the system: that of the variable `TZ`, or that of `/etc/localtime` where `TZ` is not
/// set. It is UTC where the one that is asked tells no zone.
#[derive(Drop)]
pub struct SystemZone {
    named: Option<SystemTimeZone>,
    database: TimeZoneDatabase,
}

/// What was found, if anything was. Only a lack of memory is an error.
fn found<T: Drop>(answer: Result<T, Error>) -> Result<Option<T>, NoMemory> {
    match answer {
        Ok(value) => Ok(Some(value)),
        Err(Error::OutOfMemory) => Err(NoMemory),
        Err(_) => Ok(None),
    }
}

impl SystemZone {
    /// Reads the zone, once. The files of all zones are read only where its own is not found.
    pub fn new<R>(alloc: Global, rt: &R) -> Result<Self, NoMemory>
    where
        R: Env + Files + AllocGlobal + Clone + Drop,
    {
        let mut zone = SystemZone {
            named: found(SystemTimeZone::read(rt))?,
            database: TimeZoneDatabase::new(alloc),
        };
        if zone.named.is_some() && zone.time_zone()?.is_none() {
            zone.database = TimeZoneDatabase::from_env(rt).or(Err(NoMemory))?;
        }
        Ok(zone)
    }

    /// The zone, if the system tells one.
    fn time_zone(&self) -> Result<Option<TimeZone<'_>>, NoMemory> {
        match &self.named {
            Some(named) => found(named.time_zone(&self.database)),
            None => Ok(None),
        }
    }
}

/// The clock of the system. It gives the civil moment of a zone, so it goes back where the zone's
/// clocks do, and where the system's time is set back. An error of the system, and a moment off the
/// years 1 to 9999, are failures and counted. The count is of 64 bits and stands still at its end.
#[derive(Drop)]
pub struct SystemClock<'a, R: time::Clock> {
    rt: &'a R,
    zone: TimeZone<'a>,
    faults: u64,
}

impl<'a, R: time::Clock> SystemClock<'a, R> {
    /// The clock of this handle in this zone. To look up the zone's name takes memory.
    pub fn new(rt: &'a R, zone: &'a SystemZone) -> Result<Self, NoMemory>
        ensures { IfOk result (λ clock. ⟦<SystemClock<'a, R> as Clock>⟧.state clock
            ≡ record { moments = None; faults = 0 }) }
    {
        Ok(SystemClock {
            rt,
            zone: zone.time_zone()?.unwrap_or(TimeZone::UTC),
            faults: 0,
        })
    }

    /// What the clock shows, if the system tells it and the years have it.
    fn read(&self) -> Option<Moment> {
        let now = Timestamp::now(self.rt).ok()?;
        let offset = self.zone.to_offset(now);
        moment_at(now.as_second(), offset.seconds())
    }
}

/// What clocks that are so many seconds ahead of UTC show at so many seconds after
/// 1970-01-01T00:00:00 UTC. None exactly where that is off the years 1 to 9999.
fn moment_at(second: i64, ahead: i32) -> Option<Moment>
    ensures { MatchOption result (IsOffYears (shown_at second ahead))
        (λ moment. pos moment.seconds ≡ shown_at second ahead) }
{
    let civil = second.checked_add(ahead as i64)?;
    let seconds = u64::try_from(civil.checked_add(SECONDS_BEFORE_1970)?).ok()?;
    if seconds < SECONDS_OF_ALL_YEARS {
        Some(Moment { seconds })
    } else {
        None
    }
}

impl<'a, R: time::Clock> Clock for SystemClock<'a, R> {
    ghost state = { λ c. record { moments = None; faults = c.faults } };

    fn now(&mut self) -> Result<Moment, Failed> {
        match self.read() {
            Some(moment) => Ok(moment),
            None => {
                self.faults = self.faults.saturating_add(1);
                Err(Failed)
            }
        }
    }
}
