use super::expect::same;
use conc_edge_clock::{Clock, MemClock, SystemClock, SystemZone};
use conc_outside::Failed;
use conc_types::Moment;
use std::io;
use std::test::Fail;
use std::time::{self, Duration};

#[test]
fn a_clock_in_memory_gives_its_moments(rt: HostRuntime) -> Result<(), Fail> {
    let alloc = rt.alloc();
    let mut moments = vec![in alloc; Moment { seconds: 7 }]?;
    moments.push(Moment { seconds: 5 })?;
    let mut clock = MemClock::new(moments);
    same(&rt, clock.now(), Ok(Moment { seconds: 7 }));
    same(&rt, clock.now(), Ok(Moment { seconds: 5 }));
    same(&rt, clock.now(), Err(Failed));
    Ok(())
}

#[test]
fn the_clock_of_the_system_goes_on(rt: HostRuntime) -> Result<(), Fail> {
    let zone = SystemZone::new(rt.alloc(), &rt)?;
    let mut clock = SystemClock::new(&rt, &zone)?;
    let first = clock.now()?;
    let second = clock.now()?;
    // 2020-01-01T00:00:00.
    assert!(rt; first.seconds > 63_713_433_600);
    assert!(rt; second.seconds >= first.seconds);
    Ok(())
}

/// A handle whose time is in the year 10000.
struct Late;

impl time::Clock for Late {
    fn monotonic(&self) -> io::Result<Duration> {
        Ok(Duration::ZERO)
    }

    fn since_1970(&self) -> io::Result<Duration> {
        Ok(Duration::from_secs(253_402_387_200))
    }
}

#[test]
fn the_clock_of_the_system_ends_with_the_years(rt: HostRuntime) -> Result<(), Fail> {
    let zone = SystemZone::new(rt.alloc(), &rt)?;
    let mut clock = SystemClock::new(&Late, &zone)?;
    same(&rt, clock.now(), Err(Failed));
    Ok(())
}
