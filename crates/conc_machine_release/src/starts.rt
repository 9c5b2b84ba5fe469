ghost use Rattle.std.specs.Prelude.{◌≡◌};
ghost use Rattle.conc_machine_release.specs.Starts as spec;
ghost use Rattle.conc_machine_release.specs.Starts.{is_in_window, window_at, next_from};

use conc_types::{Moment, Plan};

/// Seconds from a moment on, and before another one, between which no start of a request comes.
#[derive(Clone, Copy, Debug, PartialEq, Eq)]
pub(crate) struct StartWindow {
    pub(crate) since: u64,
    pub(crate) next: u64,
}

// The earlier of two starts, where this one is after the moment.
fn earlier(now: u64, best: u64, start: u64) -> u64
    ensures { result ≡ spec.earlier now best start }
{
    if now < start && start < best {
        start
    } else {
        best
    }
}

// The earliest start after the moment, or the greatest number.
fn next_start(plan: &Plan, now: u64) -> u64
    ensures { result ≡ next_from now 18446744073709551615 plan.now.requests }
{
    let mut best = u64::MAX;
    for r in plan.requests.as_slice() {
        best = earlier(now, best, r.start.seconds);
    }
    best
}

impl StartWindow {
    /// No moment at all.
    pub(crate) const NONE: StartWindow = StartWindow { since: 0, next: 0 };

    /// Those that begin with this moment.
    pub(crate) fn at(plan: &Plan, time: Option<Moment>) -> StartWindow
        ensures { result ≡ window_at plan.now time }
    {
        match time {
            Some(t) => StartWindow {
                since: t.seconds,
                next: next_start(plan, t.seconds),
            },
            None => StartWindow::NONE,
        }
    }

    /// Whether the moment is one of these.
    pub(crate) fn contains(self, time: Option<Moment>) -> bool
        ensures { result ≡ is_in_window self time }
    {
        match time {
            Some(t) => self.since <= t.seconds && t.seconds < self.next,
            None => false,
        }
    }
}
