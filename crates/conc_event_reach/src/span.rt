ghost use Rattle.std.specs.Prelude.{◌≡◌, ◌+◌, ◌<◌, ◌^◌};
ghost use Rattle.conc_event_reach.specs.Reach.{IsCover};

use std::cmp::{max, min};

/// Indexes in a plan's list of requests: from the first one to before the last one.
#[derive(Clone, Copy, Debug, PartialEq, Eq)]
pub struct Span {
    pub from: usize,
    pub to: usize,
}

impl Span {
    /// No index.
    pub const NONE: Span = Span { from: 0, to: 0 };

    // The index alone.
    pub(crate) fn of(index: usize) -> Span
        requires { index + 1 < 2 ^ 64 }
        ensures { result ≡ record { from = index; to = index + 1 } }
    {
        Span {
            from: index,
            to: index + 1,
        }
    }

    /// One span with the indexes of both.
    pub fn cover(self, other: Span) -> Span
        ensures { IsCover self other result }
    {
        if self.from >= self.to {
            return other;
        }
        if other.from >= other.to {
            return self;
        }
        Span {
            from: min(self.from, other.from),
            to: max(self.to, other.to),
        }
    }
}
