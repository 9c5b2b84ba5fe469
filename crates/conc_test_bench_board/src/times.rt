use crate::plans::REQUESTS;
use crate::workers::Step;
use std::fmt::{self, Display, Formatter};
use std::time::{Clock, Duration, Instant};

/// What the calls of each kind took in all.
#[derive(Clone, Copy, Debug)]
pub(crate) struct Times {
    pub(crate) claims: Duration,
    pub(crate) polls: Duration,
    pub(crate) posts: Duration,
    pub(crate) collects: Duration,
}

impl Times {
    pub(crate) fn new() -> Self {
        Times {
            claims: Duration::ZERO,
            polls: Duration::ZERO,
            posts: Duration::ZERO,
            collects: Duration::ZERO,
        }
    }

    /// Adds what the steps of one kind took.
    pub(crate) fn add(&mut self, step: Step, took: Duration) {
        match step {
            Step::Claim => self.claims = self.claims.saturating_add(took),
            Step::Poll => self.polls = self.polls.saturating_add(took),
            Step::Post => self.posts = self.posts.saturating_add(took),
        }
    }

    /// Both together.
    pub(crate) fn with(self, more: Times) -> Self {
        Times {
            claims: self.claims.saturating_add(more.claims),
            polls: self.polls.saturating_add(more.polls),
            posts: self.posts.saturating_add(more.posts),
            collects: self.collects.saturating_add(more.collects),
        }
    }
}

// Writes the nanoseconds of one call, where there was one for each request.
fn write_each<W: fmt::Write>(f: &mut Formatter<W>, total: Duration) -> fmt::Result {
    let tenths = total.as_nanos() / (REQUESTS as u128 / 10);
    write!(f, "{}.{}", tenths / 10, tenths % 10)
}

impl Display for Times {
    fn fmt<W: fmt::Write>(&self, f: &mut Formatter<W>) -> fmt::Result {
        write_each(f, self.claims)?;
        f.write_str(" ")?;
        write_each(f, self.polls)?;
        f.write_str(" ")?;
        write_each(f, self.posts)?;
        f.write_str(" ")?;
        write_each(f, self.collects)
    }
}

/// Adds what passed since then. False where the clock cannot be read.
pub(crate) fn add_since<R: Clock>(rt: &R, start: Instant, total: &mut Duration) -> bool {
    match start.elapsed(rt) {
        Ok(passed) => {
            *total = total.saturating_add(passed);
            true
        }
        Err(_) => false,
    }
}
