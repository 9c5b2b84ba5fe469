// The words of requests by their numbers, and what they hold.
ghost use Rattle.std.specs.Prelude.{◌≡◌, ◌≤◌, ◌<◌, ◌+◌, ◌%◌};
ghost use Rattle.conc_pool_seats.specs.Words as spec;

use conc_types::{PlaceId, RequestId};

pub(crate) const IDLE: u64 = 0;

pub(crate) const RELEASED: u64 = 1;

pub(crate) const DONE: u64 = 2;

// What lies between the words of one state and those of the next.
pub(crate) const STATE: u64 = 256;

pub(crate) fn request_word(r: RequestId) -> usize
    requires { 1 ≤ r.number }
    ensures { result ≡ spec.request_word r }
{
    r.number as usize - 1
}

pub(crate) fn claimed(p: PlaceId) -> u64
    ensures { result ≡ spec.claimed p }
{
    STATE + u64::from(p.index)
}

pub(crate) fn running(p: PlaceId) -> u64
    ensures { result ≡ spec.running p }
{
    2 * STATE + u64::from(p.index)
}

pub(crate) fn stopping(p: PlaceId) -> u64
    ensures { result ≡ spec.stopping p }
{
    3 * STATE + u64::from(p.index)
}

pub(crate) fn ended(p: PlaceId) -> u64
    ensures { result ≡ spec.ended p }
{
    4 * STATE + u64::from(p.index)
}

// The place that a word names.
pub(crate) fn place_named(word: u64) -> PlaceId
    ensures { result.index ≡ word % 256 }
{
    PlaceId {
        index: (word % STATE) as u32,
    }
}
