ghost use Rattle.std.specs.Prelude.{◌≡◌, ◌<◌, reverse};
ghost use Rattle.conc_base_law.specs.Kinds.{extent_length};
ghost use Rattle.conc_base_law.specs.State.{used};
ghost use Rattle.conc_run_open.specs.Extents.{counted, IsFirstBeyond};

use conc_types::Event;

// How many bytes the extent of an event has, if there is one.
fn extent_bytes(event: Event) -> u64
    ensures { result ≡ extent_length event }
{
    match event {
        Event::Ended {
            extent: Some(extent),
            ..
        } => extent.length as u64,
        _ => 0,
    }
}

/// How many bytes the extents of these events have, or the greatest number where they have more.
pub(crate) fn count_bytes(events: &[Event]) -> u64
    ensures { result ≡ counted events.now }
{
    let mut bytes: u64 = 0;
    for event in events {
        bytes = bytes.saturating_add(extent_bytes(*event));
    }
    bytes
}

/// The number of the first event, from 1, up to which the extents have more than so many bytes.
pub(crate) fn first_beyond(events: &[Event], len: u64) -> u64
    requires { len < used (reverse events.now) }
    ensures { IsFirstBeyond len events.now result }
{
    let mut left = len;
    for (place, event) in events.iter().enumerate() {
        match left.checked_sub(extent_bytes(*event)) {
            Some(less) => left = less,
            None => return place as u64 + 1,
        }
    }
    unreachable!()
}
