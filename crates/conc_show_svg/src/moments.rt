//! The moments of events.
ghost use Rattle.std.specs.Prelude.{◌≡◌, ◌++◌, None, IfOk, OnOk};
ghost use Rattle.conc_show_svg.specs.Moments as spec;
ghost use Rattle.conc_show_svg.specs.Moments.{moment_word, moments_from};

use conc_show_model::put_bytes;
use conc_time::put_moment;
use conc_types::{Event, Moment, NoMemory};
use std::alloc::Global;

// The moment of an event, behind one with this moment.
fn moment_after(before: Option<Moment>, event: &Event) -> Option<Moment>
    ensures { result ≡ spec.moment_after before event.now }
{
    match *event {
        Event::Tick { moment } => Some(moment),
        _ => before,
    }
}

/// The moment of each event: that of the last reading up to it.
pub(crate) fn moments_of(alloc: Global, events: &[Event]) -> Result<Vec<Option<Moment>>, NoMemory>
    ensures { IfOk result (λ moments. moments.items ≡ moments_from None events.now) }
{
    let mut moments = Vec::new(alloc);
    let mut last = None;
    for event in events {
        last = moment_after(last, event);
        moments.push(last)?;
    }
    Ok(moments)
}

/// Appends the moment of the event with this index.
#[tactic(auto, unfolding(crate::specs::Moments::moment_word))]
pub(crate) fn put_moment_at(
    out: &mut Vec<u8>,
    moments: &[Option<Moment>],
    index: usize,
) -> Result<(), NoMemory>
    ensures { OnOk result (out.new.items ≡ out.old.items ++ moment_word moments.now index) }
{
    match moments.get(index) {
        Some(Some(moment)) => put_moment(out, *moment),
        _ => put_bytes(out, b"the beginning"),
    }
}
