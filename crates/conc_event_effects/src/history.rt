ghost use Rattle.std.specs.Prelude.{◌≡◌};
ghost use Rattle.conc_event_effects.specs.Advance as spec;
ghost use Rattle.conc_event_effects.specs.Advance.{done_after};

use crate::kinds::{act, extent_length};
use conc_types::{Act, Event, Facts, Plan, RequestId, Seq, numbered};

fn named_by(plan: &Plan, e: Event) -> Option<RequestId>
    ensures { result ≡ spec.named_by plan.now e }
{
    match e {
        Event::CloseSet { set, .. } => Some(set),
        Event::Command { .. } => match act(plan, e) {
            Some(Act::Cancel { request }) => Some(*request),
            _ => None,
        },
        _ => None,
    }
}

/// The facts of the request that a cancel or a close names, and none for any other event.
#[tactic(auto, unfolding(crate::specs::Advance::named_facts))]
pub fn named_facts(plan: &Plan, facts: &[Facts], e: Event) -> Facts
    ensures { result ≡ spec.named_facts facts.now (spec.named_by plan.now e) }
{
    match named_by(plan, e) {
        Some(id) => numbered(facts, id.number).copied().unwrap_or(Facts::NONE),
        None => Facts::NONE,
    }
}

/// Marks the command of an event as done. It takes no memory.
pub fn mark_done(done: &mut Seq<bool>, e: Event)
    ensures { done.new ≡ done_after done.old e }
{
    if let Event::Command { number } = e {
        if number > 0 && number as usize <= done.len() {
            done.set(number as usize - 1, true);
        }
    }
}

/// How many bytes of the spool the extents take after one more event, where 64 bits hold it.
pub fn used_after(used: Option<u64>, e: Event) -> Option<u64>
    ensures { result ≡ spec.used_after used e }
{
    match used {
        Some(n) => n.checked_add(u64::from(extent_length(e))),
        None => None,
    }
}
