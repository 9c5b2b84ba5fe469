ghost use Rattle.std.specs.Prelude.{◌≡◌, ◌≤◌, length};
ghost use Rattle.conc_event_classes.specs.Classes as classes_spec;
ghost use Rattle.conc_event_reach.specs.Spans.{AreSpans};
ghost use Rattle.conc_machine_release.specs.Forced as forced_spec;
ghost use Rattle.conc_machine_release.specs.Lets as lets_spec;

use crate::position::Position;
use conc_event_classes::Classes;
use conc_event_decisions::{facts_at, is_live};
use conc_rules::parent;
use conc_types::{Req, RequestId, State};

#[tactic(auto, unfolding(conc_event_classes::specs::Classes::are_rivals))]
fn are_rivals(classes: &Classes, a: u32, b: u32) -> bool
    ensures { result ≡ classes_spec.are_rivals classes.now a b }
{
    classes.rivals(a).iter().any(|x| *x == b)
}

#[tactic(auto, unfolding(crate::specs::Lets::is_live_rival))]
fn is_live_rival(classes: &Classes, state: &State, class: u32, q: &Req) -> bool
    ensures { result ≡ lets_spec.is_live_rival classes.now state.now class q.now }
{
    is_live(facts_at(state, q)) && are_rivals(classes, classes.class(q), class)
}

fn is_child(set: RequestId, q: &Req) -> bool
    ensures { result ≡ forced_spec.is_child set q.now }
{
    match q.parent {
        Some(parent) => set.number == parent.number,
        None => false,
    }
}

#[tactic(auto, unfolding(crate::specs::Forced::is_live_member))]
fn is_live_member(classes: &Classes, state: &State, class: u32, r: &Req, q: &Req) -> bool
    ensures { result ≡ forced_spec.is_live_member classes.now state.now class r.now q.now }
{
    is_live_rival(classes, state, class, q) && is_child(r.number, q)
}

#[tactic(auto, unfolding(crate::specs::Forced::is_live_outside))]
fn is_live_outside(classes: &Classes, state: &State, class: u32, r: &Req, q: &Req) -> bool
    ensures { result ≡ forced_spec.is_live_outside classes.now state.now class r.now q.now }
{
    is_live_rival(classes, state, class, q) && !is_child(r.number, q)
}

/// How many live members r has whose classes exclude a class.
#[tactic(auto, unfolding(crate::specs::Forced::live_members))]
pub(crate) fn live_members(position: Position<'_>, class: u32, r: &Req) -> usize
    requires { AreSpans position.plan.now position.spans.now }
    ensures exact { result ≡ forced_spec.live_members position.entry.plan.now
        position.entry.classes.now position.entry.state.now class r.now }
    ensures few { result ≤ length position.entry.plan.now.requests }
{
    let span = position.spans.span_of_members(r.number);
    let requests = position.plan.requests.as_slice();
    let mut count = 0;
    for i in span.from..span.to {
        if is_live_member(position.classes, position.state, class, r, &requests[i]) {
            count += 1;
        }
    }
    count
}

/// One where the parent of r, no member of r itself, is live and of a class that excludes a class.
#[tactic(auto, unfolding(crate::specs::Forced::live_parents))]
pub(crate) fn live_parents(position: Position<'_>, class: u32, r: &Req) -> usize
    ensures exact { result ≡ forced_spec.live_parents position.entry.plan.now
        position.entry.classes.now position.entry.state.now class r.now }
    ensures few { result ≤ 1 }
{
    match parent(position.plan, r) {
        Some(set) if is_live_outside(position.classes, position.state, class, r, set) => 1,
        _ => 0,
    }
}
