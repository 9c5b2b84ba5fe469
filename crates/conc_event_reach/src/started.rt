ghost use Rattle.std.specs.Prelude.{◌≤◌, length, List};
ghost use Rattle.conc_types.specs.declared.facts.Facts.{Facts};
ghost use Rattle.conc_event_effects.specs.Advance.{all_after};
ghost use Rattle.conc_event_reach.specs.Spans.{AreSpans};
ghost use Rattle.conc_event_reach.specs.Started.{AreStartedWithin, LeavesFacts};

use crate::span::Span;
use crate::spans::{Spans, span_of_request};
use conc_types::{Event, Plan};

impl Spans {
    /// Where the requests stand whose facts the event can change. A resume changes those of the requests
    /// that were started in this life, which stand within a span.
    pub fn reach_in_life(&self, plan: &Plan, started: Span, e: Event) -> Span
        ensures leaves { (facts : List Facts) → AreSpans plan.now self.now
            → AreStartedWithin plan.now facts started → LeavesFacts plan.now e facts result }
        ensures inside { AreSpans plan.now self.now → started.to ≤ length plan.now.requests
            → result.to ≤ length plan.now.requests }
    {
        match e {
            Event::Resume => started,
            _ => self.reach(plan, e),
        }
    }
}

/// Where the requests stand that were started in this life, after one more event. Where the kind of the
/// event is known, the other kinds cost nothing.
#[inline(always)]
pub fn started_after(plan: &Plan, started: Span, e: Event) -> Span
    ensures { (named : Facts) (facts : List Facts) → AreStartedWithin plan.now facts started
        → AreStartedWithin plan.now (all_after plan.now named e plan.now.requests facts) result }
{
    match e {
        Event::Started { request, .. } => started.cover(span_of_request(plan, request)),
        Event::Resume => Span::NONE,
        _ => started,
    }
}
