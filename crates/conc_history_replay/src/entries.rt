ghost use Rattle.std.specs.Prelude.{◌≡◌, ◌+◌, ◌<◌, ◌^◌, ◌==◌, ◌≤◌, IfOk, IfSome, IsTrue, Some, length, slice_get, true, ℕ};
ghost use Rattle.conc_types.specs.declared.plan.Req.{Req};
ghost use Rattle.conc_event_reach.specs.Spans.{AreSpans, is_within};
ghost use Rattle.conc_history_replay.specs.Entries.{IsEntry};

use crate::changes::acts;
use conc_event_effects::act;
use conc_event_reach::{Span, Spans};
use conc_types::{Event, NoMemory, Plan, Seq, numbered};
use std::alloc::Global;

/// What the commands of a plan enter, where they do no more. A history has mostly such commands, and one
/// that is read often looks here in place of the plan.
#[derive(Drop)]
pub struct Entries {
    // For each command, by its number, where the requests stand that it enters. It is None where the
    // command does more, or where others stand among them.
    spans: Seq<Option<Span>>,
}

// Whether the command with this number enters all requests of the span.
fn enters_all(plan: &Plan, number: u32, span: Span) -> bool
    requires { span.to ≤ length plan.now.requests }
    ensures { (i : ℕ) (r : Req) → IsTrue result → slice_get plan.now.requests i ≡ Some r
        → IsTrue (is_within i span) → (number == r.command) ≡ true }
{
    for i in span.from..span.to {
        if plan.requests.as_slice()[i].command != number {
            return false;
        }
    }
    true
}

// Where the requests stand that a command enters, if it does no more and they stand alone.
fn entry_of(plan: &Plan, spans: &Spans, number: u32) -> Option<Span>
    requires { AreSpans plan.now spans.now }
    ensures { IfSome result (IsEntry plan.now number) }
{
    if acts(act(plan, Event::Command { number })) {
        return None;
    }
    let span = spans.span_of_command(number);
    if !enters_all(plan, number, span) {
        return None;
    }
    Some(span)
}

// The same of the command that stands behind so many others.
fn entry_after(plan: &Plan, spans: &Spans, before: usize) -> Option<Span>
    requires spans { AreSpans plan.now spans.now }
    requires few { before + 1 < 2 ^ 64 }
    ensures { IfSome result (IsEntry plan.now (before + 1)) }
{
    match u32::try_from(before + 1) {
        Ok(number) => entry_of(plan, spans, number),
        Err(_) => None,
    }
}

impl Entries {
    ghost use Rattle.conc_history_replay.specs.Entries.{AreEntries};

    /// What the commands of the plan enter.
    pub fn new(alloc: Global, plan: &Plan, spans: &Spans) -> Result<Entries, NoMemory>
        requires { AreSpans plan.now spans.now }
        ensures { IfOk result (AreEntries plan.now) }
    {
        let mut all = Vec::with_capacity(alloc, plan.script.commands.len())?;
        for i in 0..plan.script.commands.len() {
            all.push(entry_after(plan, spans, i))?;
        }
        Ok(Entries {
            spans: Seq::from_vec(all),
        })
    }

    /// Where the requests stand that a command enters, if it does no more and they stand alone.
    #[inline(always)]
    pub(crate) fn span(&self, _plan: &Plan, number: u32) -> Option<Span>
        requires { AreEntries _plan.now self.now }
        ensures { IfSome result (IsEntry _plan.now number) }
    {
        numbered(self.spans.as_slice(), number).copied().flatten()
    }
}
