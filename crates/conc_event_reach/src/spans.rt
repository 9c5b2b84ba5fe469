ghost use Rattle.std.specs.Prelude.{◌≡◌, ◌+◌, ◌<◌, ◌≤◌, ◌^◌, IfOk, length, replicate};
ghost use Rattle.conc_base_law.specs.Kinds.{act_of};
ghost use Rattle.conc_event_reach.specs.Reach.{IsAround, is_acted_on, is_of_set, is_request};
ghost use Rattle.conc_event_reach.specs.Spans.{AreMembers, AreSpans, LeavesOthers, span_of_command, span_of_members};
ghost use Rattle.conc_event_reach.specs.Widened.{IsWidened, IsWidenedBy};

use crate::span::Span;
use conc_event_effects::act;
use conc_types::{Act, Event, NoMemory, Plan, Req, RequestId, Seq, numbered};
use std::alloc::Global;

/// Where the requests of each command and the members of each set stand in a plan.
#[derive(Drop)]
pub struct Spans {
    // Those of each command, by its number.
    commands: Seq<Span>,
    // Those of the members of each request that is a set, by its number.
    members: Seq<Span>,
    // All requests.
    whole: Span,
}

fn no_spans(alloc: Global, count: usize) -> Result<Seq<Span>, NoMemory>
    ensures { IfOk result (λ spans. spans ≡ replicate count (record { from = 0; to = 0 })) }
{
    Ok(Seq::from_vec(vec![in alloc; Span::NONE; count]?))
}

// Takes an index into the span of a number, if there is one.
fn widen(spans: &mut Seq<Span>, number: u32, index: usize)
    requires { index + 1 < 2 ^ 64 }
    ensures { IsWidened spans.old spans.new number index }
{
    if let Some(span) = numbered(spans.as_slice(), number).copied() {
        spans.set(number as usize - 1, span.cover(Span::of(index)));
    }
}

// Takes an index into the span of a set's members, if there is a set.
fn widen_set(members: &mut Seq<Span>, set: Option<RequestId>, index: usize)
    requires { index + 1 < 2 ^ 64 }
    ensures { IsWidenedBy members.old members.new set index }
{
    if let Some(id) = set {
        widen(members, id.number, index);
    }
}

/// Where the request with this number stands.
pub(crate) fn span_of_request(plan: &Plan, id: RequestId) -> Span
    ensures { IsAround plan.now (is_request id) result }
{
    let number = id.number as usize;
    if number == 0 || number > plan.requests.len() {
        return Span::NONE;
    }
    Span::of(number - 1)
}

impl Spans {
    /// The spans of the plan's requests.
    pub fn new(alloc: Global, plan: &Plan) -> Result<Spans, NoMemory>
        ensures { IfOk result (λ spans. AreSpans plan.now spans) }
    {
        let requests = plan.requests.as_slice();
        let mut commands = no_spans(alloc, plan.script.commands.len())?;
        let mut members = no_spans(alloc, requests.len())?;
        for (i, r) in requests.iter().enumerate() {
            widen(&mut commands, r.command, i);
            widen_set(&mut members, r.parent, i);
        }
        Ok(Spans {
            commands,
            members,
            whole: Span {
                from: 0,
                to: requests.len(),
            },
        })
    }

    /// Where the members of a set stand.
    #[tactic(auto, unfolding(crate::specs::Spans::span_of_members))]
    pub fn span_of_members(&self, set: RequestId) -> Span
        ensures { result ≡ span_of_members self.now set }
    {
        numbered(self.members.as_slice(), set.number)
            .copied()
            .unwrap_or(self.whole)
    }

    /// Requests among which all members of a set stand, in order.
    pub fn members<'a>(&self, plan: &'a Plan, set: RequestId) -> &'a [Req]
        ensures { AreSpans plan.now self.now → AreMembers plan.now set result.now }
    {
        let requests = plan.requests.as_slice();
        let span = self.span_of_members(set);
        match requests.get(span.from..span.to) {
            Some(part) => part,
            None => requests,
        }
    }

    /// Where the requests stand that a command enters.
    #[tactic(auto, unfolding(crate::specs::Spans::span_of_command))]
    pub fn span_of_command(&self, command: u32) -> Span
        ensures { result ≡ span_of_command self.now command }
    {
        numbered(self.commands.as_slice(), command)
            .copied()
            .unwrap_or(self.whole)
    }

    // Where a set and its members stand.
    fn span_of_set(&self, plan: &Plan, set: RequestId) -> Span
        ensures { AreSpans plan.now self.now → IsAround plan.now (is_of_set set) result }
    {
        span_of_request(plan, set).cover(self.span_of_members(set))
    }

    // Where the requests stand to which the command of an event does something.
    #[tactic(auto, unfolding(crate::specs::Reach::is_acted_on))]
    fn span_of_act(&self, plan: &Plan, e: Event) -> Span
        ensures { AreSpans plan.now self.now
            → IsAround plan.now (is_acted_on (act_of plan.now e)) result }
    {
        match act(plan, e) {
            Some(Act::Hold { request } | Act::Unhold { request } | Act::Terminate { request }) => {
                span_of_request(plan, *request)
            }
            Some(Act::Cancel { request }) => self.span_of_set(plan, *request),
            _ => Span::NONE,
        }
    }

    // Where the requests stand whose facts the event can change.
    pub(crate) fn reach(&self, plan: &Plan, e: Event) -> Span
        ensures leaves { AreSpans plan.now self.now → LeavesOthers plan.now e result }
        ensures inside { AreSpans plan.now self.now → result.to ≤ length plan.now.requests }
    {
        match e {
            Event::Tick { .. } => Span::NONE,
            Event::Command { number } => self
                .span_of_command(number)
                .cover(self.span_of_act(plan, e)),
            Event::OpenSet { set } | Event::Stage { set, .. } => span_of_request(plan, set),
            Event::CloseSet { set, .. } => self.span_of_set(plan, set),
            Event::LetOut { request }
            | Event::Started { request, .. }
            | Event::Ended { request, .. }
            | Event::Interrupt { request } => span_of_request(plan, request),
            Event::Resume => self.whole,
        }
    }
}
