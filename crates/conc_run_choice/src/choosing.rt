ghost use Rattle.std.specs.Prelude.{◌≡◌, ◌<◌, ◌≤◌, ◌^◌, IfOk, IsSome, IsSomeAnd, List, None, OnErr, Some, length};
ghost use Rattle.std.specs.List.{find};
ghost use Rattle.std.specs.Option.{ForSome, option_copied, option_map};
ghost use Rattle.conc_types.specs.declared.event.Event.{Event};
ghost use Rattle.conc_types.specs.declared.event.Event.TheVariants as event;
ghost use Rattle.conc_types.specs.declared.event.Outcome.TheVariants as outcome;
ghost use Rattle.conc_types.specs.declared.limits.TheConstants.{MOST_REPORT_BYTES};
ghost use Rattle.conc_types.specs.declared.script.Reading.{Reading};
ghost use Rattle.conc_base_law.specs.Alone as alone_spec;
ghost use Rattle.conc_base_law.specs.Alone.{end_with, next_alone};
ghost use Rattle.conc_base_law.specs.Next.{runs_somewhere};
ghost use Rattle.conc_base_law.specs.State.{state};
ghost use Rattle.conc_machine.specs.StandsFor.{plan_of, readings_of, StandsFor};
ghost use Rattle.conc_types.specs.Plans.{request};
ghost use Rattle.conc_run_choice.specs.Choices as spec;
ghost use Rattle.conc_run_choice.specs.Choices.{event_of, HasItsText, HasNoText, IsChosenBy, IsEndWithReport, KeepsItsText};
ghost use Rattle.conc_reports.specs.Reports.{as_report};

use conc_machine::Machine;
use conc_reports::{Made, report};
use conc_rules::program_of;
use conc_types::{Bytes, Event, Extent, NoMemory, Outcome, Plan, Req};
use std::alloc::Global;

/// An event that comes next, and, where it is the end of a request with its report, the report's text.
#[derive(Drop)]
pub struct Next {
    pub event: Event,
    pub text: Option<Bytes>,
}

// The report of a request of a program.
#[tactic(auto, unfolding(conc_base_law::specs::Alone::report_of))]
fn report_of(alloc: Global, plan: &Plan, r: &Req) -> Result<Option<Made>, NoMemory>
    ensures made { IfOk result (λ made. option_map as_report made
        ≡ alone_spec.report_of plan.now r.now) }
    ensures short { IfOk result (λ made. ForSome made (λ m. length m.text ≤ MOST_REPORT_BYTES)) }
    ensures memory { OnErr result (IsSome (alone_spec.report_of plan.now r.now)) }
{
    match program_of(plan, r) {
        None => Ok(None),
        Some(program) => match plan
            .setup
            .table_named(plan.tables.as_slice(), &program.job.table)
        {
            None => Ok(None),
            Some(table) => Ok(Some(report(alloc, &program.job, r.argument.as_slice(), table)?)),
        },
    }
}

/// The end of a request that was terminated. It has no text.
pub fn terminated_end(r: &Req) -> Next
    ensures event { result.event ≡ event.Ended r.now.number outcome.Terminated None }
    ensures text { result.text ≡ None }
{
    Next {
        event: Event::Ended {
            request: r.number,
            outcome: Outcome::Terminated,
            extent: None,
        },
        text: None,
    }
}

/// The end of a request with this report, whose text comes behind those that the spool has, at this offset.
pub fn reported_end(r: &Req, made: Made, offset: u64) -> Next
    requires { length made.text < 2 ^ 32 }
    ensures event { result.event ≡ end_with r.now (as_report made) offset }
    ensures text { result.text ≡ Some made.text }
{
    Next {
        event: Event::Ended {
            request: r.number,
            outcome: made.outcome,
            extent: Some(Extent {
                offset,
                length: made.text.len() as u32,
            }),
        },
        text: Some(made.text),
    }
}

// The end of a running request, which has to stop or not, where the extents take so many bytes.
fn end_by(
    alloc: Global,
    plan: &Plan,
    r: &Req,
    stopping: bool,
    used: Option<u64>,
) -> Result<Option<Next>, NoMemory>
    ensures event { IfOk result (λ next. option_map event_of next
        ≡ spec.end_by plan.now r.now stopping used) }
    ensures text { request plan.now r.now.number ≡ Some r.now
        → IfOk result (λ next. ForSome next (λ n. HasItsText plan.now n.event n.text)) }
    ensures memory { OnErr result
        (IsSomeAnd (spec.end_by plan.now r.now stopping used) IsEndWithReport) }
{
    if stopping {
        return Ok(Some(terminated_end(r)));
    }
    let Some(offset) = used else {
        return Ok(None);
    };
    match report_of(alloc, plan, r)? {
        Some(made) => Ok(Some(reported_end(r, made, offset))),
        None => Ok(None),
    }
}

// The request that runs, if one does.
fn running<'p>(machine: &Machine<'p>) -> Option<&'p Req>
    ensures { (past : List Event) → StandsFor machine.now past → option_copied result
        ≡ find (runs_somewhere (state (plan_of machine.now) past))
        (plan_of machine.now).requests }
{
    match machine.first_running() {
        Some(id) => machine.plan().request(id),
        None => None,
    }
}

// The end of the request that runs.
fn first_end(alloc: Global, machine: &Machine<'_>) -> Result<Option<Next>, NoMemory>
    ensures event { IfOk result (λ next. (past : List Event) → StandsFor machine.now past
        → option_map event_of next
        ≡ alone_spec.first_end (plan_of machine.now) (state (plan_of machine.now) past)) }
    ensures text { IfOk result (λ next. KeepsItsText machine.now next) }
    ensures memory { OnErr result ((past : List Event) → StandsFor machine.now past
        → IsSomeAnd (alone_spec.first_end (plan_of machine.now)
        (state (plan_of machine.now) past)) IsEndWithReport) }
{
    let plan = machine.plan();
    match running(machine) {
        Some(r) => {
            let stopping = machine.must_stop(r.number);
            end_by(alloc, plan, r, stopping, machine.used())
        }
        None => Ok(None),
    }
}

// The start that comes first, if one may come.
fn first_start(machine: &Machine<'_>) -> Option<Event>
    ensures event { (past : List Event) → StandsFor machine.now past → result
        ≡ alone_spec.first_start (plan_of machine.now) (state (plan_of machine.now) past) }
    ensures text { HasNoText machine.now result }
{
    match machine.first_start() {
        Some((request, place)) => Some(Event::Started { request, place }),
        None => None,
    }
}

// The tick of the next reading, if one is left and may be taken.
fn next_tick(machine: &Machine<'_>) -> Option<Event>
    ensures event { IsChosenBy alone_spec.next_tick machine.now result }
    ensures text { HasNoText machine.now result }
{
    match machine.next_reading() {
        Some(reading) if machine.may_tick() => Some(Event::Tick {
            moment: reading.moment,
        }),
        _ => None,
    }
}

// The start or the tick that comes next where nothing is forced and nothing runs.
fn start_or_tick(machine: &Machine<'_>) -> Option<Event>
    ensures event { IsChosenBy spec.start_or_tick machine.now result }
    ensures text { HasNoText machine.now result }
{
    match first_start(machine) {
        Some(e) => Some(e),
        None => next_tick(machine),
    }
}

// An event that leaves no text.
fn without_text(event: Event) -> Next
    ensures event { result.event ≡ event }
    ensures text { result.text ≡ None }
{
    Next { event, text: None }
}

/// The one event that comes next in a run without workers, if one does: the forced one, else the end
/// of the request that runs, else the first start, else the next tick. The machine took readings, and
/// the answer holds for each list that it stands for. It takes memory for a report alone, and lacks it
/// only where an end with a report comes next.
#[tactic(auto, unfolding(conc_base_law::specs::Alone::choice, conc_base_law::specs::Alone::next_alone))]
pub fn next_event(alloc: Global, machine: &Machine<'_>) -> Result<Option<Next>, NoMemory>
    ensures event { IfOk result (λ next. (readings : List Reading) (past : List Event)
        → readings_of machine.now ≡ Some readings → StandsFor machine.now past →
        option_map event_of next ≡ next_alone (plan_of machine.now) readings past) }
    ensures text { IfOk result (λ next. KeepsItsText machine.now next) }
    ensures memory { OnErr result ((readings : List Reading) (past : List Event)
        → readings_of machine.now ≡ Some readings → StandsFor machine.now past
        → IsSomeAnd (next_alone (plan_of machine.now) readings past) IsEndWithReport) }
{
    if let Some(e) = machine.forced() {
        return Ok(Some(without_text(e)));
    }
    match first_end(alloc, machine)? {
        Some(next) => Ok(Some(next)),
        None => match start_or_tick(machine) {
            Some(e) => Ok(Some(without_text(e))),
            None => Ok(None),
        },
    }
}
