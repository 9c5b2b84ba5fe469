ghost use Rattle.std.specs.Prelude.{◌≡◌, ◌↔◌, ℕ, ◌≤◌, [], List, IfNone, IfOk, IsTrue, MatchOption, length, reverse, Err};
ghost use Rattle.conc_types.specs.declared.event.Event.{Event};
ghost use Rattle.conc_base_law.specs.Law.{Finished, Lawful};
ghost use Rattle.conc_types.specs.declared.error.CheckFail.TheVariants.{Unlawful as unlawful_at};
ghost use Rattle.conc_history_check.specs.Findings.{AreFindings};
ghost use Rattle.conc_history_check.specs.Positions.{AreLawfulTo, IsFirstBad};
ghost use Rattle.conc_history_check.specs.Prepared.{IsPrepared};

use crate::findings::Findings;
use crate::judging::is_at_rest;
use crate::position::Position;
use crate::positions::{LastLife, count_before, is_lawful_at};
use crate::prepared::Prepared;
use crate::readings::next_reading;
use conc_types::{CheckFail, Event, Plan, Readings};
use std::alloc::Global;

// The first position at which the event is not lawful, if there is one. All events before it are read.
fn first_bad(
    plan: &Plan,
    prepared: &Prepared,
    readings: &Readings,
    findings: &mut Findings,
    events: &[Event],
) -> Option<u64>
    requires prepared { IsPrepared plan.now prepared.now }
    requires none { AreFindings plan.now prepared.now [] findings.old }
    ensures first { MatchOption result
        (AreLawfulTo plan.now readings.now.list events.now (length events.now))
        (IsFirstBad plan.now readings.now.list events.now) }
    ensures read { IfNone result (AreFindings plan.now prepared.now (reverse events.now) findings.new) }
{
    let life = LastLife {
        readings,
        before: count_before(events),
    };
    for i in 0..events.len() {
        if !is_lawful_at(plan, prepared, life, findings, events, i) {
            return Some(i as u64 + 1);
        }
        findings.read(plan, prepared, &events[i]);
    }
    None
}

// Whether the history that was read is finished.
fn is_finished(
    plan: &Plan,
    prepared: &Prepared,
    readings: &Readings,
    findings: &Findings,
    events: &[Event],
) -> bool
    requires prepared { IsPrepared plan.now prepared.now }
    requires read { AreFindings plan.now prepared.now (reverse events.now) findings.now }
    ensures { IsTrue result ↔ Finished plan.now readings.now.list events.now }
{
    let position = Position {
        plan,
        prepared,
        state: &findings.state,
        marks: &findings.marks,
        active: findings.active,
        undone: findings.undone,
    };
    is_at_rest(position) && next_reading(plan, readings, findings).is_none()
}

/// Whether a history is finished, where it is lawful; else the first position, from 1, whose event may
/// not stand there. The events are read in one pass; for each of them those requests are looked at that it
/// can concern.
pub fn check(
    alloc: Global,
    plan: &Plan,
    readings: &Readings,
    events: &[Event],
) -> Result<bool, CheckFail>
    ensures lawful { IfOk result (λ finished. Lawful plan.now readings.now.list events.now) }
    ensures finished { IfOk result (λ finished. IsTrue finished
        ↔ Finished plan.now readings.now.list events.now) }
    ensures unlawful { (position : ℕ) → result ≡ Err (unlawful_at position)
        → IsFirstBad plan.now readings.now.list events.now position }
{
    let prepared = Prepared::new(alloc, plan)?;
    let mut findings = Findings::new(alloc, plan, &prepared)?;
    match first_bad(plan, &prepared, readings, &mut findings, events) {
        Some(position) => Err(CheckFail::Unlawful { position }),
        None => Ok(is_finished(plan, &prepared, readings, &findings, events)),
    }
}
