ghost use Rattle.std.specs.Prelude.{◌≡◌, ◌+◌, ◌<◌, List, drop, length, reverse, take};
ghost use Rattle.std.specs.Option.{option_map};
ghost use Rattle.conc_types.specs.declared.event.Event.{Event};
ghost use Rattle.conc_base_law.specs.Readings as readings_spec;
ghost use Rattle.conc_history_check.specs.Findings.{AreFindings, HasTaken};
ghost use Rattle.conc_history_check.specs.Positions as positions_spec;
ghost use Rattle.conc_history_check.specs.Positions.{AreBeforeLastLife, known_before};
ghost use Rattle.conc_history_check.specs.Prepared.{IsPrepared};

use crate::findings::Findings;
use crate::judging::may_come;
use crate::position::Position;
use crate::prepared::Prepared;
use crate::readings::next_reading;
use conc_rules::is_resume;
use conc_types::{Event, Plan, Reading, Readings};

/// The readings, which are known in the last life alone.
#[derive(Clone, Copy)]
pub(crate) struct LastLife<'a> {
    pub readings: &'a Readings,
    /// How many events stand before it, with its resume.
    pub before: usize,
}

/// How many events stand before the last life, with its resume.
pub(crate) fn count_before(events: &[Event]) -> usize
    ensures { AreBeforeLastLife events.now result }
{
    let mut count = events.len();
    while count > 0 && !is_resume(events[count - 1]) {
        count -= 1;
    }
    count
}

// The next reading at an index, if one is left; none is known before the last life.
#[tactic(auto, unfolding(crate::specs::Positions::known_before))]
fn known_next(
    plan: &Plan,
    life: LastLife<'_>,
    findings: &Findings,
    _events: &[Event],
    i: usize,
) -> Option<Option<Reading>>
    requires within { i < length _events.now }
    requires life { AreBeforeLastLife _events.now life.before }
    ensures { (past : List Event) → HasTaken plan.now past findings.now
        → result ≡ option_map (λ known. readings_spec.next_reading known past)
        (known_before life.entry.readings.now.list (drop (i + 1) _events.now)) }
{
    if i + 1 < life.before {
        return None;
    }
    Some(next_reading(plan, life.readings, findings))
}

/// Whether the event at an index may follow those before it, which were read. The next reading is looked
/// for only where it is a tick.
pub(crate) fn is_lawful_at(
    plan: &Plan,
    prepared: &Prepared,
    life: LastLife<'_>,
    findings: &Findings,
    events: &[Event],
    i: usize,
) -> bool
    requires prepared { IsPrepared plan.now prepared.now }
    requires within { i < length events.now }
    requires life { AreBeforeLastLife events.now life.before }
    requires read { AreFindings plan.now prepared.now (reverse (take i events.now)) findings.now }
    ensures { result ≡ positions_spec.is_lawful_at plan.now life.entry.readings.now.list events.now (i + 1) }
{
    let e = events[i];
    let next = match e {
        Event::Tick { .. } => known_next(plan, life, findings, events, i),
        _ => None,
    };
    let position = Position {
        plan,
        prepared,
        state: &findings.state,
        marks: &findings.marks,
        active: findings.active,
        undone: findings.undone,
    };
    may_come(position, next, e)
}
