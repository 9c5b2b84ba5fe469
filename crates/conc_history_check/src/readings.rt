ghost use Rattle.std.specs.Prelude.{◌≡◌, List, slice_get};
ghost use Rattle.std.specs.List.{filter};
ghost use Rattle.conc_types.specs.declared.event.Event.{Event};
ghost use Rattle.conc_base_law.specs.Readings as readings_spec;
ghost use Rattle.conc_base_law.specs.State as state_spec;
ghost use Rattle.conc_history_check.specs.Findings.{HasTaken};

use crate::findings::Findings;
use conc_event_decisions::is_not_earlier;
use conc_types::{Moment, Plan, Reading, Readings};

// The reading with this index among those that are not earlier than the moment.
fn reading_from(readings: &[Reading], earlier: Option<Moment>, index: usize) -> Option<Reading>
    ensures { result ≡ slice_get (filter (λ q. state_spec.is_not_earlier earlier q.moment)
        readings.now) index }
{
    let mut left = index;
    for q in readings {
        if is_not_earlier(earlier, q.moment) {
            if left == 0 {
                return Some(*q);
            }
            left -= 1;
        }
    }
    None
}

/// The next reading of the last life, if one is left.
#[tactic(auto, unfolding(conc_base_law::specs::Readings::next_reading, conc_base_law::specs::Readings::life_readings))]
pub(crate) fn next_reading(
    _plan: &Plan,
    readings: &Readings,
    findings: &Findings,
) -> Option<Reading>
    ensures { (past : List Event) → HasTaken _plan.now past findings.now
        → result ≡ readings_spec.next_reading readings.now.list past }
{
    reading_from(readings.list.as_slice(), findings.earlier, findings.ticks)
}
