ghost use Rattle.std.specs.Prelude.{◌≡◌};
ghost use Rattle.std.specs.Option.{option_and_then, option_copied};
ghost use Rattle.conc_event_queue.specs.Least.{least};
ghost use Rattle.conc_event_queue.specs.Turns.{request_numbered};
ghost use Rattle.conc_machine_steps.specs.Slots.{HasSlot, refreshed};

use conc_event_queue::Queue;
use conc_types::{Plan, Req};

/// Writes the slot of a request: its number where it passes, or none.
#[tactic(auto, unfolding(crate::specs::Slots::refreshed))]
pub(crate) fn refresh(slots: &mut Queue, r: &Req, passes: bool)
    requires { HasSlot slots.old r.now }
    ensures { slots.new ≡ refreshed slots.old r.now passes }
{
    let number = r.number.number;
    let key = if passes { Some(number as u64) } else { None };
    slots.put(number as usize - 1, key);
}

/// The request of the plan that has the least of the numbers.
#[tactic(auto, unfolding(conc_event_queue::specs::Turns::request_numbered, conc_types::specs::Plans::request))]
pub(crate) fn least_request<'a>(slots: &Queue, plan: &'a Plan) -> Option<&'a Req>
    ensures { option_copied result ≡ option_and_then (request_numbered plan.now) (least slots.now) }
{
    match slots.least() {
        Some(0) | None => None,
        Some(number) => plan.requests.as_slice().get(number as usize - 1),
    }
}
