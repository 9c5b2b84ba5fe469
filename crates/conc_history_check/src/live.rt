ghost use Rattle.std.specs.Prelude.{◌≡◌};
ghost use Rattle.std.specs.Option.{option_and_then, option_copied};
ghost use Rattle.conc_event_queue.specs.Least.{least};
ghost use Rattle.conc_event_queue.specs.Turns as turns_spec;
ghost use Rattle.conc_history_check.specs.Live as spec;

use conc_event_queue::Queue;
use conc_types::{Plan, Req};

/// The request of the plan that has this number.
#[tactic(auto, unfolding(conc_event_queue::specs::Turns::request_numbered, conc_types::specs::Plans::request))]
pub(crate) fn request_numbered(plan: &Plan, number: u64) -> Option<&Req>
    ensures { option_copied result ≡ turns_spec.request_numbered plan.now number }
{
    if number == 0 {
        return None;
    }
    plan.requests.as_slice().get(number as usize - 1)
}

/// The request of the plan that has the least of the numbers.
pub(crate) fn least_request<'a>(plan: &'a Plan, numbers: &Queue) -> Option<&'a Req>
    ensures { option_copied result
        ≡ option_and_then (turns_spec.request_numbered plan.now) (least numbers.now) }
{
    match numbers.least() {
        Some(number) => request_numbered(plan, number),
        None => None,
    }
}

/// The number of the request that is noted for a class.
#[tactic(auto, unfolding(crate::specs::Live::noted))]
pub(crate) fn noted(live: &Vec<Queue>, class: u32) -> Option<u64>
    ensures { result ≡ spec.noted live.now.items class }
{
    match live.get(class as usize) {
        Some(numbers) => numbers.least(),
        None => None,
    }
}
