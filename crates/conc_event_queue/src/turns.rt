ghost use Rattle.std.specs.Prelude.{◌≡◌};
ghost use Rattle.std.specs.Option.{option_copied};
ghost use Rattle.conc_event_queue.specs.Turns as spec;

use conc_types::{Plan, Req, RequestId};

/// The turn of a request: a number that is the lower, the earlier it stands in precedence.
#[tactic(auto, unfolding(crate::specs::Turns::turn))]
pub fn turn(r: &Req) -> u64
    ensures { result ≡ spec.turn r.now }
{
    (r.priority as u64 * (1 << 39) + r.start.seconds) * (1 << 15) + r.number.number as u64
}

/// The request of the plan that has this turn.
#[tactic(auto, unfolding(crate::specs::Turns::request_at_turn))]
pub fn request_at_turn(plan: &Plan, turn: u64) -> Option<&Req>
    ensures { option_copied result ≡ spec.request_at_turn plan.now turn }
{
    plan.request(RequestId {
        number: (turn % (1 << 15)) as u32,
    })
}
