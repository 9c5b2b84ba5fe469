ghost use Rattle.std.specs.Prelude.{◌≡◌};
ghost use Rattle.conc_base_law.specs.State as spec;

use conc_rules::parent;
use conc_types::{Facts, Moment, Plan, Req, State, numbered};

/// The facts of a request.
#[tactic(auto, unfolding(conc_base_law::specs::State::facts_at))]
pub fn facts_at(state: &State, r: &Req) -> Facts
    ensures { result ≡ spec.facts_at state.now r.now }
{
    numbered(state.facts.as_slice(), r.number.number)
        .copied()
        .unwrap_or(Facts::NONE)
}

pub(crate) fn is_running(facts: Facts) -> bool
    ensures { result ≡ spec.is_running facts }
{
    facts.place.is_some()
}

pub(crate) fn is_stopping(facts: Facts) -> bool
    ensures { result ≡ spec.is_stopping facts }
{
    is_running(facts) && facts.terminated
}

/// Whether a request with these facts is live: let out, or an open set.
pub fn is_live(facts: Facts) -> bool
    ensures { result ≡ spec.is_live facts }
{
    facts.let_out || facts.opened
}

/// Whether a request with these facts is completed.
pub fn is_completed(facts: Facts) -> bool
    ensures { result ≡ spec.is_completed facts }
{
    facts.outcome.is_some()
}

/// Whether r is a member whose stage has not begun.
#[tactic(auto, unfolding(conc_base_law::specs::State::is_waiting))]
pub fn is_waiting(plan: &Plan, state: &State, r: &Req) -> bool
    ensures { result ≡ spec.is_waiting plan.now state.now r.now }
{
    match parent(plan, r) {
        Some(set) => !facts_at(state, set).begun.contains(r.stage),
        None => false,
    }
}

/// Whether a moment has come: it is not after the last tick.
#[tactic(auto, unfolding(conc_base_law::specs::State::has_come))]
pub fn has_come(now: Option<Moment>, t: Moment) -> bool
    ensures { result ≡ spec.has_come now t }
{
    match now {
        Some(n) => t.seconds <= n.seconds,
        None => false,
    }
}

/// Whether a moment is not earlier than the last tick.
#[tactic(auto, unfolding(conc_base_law::specs::State::is_not_earlier))]
pub fn is_not_earlier(now: Option<Moment>, t: Moment) -> bool
    ensures { result ≡ spec.is_not_earlier now t }
{
    match now {
        Some(n) => n.seconds <= t.seconds,
        None => true,
    }
}
