ghost use Rattle.std.specs.Prelude.{◌≡◌, IsFalse, IsTrue, is_some};
ghost use Rattle.std.specs.List.{find};
ghost use Rattle.std.specs.Option.{option_copied};
ghost use Rattle.conc_base_law.specs.Next as next_spec;
ghost use Rattle.conc_base_law.specs.State as state_spec;
ghost use Rattle.conc_base_law.specs.Words.{Has};
ghost use Rattle.conc_event_classes.specs.Classes.{AreClasses, rivals_at};
ghost use Rattle.conc_history_check.specs.Live as live_spec;
ghost use Rattle.conc_history_check.specs.Marks.{AreMarks};

use crate::live::{noted, request_numbered};
use crate::position::Position;
use conc_event_classes::Classes;
use conc_event_decisions::blocks;
use conc_event_queue::Queue;
use conc_types::{Plan, Req, State};

fn first_noted<'a>(classes: &'a Classes, live: &Vec<Queue>, class: u32) -> Option<&'a u32>
    ensures { option_copied result ≡ find (λ d. is_some (live_spec.noted live.now.items d))
        (rivals_at classes.now class) }
{
    classes
        .rivals(class)
        .iter()
        .find(|d| noted(live, **d).is_some())
}

// The number of a live request whose class excludes the class, if there is one.
#[tactic(auto, unfolding(crate::specs::Live::rival_noted))]
fn rival_noted(classes: &Classes, live: &Vec<Queue>, class: u32) -> Option<u64>
    ensures { result ≡ live_spec.rival_noted classes.now live.now.items class }
{
    match first_noted(classes, live, class) {
        Some(d) => noted(live, *d),
        None => None,
    }
}

// Whether the request with this number is live and excludes r.
fn blocks_by_number(plan: &Plan, state: &State, r: &Req, number: u64) -> bool
    ensures { IsTrue result → IsFalse (next_spec.is_free plan.now state.now r.now) }
{
    match request_numbered(plan, number) {
        Some(q) => blocks(plan, state, r, q),
        None => false,
    }
}

// Whether no live request excludes r. It looks first at the one with this number.
#[tactic(auto, unfolding(conc_base_law::specs::Next::is_free))]
fn is_free_of_all(plan: &Plan, state: &State, r: &Req, first: u64) -> bool
    ensures { result ≡ next_spec.is_free plan.now state.now r.now }
{
    !blocks_by_number(plan, state, r, first) && conc_event_decisions::is_free(plan, state, r)
}

/// Whether no live request excludes r, which is none itself. It looks at all requests only where its
/// class may exclude kin of its own and the live request that it finds does not exclude r.
pub(crate) fn is_free(position: Position<'_>, r: &Req) -> bool
    requires classes { AreClasses position.plan.now position.prepared.now.classes }
    requires marks { AreMarks position.plan.now position.prepared.now.classes position.state.now
        position.marks.now }
    requires own { Has position.plan.now.requests r.now }
    requires idle { IsFalse (state_spec.is_live (state_spec.facts_at position.state.now r.now)) }
    ensures { result ≡ next_spec.is_free position.entry.plan.now position.entry.state.now r.now }
{
    let classes = &position.prepared.classes;
    let class = classes.class(r);
    match rival_noted(classes, &position.marks.live, class) {
        None => true,
        Some(rival) => {
            classes.excludes_kin(class) && is_free_of_all(position.plan, position.state, r, rival)
        }
    }
}
