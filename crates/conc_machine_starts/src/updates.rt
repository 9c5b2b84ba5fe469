ghost use Rattle.std.specs.Prelude.{◌≡◌, ◌<◌, ℕ, All, List, Option, length, map, slice_set};
ghost use Rattle.conc_types.specs.declared.manager.Manager.{Manager};
ghost use Rattle.conc_base_law.specs.Places.{all_places, count_of_places};
ghost use Rattle.conc_machine_starts.specs.Starts as starts_spec;
ghost use Rattle.conc_machine_starts.specs.Updates as updates_spec;
ghost use Rattle.conc_machine_starts.specs.Updates.{with_one, without_one};

use conc_event_queue::{Queue, turn};
use conc_rules::admits;
use conc_time::{is_usable, place_count};
use conc_types::{Facts, Manager, PlaceId, Plan, Req, Seq, State};

// ---- queues

#[tactic(auto, unfolding(crate::specs::Updates::key_of))]
fn key_of(facts: Facts, manager: &Manager, r: &Req) -> Option<u64>
    ensures { result ≡ updates_spec.key_of facts manager.now r.now }
{
    if facts.let_out && facts.place.is_none() && admits(manager, r) {
        Some(turn(r))
    } else {
        None
    }
}

/// Gives the slot of a request in each manager's queue its key by these facts.
pub(crate) fn refresh(
    queues: &mut [Queue],
    managers: &[Manager],
    slot: usize,
    r: &Req,
    facts: Facts,
)
    requires { All (λ queue. slot < length queue) queues.old }
    ensures { (slots : Manager → List (Option ℕ)) → queues.old ≡ map slots managers.now
        → queues.new ≡ map (λ manager. slice_set (slots manager) slot
        (updates_spec.key_of facts manager r.now)) managers.now }
{
    let Some((queue, queues)) = queues.split_first_mut() else {
        return;
    };
    let Some((manager, managers)) = managers.split_first() else {
        return;
    };
    queue.put(slot, key_of(facts, manager, r));
    refresh(queues, managers, slot, r, facts);
}

// ---- counts

/// Counts one request less at a place.
pub(crate) fn leave(running: &mut Seq<u32>, place: Option<PlaceId>)
    ensures { running.new ≡ without_one running.old place }
{
    if let Some(place) = place {
        let index = place.index as usize;
        if let Some(count) = running.as_slice().get(index).copied() {
            running.set(index, count.saturating_sub(1));
        }
    }
}

/// Counts one request more at a place.
pub(crate) fn enter(running: &mut Seq<u32>, place: Option<PlaceId>)
    ensures { running.new ≡ with_one running.old place }
{
    if let Some(place) = place {
        let index = place.index as usize;
        if let Some(count) = running.as_slice().get(index).copied() {
            running.set(index, count.saturating_add(1));
        }
    }
}

// ---- flags

#[tactic(auto, unfolding(crate::specs::Starts::is_usable_now))]
fn is_usable_now(plan: &Plan, state: &State, place: PlaceId) -> bool
    ensures { result ≡ starts_spec.is_usable_now plan.now state.now place }
{
    match state.time {
        Some(t) => is_usable(plan, t, place),
        None => false,
    }
}

/// Marks each place as usable at the last tick or not.
pub(crate) fn renew(usable: &mut Seq<bool>, plan: &Plan, state: &State)
    requires { length usable.old ≡ count_of_places plan.now }
    ensures { usable.new ≡ map (starts_spec.is_usable_now plan.now state.now)
        (all_places plan.now) }
{
    for index in 0..place_count(plan) {
        usable.set(
            index as usize,
            is_usable_now(plan, state, PlaceId { index }),
        );
    }
}
