ghost use Rattle.std.specs.Prelude.{◌≡◌, ◌≤◌, ◌<◌, ◌+◌, IsTrue, length, slice_get, take};
ghost use Rattle.std.specs.List.{list_all};
ghost use Rattle.std.specs.Bool.{then_some};
ghost use Rattle.std.specs.Option.{option_and_then};
ghost use Rattle.conc_types.specs.declared.event.Event.TheVariants.{Command as command};
ghost use Rattle.conc_base_law.specs.Next as next_spec;
ghost use Rattle.conc_machine.specs.Indexes as indexes_spec;

use conc_event_decisions::is_due;
use conc_types::{Event, Plan, State};

/// The place of the first command that is not done, from 0, where all before one are done.
pub(crate) fn first_undone(done: &[bool], from: usize) -> usize
    requires before { IsTrue (list_all (λ d. d) (take from done.now)) }
    requires inside { from ≤ length done.now }
    ensures { result ≡ indexes_spec.first_undone done.now }
{
    let mut next = from;
    while next < done.len() && done[next] {
        next += 1;
    }
    next
}

// The command at a place, from 0, if it is due.
fn due_at(plan: &Plan, state: &State, place: usize) -> Option<Event>
    ensures { result ≡ option_and_then
        (λ order. then_some (next_spec.is_due state.now (place + 1, order)) (command (place + 1)))
        (slice_get plan.now.script.commands place) }
{
    let order = plan.script.commands.as_slice().get(place)?;
    let number = place as u32 + 1;
    if is_due(state, number, order) {
        Some(Event::Command { number })
    } else {
        None
    }
}

/// The first command that is due, where the first that is not done stands at a place.
pub(crate) fn forced_command(plan: &Plan, state: &State, next: usize) -> Option<Event>
    requires flags { length state.now.done ≡ length plan.now.script.commands }
    requires next { next ≡ indexes_spec.first_undone state.now.done }
    ensures { result ≡ next_spec.forced_command plan.now state.now }
{
    due_at(plan, state, next)
}
