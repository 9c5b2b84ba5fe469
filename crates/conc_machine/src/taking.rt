ghost use Rattle.std.specs.Prelude.{◌≡◌};
ghost use Rattle.conc_event_effects.specs.Advance.{IsAfter};
ghost use Rattle.conc_machine.specs.Indexes as spec;
ghost use Rattle.conc_machine.specs.Indexes.{AreIndexes, AreParts};
ghost use Rattle.conc_machine.specs.Taken.{HasCommand, HasTick};

use crate::commands::first_undone;
use crate::indexes::Indexes;
use crate::writing::write_all;
use conc_event_effects::{mark_done, named_facts, used_after};
use conc_event_reach::started_after;
use conc_types::{Event, Plan};

// Takes in the command of an event, if it is one.
fn take_command(indexes: &mut Indexes, e: Event)
    requires { indexes.old.next_command ≡ spec.first_undone indexes.old.state.done }
    ensures { HasCommand indexes.old indexes.new e }
{
    mark_done(&mut indexes.state.done, e);
    indexes.next_command = first_undone(indexes.state.done.as_slice(), indexes.next_command);
}

// Takes in the moment of an event, if it is a tick.
fn take_tick(plan: &Plan, indexes: &mut Indexes, e: Event)
    requires { AreParts plan.now indexes.old }
    ensures parts { AreParts plan.now indexes.new }
    ensures tick { HasTick indexes.old indexes.new e }
{
    if let Event::Tick { moment } = e {
        indexes.state.time = Some(moment);
        indexes.lets.tick(plan, &indexes.classes, &indexes.state);
        indexes.starts.tick(plan, &indexes.state);
    }
}

/// Takes in one more event.
pub(crate) fn take_in(plan: &Plan, indexes: &mut Indexes, e: Event)
    requires { AreIndexes plan.now indexes.old }
    ensures indexes { AreIndexes plan.now indexes.new }
    ensures after { IsAfter plan.now indexes.old.state indexes.new.state e }
{
    let named = named_facts(plan, indexes.state.facts.as_slice(), e);
    let span = indexes.spans.reach_in_life(plan, indexes.started, e);
    let started = started_after(plan, indexes.started, e);
    write_all(plan, indexes, named, e, span);
    take_command(indexes, e);
    indexes.state.used = used_after(indexes.state.used, e);
    indexes.state.empty = false;
    take_tick(plan, indexes, e);
    indexes.started = started;
}
