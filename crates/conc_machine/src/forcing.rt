ghost use Rattle.std.specs.Prelude.{◌≡◌};
ghost use Rattle.conc_base_law.specs.Next as spec;
ghost use Rattle.conc_machine.specs.Indexes.{AreIndexes};

use crate::commands::forced_command;
use crate::indexes::Indexes;
use conc_types::{Event, Plan};

/// The event that is forced, if one is due.
#[tactic(auto, unfolding(conc_base_law::specs::Next::forced))]
pub(crate) fn forced(plan: &Plan, indexes: &Indexes) -> Option<Event>
    requires { AreIndexes plan.now indexes.now }
    ensures { result ≡ spec.forced plan.now indexes.now.state }
{
    if let Some(e) = indexes.running.forced_interrupt(plan, &indexes.state) {
        return Some(e);
    }
    if let Some(e) = forced_command(plan, &indexes.state, indexes.next_command) {
        return Some(e);
    }
    if let Some(e) = indexes
        .steps
        .forced_step(plan, &indexes.spans, &indexes.state)
    {
        return Some(e);
    }
    indexes
        .lets
        .forced_let(plan, &indexes.classes, &indexes.spans, &indexes.state)
}
