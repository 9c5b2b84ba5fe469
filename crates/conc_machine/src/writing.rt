ghost use Rattle.std.specs.Prelude.{◌≡◌, ◌<◌, ◌≤◌, length, slice_get, slice_set};
ghost use Rattle.conc_event_effects.specs.Advance.{all_after, one_by};
ghost use Rattle.conc_event_reach.specs.Started.{LeavesFacts};
ghost use Rattle.conc_machine.specs.Indexes.{AreFacts, AreParts};

use crate::indexes::Indexes;
use conc_event_effects::facts_after;
use conc_event_reach::Span;
use conc_types::{Event, Facts, Plan};

// Writes the facts of the request at an index.
fn write(plan: &Plan, indexes: &mut Indexes, i: usize, own: Facts)
    requires parts { AreParts plan.now indexes.old }
    requires index { i < length plan.now.requests }
    ensures parts { AreParts plan.now indexes.new }
    ensures facts { AreFacts indexes.old indexes.new (slice_set indexes.old.state.facts i own) }
{
    let old = indexes.state.facts.as_slice()[i];
    indexes.state.facts.set(i, own);
    indexes.running.write(plan, &indexes.state, i, old);
    indexes
        .steps
        .write(plan, &indexes.spans, &indexes.state, i, old);
    indexes.lets.write(
        plan,
        &indexes.classes,
        &indexes.spans,
        &indexes.state,
        i,
        old,
    );
    indexes.starts.write(plan, &indexes.state, i, old);
}

// Writes the facts of the request at an index as they are after an event.
fn write_next(plan: &Plan, indexes: &mut Indexes, named: Facts, e: Event, i: usize)
    requires parts { AreParts plan.now indexes.old }
    requires index { i < length plan.now.requests }
    ensures parts { AreParts plan.now indexes.new }
    ensures facts { AreFacts indexes.old indexes.new
        (one_by plan.now named e indexes.old.state.facts i (slice_get plan.now.requests i)
        (slice_get indexes.old.state.facts i)) }
{
    let r = &plan.requests.as_slice()[i];
    let own = indexes.state.facts.as_slice()[i];
    write(plan, indexes, i, facts_after(plan, named, e, r, own));
}

// Writes the facts of the requests within a span as they are after an event. `named` are those of the
// request that a cancel or a close names, before it.
pub(crate) fn write_all(plan: &Plan, indexes: &mut Indexes, named: Facts, e: Event, span: Span)
    requires parts { AreParts plan.now indexes.old }
    requires inside { span.to ≤ length plan.now.requests }
    requires leaves { LeavesFacts plan.now e indexes.old.state.facts span }
    ensures parts { AreParts plan.now indexes.new }
    ensures facts { AreFacts indexes.old indexes.new
        (all_after plan.now named e plan.now.requests indexes.old.state.facts) }
{
    for i in span.from..span.to {
        write_next(plan, indexes, named, e, i);
    }
}
