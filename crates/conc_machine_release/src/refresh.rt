ghost use Rattle.std.specs.Prelude.{◌≡◌, ◌<◌, ◌≤◌, [], length, slice_index_or, slice_range};
ghost use Rattle.conc_base_law.specs.Words.{Has};
ghost use Rattle.conc_event_classes.specs.Classes.{AreClasses};
ghost use Rattle.conc_machine_release.specs.Refresh as spec;
ghost use Rattle.conc_machine_release.specs.Refresh.{HaveSlots, refreshed_all, refreshed_at};

use conc_event_classes::Classes;
use conc_event_decisions::is_ready;
use conc_event_queue::{Queue, turn};
use conc_event_reach::Span;
use conc_types::{Plan, Req, State};

// Gives a slot in the queue of a class this key, or none.
fn put_in(queues: &mut Vec<Queue>, class: usize, slot: usize, key: Option<u64>)
    requires queue { class < length queues.old.items }
    requires slot { slot < length (slice_index_or queues.old.items class []) }
    ensures { queues.new.items ≡ spec.put_in queues.old.items class slot key }
{
    queues[class].put(slot, key);
}

// The key of a request: its turn, where it is ready.
fn key(plan: &Plan, state: &State, r: &Req) -> Option<u64>
    ensures { result ≡ spec.key plan.now state.now r.now }
{
    is_ready(plan, state, r).then_some(turn(r))
}

/// Makes the key of a request what the state says.
pub(crate) fn refresh_request(
    queues: &mut Vec<Queue>,
    plan: &Plan,
    classes: &Classes,
    state: &State,
    r: &Req,
)
    requires classes { AreClasses plan.now classes.now }
    requires slots { HaveSlots classes.now queues.old.items }
    requires known { Has plan.now.requests r.now }
    ensures { queues.new.items ≡ refreshed_at plan.now classes.now state.now queues.old.items
        r.now }
{
    let key = key(plan, state, r);
    put_in(
        queues,
        classes.class(r) as usize,
        classes.slot(r) as usize,
        key,
    );
}

/// Makes the keys of the requests within a span what the state says.
pub(crate) fn refresh_span(
    queues: &mut Vec<Queue>,
    plan: &Plan,
    classes: &Classes,
    state: &State,
    span: Span,
)
    requires classes { AreClasses plan.now classes.now }
    requires slots { HaveSlots classes.now queues.old.items }
    requires inside { span.to ≤ length plan.now.requests }
    ensures { queues.new.items ≡ refreshed_all plan.now classes.now state.now
        (slice_range plan.now.requests span.from span.to) queues.old.items }
{
    let requests = plan.requests.as_slice();
    for i in span.from..span.to {
        refresh_request(queues, plan, classes, state, &requests[i]);
    }
}
