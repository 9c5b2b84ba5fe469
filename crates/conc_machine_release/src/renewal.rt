ghost use Rattle.std.specs.Prelude.{◌≡◌, ◌<◌, ◌≤◌, All, length};
ghost use Rattle.conc_base_law.specs.Words.{Has};
ghost use Rattle.conc_event_classes.specs.Classes.{AreClasses, class_at, rivals_at};
ghost use Rattle.conc_event_reach.specs.Spans.{AreSpans};
ghost use Rattle.conc_machine_release.specs.Refresh.{HaveSlots};
ghost use Rattle.conc_machine_release.specs.Renewal.{recounted, recounted_by, renewed, renewed_within};

use crate::position::Position;
use crate::refresh::{refresh_request, refresh_span};
use crate::rivals::count_all;
use conc_event_classes::Classes;
use conc_event_decisions::{facts_at, is_live};
use conc_event_queue::Queue;
use conc_event_reach::Span;
use conc_types::{Facts, Req, Seq, State};

fn renew_within(queues: &mut Vec<Queue>, position: Position<'_>, span: Span, same: bool)
    requires classes { AreClasses position.plan.now position.classes.now }
    requires slots { HaveSlots position.classes.now queues.old.items }
    requires inside { span.to ≤ length position.plan.now.requests }
    ensures { queues.new.items ≡ renewed_within position.entry.plan.now position.entry.classes.now
        position.entry.state.now span same queues.old.items }
{
    if !same {
        refresh_span(
            queues,
            position.plan,
            position.classes,
            position.state,
            span,
        );
    }
}

/// Makes the key of a request what the state says, and those of its members where its stages are others
/// than before.
pub(crate) fn renew(queues: &mut Vec<Queue>, position: Position<'_>, r: &Req, old: Facts)
    requires classes { AreClasses position.plan.now position.classes.now }
    requires spans { AreSpans position.plan.now position.spans.now }
    requires slots { HaveSlots position.classes.now queues.old.items }
    requires known { Has position.plan.now.requests r.now }
    ensures { queues.new.items ≡ renewed position.entry.plan.now position.entry.classes.now
        position.entry.spans.now position.entry.state.now old queues.old.items r.now }
{
    refresh_request(queues, position.plan, position.classes, position.state, r);
    let span = position.spans.span_of_members(r.number);
    let same = facts_at(position.state, r).begun.bits == old.begun.bits;
    renew_within(queues, position, span, same);
}

fn recount_by(counts: &mut Seq<u32>, rivals: &[u32], live: bool, was: bool)
    requires { All (λ class. class < length counts.old) rivals.now }
    ensures { counts.new ≡ recounted_by live was rivals.now counts.old }
{
    if live != was {
        count_all(counts, rivals, live);
    }
}

/// Counts a request, where it became live or ceased to be so.
pub(crate) fn recount(counts: &mut Seq<u32>, classes: &Classes, state: &State, r: &Req, old: Facts)
    requires { All (λ class. class < length counts.old)
        (rivals_at classes.now (class_at classes.now r.now)) }
    ensures { counts.new ≡ recounted classes.now state.now old counts.old r.now }
{
    let rivals = classes.rivals(classes.class(r));
    recount_by(counts, rivals, is_live(facts_at(state, r)), is_live(old));
}
