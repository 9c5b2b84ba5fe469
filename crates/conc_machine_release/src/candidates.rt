ghost use Rattle.std.specs.Prelude.{◌≡◌, ◌<◌, ◌≤◌, [], ◌∷◌, if◌then◌else◌, All, length};
ghost use Rattle.conc_base_law.specs.Words.{Has};
ghost use Rattle.conc_event_classes.specs.Classes.{AreClasses};
ghost use Rattle.conc_event_reach.specs.Spans.{AreSpans};
ghost use Rattle.conc_machine_release.specs.Candidates as spec;
ghost use Rattle.conc_machine_release.specs.Candidates.{HaveQueues, PutsRight, classes_within, touched, where_changed};

use crate::position::Position;
use conc_event_classes::Classes;
use conc_event_decisions::{facts_at, is_live};
use conc_event_queue::Queue;
use conc_event_reach::Span;
use conc_types::{Facts, Plan, Req, Seq};

// The first of a class that are ready, where no live request is of a class that excludes it.
fn candidate(ready: &[Queue], rivals: &Seq<u32>, class: usize) -> Option<u64>
    requires ready { class < length ready.now }
    requires rivals { class < length rivals.now }
    ensures { result ≡ spec.candidate ready.now rivals.now class }
{
    if rivals.as_slice()[class] == 0 {
        ready[class].least()
    } else {
        None
    }
}

// Makes the candidate of a class what its queue and its count say.
fn put_candidate(candidates: &mut Queue, ready: &[Queue], rivals: &Seq<u32>, class: u32)
    requires have { HaveQueues ready.now rivals.now candidates.old }
    requires known { class < length candidates.old }
    ensures { PutsRight ready.now rivals.now (class ∷ []) candidates.old candidates.new }
{
    let candidate = candidate(ready, rivals, class as usize);
    candidates.put(class as usize, candidate);
}

// Makes the candidates of these classes what their queues and counts say.
fn put_each(candidates: &mut Queue, ready: &[Queue], rivals: &Seq<u32>, classes: &[u32])
    requires have { HaveQueues ready.now rivals.now candidates.old }
    requires known { All (λ class. class < length candidates.old) classes.now }
    ensures { PutsRight ready.now rivals.now classes.now candidates.old candidates.new }
{
    for class in classes {
        put_candidate(candidates, ready, rivals, *class);
    }
}

/// Makes the candidates of the classes of the requests within a span what their queues and counts say.
pub(crate) fn put_within(
    candidates: &mut Queue,
    ready: &[Queue],
    rivals: &Seq<u32>,
    plan: &Plan,
    classes: &Classes,
    span: Span,
)
    requires classes { AreClasses plan.now classes.now }
    requires have { HaveQueues ready.now rivals.now candidates.old }
    requires known { length candidates.old ≡ length classes.now.sizes }
    requires inside { span.to ≤ length plan.now.requests }
    ensures { PutsRight ready.now rivals.now (classes_within plan.now classes.now span)
        candidates.old candidates.new }
{
    let requests = plan.requests.as_slice();
    for i in span.from..span.to {
        put_candidate(candidates, ready, rivals, classes.class(&requests[i]));
    }
}

fn put_members(
    candidates: &mut Queue,
    ready: &[Queue],
    rivals: &Seq<u32>,
    position: Position<'_>,
    span: Span,
    same: bool,
)
    requires classes { AreClasses position.plan.now position.classes.now }
    requires have { HaveQueues ready.now rivals.now candidates.old }
    requires known { length candidates.old ≡ length position.classes.now.sizes }
    requires inside { span.to ≤ length position.plan.now.requests }
    ensures { PutsRight ready.now rivals.now
        (if same then [] else classes_within position.entry.plan.now position.entry.classes.now span)
        candidates.old candidates.new }
{
    if !same {
        put_within(
            candidates,
            ready,
            rivals,
            position.plan,
            position.classes,
            span,
        );
    }
}

fn put_rivals(
    candidates: &mut Queue,
    ready: &[Queue],
    rivals: &Seq<u32>,
    classes: &[u32],
    live: bool,
    was: bool,
)
    requires have { HaveQueues ready.now rivals.now candidates.old }
    requires known { All (λ class. class < length candidates.old) classes.now }
    ensures { PutsRight ready.now rivals.now (where_changed live was classes.now)
        candidates.old candidates.new }
{
    if live != was {
        put_each(candidates, ready, rivals, classes);
    }
}

/// Makes the candidates of the classes that the write of a request's facts touches what their queues and
/// counts say.
pub(crate) fn renew_candidates(
    candidates: &mut Queue,
    ready: &[Queue],
    rivals: &Seq<u32>,
    position: Position<'_>,
    r: &Req,
    old: Facts,
)
    requires classes { AreClasses position.plan.now position.classes.now }
    requires spans { AreSpans position.plan.now position.spans.now }
    requires have { HaveQueues ready.now rivals.now candidates.old }
    requires count { length candidates.old ≡ length position.classes.now.sizes }
    requires known { Has position.plan.now.requests r.now }
    ensures { PutsRight ready.now rivals.now
        (touched position.entry.plan.now position.entry.classes.now position.entry.spans.now
        position.entry.state.now old r.now) candidates.old candidates.new }
{
    let class = position.classes.class(r);
    let facts = facts_at(position.state, r);
    let span = position.spans.span_of_members(r.number);
    let same = facts.begun.bits == old.begun.bits;
    put_candidate(candidates, ready, rivals, class);
    put_members(candidates, ready, rivals, position, span, same);
    put_rivals(
        candidates,
        ready,
        rivals,
        position.classes.rivals(class),
        is_live(facts),
        is_live(old),
    );
}
