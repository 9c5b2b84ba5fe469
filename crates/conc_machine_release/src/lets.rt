ghost use Rattle.std.specs.Prelude.{◌≡◌, ◌<◌, [], IfOk, Some, length, slice_index, slice_index_or};
ghost use Rattle.conc_base_law.specs.Next as next_spec;
ghost use Rattle.conc_base_law.specs.State.{state};
ghost use Rattle.conc_event_classes.specs.Classes.{AreClasses, of_class};
ghost use Rattle.conc_event_queue.specs.Least.{least};
ghost use Rattle.conc_event_queue.specs.Turns.{turns_of};
ghost use Rattle.conc_event_queue.specs.Written.{StaysKept, StaysKeptByTick, WasKept, WasKeptBeforeTick};
ghost use Rattle.conc_event_reach.specs.Spans.{AreSpans};
ghost use Rattle.conc_machine_release.specs.Forced as forced_spec;
ghost use Rattle.conc_machine_release.specs.Lets.{AreLets};

use crate::candidates::{put_within, renew_candidates};
use crate::forced::{event_at, has_turn_only_kin_rivals, least_with_only_kin_rivals};
use crate::fresh::{kin_classes, vacant_queues, zeros};
use crate::position::Position;
use crate::refresh::refresh_span;
use crate::renewal::{recount, renew};
use crate::starts::StartWindow;
use conc_event_classes::Classes;
use conc_event_queue::{Queue, lesser};
use conc_event_reach::{Span, Spans};
use conc_types::{Event, Facts, NoMemory, Plan, Seq, State};
use std::alloc::Global;

/// What is kept of the requests that wait to be let out.
#[derive(Drop)]
pub struct Lets {
    // For each class the turns of its requests that are ready.
    ready: Vec<Queue>,
    // For each class how many live requests are of a class that excludes it.
    rivals: Seq<u32>,
    // For each class that counts none, the first of its requests that are ready.
    candidates: Queue,
    // The classes that may exclude kin.
    kin: Seq<u32>,
    // The moments between which no start of a request comes.
    window: StartWindow,
}

impl Lets {
    /// What is kept before the first event. It takes all the memory that the other calls need.
    pub fn new(alloc: Global, _plan: &Plan, classes: &Classes) -> Result<Lets, NoMemory>
        requires { AreClasses _plan.now classes.now }
        ensures { IfOk result (λ lets. AreLets _plan.now classes.now (state _plan.now []) lets) }
    {
        if classes.count() > u32::MAX as usize {
            return Err(NoMemory);
        }
        let count = classes.count() as u32;
        Ok(Lets {
            ready: vacant_queues(alloc, classes, count)?,
            rivals: zeros(alloc, count)?,
            candidates: Queue::new(alloc, count as usize)?,
            kin: kin_classes(alloc, classes, count)?,
            window: StartWindow::NONE,
        })
    }

    /// Takes in that the facts of the request at an index were written, which were these before.
    pub fn write(
        &mut self,
        plan: &Plan,
        classes: &Classes,
        spans: &Spans,
        after: &State,
        i: usize,
        old: Facts,
    )
        requires classes { AreClasses plan.now classes.now }
        requires spans { AreSpans plan.now spans.now }
        requires related { WasKept (AreLets plan.now classes.now) plan.now after.now i old self.old }
        ensures { StaysKept (AreLets plan.now classes.now) plan.now after.now i old self.old
            self.new }
    {
        let r = &plan.requests.as_slice()[i];
        let position = Position {
            plan,
            classes,
            spans,
            state: after,
        };
        renew(&mut self.ready, position, r, old);
        recount(&mut self.rivals, classes, after, r, old);
        renew_candidates(
            &mut self.candidates,
            self.ready.as_slice(),
            &self.rivals,
            position,
            r,
            old,
        );
    }

    /// Takes in another moment of the last tick. It looks through the requests only where a start
    /// comes.
    pub fn tick(&mut self, plan: &Plan, classes: &Classes, after: &State)
        requires classes { AreClasses plan.now classes.now }
        requires related { WasKeptBeforeTick (AreLets plan.now classes.now) after.now self.old }
        ensures { StaysKeptByTick (AreLets plan.now classes.now) after.now self.old self.new }
    {
        if self.window.contains(after.time) {
            return;
        }
        let all = Span {
            from: 0,
            to: plan.requests.len(),
        };
        refresh_span(&mut self.ready, plan, classes, after, all);
        put_within(
            &mut self.candidates,
            self.ready.as_slice(),
            &self.rivals,
            plan,
            classes,
            all,
        );
        self.window = StartWindow::at(plan, after.time);
    }

    // How many live requests are of a class that excludes this one.
    fn rival_count(&self, class: usize) -> u32
        requires { class < length self.now.rivals }
        ensures { result ≡ slice_index self.now.rivals class }
    {
        self.rivals.as_slice()[class]
    }

    // The first of a class that are ready.
    fn first_ready(&self, class: usize) -> Option<u64>
        requires { class < length self.now.ready.items }
        ensures { result ≡ least (slice_index_or self.now.ready.items class []) }
    {
        self.ready[class].least()
    }

    // The least turn of those of a class that may be let, where the class may exclude kin, and the first
    // that is ready has this turn. Where rivals are live, it looks at that one, and through all requests
    // only where that one is excluded and the class has more than one.
    fn turn_in_class(&self, position: Position<'_>, class: u32, first: u64) -> Option<u64>
        requires classes { AreClasses position.plan.now position.classes.now }
        requires spans { AreSpans position.plan.now position.spans.now }
        requires related { AreLets position.plan.now position.classes.now position.state.now
            self.now }
        requires within { class < length position.classes.now.sizes }
        requires first { least (turns_of (next_spec.is_ready position.plan.now position.state.now)
            (of_class position.plan.now position.classes.now class)) ≡ Some first }
        ensures { result ≡ forced_spec.turn_in_class position.entry.plan.now
            position.entry.classes.now position.entry.state.now class }
    {
        let rivals = self.rival_count(class as usize);
        if rivals == 0 {
            return Some(first);
        }
        if has_turn_only_kin_rivals(position, class, rivals, first) {
            return Some(first);
        }
        if position.classes.size(class) == 1 {
            return None;
        }
        least_with_only_kin_rivals(position, class, rivals)
    }

    // The least turn of those that may be let: the least candidate, or one of a class that may exclude kin.
    fn least_turn(&self, position: Position<'_>) -> Option<u64>
        requires classes { AreClasses position.plan.now position.classes.now }
        requires spans { AreSpans position.plan.now position.spans.now }
        requires related { AreLets position.plan.now position.classes.now position.state.now
            self.now }
        ensures { result ≡ least (turns_of
            (next_spec.may_let position.entry.plan.now position.entry.state.now)
            position.entry.plan.now.requests) }
    {
        let mut best = self.candidates.least();
        for class in self.kin.as_slice() {
            let Some(first) = self.first_ready(*class as usize) else {
                continue;
            };
            let turn = self.turn_in_class(position, *class, first);
            best = lesser(best, turn);
        }
        best
    }

    /// The let, or the open of a set, that is forced, if one is.
    pub fn forced_let(
        &self,
        plan: &Plan,
        classes: &Classes,
        spans: &Spans,
        state: &State,
    ) -> Option<Event>
        requires classes { AreClasses plan.now classes.now }
        requires spans { AreSpans plan.now spans.now }
        requires related { AreLets plan.now classes.now state.now self.now }
        ensures { result ≡ next_spec.forced_let plan.now state.now }
    {
        let position = Position {
            plan,
            classes,
            spans,
            state,
        };
        event_at(plan, self.least_turn(position))
    }
}
