ghost use Rattle.std.specs.Prelude.{◌≡◌, ◌≤◌, length, take};
ghost use mathlib.Core.List.{IsPrefix};
ghost use Rattle.conc_restart.specs.Machines.{plan_of};
ghost use Rattle.conc_view.specs.Stands.{Stands};

use crate::book::Reached;
use crate::bounds::Counter;
use crate::counting::counts;
use crate::naming::Naming;
use crate::store::Store;
use crate::told::Told;
use conc_restart::Machine;
use conc_types::{Event, Phase, RequestId, Status};
use crossbeam_utils::rule::Unruled;
use left_right::reader::Reader;

/// How many events a watcher has seen, and how many requests are submitted and in each phase after
/// them, in the order Pending, Running, Completed, Inactive.
#[derive(Clone, Copy, Debug, PartialEq, Eq)]
pub struct Snapshot {
    pub length: u64,
    pub counts: [u32; 4],
}

/// Looks at what is published, and tells how the requests stand after it. It has a machine of its own.
/// None of its calls waits or takes memory.
#[derive(Drop)]
pub struct Watcher<'p, J: Naming> {
    machine: Machine<'p>,
    reached: Reached<J>,
    bound: Counter<J>,
    // It is away while the watcher looks.
    reader: Option<Reader<Store<J>, (), Unruled>>,
    ghost stands: { Stands machine reached },
    ghost told: { length reached ≤ bound.least },
}

// Takes in the events from a place on.
fn replay(machine: &mut Machine, events: &[Event], from: usize)
    requires from { from ≤ length events.now }
    requires stands { Stands machine.old (take from events.now) }
    ensures stands { Stands machine.new events.now }
    ensures plan { plan_of machine.new ≡ plan_of machine.old }
{
    for i in from..events.len() {
        machine.apply(events[i]);
    }
}

// Goes on to a list that is no shorter.
fn go_on<J: Naming>(machine: &mut Machine, reached: &mut Reached<J>, store: &Store<J>)
    requires longer { length reached.old ≤ length store.now.reached }
    requires stands { Stands machine.old reached.old }
    ensures stands { Stands machine.new reached.new }
    ensures reached { reached.new ≡ store.now.reached }
    ensures begins { IsPrefix reached.old reached.new }
    ensures plan { plan_of machine.new ≡ plan_of machine.old }
{
    let from = reached.len() as usize;
    reached.go_on(&store.reached);
    replay(machine, store.events.as_slice(), from);
}

// Goes on to a list that is published, where it is no shorter.
fn look_at<J: Naming>(
    machine: &mut Machine,
    reached: &mut Reached<J>,
    bound: &mut Counter<J>,
    store: &Store<J>,
)
    requires stands { Stands machine.old reached.old }
    requires told { length reached.old ≤ bound.old.least }
    ensures stands { Stands machine.new reached.new }
    ensures told { length reached.new ≤ bound.new.least }
    ensures begins { IsPrefix reached.old reached.new }
    ensures plan { plan_of machine.new ≡ plan_of machine.old }
{
    let told = bound.read();
    if reached.len() <= store.reached.len() && store.reached.len() <= told {
        go_on(machine, reached, store);
    }
}

impl<'p, J: Naming> Watcher<'p, J> {
    ghost use Rattle.conc_view.specs.Counts.{counts_of, status_after};
    ghost use Rattle.conc_view.specs.Told.{whole_of};
    ghost use Rattle.conc_view.specs.Watcher.{seen_by, watched_plan};

    /// A watcher that has seen a list.
    pub(crate) fn over(
        machine: Machine<'p>,
        reached: Reached<J>,
        bound: Counter<J>,
        reader: Reader<Store<J>, (), Unruled>,
    ) -> Watcher<'p, J>
        requires stands { Stands machine reached }
        requires told { length reached ≤ bound.least }
        ensures seen { seen_by result ≡ reached }
        ensures plan { watched_plan result ≡ plan_of machine.entry }
    {
        Watcher {
            machine,
            reached,
            bound,
            reader: Some(reader),
        }
    }

    // Goes on to what is published now. After the end the watcher stays as it is.
    fn catch_up(&mut self)
        ensures begins { IsPrefix (seen_by self.old) (seen_by self.new) }
        ensures plan { watched_plan self.new ≡ watched_plan self.old }
    {
        let Watcher {
            machine,
            reached,
            bound,
            reader,
        } = self;
        let Some(outside) = reader.take() else {
            return;
        };
        match outside.enter_as::<Unruled>() {
            Ok(reading) => {
                look_at(machine, reached, bound, reading.get());
                *reader = Some(reading.leave());
            }
            Err(outside) => *reader = Some(outside),
        }
    }

    /// Looks at what is published, and counts. After the end it counts what it has seen.
    pub fn look(&mut self) -> Snapshot
        ensures begins { IsPrefix (seen_by self.old) (seen_by self.new) }
        ensures length { result.length ≡ length (seen_by self.new) }
        ensures counts { result.counts ≡ counts_of (watched_plan self.new) (seen_by self.new) }
        ensures plan { watched_plan self.new ≡ watched_plan self.old }
    {
        self.catch_up();
        Snapshot {
            length: self.reached.len(),
            counts: counts(&self.machine),
        }
    }

    /// Looks at what is published, and tells the phase and status of a request; None exactly where it is
    /// not submitted. After the end it tells how the request stands after what it has seen.
    pub fn status(&mut self, request: RequestId) -> Option<(Phase, Status)>
        ensures begins { IsPrefix (seen_by self.old) (seen_by self.new) }
        ensures status { result ≡ status_after (watched_plan self.new) (seen_by self.new) request }
        ensures plan { watched_plan self.new ≡ watched_plan self.old }
    {
        self.catch_up();
        self.machine.status(request)
    }

    /// Goes on to the whole list, after the end.
    pub fn learn(&mut self, told: &mut Told<J>)
        ensures begins { IsPrefix (seen_by self.old) (whole_of told.old) }
        ensures whole { seen_by self.new ≡ whole_of told.old }
        ensures plan { watched_plan self.new ≡ watched_plan self.old }
        ensures told { whole_of told.new ≡ whole_of told.old }
    {
        let Watcher {
            machine,
            reached,
            bound,
            reader: _,
        } = self;
        told.counter.hear(bound);
        go_on(machine, reached, &told.store);
    }
}
