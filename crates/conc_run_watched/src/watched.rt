ghost use Rattle.std.specs.Prelude.{◌≡◌, ◌<◌, ◌≤◌, IfErr, IfOk, IfSome, IsSome, IsSomeAnd, IsTrue, None};
ghost use Rattle.std.specs.Thread.{IsSync};
ghost use Rattle.conc_run.specs.Whole.{IsCutShort, IsFinished, LacksToTell};
ghost use Rattle.conc_run_open.specs.Examined.{IsInHand};
ghost use Rattle.conc_run_state.specs.Stores.{ran_over, SameStores};
ghost use Rattle.conc_run_state.specs.Works.{list_in};
ghost use Rattle.conc_run_watched.specs.Ends.{EndsAnswered, EndsTold, EndsWatched, HasWatchLines, MayGo};
ghost use Rattle.conc_types.specs.Words.{is_between};
ghost use Rattle.conc_view.specs.Opened.{name_of};
ghost use Rattle.conc_run_watch.specs.Crews.{StillWatch};

use conc_disk::Disk;
use conc_edge_gate::Gate;
use conc_journal::Teller;
use conc_run::Workers;
use conc_run_open::{Examined, examine};
use conc_run_state::{HistoryFail, Input, Stores, Work};
use conc_run_watch::{Ending, Watchers};
use conc_view::{Naming, Opened, Snapshot, new_view};
use std::alloc::Global;
use std::marker::Brand;
use std::sync::Wait;
use std::thread::{Threads, join_mut};

/// A run that is finished, and what its watchers saw of it.
#[derive(Drop)]
pub struct Watched<'p> {
    /// The work, whose parts stand for the whole history.
    pub work: Work<'p>,
    /// What each watcher kept of its looks.
    pub kept: Vec<Vec<Snapshot>>,
}

// What the run and its watchers share: the host, the workers, and the word that the run is over.
#[derive(Drop)]
struct Scene<'a, 'g, R: Threads + Wait + Sync, G: Gate + Sync> {
    rt: &'a R,
    alloc: Global,
    workers: &'a Workers<'g, G>,
    ending: &'a Ending,
}

impl<R: Threads + Wait + Sync, G: Gate + Sync> Scene<'_, '_, R, G> {
    // Runs what was examined to its end, and then tells the watchers that it is over.
    fn run_out<'p, D: Disk + Send, E: Disk + Send, T: Teller + Send>(
        &self,
        examined: &mut Option<Examined<'p>>,
        journal: &mut D,
        spool: &mut E,
        teller: &mut T,
    ) -> Result<Work<'p>, HistoryFail>
        requires { IsSomeAnd examined.old (MayGo (D.state journal.old) (E.state spool.old)
            (T.list teller.old) (T.takes teller.old)) }
        ensures taken { examined.new ≡ None }
        ensures ended { IfSome examined.old (EndsTold D.Disk E.Disk self.now.workers.now.threads
            (T.list teller.new) (T.may_lack teller.new) journal.old journal.new spool.old spool.new
            result) }
    {
        let Some(examined) = examined.take() else {
            unreachable!()
        };
        let answer = self
            .workers
            .go_on(self.rt, self.alloc, examined, journal, spool, teller);
        self.ending.set();
        answer
    }

    // The run in this thread, and each watcher in one of its own, until the run is over.
    fn run_and_watch<'p, J: Naming + Send + Sync, D: Disk + Send, E: Disk + Send, T: Teller + Send>(
        &self,
        watchers: &mut Watchers<'_, J>,
        examined: &mut Option<Examined<'p>>,
        stores: &mut Stores<'_, D, E>,
        teller: &mut T,
        answer: &mut Option<Result<Work<'p>, HistoryFail>>,
    )
        requires { IsSomeAnd examined.old (MayGo (D.state stores.old.journal.now)
            (E.state stores.old.spool.now) (T.list teller.old) (T.takes teller.old)) }
        ensures same { SameStores stores.old stores.new }
        ensures ended { EndsAnswered D.Disk E.Disk self.now.workers.now.threads
            (T.list teller.new) (T.may_lack teller.new) stores.old.journal.now
            stores.new.journal.now stores.old.spool.now stores.new.spool.now answer.new
            examined.old }
        ensures answered { IsSome answer.new }
        ensures taken { examined.new ≡ None }
        ensures watching { StillWatch watchers.old watchers.new }
    {
        let rt = self.rt;
        let ending = self.ending;
        let journal = &mut *stores.journal;
        let spool = &mut *stores.spool;
        join_mut(
            rt,
            &mut ||
                requires { IsSync R.row }
                ensures { StillWatch watchers.entry.now watchers.exit.now }
            { watchers.watch(rt, ending) },
            &mut ||
                requires { IsSomeAnd examined.now (MayGo (D.state journal.now)
                    (E.state spool.now) (T.list teller.now) (T.takes teller.now)) }
                ensures { EndsAnswered D.Disk E.Disk self.entry.now.workers.now.threads
                    (T.list teller.exit.now) (T.may_lack teller.exit.now) journal.entry.now
                    journal.exit.now spool.entry.now spool.exit.now answer.exit.now
                    examined.entry.now
                    × IsSome answer.exit.now × (examined.exit.now ≡ None) }
            {
                *answer = Some(self.run_out(examined, journal, spool, teller));
            },
        );
    }

    // Runs what was examined beside watchers, and tells a teller.
    fn run_told_beside<
        'p,
        J: Naming + Send + Sync,
        D: Disk + Send,
        E: Disk + Send,
        T: Teller + Send,
    >(
        &self,
        examined: Examined<'p>,
        watchers: &mut Watchers<'_, J>,
        stores: &mut Stores<'_, D, E>,
        teller: &mut T,
    ) -> Result<Work<'p>, HistoryFail>
        requires { MayGo (D.state stores.old.journal.now) (E.state stores.old.spool.now)
            (T.list teller.old) (T.takes teller.old) examined }
        ensures same { SameStores stores.old stores.new }
        ensures ended { EndsTold D.Disk E.Disk self.now.workers.now.threads
            (T.list teller.new) (T.may_lack teller.new) stores.old.journal.now
            stores.new.journal.now stores.old.spool.now stores.new.spool.now result
            examined.entry }
        ensures watching { StillWatch watchers.old watchers.new }
    {
        let mut examined = Some(examined);
        let mut answer = None;
        self.run_and_watch(watchers, &mut examined, stores, teller, &mut answer);
        match answer {
            Some(answer) => answer,
            None => unreachable!(),
        }
    }

    // Runs what was examined beside watchers of a view under this name.
    fn run_viewed<'p, J: Naming + Send + Sync, D: Disk + Send, E: Disk + Send>(
        &self,
        opened: Opened,
        examined: Examined<'p>,
        stores: &mut Stores<'_, D, E>,
        watchers: u32,
    ) -> Result<Watched<'p>, HistoryFail>
        requires named { name_of opened ≡ J.name }
        requires watchers { IsTrue (is_between 1 8 watchers) }
        requires in_hand { IsInHand examined (D.state stores.old.journal.now)
            (E.state stores.old.spool.now) }
        ensures same { SameStores stores.old stores.new }
        ensures ended { EndsWatched D.Disk E.Disk self.now.workers.now.threads watchers
            examined.entry stores.old.journal.now stores.new.journal.now stores.old.spool.now
            stores.new.spool.now result }
    {
        let (mut publisher, seated) = new_view::<J, R>(
            self.rt,
            self.alloc,
            opened,
            examined.plan(),
            examined.events(),
            watchers,
        )?;
        let Ok(mut all) = Watchers::new(self.alloc, seated) else {
            drop(publisher.close(self.rt));
            return Err(HistoryFail::NoMemory);
        };
        let answer = self.run_told_beside(examined, &mut all, stores, &mut publisher);
        let mut told = publisher.close(self.rt);
        let kept = all.finish(&mut told);
        Ok(Watched {
            work: answer?,
            kept,
        })
    }
}

/// Runs a plan as `run_on_threads` does, or without threads as `run_plan` does, beside 1 to 8 watchers. Each
/// looks at the history while it grows, in a thread of its own, and keeps the first look, each longer one while
/// fewer than 63 are kept, and the look after the end where it is longer. It takes the memory that they need
/// before it writes anything. Want of memory has one more case: where an event is told that the journal has.
pub fn run_watched<'p, R: Threads + Wait + Sync, D: Disk + Send, E: Disk + Send, G: Gate + Sync>(
    rt: &R,
    alloc: Global,
    input: &Input<'p>,
    stores: &mut Stores<'_, D, E>,
    workers: &Workers<'_, G>,
    watchers: u32,
) -> Result<Watched<'p>, HistoryFail>
    requires some { 0 < watchers }
    requires few { watchers ≤ 8 }
    ensures same { SameStores stores.old stores.new }
    ensures finished { IfOk result (λ watched. IsFinished workers.now.threads
        (ran_over D.Disk E.Disk input.now stores.old stores.new) (list_in watched.work)) }
    ensures watched { IfOk result (HasWatchLines input.now.plan.now watchers) }
    ensures cut_short { IfErr result (IsCutShort workers.now.threads (LacksToTell watchers)
        (ran_over D.Disk E.Disk input.now stores.old stores.new)) }
{
    let examined = examine(alloc, input, stores)?;
    let opened = Opened::new(alloc)?;
    let ending = Ending::new();
    let scene = Scene {
        rt,
        alloc,
        workers,
        ending: &ending,
    };
    scene.run_viewed::<Brand, D, E>(opened, examined, stores, watchers)
}
