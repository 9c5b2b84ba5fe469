ghost use Rattle.std.specs.Prelude.{◌≡◌, ◌≤◌, IfOk, length};
ghost use Rattle.std.specs.Vec.{vec_capacity};
ghost use mathlib.Core.List.{IsPrefix};
ghost use Rattle.conc_view.specs.Counts.{counts_of};
ghost use Rattle.conc_view.specs.Told.{whole_of};
ghost use Rattle.conc_view.specs.Watcher.{seen_by, watched_plan};
ghost use Rattle.conc_run_watch.specs.Watches.{AreLooks, ComesOfLook, IsWatch, with_early_look, with_look};

use crate::ending::Ending;
use crate::keeping::keep;
use conc_types::NoMemory;
use conc_view::{Naming, Snapshot, Told, Watcher};
use std::alloc::Global;
use std::sync::Wait;
use std::time::Duration;

// How many snapshots a watcher keeps at most. The last place is for the look after the end.
const MOST_KEPT: usize = 64;

/// A watcher, and what it kept of its looks.
#[derive(Drop)]
pub struct Looks<'p, J: Naming> {
    watcher: Watcher<'p, J>,
    kept: Vec<Snapshot>,
    ghost looks: { AreLooks (watched_plan watcher) (seen_by watcher) kept.items },
    ghost few: { length kept.items ≤ 63 },
    ghost room: { 64 ≤ vec_capacity kept },
}

// How long a watcher that kept so many snapshots sleeps between two looks: twice as long for each three of
// them, so that they last for a long run.
fn pause(kept: usize) -> Duration
    requires { kept ≤ 63 }
{
    Duration::from_millis(1 << (kept / 3))
}

// Learns the end, and looks.
fn look_at_whole<J: Naming>(watcher: &mut Watcher<'_, J>, told: &mut Told<J>) -> Snapshot
    ensures length { result.length ≡ length (whole_of told.old) }
    ensures counts { result.counts ≡ counts_of (watched_plan watcher.old) (whole_of told.old) }
    ensures begins { IsPrefix (seen_by watcher.old) (whole_of told.old) }
    ensures told { whole_of told.new ≡ whole_of told.old }
{
    watcher.learn(told);
    let snapshot = watcher.look();
    // Also after this look it has seen no more than the whole list.
    watcher.learn(told);
    snapshot
}

impl<'p, J: Naming> Looks<'p, J> {
    ghost use Rattle.conc_run_watch.specs.Looks.{HasLooked, kept_in, plan_in, seen_in};

    /// A watcher that has not looked. It takes the room for all that the watcher keeps.
    pub fn new(alloc: Global, watcher: Watcher<'p, J>) -> Result<Looks<'p, J>, NoMemory>
        ensures plan { IfOk result (λ looks. plan_in looks ≡ watched_plan watcher.entry) }
        ensures seen { IfOk result (λ looks. seen_in looks ≡ seen_by watcher.entry) }
    {
        let kept = Vec::with_capacity(alloc, MOST_KEPT)?;
        Ok(Looks { watcher, kept })
    }

    // Looks once. The snapshot is kept where it is longer than the last one or the first, and leaves a place.
    fn look(&mut self)
        ensures plan { plan_in self.new ≡ plan_in self.old }
        ensures begins { IsPrefix (seen_in self.old) (seen_in self.new) }
        ensures kept { ComesOfLook (plan_in self.new) (seen_in self.new)
            (with_early_look (kept_in self.old)) (kept_in self.new) }
    {
        let Looks { watcher, kept } = self;
        let snapshot = watcher.look();
        if kept.len() < MOST_KEPT - 1 {
            keep(kept, snapshot);
        }
    }

    /// Looks again and again until the run is over, ever more seldom, and at least once. It keeps the first
    /// look, and each that is longer than the last kept one, as long as there is a place besides that for
    /// the look after the end.
    pub fn watch<R: Wait>(&mut self, rt: &R, ending: &Ending)
        ensures { HasLooked self.old self.new }
    {
        for _ in rt.forever() {
            self.look();
            if ending.is_over() {
                break;
            }
            ending.nap(rt, pause(self.kept.len()));
        }
    }

    /// Learns the end, and looks once more. That look is kept where it is longer than the last kept one, or
    /// where none is kept. It takes no memory.
    pub fn finish(self, told: &mut Told<J>) -> Vec<Snapshot>
        ensures watch { IsWatch (plan_in self.entry) (whole_of told.old) result.items }
        ensures kept { ComesOfLook (plan_in self.entry) (whole_of told.old)
            (with_look (kept_in self.entry)) result.items }
        ensures told { whole_of told.new ≡ whole_of told.old }
    {
        let Looks {
            mut watcher,
            mut kept,
        } = self;
        let snapshot = look_at_whole(&mut watcher, told);
        keep(&mut kept, snapshot);
        kept
    }
}
