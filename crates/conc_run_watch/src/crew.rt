//! The watchers of a run, each in a thread of its own.
ghost use Rattle.std.specs.Prelude.{◌≡◌, ℕ, ◌≤◌, [], All, IfOk, length, map};
ghost use Rattle.std.specs.Vec.{vec_capacity};
ghost use Rattle.conc_types.specs.declared.plan.Plan.{Plan};
ghost use Rattle.conc_view.specs.Told.{whole_of};
ghost use Rattle.conc_run_watch.specs.Lines.{AreWatchLines, watch_text};
ghost use Rattle.conc_run_watch.specs.Looks.{HasLooked, HaveLooked, IsWatcherOf};

use crate::ending::Ending;
use crate::looks::Looks;
use conc_types::NoMemory;
use conc_view::{Naming, Snapshot, Told, Watcher};
use std::alloc::Global;
use std::sync::Wait;
use std::thread;
use std::thread::Threads;

/// The watchers of a run, with the room for what they will have kept.
#[derive(Drop)]
pub struct Watchers<'p, J: Naming> {
    looks: Vec<Looks<'p, J>>,
    room: Vec<Vec<Snapshot>>,
    ghost empty: { room.items ≡ [] },
    ghost enough: { length looks.items ≤ vec_capacity room },
}

// Each watcher looks in a thread of its own, until the run is over.
fn watch_all<R: Threads + Wait + Sync, J: Naming + Send + Sync>(
    rt: &R,
    ending: &Ending,
    looks: &mut [Looks<'_, J>],
)
    ensures { HaveLooked looks.old looks.new }
{
    if looks.is_empty() {
        return;
    }
    let threads = looks.len();
    thread::for_each_mut(
        rt,
        looks,
        threads,
        &|_index, watcher: &mut Looks<'_, J>|
            ensures { HasLooked watcher.entry.now watcher.exit.now }
        { watcher.watch(rt, ending) },
    );
}

impl<'p, J: Naming> Watchers<'p, J> {
    ghost use Rattle.conc_run_watch.specs.Crews.{AreWatching};

    /// None of them has looked. It takes the room for all that they keep.
    pub fn new(alloc: Global, watchers: Vec<Watcher<'p, J>>) -> Result<Watchers<'p, J>, NoMemory>
        ensures { IfOk result (λ all. (plan : Plan) → All (IsWatcherOf plan) watchers.entry.items
            → AreWatching plan (length watchers.entry.items) all) }
    {
        let room = Vec::with_capacity(alloc, watchers.len())?;
        let mut looks = Vec::with_capacity(alloc, watchers.len())?;
        for watcher in watchers {
            let begun = Looks::new(alloc, watcher)?;
            looks.push(begun)?;
        }
        Ok(Watchers { looks, room })
    }

    /// Each watcher learns the end. What they kept comes in their order. It takes no memory.
    pub fn finish(self, told: &mut Told<J>) -> Vec<Vec<Snapshot>>
        ensures lines { (plan : Plan) (count : ℕ) → AreWatching plan count self.entry
            → AreWatchLines plan (whole_of told.old) count
            (watch_text 1 (map (λ v. v.items) result.items)) }
        ensures told { whole_of told.new ≡ whole_of told.old }
    {
        let Watchers {
            looks,
            room: mut kept,
        } = self;
        for watcher in looks {
            kept.push_reserved(watcher.finish(told));
        }
        kept
    }
}

impl<'p, J: Naming + Send + Sync> Watchers<'p, J> {
    ghost use Rattle.conc_run_watch.specs.Crews.{StillWatch};

    /// Each watcher looks in a thread of its own, until the run is over.
    pub fn watch<R: Threads + Wait + Sync>(&mut self, rt: &R, ending: &Ending)
        ensures { StillWatch self.old self.new }
    {
        watch_all(rt, ending, self.looks.as_mut_slice());
    }
}
