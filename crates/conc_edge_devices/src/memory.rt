ghost use Rattle.std.specs.Prelude.{◌≡◌, ◌≤◌, ◌+◌, List, ℕ, Some, IfOk, OnErr, OnOk, Vec, length};
ghost use Rattle.std.specs.declared.alloc.Global.{Global};
ghost use Rattle.conc_disk.specs.Disk.{Reaches};
ghost use Rattle.conc_edge_devices.specs.Trace.{start_of};
ghost use Rattle.conc_edge_devices.specs.Laws.{now-counts, only-now, seen-is-left};

use crate::counts::Counts;
use crate::tear::image_in_call;
use crate::trace::Trace;
use conc_disk::Disk;
use conc_outside::Failed;
use conc_types::NoMemory;
use std::alloc::Global;

/// A disk in memory. It exposes its bytes and keeps what it had at first and each write, cut and sync,
/// each with the number of its call, so that it can show what a crash in any call may have left. A
/// call fails exactly where its number is listed or there is no memory, and then changes nothing.
#[derive(Drop)]
pub struct MemDisk {
    alloc: Global,
    trace: Trace,
    counts: Counts,
}

impl MemDisk {
    ghost use Rattle.conc_edge_devices.specs.Calls.{calls_of, fails_of, MayLeaveIn, seen_in, starved_of};

    /// A disk that reads as these bytes, with nothing pending. The calls with these numbers, counted
    /// from 0, are to fail. It takes no memory.
    pub fn new(alloc: Global, bytes: Vec<u8>, fails: Vec<u64>) -> MemDisk
        ensures seen { (⟦<MemDisk as Disk>⟧.state result).seen ≡ Some bytes.items }
        ensures nothing_pending { (image : List ℕ)
            → (⟦<MemDisk as Disk>⟧.state result).may_leave image → image ≡ bytes.items }
        ensures moment { (⟦<MemDisk as Disk>⟧.state result).moment ≡ 0 }
        ensures faults { (⟦<MemDisk as Disk>⟧.state result).faults ≡ 0 }
        ensures fails { fails_of result ≡ fails.items }
        ensures calls { calls_of result ≡ 0 }
        ensures starved { starved_of result ≡ 0 }
    {
        MemDisk {
            alloc,
            trace: Trace::new(alloc, bytes),
            counts: Counts::new(fails),
        }
    }

    /// How often a call found no memory. Each of these calls is a fault too.
    pub fn starved(&self) -> u64
        ensures count { result ≡ starved_of self.now }
        ensures within { result ≤ (⟦<MemDisk as Disk>⟧.state self.now).faults }
    {
        self.counts.starved()
    }

    /// One image that a crash in the call with this number may leave, the calls being counted from 0.
    /// At the choice 0 nothing that was pending reached the disk, and at 1 all of it did. Any other
    /// takes a part of each write and cut, and an odd one also turns the rest of each write.
    pub fn image(&self, alloc: Global, calls: u64, choice: u64) -> Result<Vec<u8>, NoMemory>
        ensures in_call { IfOk result (λ image. MayLeaveIn self.now calls image.items) }
        ensures all { choice ≡ 1 → IfOk result (λ image. image.items ≡ seen_in self.now calls) }
        ensures since_start { IfOk result
            (λ image. (⟦<MemDisk as Disk>⟧.state self.now).left_since 0 image.items) }
    {
        Ok(image_in_call(alloc, &self.trace, calls, choice)?)
    }
}

impl Disk for MemDisk {
    ghost use Rattle.conc_edge_devices.specs.Calls.{calls_of, FailsAsListed, state_of};
    ghost use Rattle.conc_edge_devices.specs.Grows.{Grows, IsSame};
    ghost use Rattle.conc_edge_devices.specs.Promises.{Cuts, GivesLength, Reads, Syncs, Writes};
    ghost use Rattle.conc_edge_devices.specs.declared.trace.Act.TheVariants.{Write, Cut, Sync};

    ghost state = { λ d. state_of d };

    ghost seen_is_left = { λ d. seen-is-left d.trace.changes.items
        (start_of d.trace.first d.trace.bytes.items) d.trace.bytes.items d.trace.replays
        d.trace.fit };

    ghost now_counts = { λ d t c before left. now-counts d.trace.changes.items
        (start_of d.trace.first d.trace.bytes.items) t c before left };

    ghost only_now = { λ d c left. only-now d.trace.changes.items
        (start_of d.trace.first d.trace.bytes.items) c left };

    fn len(&mut self) -> Result<u64, Failed>
        ensures kept { GivesLength (state_of self.old) (state_of self.new) result }
        ensures exact { FailsAsListed self.old self.new result }
        ensures unchanged { IsSame self.old.trace self.new.trace }
    {
        self.counts.begin()?;
        Ok(self.trace.bytes().len() as u64)
    }

    fn read(&mut self, at: u64, into: &mut [u8]) -> Result<(), Failed>
        requires { Reaches (state_of self.old) (at + length into.old) }
        ensures kept { Reads at into.new (state_of self.old) (state_of self.new) result }
        ensures exact { FailsAsListed self.old self.new result }
        ensures unchanged { IsSame self.old.trace self.new.trace }
    {
        self.counts.begin()?;
        let from = at as usize;
        into.copy_from_slice(&self.trace.bytes()[from..from + into.len()]);
        Ok(())
    }

    fn write_at(&mut self, at: u64, bytes: &[u8]) -> Result<(), Failed>
        requires { Reaches (state_of self.old) at }
        ensures kept { Writes at bytes.now (state_of self.old) (state_of self.new) result }
        ensures exact { FailsAsListed self.old self.new result }
        ensures traced { OnOk result ((kept : Vec ℕ Global) × (kept.items ≡ bytes.now)
            × Grows self.old.trace self.new.trace (calls_of self.old) (Write at kept)) }
        ensures unchanged { OnErr result (IsSame self.old.trace self.new.trace) }
    {
        let number = self.counts.begin()?;
        match self.trace.write(self.alloc, number, at as usize, bytes) {
            Ok(()) => Ok(()),
            Err(_) => Err(self.counts.starve()),
        }
    }

    fn cut(&mut self, len: u64) -> Result<(), Failed>
        requires { Reaches (state_of self.old) len }
        ensures kept { Cuts len (state_of self.old) (state_of self.new) result }
        ensures exact { FailsAsListed self.old self.new result }
        ensures traced { OnOk result (Grows self.old.trace self.new.trace (calls_of self.old)
            (Cut len)) }
        ensures unchanged { OnErr result (IsSame self.old.trace self.new.trace) }
    {
        let number = self.counts.begin()?;
        match self.trace.cut(self.alloc, number, len as usize) {
            Ok(()) => Ok(()),
            Err(_) => Err(self.counts.starve()),
        }
    }

    fn sync(&mut self) -> Result<(), Failed>
        ensures kept { Syncs (state_of self.old) (state_of self.new) result }
        ensures exact { FailsAsListed self.old self.new result }
        ensures traced { OnOk result (Grows self.old.trace self.new.trace (calls_of self.old)
            Sync) }
        ensures unchanged { OnErr result (IsSame self.old.trace self.new.trace) }
    {
        let number = self.counts.begin()?;
        match self.trace.sync(number) {
            Ok(()) => Ok(()),
            Err(_) => Err(self.counts.starve()),
        }
    }
}
