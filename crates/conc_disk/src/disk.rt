ghost use Rattle.std.specs.Prelude.{◌≡◌, ℕ, ◌+◌, ◌≤◌, List, length, take, IfOk, IfSome, OnErr, OnOk};
ghost use Rattle.std.specs.Option.{option_map};
ghost use Rattle.conc_outside.specs.Counts.{Rose};
ghost use Rattle.conc_disk.specs.Disk.{DiskState, Follows, HasAt, HasLength, IsLater, LeavesWhatWasSeen, Reaches, SeenFollows, Shortened, Stays, Torn, written};

use conc_outside::Failed;

/// A disk whose machine may crash at any moment. Between two syncs each written range, and the part
/// past the old end, may hold any bytes after a crash; all other bytes stay. After a sync that
/// succeeds a crash leaves what a read gives. A disk may expose nothing of its bytes; then it fails
/// where a range does not fit. A call fails only where the count of faults rises.
pub trait Disk {
    /// What it exposes, and its count of faults.
    ghost state: { Self → DiskState };

    /// The number of bytes that a read gives.
    fn len(&mut self) -> Result<u64, Failed>
        ensures later { IsLater (state self.old) (state self.new) }
        ensures length { IfOk result (λ n. HasLength (state self.old) n) }
        ensures stays { Stays (state self.old) (state self.new) }
        ensures failed { OnErr result (Rose (state self.old).faults (state self.new).faults) };

    /// Fills the piece with the bytes from here on. After a failure it may hold anything.
    fn read(&mut self, at: u64, into: &mut [u8]) -> Result<(), Failed>
        requires { Reaches (state self.old) (at + length into.old) }
        ensures later { IsLater (state self.old) (state self.new) }
        ensures bytes { OnOk result (HasAt (state self.old) at into.new) }
        ensures stays { Stays (state self.old) (state self.new) }
        ensures failed { OnErr result (Rose (state self.old).faults (state self.new).faults) };

    /// Writes the bytes from here on, over what is there and past the end. Until a sync, and after a
    /// failure, the range may hold anything.
    fn write_at(&mut self, at: u64, bytes: &[u8]) -> Result<(), Failed>
        requires { Reaches (state self.old) at }
        ensures later { IsLater (state self.old) (state self.new) }
        ensures written { OnOk result ((state self.new).seen
            ≡ option_map (written at bytes.now) (state self.old).seen) }
        ensures torn { OnErr result (SeenFollows (Torn at (length bytes.now)) (state self.old)
            (state self.new)) }
        ensures images { Follows (Torn at (length bytes.now)) (state self.old) (state self.new) }
        ensures failed { OnErr result (Rose (state self.old).faults (state self.new).faults) };

    /// Takes off what is past this length. Until a sync, and after a failure, some of it may stay.
    fn cut(&mut self, len: u64) -> Result<(), Failed>
        requires { Reaches (state self.old) len }
        ensures later { IsLater (state self.old) (state self.new) }
        ensures cut { OnOk result ((state self.new).seen
            ≡ option_map (λ bytes. take len bytes) (state self.old).seen) }
        ensures torn { OnErr result (SeenFollows (Shortened len) (state self.old)
            (state self.new)) }
        ensures images { Follows (Shortened len) (state self.old) (state self.new) }
        ensures failed { OnErr result (Rose (state self.old).faults (state self.new).faults) };

    /// Brings all that was written to the disk: from then on a crash leaves what a read gives.
    fn sync(&mut self) -> Result<(), Failed>
        ensures later { IsLater (state self.old) (state self.new) }
        ensures durable { OnOk result (LeavesWhatWasSeen (state self.old) (state self.new)) }
        ensures stays { Stays (state self.old) (state self.new) }
        ensures failed { OnErr result (Rose (state self.old).faults (state self.new).faults) };

    /// What a read gives is one of the images.
    ghost seen_is_left: { (disk : Self) → IfSome (state disk).seen (state disk).may_leave };

    /// Now is one of the moments since an earlier one.
    ghost now_counts: { (disk : Self) (t : ℕ) (c : List ℕ) → t ≤ (state disk).moment
        → (state disk).may_leave c → (state disk).left_since t c };

    /// Since now there is no other moment.
    ghost only_now: { (disk : Self) (c : List ℕ) → (state disk).left_since (state disk).moment c
        → (state disk).may_leave c };
}
