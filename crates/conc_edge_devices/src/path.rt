ghost use Rattle.std.specs.Prelude.{◌≡◌, ◌≤◌, is_err, None, IfSome, IsSomeAnd, OnErr};
ghost use Rattle.std.specs.Fn.{FnOnceReturnsAtMut};
ghost use Rattle.conc_outside.specs.Counts.{Rose};
ghost use Rattle.conc_edge_devices.specs.Promises.{Cuts, GivesLength, Reads, Syncs, Writes};

use crate::faults::Faults;
use crate::{FileDisk, LockFile, open_disk};
use conc_disk::Disk;
use conc_outside::Failed;
use std::os::unix::fs::FileExt;
use std::rt::Files;

/// A disk over the file at a path. The first call opens and locks the file, and makes it where there is
/// none; where that fails the call fails, and the next one tries again. From then on each call is one of
/// the `FileDisk`, so it exposes nothing of its bytes, and after a sync that failed each call fails. Each
/// call that fails is counted. The count is of 64 bits and stands still at its end.
#[derive(Drop)]
pub struct PathDisk<'a, R: Files>
where
    R::File: FileExt + LockFile,
{
    rt: &'a R,
    path: &'a str,
    others: &'a [&'a str],
    // Where it is open.
    disk: Option<FileDisk<R::File>>,
    faults: Faults,
}

impl<'a, R: Files> PathDisk<'a, R>
where
    R::File: FileExt + LockFile,
{
    /// A disk over the file at this path, which may stand at none of the others. It opens nothing and
    /// takes no memory.
    pub fn new(rt: &'a R, path: &'a str, others: &'a [&'a str]) -> Self
        ensures faults { (⟦<PathDisk<'a, R> as Disk>⟧.state result).faults ≡ 0 }
        ensures path { result.path.now ≡ path.now }
        ensures closed { result.disk ≡ None }
    {
        PathDisk {
            rt,
            path,
            others,
            disk: None,
            faults: Faults::new(),
        }
    }

    /// What a call to the open file gives. The file is opened where it is not open yet, and a call that
    /// fails is counted.
    fn call<T, C: FnOnce(&mut FileDisk<R::File>) -> Result<T, Failed>>(
        &mut self,
        call: C,
    ) -> Result<T, Failed>
        requires { C.IsAlwaysCallable call }
        ensures handed_on { IfSome self.old.disk
            (λ before. IsSomeAnd self.new.disk
            (λ after. FnOnceReturnsAtMut C.FnOnce call before result after)) }
        ensures later { self.old.faults.count ≤ self.new.faults.count }
        ensures failed { OnErr result (Rose self.old.faults.count self.new.faults.count) }
    {
        let (rt, path, others) = (self.rt, self.path, self.others);
        let done = match self
            .disk
            .get_or_try_insert_with(|| open_disk(rt, path, others))
        {
            Ok(disk) => call(disk),
            Err(error) => Err(error),
        };
        self.faults.counted(done)
    }
}

impl<'a, R: Files> Disk for PathDisk<'a, R>
where
    R::File: FileExt + LockFile,
{
    ghost use Rattle.conc_edge_devices.specs.Paths.{CallsPath, path_state};

    ghost state = { λ d. path_state d };

    ghost seen_is_left = { λ d. tt };

    ghost now_counts = { λ d t c before left. tt };

    ghost only_now = { λ d c left. tt };

    fn len(&mut self) -> Result<u64, Failed>
        ensures { CallsPath GivesLength (λ broken. broken) self.old self.new result }
    {
        self.call(|disk| disk.len())
    }

    fn read(&mut self, at: u64, into: &mut [u8]) -> Result<(), Failed>
        ensures { CallsPath (Reads at into.new) (λ broken. broken) self.old self.new result }
    {
        self.call(|disk| disk.read(at, into))
    }

    fn write_at(&mut self, at: u64, bytes: &[u8]) -> Result<(), Failed>
        ensures { CallsPath (Writes at bytes.now) (λ broken. broken) self.old self.new result }
    {
        self.call(|disk| disk.write_at(at, bytes))
    }

    fn cut(&mut self, len: u64) -> Result<(), Failed>
        ensures { CallsPath (Cuts len) (λ broken. broken) self.old self.new result }
    {
        self.call(|disk| disk.cut(len))
    }

    fn sync(&mut self) -> Result<(), Failed>
        ensures { CallsPath Syncs (λ broken. is_err result) self.old self.new result }
    {
        self.call(|disk| disk.sync())
    }
}
