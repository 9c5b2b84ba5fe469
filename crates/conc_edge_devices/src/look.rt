// The edge, which is trusted: that a read gives what the file has. The disks of this page are for looking
// alone: they open the file for reading, make none, write nothing, and lock nothing, so that they stand
// beside a run that has the file. Where there is no file they look at an empty one.
ghost use Rattle.std.specs.Prelude.{◌≡◌, ◌≤◌, IfOk, IsErr, vec_len};
ghost use Rattle.conc_outside.specs.Counts.{Rose};
ghost use Rattle.conc_edge_devices.specs.Looks.{growing_state, snapshot_state};

use crate::faults::Faults;
use crate::file::{length_of, read_piece};
use crate::opening::{must_be_elsewhere, open_plain};
use conc_disk::Disk;
use conc_outside::{Failed, metadata_of, read_up_to};
use std::alloc::Global;
use std::os::unix::fs::FileExt;
use std::rt::Files;

/// A look at a file that others may append to, whose first bytes stay. Each call opens the file. A call
/// that fails is counted, and so is each that would write. The count is of 64 bits and stands still at
/// its end.
#[derive(Drop)]
pub struct GrowingDisk<'a, R: Files> {
    rt: &'a R,
    path: &'a str,
    others: &'a [&'a str],
    faults: Faults,
}

impl<'a, R: Files> GrowingDisk<'a, R> {
    /// A look at the file at this path, which may stand at none of the others. It opens nothing and
    /// takes no memory.
    pub fn new(rt: &'a R, path: &'a str, others: &'a [&'a str]) -> Self
        ensures { (growing_state result).faults ≡ 0 }
    {
        GrowingDisk {
            rt,
            path,
            others,
            faults: Faults::new(),
        }
    }

    /// Opens the file for reading. Returns `None` where there is no file; fails where what is there is no plain file,
    /// and where it is at one of the other paths too.
    fn open(&self) -> Result<Option<R::File>, Failed> {
        let opened = open_plain(self.rt, self.path)?;
        if let Some(file) = &opened {
            must_be_elsewhere(self.rt, file, self.others)?;
            if !metadata_of(file)?.is_file() {
                return Err(Failed);
            }
        }
        Ok(opened)
    }

    /// The first bytes of the file, up to so many; none where there is no file.
    fn first_bytes(&self, alloc: Global, most: usize) -> Result<Vec<u8>, Failed>
        ensures { IfOk result (λ bytes. vec_len bytes ≤ most) }
    {
        let Some(mut file) = self.open()? else {
            return Ok(Vec::new(alloc));
        };
        read_up_to(alloc, &mut file, most).map_err(|_| Failed)
    }

    /// Fails, and counts that.
    fn refuse(&mut self) -> Result<(), Failed>
        ensures fails { IsErr result }
        ensures later { self.old.faults.count ≤ self.new.faults.count }
        ensures fault { Rose self.old.faults.count self.new.faults.count }
    {
        self.faults.counted(Err(Failed))
    }

    /// The length of the file.
    fn length(&self) -> Result<u64, Failed> {
        match self.open()? {
            Some(file) => length_of(&file),
            None => Ok(0),
        }
    }

    /// Fills the piece with the bytes of the file from here on.
    fn fill(&self, at: u64, into: &mut [u8]) -> Result<(), Failed>
    where
        R::File: FileExt,
    {
        match self.open()? {
            Some(file) => read_piece(&file, at, into),
            None if at == 0 && into.is_empty() => Ok(()),
            None => Err(Failed),
        }
    }
}

impl<'a, R: Files> Disk for GrowingDisk<'a, R>
where
    R::File: FileExt,
{
    ghost state = { λ d. growing_state d };

    ghost seen_is_left = { λ d. tt };

    ghost now_counts = { λ d t c before left. tt };

    ghost only_now = { λ d c left. tt };

    fn len(&mut self) -> Result<u64, Failed> {
        let done = self.length();
        self.faults.counted(done)
    }

    fn read(&mut self, at: u64, into: &mut [u8]) -> Result<(), Failed> {
        let done = self.fill(at, into);
        self.faults.counted(done)
    }

    fn write_at(&mut self, _at: u64, _bytes: &[u8]) -> Result<(), Failed> {
        self.refuse()
    }

    fn cut(&mut self, _len: u64) -> Result<(), Failed> {
        self.refuse()
    }

    /// Nothing was written.
    fn sync(&mut self) -> Result<(), Failed> {
        Ok(())
    }
}

/// A look at what a file had as it was first used. The first call that needs the bytes reads the file
/// once, from its first byte to its end or up to a limit, and each later one is answered from what was
/// read. So whatever is appended to the file meanwhile is seen up to some byte, or not at all. A call
/// that fails is counted, one that finds no memory among them, and so is each that would write. The
/// count is of 64 bits and stands still at its end.
#[derive(Drop)]
pub struct SnapshotDisk<'a, R: Files> {
    file: GrowingDisk<'a, R>,
    alloc: Global,
    most: usize,
    // Once they are read.
    bytes: Option<Vec<u8>>,
}

/// Fills the piece with those of the bytes that stand from here on.
fn copy_from(bytes: &[u8], at: u64, into: &mut [u8]) -> Result<(), Failed> {
    let rest = usize::try_from(at).ok().and_then(|at| bytes.get(at..));
    let piece = rest.and_then(|rest| rest.get(..into.len())).ok_or(Failed)?;
    into.copy_from_slice(piece);
    Ok(())
}

impl<'a, R: Files> SnapshotDisk<'a, R> {
    /// A look at the first bytes of the file at this path, up to so many. The file may stand at none of
    /// the other paths. It opens nothing and takes no memory.
    pub fn new(rt: &'a R, alloc: Global, path: &'a str, others: &'a [&'a str], most: usize) -> Self
        ensures { (snapshot_state result).faults ≡ 0 }
    {
        SnapshotDisk {
            file: GrowingDisk::new(rt, path, others),
            alloc,
            most,
            bytes: None,
        }
    }

    /// Reads what the file has, where it was not read yet.
    fn look(&mut self) -> Result<(), Failed>
        ensures faults { self.new.file.faults ≡ self.old.file.faults }
    {
        if self.bytes.is_none() {
            let bytes = self.file.first_bytes(self.alloc, self.most)?;
            self.bytes = Some(bytes);
        }
        Ok(())
    }

    /// What was read.
    fn seen(&self) -> &[u8] {
        match &self.bytes {
            Some(bytes) => bytes,
            None => &[],
        }
    }

    /// Fills the piece with those of the bytes that stand from here on.
    fn fill(&mut self, at: u64, into: &mut [u8]) -> Result<(), Failed>
        ensures faults { self.new.file.faults ≡ self.old.file.faults }
    {
        self.look()?;
        copy_from(self.seen(), at, into)
    }
}

impl<'a, R: Files> Disk for SnapshotDisk<'a, R> {
    ghost state = { λ d. snapshot_state d };

    ghost seen_is_left = { λ d. tt };

    ghost now_counts = { λ d t c before left. tt };

    ghost only_now = { λ d c left. tt };

    fn len(&mut self) -> Result<u64, Failed> {
        let done = self.look().map(|()| self.seen().len() as u64);
        self.file.faults.counted(done)
    }

    fn read(&mut self, at: u64, into: &mut [u8]) -> Result<(), Failed> {
        let done = self.fill(at, into);
        self.file.faults.counted(done)
    }

    fn write_at(&mut self, _at: u64, _bytes: &[u8]) -> Result<(), Failed> {
        self.file.refuse()
    }

    fn cut(&mut self, _len: u64) -> Result<(), Failed> {
        self.file.refuse()
    }

    /// Nothing was written.
    fn sync(&mut self) -> Result<(), Failed> {
        Ok(())
    }
}
