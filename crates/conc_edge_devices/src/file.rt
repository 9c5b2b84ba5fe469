// The edge, which is trusted: that a read gives what was written, that a cut takes off what is past
// its length, that a sync which succeeds has brought all of it to the disk, and that nobody else
// writes the file, which is locked. No clause can say any of this, so a `FileDisk` exposes nothing of
// its bytes.
ghost use Rattle.std.specs.Prelude.{◌≡◌, ◌≤◌, is_err, IsErr, IsTrue, OnErr, false};
ghost use Rattle.conc_outside.specs.Counts.{Rose};
ghost use Rattle.conc_edge_devices.specs.Promises.{Cuts, GivesLength, Reads, Syncs, Writes};

use crate::faults::Faults;
use conc_disk::Disk;
use conc_outside::{Failed, metadata_of};
use std::fs::OpenFile;
use std::os::unix::fs::FileExt;

/// An open file that nobody else writes.
#[derive(Drop)]
struct OwnFile<F: FileExt + OpenFile> {
    file: F,
    // Where it is known.
    length: Option<u64>,
}

/// A disk over a file. Every error of the system is a fault, and so is a range that does not fit.
/// After a sync that failed each call fails, since what the system then still has to write is
/// unknown. The count is of 64 bits and stands still at its end.
#[derive(Drop)]
pub struct FileDisk<F: FileExt + OpenFile> {
    own: OwnFile<F>,
    broken: bool,
    faults: Faults,
}

/// The length of a file.
pub(crate) fn length_of<F: OpenFile>(file: &F) -> Result<u64, Failed> {
    Ok(metadata_of(file)?.len())
}

/// Whether a range of so many bytes from here on is within a file.
fn is_within<F: OpenFile>(file: &F, at: u64, bytes: usize) -> Result<bool, Failed> {
    let len = length_of(file)?;
    Ok(at.checked_add(bytes as u64).is_some_and(|end| end <= len))
}

/// Fills the piece with the bytes from here on.
pub(crate) fn read_piece<F: FileExt + OpenFile>(
    file: &F,
    at: u64,
    into: &mut [u8],
) -> Result<(), Failed> {
    if !is_within(file, at, into.len())? {
        return Err(Failed);
    }
    file.read_exact_at(into, at).map_err(|_| Failed)
}

impl<F: FileExt + OpenFile> OwnFile<F> {
    /// The length of the file, which is asked for where it is not known.
    fn length(&mut self) -> Result<u64, Failed> {
        if let Some(length) = self.length {
            return Ok(length);
        }
        let length = length_of(&self.file)?;
        self.length = Some(length);
        Ok(length)
    }

    /// Writes the bytes from here on, which is within the file or its end.
    fn write_piece(&mut self, at: u64, bytes: &[u8]) -> Result<(), Failed> {
        let length = self.length()?;
        if at > length {
            return Err(Failed);
        }
        self.length = None;
        self.file.write_all_at(bytes, at).map_err(|_| Failed)?;
        self.length = at
            .checked_add(bytes.len() as u64)
            .map(|end| length.max(end));
        Ok(())
    }

    /// Takes off what is past this length.
    fn cut_to(&mut self, len: u64) -> Result<(), Failed> {
        if len > self.length()? {
            return Err(Failed);
        }
        self.length = None;
        self.file.set_len(len).map_err(|_| Failed)?;
        self.length = Some(len);
        Ok(())
    }

    /// Brings all that was written to the disk, and the length of the file with it.
    fn sync_whole(&self) -> Result<(), Failed> {
        self.file.sync_data().map_err(|_| Failed)
    }
}

impl<F: FileExt + OpenFile> FileDisk<F> {
    ghost use Rattle.conc_edge_devices.specs.Files.{is_broken};

    /// A disk over an open file. It takes no memory.
    pub fn new(file: F) -> Self
        ensures faults { (⟦<FileDisk<F> as Disk>⟧.state result).faults ≡ 0 }
        ensures sound { is_broken result ≡ false }
    {
        FileDisk {
            own: OwnFile { file, length: None },
            broken: false,
            faults: Faults::new(),
        }
    }

    /// What a call to the file gives, which is not made after a sync that failed. A call that fails is counted.
    fn call<T, C: FnOnce(&mut OwnFile<F>) -> Result<T, Failed>>(
        &mut self,
        call: C,
    ) -> Result<T, Failed>
        requires { C.IsAlwaysCallable call }
        ensures later { self.old.faults.count ≤ self.new.faults.count }
        ensures failed { OnErr result (Rose self.old.faults.count self.new.faults.count) }
        ensures broken { IsTrue (is_broken self.old) → IsErr result }
        ensures stays_broken { is_broken self.new ≡ is_broken self.old }
    {
        let done = if self.broken {
            Err(Failed)
        } else {
            call(&mut self.own)
        };
        self.faults.counted(done)
    }
}

impl<F: FileExt + OpenFile> Disk for FileDisk<F> {
    ghost use Rattle.conc_edge_devices.specs.Files.{CallsFile, file_state, is_broken};

    ghost state = { λ d. file_state d };

    ghost seen_is_left = { λ d. tt };

    ghost now_counts = { λ d t c before left. tt };

    ghost only_now = { λ d c left. tt };

    fn len(&mut self) -> Result<u64, Failed>
        ensures called { CallsFile GivesLength self.old self.new result }
        ensures stays_broken { is_broken self.new ≡ is_broken self.old }
    {
        self.call(|own| length_of(&own.file))
    }

    fn read(&mut self, at: u64, into: &mut [u8]) -> Result<(), Failed>
        ensures called { CallsFile (Reads at into.new) self.old self.new result }
        ensures stays_broken { is_broken self.new ≡ is_broken self.old }
    {
        self.call(|own| read_piece(&own.file, at, into))
    }

    fn write_at(&mut self, at: u64, bytes: &[u8]) -> Result<(), Failed>
        ensures called { CallsFile (Writes at bytes.now) self.old self.new result }
        ensures stays_broken { is_broken self.new ≡ is_broken self.old }
    {
        self.call(|own| own.write_piece(at, bytes))
    }

    fn cut(&mut self, len: u64) -> Result<(), Failed>
        ensures called { CallsFile (Cuts len) self.old self.new result }
        ensures stays_broken { is_broken self.new ≡ is_broken self.old }
    {
        self.call(|own| own.cut_to(len))
    }

    fn sync(&mut self) -> Result<(), Failed>
        ensures called { CallsFile Syncs self.old self.new result }
        ensures breaks { is_broken self.new ≡ is_err result }
    {
        let done = self.call(|own| own.sync_whole());
        self.broken = done.is_err();
        done
    }
}
