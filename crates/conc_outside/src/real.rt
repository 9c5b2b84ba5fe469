// The edge, which is trusted: that the bytes of a `FileShelf` are those of the file that the system
// has under the name, and that the bytes given to a `WriterSink` reach its writer. No clause can say
// either, so neither type exposes what it holds. A call that a signal interrupts is made again.
ghost use Rattle.std.specs.Prelude.{◌≡◌, ◌≢◌, ◌<◌, ◌≤◌, [], None, length, vec_len, IfOk, IsErrOf};
ghost use Rattle.conc_outside.specs.declared.error.ShelfFail.TheVariants.{Absent};

use crate::shelf::MOST_BYTES;
use crate::system::{is_at_one_of, read_up_to};
use crate::{Failed, Shelf, ShelfFail, Sink};
use conc_types::Name;
use std::alloc::Global;
use std::fs;
use std::io::{ErrorKind, Write};
use std::rt::Files;

/// The files of the system, each opened by its name as a path, but for those that stand at the paths
/// of the disks. A name at which nothing is found is `Absent`. Every other error of the system is
/// `Failed`, a folder and the file of a disk among them. Both are counted. The counts are of 64 bits
/// and stand still at their end.
#[derive(Drop)]
pub struct FileShelf<'a, R: Files> {
    rt: &'a R,
    disks: &'a [&'a str],
    absences: u64,
    faults: u64,
}

impl<'a, R: Files> FileShelf<'a, R> {
    /// A shelf of the files that this handle opens, where the disks stand at these paths. It takes no
    /// memory.
    pub fn new(rt: &'a R, disks: &'a [&'a str]) -> Self
        ensures { ⟦<FileShelf<'a, R> as Shelf>⟧.state result
            ≡ record { files = None; absences = 0; faults = 0 } }
    {
        FileShelf {
            rt,
            disks,
            absences: 0,
            faults: 0,
        }
    }
}

/// Opens the file at this path. It is absent where the system finds nothing there.
fn open<R: Files>(rt: &R, path: &str) -> Result<R::File, ShelfFail> {
    match fs::open(rt, path) {
        Ok(file) => Ok(file),
        Err(error) if error.kind() == ErrorKind::NotFound => Err(ShelfFail::Absent),
        Err(_) => Err(ShelfFail::Failed),
    }
}

/// The bytes of the file at this path, or the first of them, unless it is that of a disk.
fn read_front<R: Files>(
    rt: &R,
    alloc: Global,
    path: &str,
    disks: &[&str],
) -> Result<Vec<u8>, ShelfFail>
    ensures few { IfOk result (λ bytes. vec_len bytes ≤ MOST_BYTES) }
{
    let mut file = open(rt, path)?;
    if !matches!(is_at_one_of(rt, &file, disks), Ok(false)) {
        return Err(ShelfFail::Failed);
    }
    read_up_to(alloc, &mut file, MOST_BYTES)
}

impl<'a, R: Files> Shelf for FileShelf<'a, R> {
    ghost state = { λ s. record { files = None; absences = s.absences; faults = s.faults } };

    fn read_file(&mut self, alloc: Global, name: &Name) -> Result<Vec<u8>, ShelfFail> {
        let read = match str::from_utf8(name.as_bytes()) {
            Ok(path) => read_front(self.rt, alloc, path, self.disks),
            // A name is UTF-8, so this does not come.
            Err(_) => Err(ShelfFail::Failed),
        };
        match read {
            Ok(bytes) => Ok(bytes),
            Err(ShelfFail::Absent) => {
                self.absences = self.absences.saturating_add(1);
                Err(ShelfFail::Absent)
            }
            Err(ShelfFail::Failed) => {
                self.faults = self.faults.saturating_add(1);
                Err(ShelfFail::Failed)
            }
            Err(ShelfFail::NoMemory) => Err(ShelfFail::NoMemory),
        }
    }
}

/// Gives the writer a piece, and says how many of its bytes it took.
fn write_some<W: Write>(writer: &mut W, piece: &[u8]) -> Result<usize, Failed>
    ensures within { IfOk result (λ n. n ≤ length piece.now) }
    ensures some { IfOk result (λ n. piece.now ≢ [] → 0 < n) }
{
    for _ in 0..u64::MAX {
        match writer.write(piece) {
            Ok(n) if n <= piece.len() && (0 < n || piece.is_empty()) => return Ok(n),
            Err(error) if error.kind() == ErrorKind::Interrupted => {}
            _ => break,
        }
    }
    Err(Failed)
}

/// The sink that writes to a writer. A write fails and is counted where the writer answers with an
/// error, takes nothing of a piece that has bytes, or says that it took more than the piece. The
/// count is of 64 bits and stands still at its end.
#[derive(Drop)]
pub struct WriterSink<W: Write> {
    writer: W,
    faults: u64,
}

impl<W: Write> WriterSink<W> {
    /// A sink over this writer. It takes no memory.
    pub fn new(writer: W) -> Self
        ensures faults { (⟦<WriterSink<W> as Sink>⟧.state result).faults ≡ 0 }
    {
        WriterSink { writer, faults: 0 }
    }
}

impl<W: Write> Sink for WriterSink<W> {
    ghost state = { λ s. record { taken = None; faults = s.faults } };

    fn write(&mut self, piece: &[u8]) -> Result<usize, Failed> {
        let taken = write_some(&mut self.writer, piece);
        if taken.is_err() {
            self.faults = self.faults.saturating_add(1);
        }
        taken
    }
}
