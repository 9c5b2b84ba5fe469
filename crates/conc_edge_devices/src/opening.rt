// The edge, which is trusted: that the system gives the lock on a file to one opening at a time, and
// takes it back where the process ends, however it ends.
ghost use Rattle.std.specs.Prelude.{◌≡◌, IfOk};
ghost use Rattle.conc_edge_devices.specs.Files.{file_state};

use crate::FileDisk;
use conc_outside::{Failed, is_at_one_of, metadata_at};
use std::fs::{File, OpenFile, OpenOptions};
use std::io::ErrorKind;
use std::os::unix::fs::FileExt;
use std::path::Path;
use std::rt::Files;

/// An open file that can be locked.
pub trait LockFile {
    /// Takes the lock on the whole file, which goes with the open file. It fails where another opening
    /// has the lock, in this process or another one.
    fn lock_file(&self) -> Result<(), Failed>;
}

impl LockFile for File {
    fn lock_file(&self) -> Result<(), Failed> {
        self.try_lock().map_err(|_| Failed)
    }
}

/// Opens a file that is there, for reading, and for writing too where it is asked for.
pub(crate) fn open_old<R: Files>(
    rt: &R,
    path: &str,
    writes: bool,
) -> Result<Option<R::File>, Failed> {
    match OpenOptions::new().read(true).write(writes).open(rt, path) {
        Ok(file) => Ok(Some(file)),
        Err(error) if error.kind() == ErrorKind::NotFound => Ok(None),
        Err(_) => Err(Failed),
    }
}

/// Opens a plain file for reading. Returns `None` where there is no file, and fails where something else is there,
/// which it does not open: to open a pipe is to wait for a writer.
pub(crate) fn open_plain<R: Files>(rt: &R, path: &str) -> Result<Option<R::File>, Failed> {
    match metadata_at(rt, path) {
        Ok(told) if told.is_file() => open_old(rt, path, false),
        Ok(_) => Err(Failed),
        Err(error) if error.kind() == ErrorKind::NotFound => Ok(None),
        Err(_) => Err(Failed),
    }
}

/// Fails where an open file is at one of these paths too.
pub(crate) fn must_be_elsewhere<R: Files>(
    rt: &R,
    file: &R::File,
    others: &[&str],
) -> Result<(), Failed> {
    if is_at_one_of(rt, file, others)? {
        return Err(Failed);
    }
    Ok(())
}

/// Brings the entries of the folder in which this file stands to the disk.
fn sync_folder<R: Files>(rt: &R, path: &str) -> Result<(), Failed> {
    let opened = match Path::new(path).parent() {
        Some(folder) if !folder.as_str().is_empty() => File::open(rt, folder),
        _ => File::open(rt, "."),
    };
    let folder = opened.map_err(|_| Failed)?;
    folder.sync_all().map_err(|_| Failed)
}

/// Makes a file that is not there, with its name on the disk.
fn make_new<R: Files>(rt: &R, path: &str) -> Result<R::File, Failed> {
    let file = File::create_new(rt, path).map_err(|_| Failed)?;
    file.sync_all().map_err(|_| Failed)?;
    sync_folder(rt, path)?;
    Ok(file)
}

/// Opens the file at this path as a disk that nobody else has, and makes it where there is none: then
/// its name is on the disk too. It fails where another opening has the lock on the file, and where the
/// file stands at one of the other paths too.
pub fn open_disk<R: Files>(rt: &R, path: &str, others: &[&str]) -> Result<FileDisk<R::File>, Failed>
where
    R::File: FileExt + LockFile,
    ensures { IfOk result (λ disk. (file_state disk).faults ≡ 0) }
{
    let file = match open_old(rt, path, true)? {
        Some(file) => file,
        None => make_new(rt, path)?,
    };
    file.lock_file()?;
    must_be_elsewhere(rt, &file, others)?;
    Ok(FileDisk::new(file))
}
