// The edge, which is trusted: what the system gives of its files and tells of them. No clause can say
// it. Each call that a signal interrupts is made again.
ghost use Rattle.std.specs.Prelude.{◌≤◌, length, vec_len, IfOk, IsErrOf};
ghost use Rattle.conc_outside.specs.declared.error.ShelfFail.TheVariants.{Absent};

use crate::{Failed, ShelfFail};
use std::alloc::Global;
use std::fs::{Metadata, OpenFile};
use std::io::{ErrorKind, Read};
use std::os::unix::fs::MetadataExt;
use std::rt::Files;
use std::{fs, io};

/// How much is asked for at once.
const PIECE: usize = 65_536;

/// Reads some of the bytes that come next, or none at the end.
fn read_piece<F: Read>(file: &mut F, piece: &mut [u8]) -> Result<usize, ShelfFail>
    ensures within { IfOk result (λ n. n ≤ length piece.old) }
    ensures not_absent { IsErrOf result Absent → ⊥ }
{
    for _ in 0..u64::MAX {
        match file.read(piece) {
            Ok(n) => return Ok(n),
            Err(error) if error.kind() == ErrorKind::Interrupted => {}
            Err(_) => break,
        }
    }
    Err(ShelfFail::Failed)
}

/// Reads to the end, or up to so many bytes.
pub fn read_up_to<F: Read>(alloc: Global, file: &mut F, most: usize) -> Result<Vec<u8>, ShelfFail>
    ensures few { IfOk result (λ bytes. vec_len bytes ≤ most) }
    ensures not_absent { IsErrOf result Absent → ⊥ }
{
    let mut piece = vec![in alloc; 0u8; PIECE]?;
    let mut bytes = Vec::new(alloc);
    while bytes.len() < most {
        let wanted = piece.len().min(most - bytes.len());
        let n = read_piece(file, &mut piece[..wanted])?;
        if n == 0 {
            break;
        }
        bytes.extend_from_slice(&piece[..n])?;
    }
    Ok(bytes)
}

/// What the system tells of an open file.
pub fn metadata_of<F: OpenFile>(file: &F) -> Result<Metadata, Failed> {
    for _ in 0..u64::MAX {
        match file.metadata() {
            Ok(metadata) => return Ok(metadata),
            Err(error) if error.kind() == ErrorKind::Interrupted => {}
            Err(_) => return Err(Failed),
        }
    }
    Err(Failed)
}

/// What the system tells of the file at a path.
pub fn metadata_at<R: Files>(rt: &R, path: &str) -> io::Result<Metadata> {
    for _ in 0..u64::MAX {
        match fs::metadata(rt, path) {
            Err(error) if error.kind() == ErrorKind::Interrupted => {}
            told => return told,
        }
    }
    Err(io::Error::from(ErrorKind::Interrupted))
}

/// Whether an open file is at one of these paths too: links count, since the system tells each
/// file by its device and its number there. Where it shows nothing at a path, no file stands there.
pub fn is_at_one_of<R: Files>(rt: &R, file: &R::File, paths: &[&str]) -> Result<bool, Failed> {
    let own = metadata_of(file)?;
    for path in paths {
        if let Ok(other) = metadata_at(rt, path)
            && other.dev() == own.dev()
            && other.ino() == own.ino()
        {
            return Ok(true);
        }
    }
    Ok(false)
}
