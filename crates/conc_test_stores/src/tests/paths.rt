use super::expect::same;
use conc_disk::Disk;
use conc_edge_devices::{GrowingDisk, LockFile, PathDisk, SnapshotDisk};
use conc_outside::Failed;
use std::alloc::Global;
use std::os::unix::fs::FileExt;
use std::process::Abort;
use std::rt::Files;
use std::test::Fail;
use std::{fs, process};

// Leaves four bytes on the disk, which no other disk has meanwhile.
fn write_alone<R: Files + Abort>(rt: &R, path: &str, disk: &mut PathDisk<R>) -> Result<(), Fail>
where
    R::File: FileExt + LockFile,
{
    disk.write_at(0, b"abcdef")?;
    disk.cut(4)?;
    disk.sync()?;
    let mut read = [0u8; 3];
    disk.read(1, &mut read)?;
    same(rt, read, *b"bcd");
    same(rt, PathDisk::new(rt, path, &[]).len(), Err(Failed));
    Ok(())
}

// Looks at four bytes while a fifth is written.
fn look_beside<R: Files + Abort>(
    rt: &R,
    alloc: Global,
    path: &str,
    disk: &mut PathDisk<R>,
) -> Result<(), Fail>
where
    R::File: FileExt + LockFile,
{
    let mut snapshot = SnapshotDisk::new(rt, alloc, path, &[], 100);
    same(rt, snapshot.len(), Ok(4));
    disk.write_at(4, b"e")?;
    let mut read = [0u8; 3];
    snapshot.read(1, &mut read)?;
    same(rt, read, *b"bcd");
    same(rt, snapshot.read(2, &mut read), Err(Failed));
    same(rt, snapshot.write_at(0, b"x"), Err(Failed));
    let mut growing = GrowingDisk::new(rt, path, &[]);
    growing.read(2, &mut read)?;
    same(rt, read, *b"cde");
    same(rt, growing.read(3, &mut read), Err(Failed));
    same(rt, growing.cut(0), Err(Failed));
    // Only so many bytes are looked at, and none where the file is another disk's too.
    same(rt, SnapshotDisk::new(rt, alloc, path, &[], 3).len(), Ok(3));
    same(rt, GrowingDisk::new(rt, path, &[path]).len(), Err(Failed));
    Ok(())
}

#[test]
fn a_disk_is_opened_at_its_first_use(rt: HostRuntime) -> Result<(), Fail> {
    let alloc = rt.alloc();
    let folder = format!(in alloc; "/tmp/conc_paths_{}", process::id(rt.process()))?;
    let path = format!(in alloc; "{folder}/disk")?;
    let mut disk = PathDisk::new(&rt, path.as_str(), &[]);
    // There is no folder yet.
    same(&rt, disk.len(), Err(Failed));
    fs::create_dir(&rt, folder.as_str())?;
    // A look makes no file, and a folder is none.
    same(
        &rt,
        GrowingDisk::new(&rt, folder.as_str(), &[]).len(),
        Err(Failed),
    );
    same(&rt, GrowingDisk::new(&rt, path.as_str(), &[]).len(), Ok(0));
    same(
        &rt,
        SnapshotDisk::new(&rt, alloc, path.as_str(), &[], 9).len(),
        Ok(0),
    );
    assert!(rt; !fs::exists(&rt, path.as_str())?);
    same(&rt, disk.len(), Ok(0));
    write_alone(&rt, path.as_str(), &mut disk)?;
    look_beside(&rt, alloc, path.as_str(), &mut disk)?;
    fs::remove_file(&rt, path.as_str())?;
    fs::remove_dir(&rt, folder.as_str())?;
    same(&rt, disk.len(), Ok(5));
    Ok(())
}
