use super::expect::{same, same_at};
use conc_disk::Disk;
use conc_edge_devices::{MemDisk, open_disk};
use conc_outside::Failed;
use std::alloc::Global;
use std::process::Abort;
use std::test::Fail;
use std::{fs, process};

// A disk of six bytes after two writes with a sync between them, and a sync that failed.
fn written<Rt: Abort>(rt: &Rt, alloc: Global) -> Result<MemDisk, Fail> {
    let fails = vec![in alloc; 4]?;
    let mut disk = MemDisk::new(alloc, b"abcdef".to_vec(alloc)?, fails);
    disk.write_at(2, b"XY")?;
    disk.sync()?;
    disk.write_at(4, b"12345")?;
    let mut read = [0u8; 9];
    disk.read(0, &mut read)?;
    same(rt, read, *b"abXY12345");
    same(rt, disk.sync(), Err(Failed));
    Ok(disk)
}

// In the call with this number, and at this choice, a crash leaves these bytes.
static IMAGES: [(u64, u64, &[u8]); 6] = [
    (0, 0, b"abcdef"),
    (0, 1, b"abXYef"),
    (1, 0, b"abcdef"),
    (2, 0, b"abXYef"),
    (2, 1, b"abXY12345"),
    (4, 0, b"abXYef"),
];

#[test]
fn a_stop_within_a_write_leaves_all_else(rt: HostRuntime) -> Result<(), Fail> {
    let alloc = rt.alloc();
    let disk = written(&rt, alloc)?;
    for (call, choice, bytes) in IMAGES {
        let image = disk.image(alloc, call, choice)?;
        same_at(&rt, image.as_slice(), bytes, (call, choice));
    }
    for choice in 2..20 {
        let image = disk.image(alloc, 2, choice)?;
        same_at(&rt, image.get(..4), Some(b"abXY".as_slice()), choice);
        assert!(rt; image.len() <= 9, "{choice}");
    }
    same(&rt, disk.starved(), 0);
    Ok(())
}

#[test]
fn a_disk_over_a_file_keeps_its_bytes(rt: HostRuntime) -> Result<(), Fail> {
    let alloc = rt.alloc();
    let path = format!(in alloc; "/tmp/conc_disk_{}", process::id(rt.process()))?;
    let mut disk = open_disk(&rt, path.as_str(), &[])?;
    same(&rt, disk.len(), Ok(0));
    disk.write_at(0, b"abcdef")?;
    disk.cut(4)?;
    disk.sync()?;
    assert!(rt; open_disk(&rt, path.as_str(), &[]).is_err());
    drop(disk);
    assert!(rt; open_disk(&rt, path.as_str(), &[path.as_str()]).is_err());
    let mut again = open_disk(&rt, path.as_str(), &["/tmp"])?;
    fs::remove_file(&rt, path.as_str())?;
    let mut read = [0u8; 3];
    again.read(1, &mut read)?;
    same(&rt, read, *b"bcd");
    // What does not fit.
    same(&rt, again.read(2, &mut read), Err(Failed));
    same(&rt, again.write_at(5, b"x"), Err(Failed));
    same(&rt, again.cut(5), Err(Failed));
    same(&rt, again.len(), Ok(4));
    Ok(())
}
