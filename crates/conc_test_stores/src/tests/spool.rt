use super::expect::{same, same_at};
use conc_disk::DiskFault;
use conc_edge_devices::MemDisk;
use conc_journal_spool::{Spool, SpoolFail};
use std::alloc::Global;
use std::process::Abort;
use std::test::Fail;

#[test]
fn texts_are_read_back(rt: HostRuntime) -> Result<(), Fail> {
    let alloc = rt.alloc();
    let mut disk = MemDisk::new(alloc, Vec::new(alloc), Vec::new(alloc));
    let mut spool = Spool::open_on(&mut disk, 0)?;
    let first = spool.append(&mut disk, b"abc")?;
    let second = spool.append(&mut disk, b"de")?;
    same(&rt, (first.offset, first.length), (0, 3));
    same(&rt, (second.offset, second.length), (3, 2));
    same(&rt, spool.used(), 5);
    let text = spool.read(alloc, &mut disk, second)?;
    same(&rt, text.as_slice(), b"de".as_slice());
    let text = spool.read(alloc, &mut disk, first)?;
    same(&rt, text.as_slice(), b"abc".as_slice());
    Ok(())
}

// Fails to add a text, as the call with this number fails, and then adds another one.
fn add_after_fault<Rt: Abort>(rt: &Rt, alloc: Global, call: u64) -> Result<(), Fail> {
    let fails = vec![in alloc; call]?;
    let mut disk = MemDisk::new(alloc, Vec::new(alloc), fails);
    let mut spool = Spool::open_on(&mut disk, 0)?;
    let failed = spool.append(&mut disk, b"abc");
    same_at(rt, failed, Err(DiskFault), call);
    same_at(rt, spool.used(), 0, call);
    let extent = spool.append(&mut disk, b"de")?;
    let text = spool.read(alloc, &mut disk, extent)?;
    same_at(rt, text.as_slice(), b"de".as_slice(), call);
    Ok(())
}

#[test]
fn a_text_is_added_after_a_fault(rt: HostRuntime) -> Result<(), Fail> {
    // The calls of the first append.
    for call in [2, 3] {
        add_after_fault(&rt, rt.alloc(), call)?;
    }
    Ok(())
}

#[test]
fn a_short_disk_is_not_opened(rt: HostRuntime) -> Result<(), Fail> {
    let alloc = rt.alloc();
    let mut disk = MemDisk::new(alloc, b"abcd".to_vec(alloc)?, Vec::new(alloc));
    for used in [0, 3, 4] {
        let spool = Spool::open_on(&mut disk, used)?;
        same(&rt, spool.used(), used);
    }
    let short = Spool::open_on(&mut disk, 5);
    same(&rt, &short, &Err(SpoolFail::Short { len: 4 }));
    Ok(())
}

#[test]
fn a_stop_in_an_append_keeps_what_was_there(rt: HostRuntime) -> Result<(), Fail> {
    let alloc = rt.alloc();
    let mut disk = MemDisk::new(alloc, b"abcXYZ".to_vec(alloc)?, Vec::new(alloc));
    let mut spool = Spool::open_on(&mut disk, 3)?;
    spool.append(&mut disk, b"de")?;
    for call in 0..4 {
        for choice in 0..8 {
            let image = disk.image(alloc, call, choice)?;
            same_at(&rt, image.get(..3), Some(b"abc".as_slice()), (call, choice));
        }
    }
    let image = disk.image(alloc, 4, 0)?;
    same(&rt, image.as_slice(), b"abcdeZ".as_slice());
    Ok(())
}
