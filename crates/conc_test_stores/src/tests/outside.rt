use super::expect::same;
use conc_outside::{Failed, FileShelf, MemShelf, MemSink, Shelf, ShelfFail, WriterSink, write_all};
use conc_types::{Name, is_name};
use std::alloc::Global;
use std::fs;
use std::process::{self, Abort};
use std::test::Fail;

fn name(rt: &impl Abort, alloc: Global, text: &str) -> Result<Name, Fail> {
    let bytes = text.as_bytes().to_vec(alloc)?;
    assert!(rt; is_name(&bytes), "{text}");
    Ok(Name::from_vec(bytes))
}

#[test]
fn a_shelf_in_memory_tells_its_file(rt: HostRuntime) -> Result<(), Fail> {
    let alloc = rt.alloc();
    let files = vec![in alloc; (name(&rt, alloc, "setup")?, b"a b".to_vec(alloc)?)]?;
    let mut shelf = MemShelf::new(files, vec![in alloc; 2]?);
    let setup = name(&rt, alloc, "setup")?;
    let clock = name(&rt, alloc, "clock")?;
    same(
        &rt,
        shelf.read_file(alloc, &setup)?.as_slice(),
        b"a b".as_slice(),
    );
    same(
        &rt,
        shelf.read_file(alloc, &clock).err(),
        Some(ShelfFail::Absent),
    );
    same(
        &rt,
        shelf.read_file(alloc, &setup).err(),
        Some(ShelfFail::Failed),
    );
    same(
        &rt,
        shelf.read_file(alloc, &setup)?.as_slice(),
        b"a b".as_slice(),
    );
    Ok(())
}

#[test]
fn a_sink_in_memory_takes_all_or_nothing(rt: HostRuntime) -> Result<(), Fail> {
    let alloc = rt.alloc();
    let mut out = MemSink::new(alloc, vec![in alloc; 0]?);
    same(&rt, write_all(&mut out, b"one"), Err(Failed));
    same(&rt, out.bytes(), b"".as_slice());
    write_all(&mut out, b"two")?;
    write_all(&mut out, b"")?;
    write_all(&mut out, b"three")?;
    same(&rt, out.bytes(), b"twothree".as_slice());
    same(&rt, out.starved(), 0);
    Ok(())
}

#[test]
fn a_shelf_of_files_reads_a_real_one(rt: HostRuntime) -> Result<(), Fail> {
    let alloc = rt.alloc();
    let path = format!(in alloc; "/tmp/conc_outside_{}", process::id(rt.process()))?;
    let file = name(&rt, alloc, &path)?;
    // More than one piece.
    let bytes = vec![in alloc; b'x'; 100_000]?;
    fs::write(&rt, path.as_str(), bytes.as_slice())?;
    let mut shelf = FileShelf::new(&rt, &["/tmp/no_such_disk"]);
    let read = shelf.read_file(alloc, &file);
    let of_disk = FileShelf::new(&rt, &[path.as_str()]).read_file(alloc, &file);
    fs::remove_file(&rt, path.as_str())?;
    same(&rt, of_disk.err(), Some(ShelfFail::Failed));
    same(&rt, read?.as_slice(), bytes.as_slice());
    same(
        &rt,
        shelf.read_file(alloc, &file).err(),
        Some(ShelfFail::Absent),
    );
    let folder = name(&rt, alloc, "/tmp")?;
    same(
        &rt,
        shelf.read_file(alloc, &folder).err(),
        Some(ShelfFail::Failed),
    );
    Ok(())
}

#[test]
fn a_writer_gets_the_bytes(rt: HostRuntime) -> Result<(), Fail> {
    let alloc = rt.alloc();
    let mut bytes = Vec::new(alloc);
    write_all(&mut WriterSink::new(&mut bytes), b"one")?;
    same(&rt, bytes.as_slice(), b"one".as_slice());
    // A writer with room for two bytes takes these, and then none.
    let mut room = [0u8; 2];
    let mut rest = room.as_mut_slice();
    same(
        &rt,
        write_all(&mut WriterSink::new(&mut rest), b"one"),
        Err(Failed),
    );
    same(&rt, room, *b"on");
    Ok(())
}
