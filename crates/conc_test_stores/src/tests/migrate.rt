//! A journal of version 1 is brought to version 2.
ghost use Rattle.std.specs.Prelude.{IfOk, IsTrue};
ghost use Rattle.conc_journal.specs.Journals.{IsOn};
ghost use Rattle.conc_journal_image.specs.Fields.{has_record};

use super::expect::{same, same_at};
use super::images::{BASE, COMMAND, DIGEST, DIGESTS, NINE_IN_ONE, NINE_IN_TWO, STAMPS, TICK};
use super::journal::{bytes_on, disk_of, in_turn};
use conc_disk::Disk;
use conc_edge_devices::MemDisk;
use conc_journal::{AppendFail, Journal};
use conc_journal_image::{Label, Version};
use conc_types::Event;
use std::alloc::Global;
use std::process::Abort;
use std::test::Fail;

// The journal of a disk, no record of which is broken.
fn opened<Rt: Abort>(rt: &Rt, alloc: Global, disk: &mut MemDisk) -> Result<(Journal, Label), Fail>
    ensures on { IfOk result (λ opened. IsOn opened.0 (⟦<MemDisk as Disk>⟧.state disk.new)) }
{
    let opened = Journal::open_on(alloc, disk)?;
    assert!(rt; opened.broken.is_none());
    let label = opened.label.expect(rt, "the journal is begun");
    Ok((opened.journal, label))
}

// Brings a journal of version 1 to version 2, and tells whether no call failed.
fn migrate<Rt: Abort>(rt: &Rt, journal: &mut Journal, disk: &mut MemDisk, stamps: &[u64]) -> bool
    requires on { IsOn journal.old (⟦<MemDisk as Disk>⟧.state disk.old) }
    ensures on { IsOn journal.new (⟦<MemDisk as Disk>⟧.state disk.new) }
{
    assert!(rt; journal.is_of_version_one() && journal.stamps().len() == stamps.len());
    journal.migrate(disk, &DIGESTS.base, stamps).is_ok()
}

// Adds an event that the journal takes.
fn append<Rt: Abort>(
    rt: &Rt,
    journal: &mut Journal,
    disk: &mut MemDisk,
    event: Event,
    stamp: u64,
) -> Option<AppendFail>
    requires on { IsOn journal.old (⟦<MemDisk as Disk>⟧.state disk.old) }
    requires spelled { IsTrue (has_record event) }
    ensures on { IsOn journal.new (⟦<MemDisk as Disk>⟧.state disk.new) }
{
    assert!(rt; journal.takes_events() && journal.room() > 0);
    journal.append(disk, event, stamp).err()
}

#[test]
fn writes_base_version_and_stamps(rt: HostRuntime) -> Result<(), Fail> {
    let alloc = rt.alloc();
    let mut disk = disk_of(alloc, NINE_IN_ONE, &[])?;
    let (mut journal, _) = opened(&rt, alloc, &mut disk)?;
    same(&rt, journal.stamps(), [0, 0].as_slice());
    assert!(rt; migrate(&rt, &mut journal, &mut disk, &STAMPS));
    assert!(rt; !journal.is_of_version_one());
    same(&rt, journal.events(), in_turn().as_slice());
    same(&rt, journal.stamps(), STAMPS.as_slice());
    let bytes = bytes_on(alloc, &mut disk)?;
    same(&rt, bytes.as_slice(), NINE_IN_TWO.as_slice());
    Ok(())
}

// The first record, and no stamp to write.
#[test]
fn migrates_a_journal_without_a_command(rt: HostRuntime) -> Result<(), Fail> {
    let alloc = rt.alloc();
    let front = NINE_IN_ONE.get(..96).expect(&rt, "the first record");
    let mut bytes = front.to_vec(alloc)?;
    bytes.push(0)?;
    let mut disk = disk_of(alloc, &bytes, &[])?;
    let (mut journal, _) = opened(&rt, alloc, &mut disk)?;
    assert!(rt; migrate(&rt, &mut journal, &mut disk, &[]));
    same(&rt, journal.events(), [TICK].as_slice());
    let bytes = bytes_on(alloc, &mut disk)?;
    same(&rt, bytes.get(..96), NINE_IN_TWO.get(..96));
    same(&rt, bytes.len(), 97);
    Ok(())
}

// Behind a migration the next command is added with its stamp.
#[test]
fn goes_on_in_version_2(rt: HostRuntime) -> Result<(), Fail> {
    let alloc = rt.alloc();
    let front = NINE_IN_ONE.get(..96).expect(&rt, "the first record");
    let mut bytes = front.to_vec(alloc)?;
    bytes.push(0)?;
    let mut disk = disk_of(alloc, &bytes, &[])?;
    let (mut journal, _) = opened(&rt, alloc, &mut disk)?;
    assert!(rt; migrate(&rt, &mut journal, &mut disk, &[]));
    assert!(rt; journal.events().len() == 1);
    journal.reserve(1)?;
    same(
        &rt,
        append(&rt, &mut journal, &mut disk, COMMAND, STAMPS[0]),
        None,
    );
    let bytes = bytes_on(alloc, &mut disk)?;
    same(&rt, bytes.get(..128), NINE_IN_TWO.get(..128));
    same(&rt, bytes.len(), 129);
    Ok(())
}

// The version of a disk that has the old list: it is 1 with the old digest, or 2 with the new base digest and stamps.
fn version_of<Rt: Abort>(
    rt: &Rt,
    alloc: Global,
    disk: &mut MemDisk,
    row: (u64, u64),
) -> Result<Version, Fail> {
    let (journal, label) = opened(rt, alloc, disk)?;
    same_at(rt, journal.events(), in_turn().as_slice(), row);
    same_at(rt, label.digest, DIGEST, row);
    if label.version == Version::Two {
        same_at(rt, label.base, BASE, row);
        same_at(rt, journal.stamps(), STAMPS.as_slice(), row);
    }
    Ok(label.version)
}

// Opening makes five calls: it reads the header, the records and the gate behind them. A migration writes
// each of the two stamps and the base digest, syncs, writes the version, and syncs.
const FIRST: u64 = 5;

const VERSION: u64 = 9;

const BEHIND: u64 = 11;

#[test]
fn a_stop_leaves_one_version_or_the_other(rt: HostRuntime) -> Result<(), Fail> {
    let alloc = rt.alloc();
    let mut disk = disk_of(alloc, NINE_IN_ONE, &[])?;
    let (mut journal, _) = opened(&rt, alloc, &mut disk)?;
    assert!(rt; migrate(&rt, &mut journal, &mut disk, &STAMPS));
    for call in 0..=BEHIND {
        for choice in 0..32 {
            let image = disk.image(alloc, call, choice)?;
            let mut crashed = disk_of(alloc, &image, &[])?;
            let version = version_of(&rt, alloc, &mut crashed, (call, choice))?;
            let may_be_one = call < BEHIND;
            let may_be_two = call >= VERSION;
            let may = if version == Version::One {
                may_be_one
            } else {
                may_be_two
            };
            assert!(rt; may, "{call} {choice}: {version:?}");
        }
    }
    Ok(())
}

// What stands on a disk whose call with this number failed in a migration.
fn fail_at<Rt: Abort>(rt: &Rt, alloc: Global, call: u64) -> Result<MemDisk, Fail> {
    let mut disk = disk_of(alloc, NINE_IN_ONE, &[call])?;
    let (mut journal, _) = opened(rt, alloc, &mut disk)?;
    assert!(rt; journal.events().len() == 9);
    journal.reserve(1)?;
    same_at(
        rt,
        migrate(rt, &mut journal, &mut disk, &STAMPS),
        false,
        call,
    );
    let after = append(rt, &mut journal, &mut disk, COMMAND, 0);
    same_at(rt, after, Some(AppendFail::Failed), call);
    same_at(rt, journal.events(), in_turn().as_slice(), call);
    Ok(disk)
}

// The journal is opened again behind each fault, and brought to version 2 if it is not there.
#[test]
fn after_a_fault_of_a_migration_the_next_one_goes_on(rt: HostRuntime) -> Result<(), Fail> {
    let alloc = rt.alloc();
    for call in FIRST..BEHIND {
        let mut disk = fail_at(&rt, alloc, call)?;
        // The version was written before the last call.
        let wanted = if call > VERSION {
            Version::Two
        } else {
            Version::One
        };
        same_at(
            &rt,
            version_of(&rt, alloc, &mut disk, (call, 0))?,
            wanted,
            call,
        );
        let (mut journal, _) = opened(&rt, alloc, &mut disk)?;
        if wanted == Version::One {
            assert!(rt; migrate(&rt, &mut journal, &mut disk, &STAMPS));
        }
        let bytes = bytes_on(alloc, &mut disk)?;
        same_at(&rt, bytes.as_slice(), NINE_IN_TWO.as_slice(), call);
    }
    Ok(())
}
