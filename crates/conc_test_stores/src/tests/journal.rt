ghost use Rattle.std.specs.Prelude.{◌≡◌, [], IfOk, IsTrue};
ghost use Rattle.conc_journal.specs.JournalStates.{takes_events};
ghost use Rattle.conc_journal.specs.Journals.{IsOn, list_of, room_of, state_of};

use super::expect::{same, same_at};
use super::images::{
    COMMAND, DIGESTS, LABEL, NINE_IN_ONE, NINE_IN_TWO, STAMPS, TICK, TWO_IN_ONE, TWO_IN_TWO,
};
use conc_disk::Disk;
use conc_edge_devices::MemDisk;
use conc_journal::{AppendFail, Journal, JournalFail, Receipt, Silent, Teller};
use conc_journal_image::{Version, has_record};
use conc_types::{Event, Extent, Outcome, PlaceId, RequestId};
use std::alloc::Global;
use std::process::Abort;
use std::test::Fail;

// A disk that has these bytes, and whose calls with these numbers fail.
pub(super) fn disk_of(alloc: Global, bytes: &[u8], fails: &[u64]) -> Result<MemDisk, Fail> {
    let bytes = bytes.to_vec(alloc)?;
    Ok(MemDisk::new(alloc, bytes, fails.to_vec(alloc)?))
}

// A journal that is begun on a disk where none was, with room for two events.
fn begun<Rt: Abort>(rt: &Rt, alloc: Global, disk: &mut MemDisk) -> Result<Journal, Fail>
    ensures on { IfOk result (λ journal. IsOn journal (⟦<MemDisk as Disk>⟧.state disk.new)) }
    ensures takes { IfOk result (λ journal. IsTrue (takes_events (state_of journal))) }
    ensures list { IfOk result (λ journal. list_of journal ≡ []) }
    ensures room { IfOk result (λ journal. room_of journal ≡ 2) }
{
    let opened = Journal::open_on(alloc, disk)?;
    assert!(rt; opened.broken.is_none());
    assert!(rt; opened.label.is_none());
    let mut journal = opened.journal;
    journal.begin(disk, &DIGESTS)?;
    journal.reserve(2)?;
    Ok(journal)
}

// The events of these two records, written to an empty disk, and what is known of the second.
fn two_events<Rt: Abort>(
    rt: &Rt,
    alloc: Global,
    disk: &mut MemDisk,
) -> Result<(Journal, Receipt), Fail> {
    let mut journal = begun(rt, alloc, disk)?;
    let first = journal.append(disk, TICK, 0)?;
    same(rt, (first.number(), first.event()), (1, TICK));
    let second = journal.append(disk, COMMAND, STAMPS[0])?;
    same(rt, (second.number(), second.event()), (2, COMMAND));
    Ok((journal, second))
}

// What the disk has.
pub(super) fn bytes_on(alloc: Global, disk: &mut MemDisk) -> Result<Vec<u8>, Fail> {
    let length = disk.len()?;
    let mut bytes = vec![in alloc; 0; length as usize]?;
    disk.read(0, &mut bytes)?;
    Ok(bytes)
}

#[test]
fn writes_the_format(rt: HostRuntime) -> Result<(), Fail> {
    let alloc = rt.alloc();
    let mut disk = disk_of(alloc, b"", &[])?;
    let (journal, second) = two_events(&rt, alloc, &mut disk)?;
    Silent.tell(&rt, &second)?;
    same(&rt, journal.room(), 0);
    let bytes = bytes_on(alloc, &mut disk)?;
    same(&rt, bytes.len(), 129);
    same(&rt, bytes.get(..128), Some(TWO_IN_TWO.as_slice()));
    same(&rt, bytes.last(), Some(&0));
    Ok(())
}

// How many events an image has that a crash in this call may leave. Where it is begun it has the label, and the command its stamp.
fn count_left<Rt: Abort>(
    rt: &Rt,
    alloc: Global,
    disk: &MemDisk,
    call: u64,
    choice: u64,
) -> Result<usize, Fail> {
    let image = disk.image(alloc, call, choice)?;
    let mut crashed = MemDisk::new(alloc, image, Vec::new(alloc));
    let opened = Journal::open_on(alloc, &mut crashed)?;
    same_at(rt, opened.broken, None, (call, choice));
    if let Some(label) = opened.label {
        same_at(rt, label, LABEL, (call, choice));
    }
    let count = opened.journal.events().len();
    let stamps = if count == 2 { &STAMPS[..1] } else { &[] };
    same_at(rt, opened.journal.stamps(), stamps, (call, choice));
    Ok(count)
}

#[test]
fn a_stop_leaves_the_list_with_the_event_or_without(rt: HostRuntime) -> Result<(), Fail> {
    let alloc = rt.alloc();
    let mut disk = disk_of(alloc, b"", &[])?;
    two_events(&rt, alloc, &mut disk)?;
    // In the calls from the first number to before the second.
    for (from, to, least, most) in [
        (0, 11, 0, 0),
        (11, 15, 0, 1),
        (15, 19, 1, 2),
        (19, 20, 2, 2),
    ] {
        for call in from..to {
            for choice in 0..8 {
                let count = count_left(&rt, alloc, &disk, call, choice)?;
                assert!(rt; least <= count && count <= most, "{call} {choice}: {count}");
            }
        }
    }
    Ok(())
}

// Begins a journal and adds to it, where the call with this number fails.
fn fail_at<Rt: Abort>(rt: &Rt, alloc: Global, disk: &mut MemDisk, call: u64) -> Result<(), Fail> {
    let mut journal = begun(rt, alloc, disk)?;
    let failed = journal.append(disk, TICK, 0).err();
    same_at(rt, failed, Some(AppendFail::DiskFault), call);
    let after = journal.append(disk, COMMAND, STAMPS[0]).err();
    same_at(rt, after, Some(AppendFail::Failed), call);
    assert!(rt; journal.events().is_empty());
    Ok(())
}

#[test]
fn after_a_fault_nothing_is_added(rt: HostRuntime) -> Result<(), Fail> {
    let alloc = rt.alloc();
    for call in 11..15 {
        let mut disk = disk_of(alloc, b"", &[call])?;
        fail_at(&rt, alloc, &mut disk, call)?;
        let again = Journal::open_on(alloc, &mut disk)?;
        // The gate was written before the last call.
        let count = usize::from(call == 14);
        let found = (again.broken, again.journal.events().len());
        same_at(&rt, found, (None, count), call);
    }
    Ok(())
}

// What is found: the version of a journal that is begun, how many events it has, and the record that is broken.
type Found = Result<(Option<Version>, usize, Option<u64>), JournalFail>;

fn found<Rt: Abort>(rt: &Rt, alloc: Global, bytes: &[u8]) -> Result<Found, Fail> {
    let mut disk = disk_of(alloc, bytes, &[])?;
    Ok(match Journal::open_on(alloc, &mut disk) {
        Ok(opened) => Ok((
            opened.label.map(|label| label.version),
            opened.journal.events().len(),
            opened.broken,
        )),
        Err(fail) => Err(fail),
    })
}

// The same, with whether it is begun in the place of the version.
type Told = Result<(bool, usize, Option<u64>), JournalFail>;

fn of_version(told: Told, version: Version) -> Found {
    match told {
        Ok((begun, count, broken)) => Ok((begun.then_some(version), count, broken)),
        Err(fail) => Err(fail),
    }
}

const VERSIONS: [Version; 2] = [Version::One, Version::Two];

fn two_of(version: Version) -> &'static [u8; 128] {
    match version {
        Version::One => TWO_IN_ONE,
        Version::Two => TWO_IN_TWO,
    }
}

pub(super) fn nine_of(version: Version) -> &'static [u8; 353] {
    match version {
        Version::One => NINE_IN_ONE,
        Version::Two => NINE_IN_TWO,
    }
}

// So many bytes of the two records and some others, and what is found there.
static FOUND: [(usize, &[u8], Told); 11] = [
    (0, b"", Ok((false, 0, None))),
    (0, b"x", Ok((false, 0, None))),
    (0, b"\0hello", Ok((false, 0, None))),
    (64, b"\0", Ok((true, 0, None))),
    (128, b"\0", Ok((true, 2, None))),
    (128, b"\0hello", Ok((true, 2, None))),
    (96, b"\x01hello", Ok((true, 1, Some(2)))),
    (128, b"", Ok((true, 1, Some(2)))),
    (
        128,
        b"\x01\xc8\0\0\0\0\0\0\0\0\0\0\0\0\0\0\0\0\0\0\0\0\0\0\0\0\0\0\0\0\0\0\0",
        Ok((true, 2, Some(3))),
    ),
    (0, b"hello\n", Err(JournalFail::NotJournal)),
    (64, b"", Err(JournalFail::NotJournal)),
];

#[test]
fn opens_what_stands_there(rt: HostRuntime) -> Result<(), Fail> {
    let alloc = rt.alloc();
    for version in VERSIONS {
        for (front, rest, want) in FOUND {
            let front = two_of(version)
                .get(..front)
                .expect(&rt, "a part of the records");
            let mut bytes = front.to_vec(alloc)?;
            bytes.extend_from_slice(rest)?;
            let want = of_version(want, version);
            same_at(&rt, found(&rt, alloc, &bytes)?, want, (front, rest));
        }
    }
    Ok(())
}

// ---- nine records

// A program that is incompatible with itself is submitted twice, and runs at the one place.
pub(super) fn in_turn() -> [Event; 9] {
    let one = RequestId { number: 1 };
    let two = RequestId { number: 2 };
    let place = PlaceId { index: 0 };
    let end = |request, offset| Event::Ended {
        request,
        outcome: Outcome::Normal,
        extent: Some(Extent { offset, length: 39 }),
    };
    [
        TICK,
        COMMAND,
        Event::Command { number: 2 },
        Event::LetOut { request: one },
        Event::Started {
            request: one,
            place,
        },
        end(one, 0),
        Event::LetOut { request: two },
        Event::Started {
            request: two,
            place,
        },
        end(two, 39),
    ]
}

// The stamp with which an event of these is added.
fn stamp_of(event: &Event) -> u64 {
    match *event {
        Event::Command { number: 1 } => STAMPS[0],
        Event::Command { .. } => STAMPS[1],
        _ => 0,
    }
}

fn append_all<Rt: Abort>(
    rt: &Rt,
    journal: &mut Journal,
    disk: &mut MemDisk,
    events: &[Event],
) -> Result<(), Fail>
    requires { IsOn journal.old (⟦<MemDisk as Disk>⟧.state disk.old) }
{
    let Some((event, rest)) = events.split_first() else {
        return Ok(());
    };
    assert!(rt; journal.takes_events() && journal.room() > 0 && has_record(event));
    journal.append(disk, *event, stamp_of(event))?;
    append_all(rt, journal, disk, rest)
}

#[test]
fn nine_records_have_353_bytes(rt: HostRuntime) -> Result<(), Fail> {
    let alloc = rt.alloc();
    let mut disk = disk_of(alloc, b"", &[])?;
    let mut journal = begun(&rt, alloc, &mut disk)?;
    assert!(rt; journal.events().is_empty());
    journal.reserve(9)?;
    append_all(&rt, &mut journal, &mut disk, &in_turn())?;
    let bytes = bytes_on(alloc, &mut disk)?;
    same(&rt, bytes.len(), 353);
    same(&rt, bytes.as_slice(), NINE_IN_TWO.as_slice());
    same(&rt, journal.stamps(), STAMPS.as_slice());
    let opened = Journal::open_on(alloc, &mut disk)?;
    same(&rt, opened.journal.events(), in_turn().as_slice());
    same(&rt, opened.journal.stamps(), STAMPS.as_slice());
    Ok(())
}

// What is to be found of so many bytes of nine records.
fn wanted(length: usize) -> Told {
    match length {
        0..2 => Ok((false, 0, None)),
        2..65 => Err(JournalFail::NotJournal),
        65..353 => {
            let whole = (length - 65) / 32;
            Ok((true, whole, Some(whole as u64 + 1)))
        }
        _ => Ok((true, 9, None)),
    }
}

#[test]
fn each_length_is_told(rt: HostRuntime) -> Result<(), Fail> {
    let alloc = rt.alloc();
    for version in VERSIONS {
        for length in 0..354 {
            let front = nine_of(version)
                .get(..length)
                .expect(&rt, "a part of the records");
            let want = of_version(wanted(length), version);
            same_at(&rt, found(&rt, alloc, front)?, want, length);
        }
    }
    Ok(())
}

// What is found of these bytes with this value in a place.
fn found_with<Rt: Abort>(
    rt: &Rt,
    alloc: Global,
    bytes: &[u8],
    at: usize,
    value: u8,
) -> Result<Found, Fail> {
    let mut other = bytes.to_vec(alloc)?;
    assert!(rt; at < other.len());
    other[at] = value;
    found(rt, alloc, &other)
}

#[test]
fn each_gate_is_told(rt: HostRuntime) -> Result<(), Fail> {
    let alloc = rt.alloc();
    let one = Some(Version::One);
    for value in 0..=255 {
        // What the gate of the last record shuts out, and that of the header.
        let (last, header) = if value == 0 {
            ((one, 8, None), (None, 0, None))
        } else {
            ((one, 9, None), (one, 9, None))
        };
        let found = found_with(&rt, alloc, NINE_IN_ONE, 320, value)?;
        same_at(&rt, found, Ok(last), value);
        let found = found_with(&rt, alloc, NINE_IN_ONE, 0, value)?;
        same_at(&rt, found, Ok(header), value);
    }
    Ok(())
}

// The last byte of the header is a gate too, that of version 2.
#[test]
fn the_gate_of_the_version_is_told(rt: HostRuntime) -> Result<(), Fail> {
    for value in 0..=255 {
        let version = if value == 0 {
            Version::One
        } else {
            Version::Two
        };
        let want = Ok((Some(version), 9, None));
        let found = found_with(&rt, rt.alloc(), NINE_IN_TWO, 63, value)?;
        same_at(&rt, found, want, value);
    }
    Ok(())
}

// A record whose numbers are below 256: its kind, outcome, first number, offset and length.
type Record = (u8, u8, u8, u8, u8);

// A record of each kind with all that its events use, and where of its bytes behind the gate nothing but 0
// may stand.
static KINDS: [(Record, &[u8; 31]); 11] = [
    ((1, 0, 0, 9, 0), b"x..........xxxxxxxx............"),
    ((2, 0, 9, 9, 0), b"x..xxxx....xxxxxxxx............"),
    ((3, 0, 9, 0, 0), b"x..xxxx........................"),
    ((4, 0, 9, 0, 0), b"x..xxxxxxxx...................."),
    ((5, 2, 9, 0, 0), b"xx.xxxx........................"),
    ((6, 0, 9, 0, 0), b"x..xxxx........................"),
    ((7, 0, 9, 0, 0), b"x..xxxxxxxx...................."),
    ((8, 3, 9, 9, 9), b"xx.xxxx....xxxxxxxxxxxx........"),
    ((8, 4, 9, 0, 0), b"xx.xxxx........................"),
    ((9, 0, 0, 0, 0), b"x.............................."),
    ((10, 0, 9, 0, 0), b"x..xxxx........................"),
];

// The journal of nine events with another third record, whose gate is open.
fn with_third(alloc: Global, version: Version, third: Record) -> Result<Vec<u8>, Fail> {
    let (kind, outcome, first, offset, length) = third;
    let mut bytes = two_of(version).to_vec(alloc)?;
    bytes.extend_from_slice(&[1, kind, outcome, 0, 0, 0, 0, first, 0, 0, 0, 0])?;
    bytes.extend_from_slice(&[0, 0, 0, 0, 0, 0, 0, offset, 0, 0, 0, length])?;
    bytes.extend_from_slice(&[0; 8])?;
    for byte in nine_of(version).iter().skip(160) {
        bytes.push(*byte)?;
    }
    Ok(bytes)
}

#[test]
fn each_broken_spelling_is_told(rt: HostRuntime) -> Result<(), Fail> {
    let alloc = rt.alloc();
    for version in VERSIONS {
        let whole = Ok((Some(version), 9, None));
        let broken = Ok((Some(version), 2, Some(3)));
        for (good, used) in KINDS {
            let bytes = with_third(alloc, version, good)?;
            same_at(&rt, found(&rt, alloc, &bytes)?, whole, good);
            for at in 0..31 {
                if used[at] == b'.' {
                    let stray = found_with(&rt, alloc, &bytes, 129 + at, 1)?;
                    same_at(&rt, stray, broken, (good, at));
                }
            }
        }
    }
    Ok(())
}

// Records of which a value is out of its range.
static OUT_OF_RANGE: [Record; 10] = [
    (0, 0, 0, 0, 0),
    (11, 0, 0, 0, 0),
    (200, 0, 0, 0, 0),
    // A set closes as Normal, Warning or Error.
    (5, 0, 9, 0, 0),
    (5, 4, 9, 0, 0),
    // An end with a report has one of these outcomes and some bytes.
    (8, 0, 9, 9, 9),
    (8, 5, 9, 9, 9),
    (8, 1, 9, 9, 0),
    // One without a report has neither.
    (8, 4, 9, 0, 9),
    (8, 4, 9, 9, 0),
];

#[test]
fn each_value_out_of_range_is_told(rt: HostRuntime) -> Result<(), Fail> {
    let alloc = rt.alloc();
    for version in VERSIONS {
        let want = Ok((Some(version), 2, Some(3)));
        for broken in OUT_OF_RANGE {
            let bytes = with_third(alloc, version, broken)?;
            same_at(&rt, found(&rt, alloc, &bytes)?, want, broken);
        }
    }
    Ok(())
}
