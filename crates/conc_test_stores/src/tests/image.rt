ghost use Rattle.std.specs.Prelude.{◌<◌};

use super::expect::{same, same_at};
use conc_journal_image::{
    Found, Header, Label, Search, Version, has_record, header_of, judge_header, read_record,
    record_of,
};
use conc_types::{Digests, Event, Extent, Moment, Outcome, PlaceId, RequestId};
use std::alloc::Global;
use std::process::Abort;
use std::test::Fail;

const TICK: &[u8; 31] =
    b"\x01\0\0\0\0\0\0\0\0\0\0\0\0\0\x0e\xdf\x57\x66\x90\0\0\0\0\0\0\0\0\0\0\0\0";

const COMMAND: &[u8; 31] =
    b"\x02\0\0\x01\x02\x03\x04\0\0\0\0\0\0\0\0\0\0\0\0\0\0\0\0\0\0\0\0\0\0\0\0";

// The same command with the stamp 0x1112131415161718.
const STAMPED: &[u8; 31] =
    b"\x02\0\0\x01\x02\x03\x04\0\0\0\0\x11\x12\x13\x14\x15\x16\x17\x18\0\0\0\0\0\0\0\0\0\0\0\0";

const STAMP: u64 = 0x1112_1314_1516_1718;

const OPEN: &[u8; 31] = b"\x03\0\0\0\0\0\x07\0\0\0\0\0\0\0\0\0\0\0\0\0\0\0\0\0\0\0\0\0\0\0\0";

const STAGE: &[u8; 31] = b"\x04\0\0\0\0\0\x07\0\0\0\x40\0\0\0\0\0\0\0\0\0\0\0\0\0\0\0\0\0\0\0\0";

const CLOSE: &[u8; 31] = b"\x05\x02\0\0\0\0\x07\0\0\0\0\0\0\0\0\0\0\0\0\0\0\0\0\0\0\0\0\0\0\0\0";

const LET: &[u8; 31] = b"\x06\0\0\0\0\x01\0\0\0\0\0\0\0\0\0\0\0\0\0\0\0\0\0\0\0\0\0\0\0\0\0";

const START: &[u8; 31] = b"\x07\0\0\0\0\x01\0\0\0\0\x3f\0\0\0\0\0\0\0\0\0\0\0\0\0\0\0\0\0\0\0\0";

const END: &[u8; 31] =
    b"\x08\x03\0\0\0\x01\0\0\0\0\0\x01\x02\x03\x04\x05\x06\x07\x08\0\x10\0\0\0\0\0\0\0\0\0\0";

const TERMINATED: &[u8; 31] =
    b"\x08\x04\0\0\0\x01\0\0\0\0\0\0\0\0\0\0\0\0\0\0\0\0\0\0\0\0\0\0\0\0\0";

const RESUME: &[u8; 31] = b"\x09\0\0\0\0\0\0\0\0\0\0\0\0\0\0\0\0\0\0\0\0\0\0\0\0\0\0\0\0\0\0";

const INTERRUPT: &[u8; 31] = b"\x0a\0\0\0\0\0\x09\0\0\0\0\0\0\0\0\0\0\0\0\0\0\0\0\0\0\0\0\0\0\0\0";

const SET: RequestId = RequestId { number: 7 };

const REQUEST: RequestId = RequestId { number: 256 };

// Each kind of record, and its event.
const RECORDS: [(&[u8; 31], Event); 11] = [
    (
        TICK,
        Event::Tick {
            moment: Moment {
                seconds: 63_876_589_200,
            },
        },
    ),
    (COMMAND, Event::Command { number: 16_909_060 }),
    (OPEN, Event::OpenSet { set: SET }),
    (
        STAGE,
        Event::Stage {
            set: SET,
            stage: 64,
        },
    ),
    (
        CLOSE,
        Event::CloseSet {
            set: SET,
            outcome: Outcome::Warning,
        },
    ),
    (LET, Event::LetOut { request: REQUEST }),
    (
        START,
        Event::Started {
            request: REQUEST,
            place: PlaceId { index: 63 },
        },
    ),
    (
        END,
        Event::Ended {
            request: REQUEST,
            outcome: Outcome::Error,
            extent: Some(Extent {
                offset: 72_623_859_790_382_856,
                length: 1_048_576,
            }),
        },
    ),
    (
        TERMINATED,
        Event::Ended {
            request: REQUEST,
            outcome: Outcome::Terminated,
            extent: None,
        },
    ),
    (RESUME, Event::Resume),
    (
        INTERRUPT,
        Event::Interrupt {
            request: RequestId { number: 9 },
        },
    ),
];

#[test]
fn reads_and_writes_records(rt: HostRuntime) {
    for (bytes, event) in RECORDS {
        same(&rt, read_record(bytes), Some(event));
        assert!(rt; has_record(&event), "{event:?}");
        same_at(&rt, record_of(event, 0), *bytes, event);
    }
}

// A command has its stamp in its record, and no other event has one.
#[test]
fn writes_the_stamp_of_a_command_alone(rt: HostRuntime) {
    for (bytes, event) in RECORDS {
        assert!(rt; has_record(&event), "{event:?}");
        let wanted = if matches!(event, Event::Command { .. }) {
            STAMPED
        } else {
            bytes
        };
        let found = record_of(event, STAMP);
        same_at(&rt, found, *wanted, event);
        same(&rt, read_record(&found), Some(event));
    }
}

// An end of the request 1 with this outcome, whose report, if there is one, has this length.
fn end(outcome: Outcome, length: Option<u32>) -> Event {
    let request = RequestId { number: 1 };
    let extent = match length {
        Some(length) => Some(Extent { offset: 3, length }),
        None => None,
    };
    Event::Ended {
        request,
        outcome,
        extent,
    }
}

fn close(outcome: Outcome) -> Event {
    let set = RequestId { number: 1 };
    Event::CloseSet { set, outcome }
}

#[test]
fn tells_events_without_a_record(rt: HostRuntime) {
    for event in [
        end(Outcome::Normal, None),
        end(Outcome::Error, Some(0)),
        end(Outcome::Terminated, Some(5)),
        end(Outcome::Cancelled, None),
        end(Outcome::Cancelled, Some(5)),
        close(Outcome::Terminated),
        close(Outcome::Cancelled),
    ] {
        same_at(&rt, has_record(&event), false, event);
    }
}

// Where no field of the event is, no byte but 0 may stand.
static USED: [(&[u8; 31], &[u8; 31]); 12] = [
    (TICK, b"x..........xxxxxxxx............"),
    (COMMAND, b"x..xxxx....xxxxxxxx............"),
    (STAMPED, b"x..xxxx....xxxxxxxx............"),
    (OPEN, b"x..xxxx........................"),
    (STAGE, b"x..xxxxxxxx...................."),
    (CLOSE, b"xx.xxxx........................"),
    (LET, b"x..xxxx........................"),
    (START, b"x..xxxxxxxx...................."),
    (END, b"xx.xxxx....xxxxxxxxxxxx........"),
    (TERMINATED, b"xx.xxxx........................"),
    (RESUME, b"x.............................."),
    (INTERRUPT, b"x..xxxx........................"),
];

// These bytes with another one in a place.
fn altered(bytes: &[u8; 31], at: usize, value: u8) -> [u8; 31]
    requires { at < 31 }
{
    let mut other = *bytes;
    other[at] = value;
    other
}

#[test]
fn refuses_stray_bytes(rt: HostRuntime) {
    for (bytes, used) in USED {
        for at in 0..31 {
            if used[at] == b'.' {
                same_at(&rt, read_record(&altered(bytes, at, 1)), None, (at, bytes));
            }
        }
    }
}

// A byte with this value in its place.
static OTHERS: [(&[u8; 31], usize, u8); 12] = [
    (RESUME, 0, 0),
    (RESUME, 0, 11),
    (RESUME, 0, 200),
    (CLOSE, 1, 0),
    (CLOSE, 1, 4),
    (CLOSE, 1, 5),
    (END, 1, 0),
    (END, 1, 4),
    (END, 1, 5),
    (END, 20, 0),
    (TERMINATED, 1, 1),
    (TERMINATED, 1, 3),
];

// The last moment of the calendar, and the one behind it.
const LAST: &[u8; 31] =
    b"\x01\0\0\0\0\0\0\0\0\0\0\0\0\0\x49\x77\x86\x38\x7f\0\0\0\0\0\0\0\0\0\0\0\0";

const PAST: &[u8; 31] =
    b"\x01\0\0\0\0\0\0\0\0\0\0\0\0\0\x49\x77\x86\x38\x80\0\0\0\0\0\0\0\0\0\0\0\0";

#[test]
fn refuses_other_values(rt: HostRuntime) {
    for (bytes, at, value) in OTHERS {
        assert!(rt; at < 31);
        same_at(
            &rt,
            read_record(&altered(bytes, at, value)),
            None,
            (at, bytes),
        );
    }
    assert!(rt; read_record(LAST).is_some());
    same(&rt, read_record(PAST), None);
}

const EVENTS: [Event; 2] = [
    Event::Tick {
        moment: Moment {
            seconds: 63_876_589_200,
        },
    },
    Event::Resume,
];

// What stands behind the header, how many of the events there are, and which record is broken.
static PIECES: [([&[u8]; 5], usize, Option<u64>); 7] = [
    ([b"\0", TICK, b"\0", b"\0", b"\0"], 0, None),
    ([b"\x01", TICK, b"\0", RESUME, b"\x01"], 1, None),
    ([b"\x01", TICK, b"\xff", RESUME, b"\0"], 2, None),
    ([b"\x01", TICK, b"", b"", b""], 0, Some(1)),
    ([b"\x01", TICK, b"\x01", RESUME, b""], 1, Some(2)),
    ([b"\x01", TICK, b"\x01", RESUME, b"\x01"], 2, Some(3)),
    ([b"\x01", b"\0", TICK, b"\0", b"\0"], 0, Some(1)),
];

fn records_of(alloc: Global, pieces: &[&[u8]; 5]) -> Result<Vec<u8>, Fail> {
    let mut records = Vec::new(alloc);
    for piece in pieces {
        records.extend_from_slice(piece)?;
    }
    Ok(records)
}

// The events and stamps of these records, and the number of the one that is broken, if one is: 0 where the
// search ends too early.
fn found_in(alloc: Global, records: &[u8]) -> Result<(Found, Option<u64>), Fail> {
    let mut found = Found::with_room(alloc, 1)?;
    if let Search::Ended { broken } = found.take(records)? {
        return Ok((found, broken));
    }
    let rest = records.get(32 * found.events.len()..).unwrap_or(records);
    let broken = if rest.len() < 33 {
        found.broken_behind(rest)
    } else {
        Some(0)
    };
    Ok((found, broken))
}

#[test]
fn finds_events(rt: HostRuntime) -> Result<(), Fail> {
    for (pieces, count, broken) in PIECES {
        let records = records_of(rt.alloc(), &pieces)?;
        let (found, found_broken) = found_in(rt.alloc(), &records)?;
        same_at(&rt, found_broken, broken, pieces);
        same_at(
            &rt,
            Some(found.events.as_slice()),
            EVENTS.get(..count),
            pieces,
        );
    }
    Ok(())
}

// Two commands with stamps, and one behind a gate that is closed.
#[test]
fn finds_stamps(rt: HostRuntime) -> Result<(), Fail> {
    let pieces: [&[u8]; 5] = [b"\x01", COMMAND, b"\xff", STAMPED, b"\0"];
    let mut records = records_of(rt.alloc(), &pieces)?;
    records.extend_from_slice(STAMPED)?;
    records.push(1)?;
    let (found, broken) = found_in(rt.alloc(), &records)?;
    same(&rt, broken, None);
    same(&rt, found.events.len(), 2);
    same(&rt, found.stamps.as_slice(), [0, STAMP].as_slice());
    let pieces: [&[u8]; 5] = [b"\x01", TICK, b"\x01", STAMPED, b"\x01"];
    let (found, broken) = found_in(rt.alloc(), &records_of(rt.alloc(), &pieces)?)?;
    same(&rt, broken, Some(3));
    same(&rt, found.stamps.as_slice(), [STAMP].as_slice());
    Ok(())
}

const DIGEST: [u8; 32] = [7; 32];

const BASE: [u8; 15] = *b"the base digest";

// Behind its first 15 bytes the base digest does not count.
const DIGESTS: Digests = Digests {
    full: DIGEST,
    base: *b"the base digest, and 17 others..",
};

// What a header of this version says with this base digest.
fn header(version: Version, base: [u8; 15]) -> Header {
    Header::Begun {
        label: Label {
            version,
            digest: DIGEST,
            base,
        },
    }
}

// The header of this digest behind an open gate, these bytes 48 to 63, and the gate of the first record.
fn begun_image(alloc: Global, rest: &[u8; 16]) -> Result<Vec<u8>, Fail> {
    let mut image = b"\x01conc journal 1\n".to_vec(alloc)?;
    image.extend_from_slice(&DIGEST)?;
    image.extend_from_slice(rest)?;
    image.push(0)?;
    Ok(image)
}

// An image with a whole header of this meaning, and what it means with another byte.
fn check_header<Rt: Abort>(
    rt: &Rt,
    alloc: Global,
    image: &[u8],
    begun: Header,
    headers: &[(usize, u8, Header)],
) -> Result<(), Fail> {
    same(rt, image.len(), 65);
    for (length, want) in [(65, begun), (64, Header::Foreign), (1, Header::NotBegun)] {
        let front = image.get(..length).expect(rt, "a part of the header");
        same_at(rt, judge_header(front), want, length);
    }
    for &(at, value, want) in headers {
        let mut other = image.to_vec(alloc)?;
        assert!(rt; at < other.len());
        other[at] = value;
        same_at(rt, judge_header(&other), want, at);
    }
    Ok(())
}

#[test]
fn judges_headers(rt: HostRuntime) -> Result<(), Fail> {
    let image = begun_image(rt.alloc(), b"the base digest\x01")?;
    let written = header_of(&DIGESTS);
    same(&rt, image.get(1..65), Some(written.as_slice()));
    let begun = header(Version::Two, BASE);
    let headers = [
        (0, 0, Header::NotBegun),
        (0, 255, begun),
        (1, b'C', Header::Foreign),
        (14, b'2', Header::Foreign),
        (63, 0, header(Version::One, BASE)),
        (63, 2, begun),
        (63, 255, begun),
        (64, 1, begun),
    ];
    check_header(&rt, rt.alloc(), &image, begun, &headers)
}

// In version 1 bytes 48 to 62 mean nothing.
#[test]
fn judges_headers_of_version_1(rt: HostRuntime) -> Result<(), Fail> {
    let image = begun_image(rt.alloc(), &[0; 16])?;
    let begun = header(Version::One, [0; 15]);
    let first = header(Version::One, [1, 0, 0, 0, 0, 0, 0, 0, 0, 0, 0, 0, 0, 0, 0]);
    let last = header(Version::One, [0, 0, 0, 0, 0, 0, 0, 0, 0, 0, 0, 0, 0, 0, 1]);
    let headers = [
        (0, 0, Header::NotBegun),
        (0, 255, begun),
        (1, b'C', Header::Foreign),
        (14, b'2', Header::Foreign),
        (48, 1, first),
        (62, 1, last),
        (64, 1, begun),
    ];
    check_header(&rt, rt.alloc(), &image, begun, &headers)
}
