ghost use Rattle.std.specs.Prelude.{◌≤◌, IsTrue, length};
ghost use Rattle.conc_types.specs.Fields.{is_shift};

use super::expect::{same, same_at};
use conc_time::{places, put_moment, read_moment};
use conc_types::{Manager, Moment, Name, NoMemory, Seq, Shift, is_name};
use std::alloc::Global;
use std::process::Abort;
use std::test::Fail;

// Seconds since the first moment of the calendar, and how it is written behind `at `.
static PUT: [(u64, &str); 5] = [
    (0, "at 0001-01-01T00:00:00"),
    (59931705600, "at 1900-03-01T00:00:00"),
    (63087465599, "at 2000-02-29T23:59:59"),
    (63876589200, "at 2025-03-03T09:00:00"),
    (315537897599, "at 9999-12-31T23:59:59"),
];

#[test]
fn puts_moments(rt: HostRuntime) -> Result<(), Fail> {
    for (seconds, want) in PUT {
        let mut out = b"at ".to_vec(rt.alloc())?;
        put_moment(&mut out, Moment { seconds })?;
        same(&rt, out.as_slice(), want.as_bytes());
    }
    Ok(())
}

// Texts, and the seconds of the moment that is read.
static READ: [(&str, u64); 16] = [
    ("0001-01-01T00:00:00", 0),
    ("0001-01-01T00:00:01", 1),
    ("0001-12-31T23:59:59", 31535999),
    ("0004-02-29T00:00:00", 99705600),
    ("0400-02-29T12:00:00", 12596299200),
    ("1582-10-10T00:00:00", 49915872000),
    ("1900-02-28T23:59:59", 59931705599),
    ("1900-03-01T00:00:00", 59931705600),
    ("1970-01-01T00:00:00", 62135596800),
    ("1999-12-31T23:59:59", 63082281599),
    ("2000-02-29T23:59:59", 63087465599),
    ("2024-02-29T00:00:00", 63844761600),
    ("2025-03-03T09:00:00", 63876589200),
    ("2025-04-30T10:20:30", 63881605230),
    ("2025-12-31T23:59:59", 63902822399),
    ("9999-12-31T23:59:59", 315537897599),
];

// Lines that are no moment.
const NO_MOMENTS: &str = concat!(
    // the calendar has no such date
    "0000-01-01T00:00:00\n",
    "1900-02-29T00:00:00\n",
    "2023-02-29T00:00:00\n",
    "2024-02-30T00:00:00\n",
    "2025-00-03T09:00:00\n",
    "2025-13-03T09:00:00\n",
    "2025-03-00T09:00:00\n",
    "2025-03-32T09:00:00\n",
    "2025-04-31T09:00:00\n",
    // a day has no such time
    "2025-03-03T24:00:00\n",
    "2025-03-03T23:60:00\n",
    "2025-03-03T23:59:60\n",
    // another form
    "\n",
    "2025-03-03\n",
    "2025-03-03T09:00:0\n",
    "2025-03-03T09:00:000\n",
    "2025-03-03T09:00:00Z\n",
    " 2025-03-03T09:00:00\n",
    "2025-03-03t09:00:00\n",
    "2025-03-03 09:00:00\n",
    "2025/03/03T09:00:00\n",
    "2025-03-03T09.00.00\n",
    "+025-03-03T09:00:00\n",
    "-025-03-03T09:00:00\n",
    "x025-03-03T09:00:00\n",
    "2025-x3-03T09:00:00\n",
    "2025-03-0xT09:00:00\n",
    "2025-03-03Tx9:00:00\n",
    "2025-03-03T09:0x:00\n",
    "2025-03-03T09:00:x0",
);

// The seconds of a moment, if it is one.
fn seconds_of(text: &str) -> Option<u64> {
    Some(read_moment(text.as_bytes())?.seconds)
}

#[test]
fn reads_moments(rt: HostRuntime) {
    for (text, want) in READ {
        same_at(&rt, seconds_of(text), Some(want), text);
    }
    for text in NO_MOMENTS.split('\n') {
        same_at(&rt, seconds_of(text), None, text);
    }
}

const NINE: u32 = 32400;

const TEN: u32 = 36000;

const NOON: u32 = 43200;

const FIVE: u32 = 61200;

const DAY: u32 = 86400;

// 2025-03-03, a Monday.
const MONDAY: u32 = 739312;

const ON_MONDAYS: u8 = 1;

fn shift(date: Option<u32>, days: u8, times: Option<(u32, u32)>, places: u32) -> Shift
    requires { IsTrue (is_shift date days times places) }
{
    Shift {
        date,
        days,
        times,
        places,
    }
}

fn manager(rt: &impl Abort, alloc: Global, shifts: &[Shift]) -> Result<Manager, NoMemory>
    requires { length shifts.now ≤ 64 }
{
    let name = b"m".to_vec(alloc)?;
    assert!(rt; is_name(name.as_slice()));
    Ok(Manager {
        name: Name::from_vec(name),
        include: Seq::from_vec(Vec::new(alloc)),
        exclude: Seq::from_vec(Vec::new(alloc)),
        shifts: Seq::from_vec(Vec::from_slice(alloc, shifts)?),
    })
}

// So many seconds after the Monday begins, a manager with these shifts has so many places.
fn has_places(
    rt: &impl Abort,
    alloc: Global,
    shifts: &[Shift],
    rows: &[(u32, u32)],
) -> Result<(), NoMemory>
    requires { length shifts.now ≤ 64 }
{
    let manager = manager(rt, alloc, shifts)?;
    for (after, want) in rows {
        let seconds = u64::from(MONDAY) * u64::from(DAY) + u64::from(*after);
        same_at(rt, places(&manager, Moment { seconds }), *want, *after);
    }
    Ok(())
}

#[test]
fn counts_places(rt: HostRuntime) -> Result<(), Fail> {
    let alloc = rt.alloc();
    has_places(&rt, alloc, &[], &[(0, 1)])?;
    let worked = [shift(None, 0, Some((NINE, FIVE)), 1)];
    let rows = [(NINE - 1, 0), (NINE, 1), (FIVE - 1, 1), (FIVE, 0)];
    has_places(&rt, alloc, &worked, &rows)?;
    let closed = [
        shift(None, ON_MONDAYS, None, 3),
        shift(Some(MONDAY), 0, None, 0),
    ];
    let rows = [(TEN, 0), (DAY + TEN, 0), (7 * DAY + TEN, 3)];
    has_places(&rt, alloc, &closed, &rows)?;
    let equals = [
        shift(None, 0, Some((NINE, NOON)), 5),
        shift(None, 0, Some((NINE, FIVE)), 2),
    ];
    has_places(&rt, alloc, &equals, &[(TEN, 5), (NOON, 2)])?;
    let late = [shift(None, 0, Some((NOON, DAY)), 4)];
    has_places(&rt, alloc, &late, &[(DAY - 1, 4), (DAY, 0)])?;
    Ok(())
}

// Each shift goes before those in front of it.
#[test]
fn counts_places_by_the_nearest_shift(rt: HostRuntime) -> Result<(), Fail> {
    let alloc = rt.alloc();
    let levels = [
        shift(None, 0, None, 6),
        shift(None, 0, Some((NINE, FIVE)), 5),
        shift(None, ON_MONDAYS, None, 4),
        shift(None, ON_MONDAYS, Some((NINE, FIVE)), 3),
        shift(Some(MONDAY), 0, None, 2),
        shift(Some(MONDAY), 0, Some((NINE, FIVE)), 1),
    ];
    for (count, want) in [(1, 6), (2, 5), (3, 4), (4, 3), (5, 2), (6, 1)] {
        has_places(&rt, alloc, &levels[..count], &[(TEN, want)])?;
    }
    has_places(&rt, alloc, &levels, &[(DAY + TEN, 5), (DAY, 6)])?;
    Ok(())
}
