use super::expect::{same, same_at};
use conc_script::{read_clock, read_script};
use conc_setup::read_setup;
use conc_types::{
    Act, FileKind, Item, Moment, NoMemory, Order, ReadFail, Reading, Refusal, RefusalKind,
    RequestId, Script, Setup,
};
use std::alloc::Global;
use std::process::Abort;
use std::test::Fail;

// 2025-03-03T09:00:00
const NINE: u64 = 63_876_589_200;

const HEADER: &[u8] = b"at,do,what,user,priority,start,domain,argument\n";

// The program `daily` and the set `close`, which enters three requests.
const SETUP: &str = r#"tables = ["sales.csv"]

[[program]]
name = "daily"
table = "sales.csv"

[[set]]
name = "close"

[[set.stage]]
name = "first"
members = ["daily", "daily"]
"#;

fn refusal<T: Drop>(read: Result<T, ReadFail>) -> Option<Refusal> {
    match read {
        Err(ReadFail::Refused(refusal)) => Some(refusal),
        _ => None,
    }
}

fn with_header(alloc: Global, records: &[u8]) -> Result<Vec<u8>, NoMemory> {
    let mut text = HEADER.to_vec(alloc)?;
    text.extend_from_slice(records)?;
    Ok(text)
}

// Clocks, and the line and the rule for which they are refused.
static CLOCKS: [(&str, u64, RefusalKind); 7] = [
    ("", 1, RefusalKind::BadField),
    ("2025-03-03T09:00:00  !\n", 1, RefusalKind::BadField),
    ("2025-03-03T09:00:00!\n", 1, RefusalKind::BadField),
    ("2025-03-03T09:00:00\nx\n", 2, RefusalKind::BadField),
    (
        "2025-03-03T09:00:00\n\n2025-03-03T09:00:01\n",
        2,
        RefusalKind::BadField,
    ),
    (
        "2025-03-03T09:00:00\n2025-03-03T09:00:01\n2025-03-03T09:00:00\n",
        3,
        RefusalKind::ClockBack,
    ),
    (
        "2025-03-03T09:00:01\n2025-03-03T09:00:00 x\n",
        2,
        RefusalKind::BadField,
    ),
];

#[test]
fn refuses_clocks(rt: HostRuntime) {
    for (text, line, kind) in CLOCKS {
        let file = FileKind::Clock;
        same_at(
            &rt,
            refusal(read_clock(rt.alloc(), text.as_bytes())),
            Some(Refusal { file, line, kind }),
            text,
        );
    }
}

// The first reading of a clock, the last one, and how many there are.
fn ends_of(alloc: Global, text: &str) -> Result<(Option<Reading>, Option<Reading>, usize), Fail> {
    let readings = read_clock(alloc, text.as_bytes())?.list;
    let list = readings.as_slice();
    Ok((list.first().copied(), list.last().copied(), list.len()))
}

#[test]
fn reads_clocks(rt: HostRuntime) -> Result<(), Fail> {
    let nine = Moment { seconds: NINE };
    let later = Moment { seconds: NINE + 1 };
    let at = |moment: Moment, early: bool| Reading { moment, early };
    for (text, first, last) in [
        ("2025-03-03T09:00:00\n", at(nine, false), at(nine, false)),
        ("2025-03-03T09:00:00", at(nine, false), at(nine, false)),
        ("2025-03-03T09:00:00\r\n", at(nine, false), at(nine, false)),
        ("2025-03-03T09:00:00 !\n", at(nine, true), at(nine, true)),
        (
            "2025-03-03T09:00:00 !\r\n2025-03-03T09:00:01",
            at(nine, true),
            at(later, false),
        ),
        (
            "2025-03-03T09:00:00\n2025-03-03T09:00:00 !",
            at(nine, false),
            at(nine, true),
        ),
    ] {
        let want = (Some(first), Some(last), text.lines().count());
        same_at(&rt, ends_of(rt.alloc(), text)?, want, text);
    }
    Ok(())
}

// Records behind the header, and the record and the rule for which they are refused.
static REFUSED: [(&str, u64, RefusalKind); 17] = [
    (
        "2025-03-03T09:00:00,submit,daily,ann,,,\n",
        2,
        RefusalKind::NotCsv,
    ),
    (
        "2025-03-03,submit,daily,ann,,,,\n",
        2,
        RefusalKind::BadField,
    ),
    (
        "2025-03-03T09:00:01,submit,daily,ann,,,,\n2025-03-03T09:00:00,submit,daily,ann,,,,\n",
        3,
        RefusalKind::MomentBack,
    ),
    (
        "2025-03-03T09:00:01,submit,daily,ann,,,,\n2025-03-03T09:00:00,start,daily,ann,,,,\n",
        3,
        RefusalKind::MomentBack,
    ),
    (
        "2025-03-03T09:00:01,submit,daily,ann,,,,\n2025-03-03,submit,daily,ann,,,,\n",
        3,
        RefusalKind::BadField,
    ),
    (
        "2025-03-03T09:00:00,start,daily,ann,,,,\n",
        2,
        RefusalKind::UnknownWord,
    ),
    (
        "2025-03-03T09:00:00,submit,weekly,ann,,,,\n",
        2,
        RefusalKind::UnknownItem,
    ),
    (
        "2025-03-03T09:00:00,submit,daily,ann,,,,\n2025-03-03T09:00:00,hold,x,,,,,\n",
        3,
        RefusalKind::BadField,
    ),
    (
        "2025-03-03T09:00:00,submit,daily,ann,,,,\n2025-03-03T09:00:00,hold,0,,,,,\n",
        3,
        RefusalKind::UnknownRequest,
    ),
    (
        "2025-03-03T09:00:00,hold,1,,,,,\n2025-03-03T09:00:00,submit,daily,ann,,,,\n",
        2,
        RefusalKind::UnknownRequest,
    ),
    (
        "2025-03-03T09:00:00,submit,close,ann,,,,\n2025-03-03T09:00:00,hold,4,,,,,\n",
        3,
        RefusalKind::UnknownRequest,
    ),
    (
        "2025-03-03T09:00:00,submit,daily,ann,0,,,\n",
        2,
        RefusalKind::BadField,
    ),
    (
        "2025-03-03T09:00:00,submit,daily,ann,100,,,\n",
        2,
        RefusalKind::BadField,
    ),
    (
        "2025-03-03T09:00:00,submit,daily,ann,,9:00,,\n",
        2,
        RefusalKind::BadField,
    ),
    (
        "2025-03-03T09:00:00,submit,daily,,,,,\n",
        2,
        RefusalKind::BadField,
    ),
    (
        "2025-03-03T09:00:00,submit,daily,ann,,,,\n2025-03-03T09:00:00,hold,1,,50,,,\n",
        3,
        RefusalKind::BadField,
    ),
    (
        "2025-03-03T09:00:00,submit,daily,ann,,,,\n2025-03-03T09:00:00,hold,1,,,,,x\n",
        3,
        RefusalKind::BadField,
    ),
];

fn refused(line: u64, kind: RefusalKind) -> Option<Refusal> {
    let file = FileKind::Script;
    Some(Refusal { file, line, kind })
}

// For what a script of these records is refused, if it is.
fn refusal_of(alloc: Global, records: &[u8], setup: &Setup) -> Result<Option<Refusal>, Fail> {
    let text = with_header(alloc, records)?;
    Ok(refusal(read_script(alloc, &text, setup)))
}

fn refuses<Rt: Abort>(rt: &Rt, alloc: Global, setup: &Setup) -> Result<(), Fail> {
    for text in ["", "At,do,what,user,priority,start,domain,argument\n"] {
        let read = read_script(alloc, text.as_bytes(), setup);
        same_at(rt, refusal(read), refused(1, RefusalKind::NotCsv), text);
    }
    for (records, line, kind) in REFUSED {
        let found = refusal_of(alloc, records.as_bytes(), setup)?;
        same_at(rt, found, refused(line, kind), records);
    }
    let found = refusal_of(
        alloc,
        b"2025-03-03T09:00:00,submit,daily,ann,,,,\xff\n",
        setup,
    )?;
    same(rt, found, refused(2, RefusalKind::NotCsv));
    Ok(())
}

#[test]
fn refuses_scripts(rt: HostRuntime) -> Result<(), Fail> {
    let setup = read_setup(rt.alloc(), SETUP.as_bytes())?;
    refuses(&rt, rt.alloc(), &setup)
}

// A submission whose argument has so many bytes.
fn with_argument(alloc: Global, length: usize) -> Result<Vec<u8>, Fail> {
    let mut records = b"2025-03-03T09:00:00,submit,daily,ann,,,,".to_vec(alloc)?;
    let argument = vec![in alloc; b'x'; length]?;
    records.extend_from_slice(&argument)?;
    Ok(records)
}

#[test]
fn bounds_arguments(rt: HostRuntime) -> Result<(), Fail> {
    let alloc = rt.alloc();
    let setup = read_setup(alloc, SETUP.as_bytes())?;
    for (length, want) in [(200, None), (201, refused(2, RefusalKind::BadField))] {
        let records = with_argument(alloc, length)?;
        same_at(&rt, refusal_of(alloc, &records, &setup)?, want, length);
    }
    Ok(())
}

fn submits_the_set<Rt: Abort>(rt: &Rt, order: &Order) {
    let nine = Moment { seconds: NINE };
    let Act::Submit {
        item,
        user,
        priority,
        start,
        domain,
        argument,
    } = &order.act
    else {
        panic!(rt; "no submission");
    };
    same(rt, order.at, nine);
    same(rt, *item, Item::Set(0));
    same(rt, *priority, 50);
    same(rt, *start, nine);
    same(rt, user.as_bytes(), b"ann".as_slice());
    same(rt, domain.as_bytes(), b"Standard".as_slice());
    assert!(rt; argument.is_empty());
}

fn submits_and_holds<Rt: Abort>(rt: &Rt, script: &Script) {
    let [submission, hold] = script.commands.as_slice() else {
        panic!(rt; "{} commands", script.commands.len());
    };
    submits_the_set(rt, submission);
    let request = RequestId { number: 3 };
    assert!(rt; matches!(&hold.act, Act::Hold { request: held } if *held == request));
}

#[test]
fn reads_scripts(rt: HostRuntime) -> Result<(), Fail> {
    let alloc = rt.alloc();
    let setup = read_setup(alloc, SETUP.as_bytes())?;
    let records = b"2025-03-03T09:00:00,submit,close,ann,,,,\n2025-03-03T09:00:00,hold,3,,,,,\n";
    let text = with_header(alloc, records)?;
    let script = read_script(alloc, &text, &setup)?;
    submits_and_holds(&rt, &script);
    Ok(())
}
