use super::expect::same_at;
use conc_repeat::expand;
use conc_types::{FileKind, NoMemory, ReadFail, Refusal, RefusalKind};
use std::alloc::Global;
use std::test::Fail;

const HEADER: &[u8] = b"from,every,unit,times,what,user,priority,domain,argument\n";

const SCRIPT_HEADER: &[u8] = b"at,do,what,user,priority,start,domain,argument\n";

// Records, and the submissions of their script.
static SCRIPTS: [(&str, &str); 9] = [
    ("", ""),
    (
        "2025-01-31T08:00:00,1,months,3,P,ann,,,\n2025-02-28T08:00:00,12,hours,2,Q,bob,5,,\n",
        concat!(
            "2025-01-31T08:00:00,submit,P,ann,,,,\n",
            "2025-02-28T08:00:00,submit,P,ann,,,,\n",
            "2025-02-28T08:00:00,submit,Q,bob,5,,,\n",
            "2025-02-28T20:00:00,submit,Q,bob,5,,,\n",
            "2025-03-31T08:00:00,submit,P,ann,,,,\n",
        ),
    ),
    // The later record stands first at its earlier moment, and last at an equal one.
    (
        "2025-01-02T00:00:00,1,days,2,A,u,,,\r\n\r\n2025-01-01T00:00:00,1,days,3,B,v,,,",
        concat!(
            "2025-01-01T00:00:00,submit,B,v,,,,\n",
            "2025-01-02T00:00:00,submit,A,u,,,,\n",
            "2025-01-02T00:00:00,submit,B,v,,,,\n",
            "2025-01-03T00:00:00,submit,A,u,,,,\n",
            "2025-01-03T00:00:00,submit,B,v,,,,\n",
        ),
    ),
    (
        "2024-02-29T00:00:00,1,months,1,P,ann,,,\n",
        "2024-02-29T00:00:00,submit,P,ann,,,,\n",
    ),
    (
        "2024-02-29T12:34:56,12,months,5,P,ann,,,\n",
        concat!(
            "2024-02-29T12:34:56,submit,P,ann,,,,\n",
            "2025-02-28T12:34:56,submit,P,ann,,,,\n",
            "2026-02-28T12:34:56,submit,P,ann,,,,\n",
            "2027-02-28T12:34:56,submit,P,ann,,,,\n",
            "2028-02-29T12:34:56,submit,P,ann,,,,\n",
        ),
    ),
    (
        "9999-12-31T23:59:59,1000,months,1,P,ann,,,\n",
        "9999-12-31T23:59:59,submit,P,ann,,,,\n",
    ),
    (
        "0001-01-01T00:00:00,2,weeks,3,P,ann,99,d,x y\n",
        concat!(
            "0001-01-01T00:00:00,submit,P,ann,99,,d,x y\n",
            "0001-01-15T00:00:00,submit,P,ann,99,,d,x y\n",
            "0001-01-29T00:00:00,submit,P,ann,99,,d,x y\n",
        ),
    ),
    (
        "9999-12-31T22:59:59,1,hours,2,\"P,1\",\"a \"\"b\"\"\",1,,\"x,y\"\n",
        concat!(
            "9999-12-31T22:59:59,submit,\"P,1\",\"a \"\"b\"\"\",1,,,\"x,y\"\n",
            "9999-12-31T23:59:59,submit,\"P,1\",\"a \"\"b\"\"\",1,,,\"x,y\"\n",
        ),
    ),
    (
        "9999-10-31T00:00:00,1,months,3,P,ann,,,\n",
        concat!(
            "9999-10-31T00:00:00,submit,P,ann,,,,\n",
            "9999-11-30T00:00:00,submit,P,ann,,,,\n",
            "9999-12-31T00:00:00,submit,P,ann,,,,\n",
        ),
    ),
];

fn with_header(alloc: Global, header: &[u8], records: &str) -> Result<Vec<u8>, NoMemory> {
    let mut text = header.to_vec(alloc)?;
    text.extend_from_slice(records.as_bytes())?;
    Ok(text)
}

#[test]
fn writes_repeated_scripts(rt: HostRuntime) -> Result<(), Fail> {
    for (records, submissions) in SCRIPTS {
        let file = with_header(rt.alloc(), HEADER, records)?;
        let script = with_header(rt.alloc(), SCRIPT_HEADER, submissions)?;
        let written = expand(rt.alloc(), file.as_slice())?;
        same_at(&rt, written.as_slice(), script.as_slice(), records);
    }
    Ok(())
}

// Records, and the line and the rule for which they are refused.
static REFUSED: [(&str, u64, RefusalKind); 24] = [
    (
        "9999-12-31T23:00:00,1,hours,2,P,ann,,,\n",
        2,
        RefusalKind::PastEnd,
    ),
    (
        "9999-11-30T00:00:00,1,months,3,P,ann,,,\n",
        2,
        RefusalKind::PastEnd,
    ),
    (
        "9999-12-31T23:59:59,1,days,4096,P,ann,,,\n",
        2,
        RefusalKind::PastEnd,
    ),
    (
        "0001-01-01T00:00:00,1000,months,4096,P,ann,,,\n",
        2,
        RefusalKind::PastEnd,
    ),
    (
        "2025-01-01T00:00:00,1,hours,4096,P,ann,,,\n2025-01-01T00:00:00,1,hours,1,P,ann,,,\n",
        3,
        RefusalKind::TooManyCommands,
    ),
    (
        "2025-01-01T00:00:00,1,hours,4096,P,ann,,,\n9999-01-01T00:00:00,1,months,4096,P,ann,,,\n",
        3,
        RefusalKind::PastEnd,
    ),
    ("a,b\n", 2, RefusalKind::NotRepeats),
    (
        "2025-01-01T00:00:00,1,hours,1,P,ann,,,,\n",
        2,
        RefusalKind::NotRepeats,
    ),
    (
        "2025-02-29T00:00:00,1,hours,1,P,ann,,,\n",
        2,
        RefusalKind::BadRepeat,
    ),
    (
        "2025-01-01T00:00:00,0,hours,1,P,ann,,,\n",
        2,
        RefusalKind::BadRepeat,
    ),
    (
        "2025-01-01T00:00:00,1001,hours,1,P,ann,,,\n",
        2,
        RefusalKind::BadRepeat,
    ),
    (
        "2025-01-01T00:00:00,01,hours,1,P,ann,,,\n",
        2,
        RefusalKind::BadRepeat,
    ),
    (
        "2025-01-01T00:00:00,1,hours,0,P,ann,,,\n",
        2,
        RefusalKind::BadRepeat,
    ),
    (
        "2025-01-01T00:00:00,1,hours,4097,P,ann,,,\n",
        2,
        RefusalKind::BadRepeat,
    ),
    (
        "2025-01-01T00:00:00,1,hours,1,,ann,,,\n",
        2,
        RefusalKind::BadRepeat,
    ),
    (
        "2025-01-01T00:00:00,1,hours,1,P,,,,\n",
        2,
        RefusalKind::BadRepeat,
    ),
    (
        "2025-01-01T00:00:00,1,hours,1,P,ann,0,,\n",
        2,
        RefusalKind::BadRepeat,
    ),
    (
        "2025-01-01T00:00:00,1,hours,1,P,ann,100,,\n",
        2,
        RefusalKind::BadRepeat,
    ),
    (
        "2025-01-01T00:00:00,1,hours,1,P,ann,,\"a\nb\",\n",
        2,
        RefusalKind::BadRepeat,
    ),
    (
        "2025-01-01T00:00:00,1,hours,1,P,ann,,,\"\t\"\n",
        2,
        RefusalKind::BadRepeat,
    ),
    (
        "2025-01-01T00:00:00,1,Hours,1,P,ann,,,\n",
        2,
        RefusalKind::UnknownUnit,
    ),
    (
        "2025-01-01T00:00:00,1,,1,P,ann,,,\n",
        2,
        RefusalKind::UnknownUnit,
    ),
    // The form of a later field comes before the unit, and the unit before the calendar's end.
    (
        "2025-01-01T00:00:00,1,years,1,P,ann,x,,\n",
        2,
        RefusalKind::BadRepeat,
    ),
    (
        "2025-01-01T00:00:00,1,days,1,P,ann,,,\n\n\n9999-12-31T23:00:00,1,years,2,P,ann,,,\n",
        3,
        RefusalKind::UnknownUnit,
    ),
];

fn refusal(expanded: Result<Vec<u8>, ReadFail>) -> Option<Refusal> {
    match expanded {
        Err(ReadFail::Refused(refusal)) => Some(refusal),
        _ => None,
    }
}

#[test]
fn refuses_repeats(rt: HostRuntime) -> Result<(), Fail> {
    for (records, line, kind) in REFUSED {
        let file = with_header(rt.alloc(), HEADER, records)?;
        let wanted = Refusal {
            file: FileKind::Repeats,
            line,
            kind,
        };
        same_at(
            &rt,
            refusal(expand(rt.alloc(), file.as_slice())),
            Some(wanted),
            records,
        );
    }
    Ok(())
}

#[test]
fn refuses_headers_of_repeats(rt: HostRuntime) {
    let wanted = Refusal {
        file: FileKind::Repeats,
        line: 1,
        kind: RefusalKind::NotRepeats,
    };
    for text in [
        "",
        "\n",
        "from,every\n",
        "at,do,what,user,priority,start,domain,argument\n",
    ] {
        same_at(
            &rt,
            refusal(expand(rt.alloc(), text.as_bytes())),
            Some(wanted),
            text,
        );
    }
}
