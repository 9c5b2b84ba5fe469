use conc_show_model::{ChartFail, ChartFile, ChartRefusal, ChartWhy, Planned};
use conc_show_plan::read_planned;
use conc_types::{RequestId, numbered};
use std::alloc::Global;
use std::test::Fail;

// A set with two members, and two requests behind it.
const LISTING: &str = "\
1\t10\t2025-03-03T09:00:00\t0\t0\tStandard\tann\tMorning\n\
2\t10\t2025-03-03T09:00:00\t1\t1\tStandard\tann\tBacklog\n\
3\t10\t2025-03-03T09:00:00\t1\t2\tStandard\tann\tLate Orders\n\
4\t50\t2025-03-03T09:00:00\t0\t0\tStandard\tguest\tBacklog\n\
5\t50\t2025-03-04T08:00:00\t0\t0\tStandard\tbob\tLate Orders\n";

// Its first and its third command submit.
const SCRIPT: &str = "at,do,what\n09:00,submit,Morning\n09:00,hold,1\n09:05,submit,Backlog\n";

fn bytes_of(script: Option<&str>) -> Option<&[u8]> {
    match script {
        Some(script) => Some(script.as_bytes()),
        None => None,
    }
}

// What is told of a request, where the plan and the script are read.
fn told(alloc: Global, script: Option<&str>, number: u32) -> Option<Planned> {
    let planned = read_planned(alloc, LISTING.as_bytes(), bytes_of(script)).ok()?;
    numbered(planned.as_slice(), number).copied()
}

// The refusal, and nothing where both are read or memory lacks.
fn refusal(alloc: Global, listing: &str, script: Option<&str>) -> Option<ChartRefusal> {
    match read_planned(alloc, listing.as_bytes(), bytes_of(script)) {
        Err(ChartFail::Refused(refusal)) => Some(refusal),
        _ => None,
    }
}

fn no_line(line: u64) -> Option<ChartRefusal> {
    Some(ChartRefusal {
        file: ChartFile::Plan,
        line: Some(line),
        why: ChartWhy::NoPlanLine,
    })
}

fn no_record(number: u64) -> Option<ChartRefusal> {
    Some(ChartRefusal {
        file: ChartFile::Script,
        line: Some(number),
        why: ChartWhy::NoScriptRecord,
    })
}

fn planned(set: Option<u32>, command: Option<u32>) -> Option<Planned> {
    let set = match set {
        Some(number) => Some(RequestId { number }),
        None => None,
    };
    Some(Planned { set, command })
}

#[test]
fn plans_tell_sets_and_commands(rt: HostRuntime) -> Result<(), Fail> {
    let alloc = rt.alloc();
    let script = Some(SCRIPT);
    assert_eq!(rt; told(alloc, script, 1), planned(None, Some(1)));
    assert_eq!(rt; told(alloc, script, 2), planned(Some(1), Some(1)));
    assert_eq!(rt; told(alloc, script, 3), planned(Some(1), Some(1)));
    assert_eq!(rt; told(alloc, script, 4), planned(None, Some(3)));
    assert_eq!(rt; told(alloc, script, 5), planned(None, None));
    assert_eq!(rt; told(alloc, script, 6), None);
    assert_eq!(rt; told(alloc, None, 1), planned(None, None));
    assert_eq!(rt; told(alloc, None, 3), planned(Some(1), None));
    Ok(())
}

// Whether a text begins with the first line of a listing.
fn is_line(alloc: Global, line: &str) -> bool {
    refusal(alloc, line, None) != no_line(1)
}

#[test]
fn listings_are_refused(rt: HostRuntime) -> Result<(), Fail> {
    let alloc = rt.alloc();
    assert_eq!(rt; refusal(alloc, "", None), None);
    assert!(rt; is_line(alloc, "1\t99\t2025-03-03T09:00:00\t0\t0\tD\tU\tN\n"));
    assert!(rt; is_line(alloc, "1\t1\t2025-03-03T09:00:00\t7\t1\tD\tU\tN\n"));
    assert!(rt; !is_line(alloc, "2\t1\t2025-03-03T09:00:00\t0\t0\tD\tU\tN\n"));
    assert!(rt; !is_line(alloc, "1\t0\t2025-03-03T09:00:00\t0\t0\tD\tU\tN\n"));
    assert!(rt; !is_line(alloc, "1\t100\t2025-03-03T09:00:00\t0\t0\tD\tU\tN\n"));
    assert!(rt; !is_line(alloc, "1\t1\t2025-02-29T09:00:00\t0\t0\tD\tU\tN\n"));
    assert!(rt; !is_line(alloc, "1\t1\t2025-03-03T09:00:00\t0\t1\tD\tU\tN\n"));
    assert!(rt; !is_line(alloc, "1\t1\t2025-03-03T09:00:00\t1\t0\tD\tU\tN\n"));
    assert!(rt; !is_line(alloc, "1\t1\t2025-03-03T09:00:00\t4294967296\t1\tD\tU\tN\n"));
    assert!(rt; !is_line(alloc, "1\t1\t2025-03-03T09:00:00\t0\t0\t\tU\tN\n"));
    assert!(rt; !is_line(alloc, "1\t1\t2025-03-03T09:00:00\t0\t0\tD\tU\n"));
    assert!(rt; !is_line(alloc, "1\t1\t2025-03-03T09:00:00\t0\t0\tD\tU\tN\t\n"));
    assert!(rt; !is_line(alloc, "1\t1\t2025-03-03T09:00:00\t0\t0\tD\tU\tN"));
    let open = "1\t1\t2025-03-03T09:00:00\t0\t0\tD\tU\tN\n2";
    assert_eq!(rt; refusal(alloc, open, None), no_line(2));
    Ok(())
}

#[test]
fn scripts_are_refused(rt: HostRuntime) -> Result<(), Fail> {
    let alloc = rt.alloc();
    assert_eq!(rt; refusal(alloc, LISTING, Some("")), None);
    assert_eq!(rt; refusal(alloc, LISTING, Some("head\n")), None);
    assert_eq!(rt;
        refusal(alloc, LISTING, Some("head\na,b\nc\n")),
        no_record(3)
    );
    assert_eq!(rt;
        refusal(alloc, LISTING, Some("head\nsubmit\nc,d\n")),
        no_record(2)
    );
    // The plan is judged first.
    assert_eq!(rt; refusal(alloc, "x\n", Some("head\nc\n")), no_line(1));
    Ok(())
}
