use conc_show_model::{ChartFail, ChartFile, ChartRefusal, ChartWhy, read_chart};
use std::alloc::Global;
use std::test::Fail;

// Histories whose second line is no event line.
const NO_EVENT_LINE: [&str; 2] = ["resume\nresume", "resume\nstart 1 1.65\n--\n"];

// Histories whose second line is no line of the table.
const NO_TABLE_LINE: [&str; 6] = [
    "--\n1 Running Normal P",
    "--\n1 Running Fine P\n",
    "--\n1 Running Waiting P\n",
    "--\n1 Pending Terminated P\n",
    "--\n1 Running Normal \n",
    "--\n0 Running Normal P\n",
];

// Histories that are read.
const READ: [&str; 5] = [
    "--\n",
    "--\n1 Running Normal P\n",
    "--\n1 Completed Terminated P\n",
    "--\n1 Pending Waiting P\nwatch 1\n",
    "start 1 1.1\ninterrupt 1\nstart 1 1.1\n--\n1 Running Normal P\n",
];

// The refusal of a text, and nothing where it is read or memory lacks.
fn refusal(alloc: Global, text: &str) -> Option<ChartRefusal> {
    match read_chart(alloc, text.as_bytes()) {
        Err(ChartFail::Refused(refusal)) => Some(refusal),
        _ => None,
    }
}

// The refusal of the history at a line.
fn at(line: u64, why: ChartWhy) -> Option<ChartRefusal> {
    Some(ChartRefusal {
        file: ChartFile::History,
        line: Some(line),
        why,
    })
}

#[test]
fn lines_are_refused(rt: HostRuntime) -> Result<(), Fail> {
    let first = at(1, ChartWhy::NoEventLine);
    assert_eq!(rt; refusal(rt.alloc(), ""), first);
    let no_event_line = at(2, ChartWhy::NoEventLine);
    for text in NO_EVENT_LINE {
        assert_eq!(rt; refusal(rt.alloc(), text), no_event_line);
    }
    let no_table_line = at(2, ChartWhy::NoTableLine);
    for text in NO_TABLE_LINE {
        assert_eq!(rt; refusal(rt.alloc(), text), no_table_line);
    }
    Ok(())
}

#[test]
fn lawful_lines_are_read(rt: HostRuntime) -> Result<(), Fail> {
    for text in READ {
        let _chart = read_chart(rt.alloc(), text.as_bytes())?;
    }
    Ok(())
}

#[test]
fn tables_are_refused(rt: HostRuntime) -> Result<(), Fail> {
    let wanted = at(3, ChartWhy::NoTableLine);
    let back = "--\n2 Inactive On Hold P\n2 Inactive No Manager P\n";
    assert_eq!(rt; refusal(rt.alloc(), back), wanted);
    let behind = "--\nwatch 1 0 0 0 0 0\n1 Pending Waiting P\n";
    assert_eq!(rt; refusal(rt.alloc(), behind), wanted);
    Ok(())
}

// Histories with the first event that the runs before it do not allow: its line, and why.
const NOT_ALLOWED: [(&str, u64, ChartWhy); 4] = [
    (
        "let 2\n--\n1 Pending Waiting P\n",
        1,
        ChartWhy::NoSuchRequest,
    ),
    (
        "start 1 1.1\nstart 1 1.2\n--\n1 Running Normal P\n",
        2,
        ChartWhy::RunsAlready,
    ),
    (
        "start 1 64.64\nstart 2 64.64\n--\n1 Running Normal P\n2 Running Normal P\n",
        2,
        ChartWhy::PlaceTaken,
    ),
    (
        "start 1 1.1\ninterrupt 1\nend 1 Terminated\n--\n1 Running Normal P\n",
        3,
        ChartWhy::DoesNotRun,
    ),
];

#[test]
fn events_are_refused(rt: HostRuntime) -> Result<(), Fail> {
    for (text, line, why) in NOT_ALLOWED {
        assert_eq!(rt; refusal(rt.alloc(), text), at(line, why));
    }
    Ok(())
}
