use conc_show_model::{Chart, Planned, read_chart};
use conc_show_tables::{put_csv, put_json};
use conc_types::{RequestId, Seq};
use std::alloc::Global;
use std::test::Fail;

const EVENTS: &str = "tick 2025-03-03T09:00:00
do 1
open 1
stage 1 1
let 2
start 2 2.1
tick 2025-03-03T09:00:05
end 2 Normal 0 63
close 1 Normal
resume
--
1 Completed Normal A \"B\", C
2 Completed Normal Back\\slash
";

const CSV: &str = "request,program,set,phase,status,place,do,let,start,end,waited,ran,offset,length
1,\"A \"\"B\"\", C\",,Completed,Normal,,,2025-03-03T09:00:00,2025-03-03T09:00:00,2025-03-03T09:00:05,0,5,,
2,Back\\slash,,Completed,Normal,2.1,,2025-03-03T09:00:00,2025-03-03T09:00:00,2025-03-03T09:00:05,0,5,0,63
";

const JSON: &str = "{\"event\":1,\"what\":\"tick\",\"moment\":\"2025-03-03T09:00:00\"}
{\"event\":2,\"what\":\"do\",\"command\":1}
{\"event\":3,\"what\":\"open\",\"request\":1}
{\"event\":4,\"what\":\"stage\",\"request\":1,\"stage\":1}
{\"event\":5,\"what\":\"let\",\"request\":2}
{\"event\":6,\"what\":\"start\",\"request\":2,\"place\":\"2.1\"}
{\"event\":7,\"what\":\"tick\",\"moment\":\"2025-03-03T09:00:05\"}
{\"event\":8,\"what\":\"end\",\"request\":2,\"outcome\":\"Normal\",\"offset\":0,\"length\":63}
{\"event\":9,\"what\":\"close\",\"request\":1,\"outcome\":\"Normal\"}
{\"event\":10,\"what\":\"resume\"}
{\"request\":1,\"program\":\"A \\\"B\\\", C\",\"set\":null,\"phase\":\"Completed\",\"status\":\"Normal\",\"place\":null,\"do\":null,\"let\":\"2025-03-03T09:00:00\",\"start\":\"2025-03-03T09:00:00\",\"end\":\"2025-03-03T09:00:05\",\"waited\":0,\"ran\":5,\"offset\":null,\"length\":null}
{\"request\":2,\"program\":\"Back\\\\slash\",\"set\":null,\"phase\":\"Completed\",\"status\":\"Normal\",\"place\":\"2.1\",\"do\":null,\"let\":\"2025-03-03T09:00:00\",\"start\":\"2025-03-03T09:00:00\",\"end\":\"2025-03-03T09:00:05\",\"waited\":0,\"ran\":5,\"offset\":0,\"length\":63}
";

// Command 1 is done twice, as in no lawful history: the first time counts.
const DONE: &str = "tick 2025-03-03T09:00:00
do 1
let 1
tick 2025-03-03T10:00:00
do 2
do 1
let 1
--
1 Pending Normal A
2 Pending Normal B
3 Pending Normal C
";

const DONE_CSV: &str =
    "request,program,set,phase,status,place,do,let,start,end,waited,ran,offset,length
1,A,,Pending,Normal,,2025-03-03T09:00:00,2025-03-03T10:00:00,,,,,,
2,B,1,Pending,Normal,,2025-03-03T10:00:00,,,,,,,
3,C,,Pending,Normal,,,,,,,,,
";

const DONE_JSON: &str = "{\"event\":7,\"what\":\"let\",\"request\":1}
{\"request\":1,\"program\":\"A\",\"set\":null,\"phase\":\"Pending\",\"status\":\"Normal\",\"place\":null,\"do\":\"2025-03-03T09:00:00\",\"let\":\"2025-03-03T10:00:00\",\"start\":null,\"end\":null,\"waited\":null,\"ran\":null,\"offset\":null,\"length\":null}
{\"request\":2,\"program\":\"B\",\"set\":1,\"phase\":\"Pending\",\"status\":\"Normal\",\"place\":null,\"do\":\"2025-03-03T10:00:00\",\"let\":null,\"start\":null,\"end\":null,\"waited\":null,\"ran\":null,\"offset\":null,\"length\":null}
{\"request\":3,\"program\":\"C\",\"set\":null,\"phase\":\"Pending\",\"status\":\"Normal\",\"place\":null,\"do\":null,\"let\":null,\"start\":null,\"end\":null,\"waited\":null,\"ran\":null,\"offset\":null,\"length\":null}
";

fn chart(alloc: Global, text: &str) -> Result<Chart, Fail> {
    Ok(read_chart(alloc, text.as_bytes())?)
}

// The table of a chart as fields, and its lines of JSON.
fn tables_of(alloc: Global, chart: &Chart) -> Result<(Vec<u8>, Vec<u8>), Fail> {
    let mut fields = Vec::new(alloc);
    put_csv(alloc, &mut fields, chart)?;
    let mut lines = Vec::new(alloc);
    put_json(alloc, &mut lines, chart)?;
    Ok((fields, lines))
}

#[test]
fn a_chart_is_a_table_of_fields_and_lines_of_json(rt: HostRuntime) -> Result<(), Fail> {
    let chart = chart(rt.alloc(), EVENTS)?;
    let (fields, lines) = tables_of(rt.alloc(), &chart)?;
    assert_eq!(rt; fields.as_slice(), CSV.as_bytes());
    assert_eq!(rt; lines.as_slice(), JSON.as_bytes());
    Ok(())
}

// The history of commands, where the plan and the script tell which command entered which request.
fn planned_chart(alloc: Global) -> Result<Chart, Fail> {
    let mut planned = Vec::new(alloc);
    planned.push(Planned {
        set: None,
        command: Some(1),
    })?;
    planned.push(Planned {
        set: Some(RequestId { number: 1 }),
        command: Some(2),
    })?;
    planned.push(Planned {
        set: None,
        command: Some(3),
    })?;
    let mut chart = chart(alloc, DONE)?;
    chart.planned = Seq::from_vec(planned);
    Ok(chart)
}

#[test]
fn a_row_tells_when_its_command_is_done(rt: HostRuntime) -> Result<(), Fail> {
    let chart = planned_chart(rt.alloc())?;
    let (fields, lines) = tables_of(rt.alloc(), &chart)?;
    assert_eq!(rt; fields.as_slice(), DONE_CSV.as_bytes());
    assert!(rt; lines.ends_with(DONE_JSON.as_bytes()));
    Ok(())
}
