use super::expect::same_at;
use conc_reports::{Made, report};
use conc_setup::read_setup;
use conc_tables::read_table;
use conc_types::{Outcome, Program, Setup};
use std::alloc::Global;
use std::test::Fail;

// A program that sums a column.
const SETUP: &str =
    "tables = [\"t.csv\"]\n[[program]]\nname = \"P\"\ntable = \"t.csv\"\nsum = \"v\"\n";

// What more the setup says of the program, its table, and the outcome and the text of its report.
static REPORTS: [(&str, &str, Outcome, &str); 8] = [
    (
        "group = \"k\"",
        "k,v\na,10\nb,20\na,5\n",
        Outcome::Normal,
        "key,count,sum\na,2,15\nb,1,20\ntotal,3,35\n",
    ),
    (
        "group = \"k\"",
        "k,v\nb,1\n\"a,b\",2\n\"c\"\"d\",3\n",
        Outcome::Normal,
        "key,count,sum\n\"a,b\",1,2\nb,1,1\n\"c\"\"d\",1,3\ntotal,3,6\n",
    ),
    (
        "group = \"k\"",
        "k,v\na,1\na,12x\na,y\n",
        Outcome::Error,
        "row 2: not a whole number\n",
    ),
    (
        "group = \"k\"",
        "k,v\na,9223372036854775808\n",
        Outcome::Error,
        "row 1: not a whole number\n",
    ),
    (
        "",
        "k,v\na,9223372036854775807\nb,9223372036854775807\n",
        Outcome::Normal,
        "key,count,sum\ntotal,2,18446744073709551614\n",
    ),
    (
        "warn_over = 2\nerror_over = 2",
        "k,v\na,1\nb,2\n",
        Outcome::Normal,
        "key,count,sum\ntotal,2,3\n",
    ),
    (
        "warn_over = 1\nerror_over = 2",
        "k,v\na,1\nb,2\n",
        Outcome::Warning,
        "key,count,sum\ntotal,2,3\n",
    ),
    (
        "warn_over = 1\nerror_over = 1",
        "k,v\na,1\nb,2\n",
        Outcome::Error,
        "key,count,sum\ntotal,2,3\n",
    ),
];

fn setup_with(alloc: Global, more: &str) -> Result<Setup, Fail> {
    let text = format!(in alloc; "{SETUP}{more}\n")?;
    Ok(read_setup(alloc, text.as_bytes())?)
}

fn made_of(alloc: Global, program: &Program, rows: &str) -> Result<Made, Fail> {
    let table = read_table(alloc, rows.as_bytes(), 0)?;
    Ok(report(alloc, &program.job, b"", &table)?)
}

#[test]
fn reports(rt: HostRuntime) -> Result<(), Fail> {
    let alloc = rt.alloc();
    for (more, rows, outcome, text) in REPORTS {
        let setup = setup_with(alloc, more)?;
        let program = setup.programs.as_slice().first().expect(&rt, more);
        let made = made_of(alloc, program, rows)?;
        same_at(&rt, made.outcome, outcome, (rows, more));
        same_at(&rt, made.text.as_slice(), text.as_bytes(), (rows, more));
    }
    Ok(())
}
