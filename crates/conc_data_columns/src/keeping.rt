ghost use Rattle.std.specs.Prelude.{◌≡◌, ◌<◌, length};
ghost use Rattle.std.specs.List.{All};
ghost use Rattle.conc_data_columns.specs.Made.{Stands};

use crate::asked::{Asked, Wanted, has_room};
use crate::making::{Hands, InTurn, Made, OnThreads};
use conc_types::{Item, Name, NoMemory, Plan, Program, Req, Seq, Setup, Table};
use std::alloc::Global;
use std::thread::Threads;

// A table whose reports look at fewer rows, all together, has nothing kept beside its cells.
const FEW_LOOKS: usize = 2048;

// ---- what was made

fn keep(table: &mut Table, made: Made) -> Result<(), NoMemory>
    requires { Stands table.old.rows made }
    ensures { table.new ≡ table.old }
{
    let kept = table.kept_size();
    match made {
        Made::Numbers(numbering) if has_room(table, kept.saturating_add(numbering.size())) => {
            table.keep_numbering(numbering)
        }
        Made::Amounts(amounts) if has_room(table, kept.saturating_add(amounts.size())) => {
            table.keep_amounts(amounts)
        }
        _ => Ok(()),
    }
}

// Keeps what was made, the first of it first.
fn keep_all(table: &mut Table, made: Vec<Made>) -> Result<(), NoMemory>
    requires { All (Stands table.old.rows) made.items }
    ensures { table.new ≡ table.old }
{
    for one in made {
        keep(table, one)?;
    }
    Ok(())
}

// ---- the columns of all jobs

// How many requests each of so many programs has.
fn requests_of(alloc: Global, programs: usize, requests: &[Req]) -> Result<Vec<usize>, NoMemory> {
    let mut counts = vec![in alloc; 0usize; programs]?;
    for request in requests {
        if let Item::Program(place) = request.item {
            if let Some(count) = counts.get_mut(place as usize) {
                *count = count.saturating_add(1);
            }
        }
    }
    Ok(counts)
}

// How many reports on the table with this name the program at a place makes.
fn reports_by(programs: &[Program], counts: &[usize], place: usize, name: &Name) -> usize
    requires { place < length programs.now }
{
    match counts.get(place) {
        Some(count) if programs[place].job.table.as_bytes() == name.as_bytes() => *count,
        _ => 0,
    }
}

// How many reports on the table with this name all programs make.
fn reports_on(programs: &[Program], counts: &[usize], name: &Name) -> usize {
    let mut reports = 0usize;
    for place in 0..programs.len() {
        reports = reports.saturating_add(reports_by(programs, counts, place, name));
    }
    reports
}

// Whether so many reports on a table of so many rows pay for what is kept of its columns.
fn is_worth_it(rows: usize, reports: usize) -> bool {
    reports >= 2 && rows.saturating_mul(reports) >= FEW_LOOKS
}

// What the programs ask of the columns of the table with this name.
fn asked_by(
    alloc: Global,
    programs: &[Program],
    counts: &[usize],
    name: &Name,
    table: &Table,
) -> Result<Vec<Asked>, NoMemory> {
    let mut wanted = Wanted::new(alloc, table);
    for place in 0..programs.len() {
        if reports_by(programs, counts, place, name) > 0 {
            wanted.add_job(&programs[place].job)?;
        }
    }
    Ok(wanted.into_asked())
}

fn keep_in<H: Hands>(
    alloc: Global,
    hands: &H,
    programs: &[Program],
    counts: &[usize],
    name: &Name,
    table: &mut Table,
) -> Result<(), NoMemory>
    ensures { table.new ≡ table.old }
{
    if !is_worth_it(table.row_count(), reports_on(programs, counts, name)) {
        return Ok(());
    }
    let asked = asked_by(alloc, programs, counts, name, table)?;
    let made = hands.make(alloc, table, asked.as_slice())?;
    keep_all(table, made)
}

fn keep_in_all<H: Hands>(
    alloc: Global,
    hands: &H,
    setup: &Setup,
    requests: &[Req],
    tables: &mut Vec<Table>,
) -> Result<(), NoMemory>
    ensures { tables.new.items ≡ tables.old.items }
{
    let programs = setup.programs.as_slice();
    let names = setup.tables.as_slice();
    let counts = requests_of(alloc, programs.len(), requests)?;
    for place in 0..tables.len() {
        if place < names.len() {
            let table = &mut tables[place];
            keep_in(
                alloc,
                hands,
                programs,
                counts.as_slice(),
                &names[place],
                table,
            )?;
        }
    }
    Ok(())
}

fn keep_with<H: Hands>(alloc: Global, hands: &H, plan: Plan) -> Plan
    ensures { result ≡ plan }
{
    let Plan {
        setup,
        script,
        tables,
        requests,
        stamps,
    } = plan;
    let mut tables = tables.into_vec();
    let _kept = keep_in_all(alloc, hands, &setup, requests.as_slice(), &mut tables);
    Plan {
        setup,
        script,
        tables: Seq::from_vec(tables),
        requests,
        stamps,
    }
}

/// The same plan, with what its reports ask of the columns of its tables made once and kept beside the
/// cells: for a table that two requests or more report on, which look at 2,048 rows of it at least, all
/// together, and in at most half of the memory that its cells take. Where there is no memory for it, it is
/// not kept.
pub fn keep_columns(alloc: Global, plan: Plan) -> Plan
    ensures { result ≡ plan }
{
    keep_with(alloc, &InTurn, plan)
}

/// Does what `keep_columns` does, with the columns of a large table made in up to four threads, where
/// threads can be made.
pub fn keep_columns_on_threads<R: Threads>(rt: &R, alloc: Global, plan: Plan) -> Plan
    ensures { result ≡ plan }
{
    keep_with(alloc, &OnThreads { rt }, plan)
}
