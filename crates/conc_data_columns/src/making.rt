ghost use Rattle.std.specs.Prelude.{IfOk};
ghost use Rattle.std.specs.List.{All};
ghost use Rattle.conc_data_columns.specs.Made.{Stands};

use crate::amounts::amounts_of;
use crate::asked::Asked;
use crate::numbering::numbering_of;
use conc_types::{Amounts, NoMemory, Numbering, Table};
use std::alloc::Global;
use std::thread::{Threads, join};

// In how many threads the columns of a table are made.
const MOST_PARTS: usize = 4;

// The columns of a table with fewer rows are made before a thread has begun.
const FEW_ROWS: usize = 8192;

/// What was made of a column.
#[derive(Drop)]
pub(crate) enum Made {
    Numbers(Numbering),
    Amounts(Amounts),
    /// The column has too many different cells.
    Nothing,
}

/// How what is asked of columns is made: one after the other, or beside each other.
pub(crate) trait Hands {
    /// All that is asked of the columns of the table.
    fn make(&self, alloc: Global, table: &Table, asked: &[Asked]) -> Result<Vec<Made>, NoMemory>
        ensures { IfOk result (λ made. All (Stands table.now.rows) made.items) };
}

fn numbers_made(alloc: Global, table: &Table, column: usize) -> Result<Made, NoMemory>
    ensures { IfOk result (Stands table.now.rows) }
{
    if column >= table.columns().len() {
        return Ok(Made::Nothing);
    }
    match numbering_of(alloc, table, column)? {
        Some(numbering) => Ok(Made::Numbers(numbering)),
        None => Ok(Made::Nothing),
    }
}

fn amounts_made(alloc: Global, table: &Table, column: usize) -> Result<Made, NoMemory>
    ensures { IfOk result (Stands table.now.rows) }
{
    if column >= table.columns().len() {
        return Ok(Made::Nothing);
    }
    Ok(Made::Amounts(amounts_of(alloc, table, column)?))
}

fn made_of(alloc: Global, table: &Table, asked: Asked) -> Result<Made, NoMemory>
    ensures { IfOk result (Stands table.now.rows) }
{
    match asked {
        Asked::Numbers(column) => numbers_made(alloc, table, column),
        Asked::Amounts(column) => amounts_made(alloc, table, column),
    }
}

fn make_in_turn(alloc: Global, table: &Table, asked: &[Asked]) -> Result<Vec<Made>, NoMemory>
    ensures { IfOk result (λ made. All (Stands table.now.rows) made.items) }
{
    let mut made = Vec::new(alloc);
    for one in asked {
        made.push(made_of(alloc, table, *one)?)?;
    }
    Ok(made)
}

// Both lists in one.
fn joined(_table: &Table, mut left: Vec<Made>, mut right: Vec<Made>) -> Result<Vec<Made>, NoMemory>
    requires left { All (Stands _table.now.rows) left.items }
    requires right { All (Stands _table.now.rows) right.items }
    ensures { IfOk result (λ made. All (Stands _table.now.rows) made.items) }
{
    left.append(&mut right)?;
    Ok(left)
}

// Makes a part in a thread of its own, where one can be made, and the others likewise, so many in all.
fn make_in_parts<R: Threads>(
    rt: &R,
    alloc: Global,
    table: &Table,
    asked: &[Asked],
    parts: usize,
) -> Result<Vec<Made>, NoMemory>
    ensures { IfOk result (λ made. All (Stands table.now.rows) made.items) }
{
    if parts <= 1 {
        return make_in_turn(alloc, table, asked);
    }
    let (first, others) = asked.split_at(asked.len() / parts);
    let fewer = parts - 1;
    let (first, others) = join(
        rt,
        move || make_in_turn(alloc, table, first),
        move || -> Result<Vec<Made>, NoMemory>
            ensures { IfOk result (λ made. All (Stands table.entry.now.rows) made.items) }
        { make_in_parts(rt, alloc, table, others, fewer) },
    );
    joined(table, first?, others?)
}

/// One thing is done after the other.
#[derive(Clone, Copy)]
pub struct InTurn;

impl Hands for InTurn {
    fn make(&self, alloc: Global, table: &Table, asked: &[Asked]) -> Result<Vec<Made>, NoMemory> {
        make_in_turn(alloc, table, asked)
    }
}

/// Things are done beside each other, where threads can be made.
#[derive(Drop)]
pub struct OnThreads<'a, R> {
    pub rt: &'a R,
}

// In up to four threads, where the table has rows enough.
impl<R: Threads> Hands for OnThreads<'_, R> {
    fn make(&self, alloc: Global, table: &Table, asked: &[Asked]) -> Result<Vec<Made>, NoMemory> {
        let parts = if table.row_count() < FEW_ROWS {
            1
        } else {
            MOST_PARTS
        };
        make_in_parts(self.rt, alloc, table, asked, parts)
    }
}
