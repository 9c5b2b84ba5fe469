ghost use Rattle.std.specs.Prelude.{◌≡◌, ◌<◌, ℕ, IfOk, Some, false, get_or, length};
ghost use Rattle.std.specs.List.{list_all};
ghost use Rattle.conc_types.specs.Kept.{IsNumbering, cell_of};
ghost use Rattle.conc_reports.specs.Checks.{meets};
ghost use Rattle.conc_reports.specs.Sieves.{AreSieves, AreSound, IsSieve, IsSound, lets};

use crate::columns::{cell_at, kept_number, known_column};
use crate::filters::{Check, Condition, is_less, meets};
use conc_types::{Amounts, NoMemory, Numbering, Table};
use std::alloc::Global;

/// A condition for the rows of one table, by what is kept of its column where that serves.
#[derive(Drop)]
pub enum Sieve<'a> {
    /// For each number of a column's rows whether its cell meets the condition.
    Numbers(&'a Numbering, Vec<bool>),
    Above(Option<i64>, &'a Amounts),
    Below(Option<i64>, &'a Amounts),
    /// Nothing that serves is kept.
    Cells(Condition<'a>),
}

// For each number whether its cell meets a check.
fn verdicts_of(
    alloc: Global,
    table: &Table,
    check: Check<'_>,
    numbering: &Numbering,
) -> Result<Vec<bool>, NoMemory>
    requires stands { IsNumbering table.now.rows numbering.now }
    requires column { numbering.now.column < length table.now.columns }
    ensures each { IfOk result (λ verdicts. length verdicts.items
        ≡ length numbering.now.samples.items) }
    ensures value { IfOk result (λ verdicts. (number : ℕ)
        → number < length numbering.now.samples.items → get_or verdicts.items number false
        ≡ meets check.entry (cell_of table.now.rows
        (get_or numbering.now.samples.items number 0) numbering.now.column)) }
{
    let mut verdicts = Vec::with_capacity(alloc, numbering.samples.len())?;
    for sample in &numbering.samples {
        verdicts.push(meets(check, table.cell(*sample as usize, numbering.column)))?;
    }
    Ok(verdicts)
}

// The sieve of a condition on a column, by the numbers of the column's rows if they are kept.
fn sieve_by_numbers<'a>(
    alloc: Global,
    table: &'a Table,
    condition: Condition<'a>,
    column: usize,
) -> Result<Sieve<'a>, NoMemory>
    requires known { condition.place.index ≡ Some column }
    requires within { column < length table.now.columns }
    ensures { IfOk result (IsSieve table.now condition.entry) }
{
    match table.numbering(column) {
        Some(numbering) => {
            let verdicts = verdicts_of(alloc, table, condition.check, numbering)?;
            Ok(Sieve::Numbers(numbering, verdicts))
        }
        None => Ok(Sieve::Cells(condition)),
    }
}

// The sieve of a condition on a column.
fn sieve_at_column<'a>(
    alloc: Global,
    table: &'a Table,
    condition: Condition<'a>,
    column: usize,
) -> Result<Sieve<'a>, NoMemory>
    requires known { condition.place.index ≡ Some column }
    requires within { column < length table.now.columns }
    ensures { IfOk result (IsSieve table.now condition.entry) }
{
    let Some(amounts) = table.amounts(column) else {
        return sieve_by_numbers(alloc, table, condition, column);
    };
    match condition.check {
        Check::Above(bound) => Ok(Sieve::Above(bound, amounts)),
        Check::Below(bound) => Ok(Sieve::Below(bound, amounts)),
        _ => sieve_by_numbers(alloc, table, condition, column),
    }
}

fn sieve_of<'a>(
    alloc: Global,
    table: &'a Table,
    condition: Condition<'a>,
) -> Result<Sieve<'a>, NoMemory>
    ensures { IfOk result (IsSieve table.now condition.entry) }
{
    match known_column(table, condition.place) {
        Some(column) => sieve_at_column(alloc, table, condition, column),
        None => Ok(Sieve::Cells(condition)),
    }
}

/// The sieves of conditions.
pub fn sieves_of<'a>(
    alloc: Global,
    table: &'a Table,
    conditions: &[Condition<'a>],
) -> Result<Vec<Sieve<'a>>, NoMemory>
    ensures { IfOk result (λ sieves. AreSieves table.now conditions.now sieves.items) }
{
    let mut sieves = Vec::with_capacity(alloc, conditions.len())?;
    for condition in conditions {
        sieves.push(sieve_of(alloc, table, *condition)?)?;
    }
    Ok(sieves)
}

// Whether a sieve lets a row through, from 0.
fn lets(sieve: &Sieve<'_>, table: &Table, row: usize) -> bool
    requires sound { IsSound table.now sieve.now }
    requires row { row < length table.now.rows }
    ensures { result ≡ lets table.now row sieve.now }
{
    match sieve {
        Sieve::Numbers(numbering, verdicts) => verdicts[numbering.numbers[row] as usize],
        Sieve::Above(bound, amounts) => is_less(*bound, kept_number(table, row, amounts)),
        Sieve::Below(bound, amounts) => is_less(kept_number(table, row, amounts), *bound),
        Sieve::Cells(condition) => meets(condition.check, cell_at(table, row, condition.place)),
    }
}

/// Whether all sieves let a row through, from 0.
pub fn all_let(sieves: &[Sieve<'_>], table: &Table, row: usize) -> bool
    requires sound { AreSound table.now sieves.now }
    requires row { row < length table.now.rows }
    ensures { result ≡ list_all (lets table.now row) sieves.now }
{
    for sieve in sieves {
        if !lets(sieve, table, row) {
            return false;
        }
    }
    true
}
