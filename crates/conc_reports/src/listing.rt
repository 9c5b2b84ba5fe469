ghost use Rattle.std.specs.Prelude.{◌≡◌, ◌^◌, ◌<◌, [], IfOk, IfSome, Some, get_or, length, pos};
ghost use Rattle.std.specs.List.{All};
ghost use Rattle.std.specs.Option.{option_map};
ghost use Rattle.conc_types.specs.Kept.{IsNumbering, cell_of};
ghost use Rattle.conc_reports.specs.Figures.{grown, shown};
ghost use Rattle.conc_reports.specs.Listings.{AddsTo, AreOfColumn, AreOfGroup, IsListed, StandsFor, keys_by, keys_of};
ghost use Rattle.conc_reports.specs.Tallies.{IfTallied, IsTallied};

use crate::columns::{amounts_at, kept_value_at, numbering_at, place_if_named};
use crate::figures::Figures;
use crate::filters::conditions;
use crate::groups::Groups;
use crate::sieves::{all_let, sieves_of};
use crate::tally::{Tallied, Tally, tally_rows};
use conc_types::{Job, NoMemory, Numbering, Table};
use std::alloc::Global;
use std::collections::BTreeMap;

/// The figures of all rows that pass, and of those with each number among them.
#[derive(Drop)]
pub struct Listed {
    pub total: Figures,
    pub by_number: Vec<Figures>,
}

/// What one pass over the rows gives, by numbers.
#[derive(Drop)]
pub enum Listing {
    /// The number, from 1, of the first row that passes and whose cell to be added is no whole
    /// number.
    Bad(u64),
    /// There is no such row.
    Whole(Listed),
}

// How many numbers there are.
fn number_count(table: &Table, numbering: Option<&Numbering>) -> usize
    ensures { result ≡ length (keys_by table.now.rows numbering.entry) }
{
    match numbering {
        Some(numbering) => numbering.samples.len(),
        None => 0,
    }
}

// The number of a row, if there are numbers.
fn number_at(table: &Table, numbering: Option<&Numbering>, row: usize) -> Option<usize>
    requires row { row < length table.now.rows }
    requires stands { IfSome numbering (λ n. IsNumbering table.now.rows n.now) }
    ensures within { IfSome result (λ number. number
        < length (keys_by table.now.rows numbering.entry)) }
    ensures key { option_map (λ number. get_or (keys_by table.now.rows numbering.entry) number [])
        result ≡ option_map (λ n. cell_of table.now.rows row n.now.column) numbering.entry }
{
    match numbering {
        Some(numbering) => Some(numbering.numbers[row] as usize),
        None => None,
    }
}

impl Listed {
    // Those of no row, with so many numbers.
    fn none(alloc: Global, numbers: usize) -> Result<Self, NoMemory>
        ensures total { IfOk result (λ listed. shown listed.total ≡ (0, pos 0)) }
        ensures each { IfOk result (λ listed. length listed.by_number.items ≡ numbers) }
        ensures none { IfOk result (λ listed. All (λ f. f.count ≡ 0) listed.by_number.items) }
    {
        let mut by_number = Vec::with_capacity(alloc, numbers)?;
        for _ in 0..numbers {
            by_number.push(Figures::none())?;
        }
        Ok(Listed {
            total: Figures::none(),
            by_number,
        })
    }

    // One more row, with a number if there are numbers, which adds a value.
    fn add(&mut self, number: Option<usize>, value: i64)
        requires total { self.old.total.count < 2 ^ 63 }
        requires each { All (λ f. f.count < 2 ^ 63) self.old.by_number.items }
        requires within { IfSome number (λ n. n < length self.old.by_number.items) }
        ensures total { shown self.new.total ≡ grown value (Some (shown self.old.total)) }
        ensures by_number { AddsTo number value self.old.by_number.items self.new.by_number.items }
    {
        self.total = self.total.with(value);
        if let Some(number) = number {
            self.by_number[number] = self.by_number[number].with(value);
        }
    }
}

// Goes over the rows once, and adds up those that pass the filters of the job.
fn list_rows(
    alloc: Global,
    job: &Job,
    argument: &[u8],
    table: &Table,
    numbering: Option<&Numbering>,
) -> Result<Listing, NoMemory>
    requires stands { IfSome numbering (λ n. IsNumbering table.now.rows n.now) }
    requires place { AreOfGroup job.now table.now numbering }
    ensures { IfOk result (λ listing. IsListed job.now argument.now table.now
        (keys_by table.now.rows numbering.entry) listing) }
{
    let conditions = conditions(alloc, job, argument, table)?;
    let sieves = sieves_of(alloc, table, conditions.as_slice())?;
    let sum = place_if_named(table, &job.sum);
    let amounts = amounts_at(table, sum);
    let mut listed = Listed::none(alloc, number_count(table, numbering))?;
    for row in 0..table.row_count() {
        if !all_let(sieves.as_slice(), table, row) {
            continue;
        }
        let Some(value) = kept_value_at(table, row, sum, amounts) else {
            return Ok(Listing::Bad(row as u64 + 1));
        };
        listed.add(number_at(table, numbering, row), value);
    }
    Ok(Listing::Whole(listed))
}

// The figures of each key, by those of each number; None where two numbers have one key.
fn groups_of<'a>(
    alloc: Global,
    table: &'a Table,
    numbering: &Numbering,
    by_number: &[Figures],
) -> Result<Option<Groups<'a>>, NoMemory>
    requires stands { IsNumbering table.now.rows numbering.now }
    requires column { numbering.now.column < length table.now.columns }
    requires each { length by_number.now ≡ length numbering.now.samples.items }
    ensures { IfOk result (λ groups. IfSome groups (StandsFor
        (keys_of table.now.rows numbering.now) by_number.now)) }
{
    let mut groups = BTreeMap::new(alloc);
    for number in 0..by_number.len() {
        let figures = by_number[number];
        if figures.count == 0 {
            continue;
        }
        let key = table.cell(numbering.samples[number] as usize, numbering.column);
        if groups.insert(key, figures)?.is_some() {
            return Ok(None);
        }
    }
    Ok(Some(groups))
}

fn groups_if_any<'a>(
    alloc: Global,
    table: &'a Table,
    numbering: Option<&Numbering>,
    by_number: &[Figures],
) -> Result<Option<Groups<'a>>, NoMemory>
    requires stands { IfSome numbering (λ n. IsNumbering table.now.rows n.now) }
    requires column { AreOfColumn table.now numbering }
    requires each { length by_number.now ≡ length (keys_by table.now.rows numbering) }
    ensures { IfOk result (λ groups. IfSome groups (StandsFor
        (keys_by table.now.rows numbering.entry) by_number.now)) }
{
    match numbering {
        Some(numbering) => groups_of(alloc, table, numbering, by_number),
        None => Ok(Some(BTreeMap::new(alloc))),
    }
}

// The tally by numbers; None where two numbers have one key.
fn tally_listed<'a>(
    alloc: Global,
    job: &Job,
    argument: &[u8],
    table: &'a Table,
    numbering: Option<&Numbering>,
) -> Result<Option<Tallied<'a>>, NoMemory>
    requires stands { IfSome numbering (λ n. IsNumbering table.now.rows n.now) }
    requires column { AreOfColumn table.now numbering }
    requires place { AreOfGroup job.now table.now numbering }
    ensures { IfOk result (λ pass. IfTallied job.now argument.now table.now pass) }
{
    match list_rows(alloc, job, argument, table, numbering)? {
        Listing::Bad(number) => Ok(Some(Tallied::Bad(number))),
        Listing::Whole(listed) => {
            let by_number = listed.by_number.as_slice();
            match groups_if_any(alloc, table, numbering, by_number)? {
                Some(groups) => Ok(Some(Tallied::Whole(Tally {
                    total: listed.total,
                    groups,
                }))),
                None => Ok(None),
            }
        }
    }
}

// The tally by what is kept of the table's columns, where that serves.
fn tally_kept<'a>(
    alloc: Global,
    job: &Job,
    argument: &[u8],
    table: &'a Table,
) -> Result<Option<Tallied<'a>>, NoMemory>
    ensures { IfOk result (λ pass. IfTallied job.now argument.now table.now pass) }
{
    if !table.keeps_some() {
        return Ok(None);
    }
    match place_if_named(table, &job.group) {
        None => tally_listed(alloc, job, argument, table, None),
        Some(place) => match numbering_at(table, place) {
            Some(numbering) => tally_listed(alloc, job, argument, table, Some(numbering)),
            None => Ok(None),
        },
    }
}

/// Adds up the rows that pass the filters of the job, by what is kept of the table's columns where
/// that serves, and else by the cells.
pub fn tally_table<'a>(
    alloc: Global,
    job: &Job,
    argument: &[u8],
    table: &'a Table,
) -> Result<Tallied<'a>, NoMemory>
    ensures { IfOk result (λ pass. IsTallied job.now argument.now table.now pass) }
{
    match tally_kept(alloc, job, argument, table)? {
        Some(tallied) => Ok(tallied),
        None => tally_rows(alloc, job, argument, table),
    }
}
