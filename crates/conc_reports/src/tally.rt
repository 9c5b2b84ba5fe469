ghost use Rattle.std.specs.Prelude.{◌≡◌, ◌^◌, ◌<◌, ℕ, List, IfOk, IfSome, None, OnOk, Some, pos};
ghost use Rattle.std.specs.Option.{option_and_then, option_map};
ghost use Rattle.conc_reports.specs.Figures.{figures_at, grown, grown_at, shown};
ghost use Rattle.conc_reports.specs.Tallies.{IsTallied};

use crate::columns::{key_at, place_if_named, value_at};
use crate::figures::Figures;
use crate::filters::{conditions, passes};
use crate::groups::{Groups, add_to_group};
use conc_types::{Job, NoMemory, Table};
use std::alloc::Global;
use std::collections::BTreeMap;

/// The figures of all rows that pass, and of each key among them.
#[derive(Drop)]
pub struct Tally<'a> {
    pub total: Figures,
    pub groups: Groups<'a>,
}

/// What one pass over the rows gives.
#[derive(Drop)]
pub enum Tallied<'a> {
    /// The number, from 1, of the first row that passes and whose cell to be added is no whole
    /// number.
    Bad(u64),
    /// There is no such row.
    Whole(Tally<'a>),
}

impl<'a> Tally<'a> {
    fn none(alloc: Global) -> Self
        ensures total { shown result.total ≡ (0, pos 0) }
        ensures groups { (k : List ℕ) → figures_at result.groups k ≡ None }
    {
        Tally {
            total: Figures::none(),
            groups: BTreeMap::new(alloc),
        }
    }

    // One more row, under a key if there is one, which adds a value.
    fn add(&mut self, key: Option<&'a [u8]>, value: i64) -> Result<(), NoMemory>
        requires total { self.old.total.count < 2 ^ 63 }
        requires group { IfSome (option_and_then (λ k. figures_at self.old.groups k.now) key)
            (λ figures. figures.0 < 2 ^ 63) }
        ensures total { OnOk result (shown self.new.total
            ≡ grown value (Some (shown self.old.total))) }
        ensures groups { OnOk result ((k : List ℕ)
            → figures_at self.new.groups k ≡ grown_at (option_map (λ q. q.now) key.entry) value
            (figures_at self.old.groups) k) }
    {
        self.total = self.total.with(value);
        match key {
            Some(key) => add_to_group(&mut self.groups, key, value),
            None => Ok(()),
        }
    }
}

/// Goes over the rows once, and adds up those that pass the filters of the job.
pub fn tally_rows<'a>(
    alloc: Global,
    job: &Job,
    argument: &[u8],
    table: &'a Table,
) -> Result<Tallied<'a>, NoMemory>
    ensures { IfOk result (λ pass. IsTallied job.now argument.now table.now pass) }
{
    let conditions = conditions(alloc, job, argument, table)?;
    let sum = place_if_named(table, &job.sum);
    let group = place_if_named(table, &job.group);
    let mut tally = Tally::none(alloc);
    for row in 0..table.row_count() {
        if !passes(conditions.as_slice(), table, row) {
            continue;
        }
        let Some(value) = value_at(table, row, sum) else {
            return Ok(Tallied::Bad(row as u64 + 1));
        };
        tally.add(key_at(table, row, group), value)?;
    }
    Ok(Tallied::Whole(tally))
}
