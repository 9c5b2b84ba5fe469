use conc_types::{Filter, Job, Name, NoMemory, Table, Test};
use std::alloc::Global;

/// What is asked of a column, by its place from 0.
#[derive(Clone, Copy, PartialEq, Eq)]
pub(crate) enum Asked {
    /// The number of each row's cell among the different ones.
    Numbers(usize),
    /// The whole number in each row's cell.
    Amounts(usize),
}

impl Asked {
    // How many bytes it takes at least, for so many rows.
    fn least_size(self, rows: usize) -> usize {
        match self {
            Asked::Numbers(_) => rows.saturating_mul(2),
            Asked::Amounts(_) => rows.saturating_mul(4),
        }
    }
}

/// What jobs ask of the columns of their table, each once, as far as there is room for it.
#[derive(Drop)]
pub(crate) struct Wanted<'a> {
    table: &'a Table,
    asked: Vec<Asked>,
    size: usize,
}

fn column_of(table: &Table, name: &Name) -> Option<usize> {
    let name = name.as_bytes();
    table
        .columns()
        .iter()
        .position(|column| name == column.as_slice())
}

impl<'a> Wanted<'a> {
    /// Nothing so far.
    pub fn new(alloc: Global, table: &'a Table) -> Self {
        Wanted {
            table,
            asked: Vec::new(alloc),
            size: 0,
        }
    }

    fn add(&mut self, asked: Asked) -> Result<(), NoMemory> {
        let size = self
            .size
            .saturating_add(asked.least_size(self.table.row_count()));
        if has_room(self.table, size) && !self.asked.contains(&asked) {
            self.asked.push(asked)?;
            self.size = size;
        }
        Ok(())
    }

    fn add_numbers(&mut self, name: &Name) -> Result<(), NoMemory> {
        match column_of(self.table, name) {
            Some(column) => self.add(Asked::Numbers(column)),
            None => Ok(()),
        }
    }

    fn add_amounts(&mut self, name: &Name) -> Result<(), NoMemory> {
        match column_of(self.table, name) {
            Some(column) => self.add(Asked::Amounts(column)),
            None => Ok(()),
        }
    }

    fn add_filter(&mut self, filter: &Filter) -> Result<(), NoMemory> {
        match filter.test {
            Test::Above | Test::Below => self.add_amounts(&filter.column),
            _ => self.add_numbers(&filter.column),
        }
    }

    /// What a job asks as well.
    pub fn add_job(&mut self, job: &Job) -> Result<(), NoMemory> {
        if let Some(name) = &job.group {
            self.add_numbers(name)?;
        }
        if let Some(name) = &job.sum {
            self.add_amounts(name)?;
        }
        for filter in job.filters.as_slice() {
            self.add_filter(filter)?;
        }
        Ok(())
    }

    /// All that is asked.
    pub fn into_asked(self) -> Vec<Asked> {
        self.asked
    }
}

/// Whether so many bytes may be kept beside a table: at most half of what its cells take.
pub(crate) fn has_room(table: &Table, size: usize) -> bool {
    size <= table.size() / 2
}
