ghost use Rattle.std.specs.Prelude.{◌≡◌, ◌≤◌, ◌<◌, ◌*◌, ◌/◌, ◌%◌, ℕ, List, [], IfSome, get_or, length, IsTrue};
ghost use Rattle.std.specs.List.{list_all};
ghost use Rattle.std.specs.Str.{bytes_eq};
ghost use Rattle.conc_types.specs.Kept.{AreAmounts, IsNumbering};
ghost use Rattle.conc_types.specs.Pieces.{concat, rows_of};
ghost use Rattle.conc_types.specs.Words.{are_distinct, has_length};

use crate::{Amounts, Bytes, Cells, NoMemory, Numbering, Seq};
use std::marker::Model;

/// A table: the names of its columns, which are distinct and not none, and rows with a cell for
/// each of them. The cells lie row by row in one buffer. Contracts see the columns and the rows;
/// what is kept of some columns beside the cells stands for them, and no contract sees it.
#[derive(Drop)]
pub struct Table {
    columns: Seq<Bytes>,
    cells: Cells,
    numberings: Vec<Numbering>,
    amounts: Vec<Amounts>,
    ghost distinct: { IsTrue (are_distinct bytes_eq columns) },
    ghost even: { IsTrue (list_all (has_length (length columns))
        (rows_of (length columns) cells)) },
    ghost few: { length (rows_of (length columns) cells) ≤ 1114112 },
}

impl Model for Table {
    ghost use Rattle.std.specs.Prelude.{◌≡◌, ◌<◌, ◌%◌, length};
    ghost use Rattle.std.specs.List.{All};
    ghost use Rattle.conc_types.specs.Kept.{AreAmounts, IsNumbering};
    ghost use Rattle.conc_types.specs.Pieces.{Content, rows_of};

    ghost Value = { Content };

    ghost view = { λ t. record {
      columns = t.columns;
      rows = rows_of (length t.columns) t.cells;
      distinct = t.distinct;
      even = t.even;
      few = t.few;
    } };

    ghost invariant = { λ t. (0 < length t.columns) × (length t.cells % length t.columns ≡ 0)
        × All (IsNumbering (rows_of (length t.columns) t.cells)) t.numberings.items
        × All (AreAmounts (rows_of (length t.columns) t.cells)) t.amounts.items };
}

impl Table {
    /// The table with these columns and cells, which stand row by row. It takes no memory.
    pub fn new(columns: Seq<Bytes>, cells: Cells) -> Table
        requires distinct { IsTrue (are_distinct bytes_eq columns) }
        requires some { 0 < length columns }
        requires whole { length cells % length columns ≡ 0 }
        requires few { length cells / length columns ≤ 1114112 }
        ensures columns { result.columns ≡ columns }
        ensures rows { (rows : List (List (List ℕ))) → concat rows ≡ cells
            → IsTrue (list_all (has_length (length columns)) rows) → result.rows ≡ rows }
        ensures cells { concat result.rows ≡ cells }
    {
        let alloc = cells.allocator();
        Table {
            columns,
            cells,
            numberings: Vec::new(alloc),
            amounts: Vec::new(alloc),
        }
    }

    /// The names of the columns.
    pub fn columns(&self) -> &[Bytes]
        ensures { result.now ≡ self.now.columns }
    {
        self.columns.as_slice()
    }

    /// How many rows there are.
    pub fn row_count(&self) -> usize
        ensures { result ≡ length self.now.rows }
    {
        self.cells.len() / self.columns.len()
    }

    /// The cell of a row in a column, both counted from 0. It takes the same time at each.
    pub fn cell(&self, row: usize, column: usize) -> &[u8]
        requires row { row < length self.now.rows }
        requires column { column < length self.now.columns }
        ensures { result.now ≡ get_or (get_or self.now.rows row []) column [] }
    {
        prove!(row < self.cells.len() / self.columns.len());
        self.cells.get(row * self.columns.len() + column).unwrap()
    }

    /// How many bytes of memory the cells take, without what is kept beside them.
    pub fn size(&self) -> usize {
        self.cells.size()
    }

    /// How many bytes of memory what is kept of columns takes.
    pub fn kept_size(&self) -> usize {
        let mut size = 0usize;
        for numbering in &self.numberings {
            size = size.saturating_add(numbering.size());
        }
        for amounts in &self.amounts {
            size = size.saturating_add(amounts.size());
        }
        size
    }

    /// Whether something is kept of a column.
    pub fn keeps_some(&self) -> bool {
        !self.numberings.is_empty() || !self.amounts.is_empty()
    }

    /// Keeps the numbers of a column's rows. Without memory for them they are let go.
    pub fn keep_numbering(&mut self, numbering: Numbering) -> Result<(), NoMemory>
        requires { IsNumbering self.old.rows numbering }
        ensures { self.new ≡ self.old }
    {
        self.numberings.push(numbering)?;
        Ok(())
    }

    /// Keeps the whole numbers of a column. Without memory for them they are let go.
    pub fn keep_amounts(&mut self, amounts: Amounts) -> Result<(), NoMemory>
        requires { AreAmounts self.old.rows amounts }
        ensures { self.new ≡ self.old }
    {
        self.amounts.push(amounts)?;
        Ok(())
    }

    /// The numbers of a column's rows, if they are kept.
    pub fn numbering(&self, column: usize) -> Option<&Numbering>
        ensures stands { IfSome result (λ n. IsNumbering self.now.rows n.now) }
        ensures column { IfSome result (λ n. n.now.column ≡ column) }
    {
        self.numberings.iter().find(|kept| kept.column == column)
    }

    /// The whole numbers of a column, if they are kept.
    pub fn amounts(&self, column: usize) -> Option<&Amounts>
        ensures stand { IfSome result (λ a. AreAmounts self.now.rows a.now) }
        ensures column { IfSome result (λ a. a.now.column ≡ column) }
    {
        self.amounts.iter().find(|kept| kept.column == column)
    }
}
