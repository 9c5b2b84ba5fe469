/// Stands for the whole number of a cell that is not kept.
pub const NOT_KEPT: i32 = i32::MIN;

/// What is kept of a column with few different cells: a number for each row. Rows with one number
/// have one cell.
#[derive(Drop)]
pub struct Numbering {
    /// The place of the column, from 0.
    pub column: usize,
    /// The number of each row.
    pub numbers: Vec<u16>,
    /// For each number a row whose cell the rows with this number have.
    pub samples: Vec<u32>,
}

/// What is kept of a column of whole numbers: for each row that of its cell, where it is kept.
#[derive(Drop)]
pub struct Amounts {
    /// The place of the column, from 0.
    pub column: usize,
    /// The whole number of each row's cell, or `NOT_KEPT`.
    pub values: Vec<i32>,
}

impl Numbering {
    /// How many bytes of memory it takes.
    pub fn size(&self) -> usize {
        let numbers = self.numbers.len().saturating_mul(2);
        numbers.saturating_add(self.samples.len().saturating_mul(4))
    }
}

impl Amounts {
    /// How many bytes of memory they take.
    pub fn size(&self) -> usize {
        self.values.len().saturating_mul(4)
    }
}
