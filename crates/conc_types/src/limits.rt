/// How many bytes the text of a report has at most.
pub const MOST_REPORT_BYTES: usize = 1_048_576;

/// How many rows are posted to a table at most.
pub const MOST_POSTED_ROWS: usize = 65_536;

/// How many bytes the cells that are posted to a table have at most.
pub const MOST_POSTED_BYTES: usize = 4_194_304;
