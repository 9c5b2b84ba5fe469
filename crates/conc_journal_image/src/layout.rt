ghost use Rattle.std.specs.Prelude.{◌≡◌, ◌≤◌};
ghost use Rattle.conc_journal_image.specs.Layout.{offset_behind};

/// How many bytes the header of a journal has, its gate among them.
pub const HEADER_BYTES: u64 = 64;

/// How many bytes a record has, its gate among them.
pub const RECORD_BYTES: u64 = 32;

/// A journal has at most so many records.
pub const MOST_RECORDS: u64 = 1_048_576;

/// Of an image no more than so many bytes tell what stands in it: the header, the most records, and
/// the gate behind them.
pub const MOST_BYTES: u64 = HEADER_BYTES + RECORD_BYTES * MOST_RECORDS + 1;

/// Where the gate stands behind so many records. The next record begins there.
pub fn offset_behind(records: u64) -> u64
    requires { records ≤ MOST_RECORDS }
    ensures { result ≡ offset_behind records }
{
    HEADER_BYTES + RECORD_BYTES * records
}
