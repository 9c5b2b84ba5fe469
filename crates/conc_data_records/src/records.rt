ghost use Rattle.std.specs.Prelude.{◌≡◌, ◌<◌, ◌≤◌, ◌∷◌, [], length, true, false, IfOk, OnErr};
ghost use Rattle.csv.specs.Records.{fields_of};
ghost use Rattle.conc_data_records.specs.Records.{records_of};

use conc_types::NoMemory;
use csv::{ByteRecord, Reader, ReaderBuilder};
use std::alloc::Global;
use std::marker::Model;

/// The records of a text of comma-separated fields that are still to be read. Contracts see the
/// list of them, each as the list of its fields.
#[derive(Drop)]
pub struct Records<'a> {
    reader: Reader<&'a [u8]>,
    ended: bool,
}

impl<'a> Model for Records<'a> {
    ghost use Rattle.conc_data_records.specs.Records.{Record};
    ghost use Rattle.std.specs.Prelude.{List};

    ghost Value = { List Record };

    ghost use Rattle.conc_data_records.specs.Unread.{unread_of, IsSetUp};

    ghost view = { unread_of };

    ghost invariant = { IsSetUp };
}

impl<'a> Records<'a> {
    /// The records of a text. The first is a record like any other, and each may have another
    /// number of fields. A byte order mark at the start of the text, and lines with nothing on them,
    /// are no part of any record. It takes no memory; reading does.
    pub fn of_text(alloc: Global, text: &'a [u8]) -> Records<'a>
        ensures all { result ≡ records_of text.now }
        ensures few { length result ≤ length text.now }
    {
        let reader = ReaderBuilder::new()
            .has_headers(false)
            .flexible(true)
            .from_reader(alloc, text);
        Records {
            reader,
            ended: false,
        }
    }

    /// Reads the next record into `into`, and says whether there was one. A record has a field at
    /// least. After `NoMemory` there is no record.
    pub fn read(&mut self, into: &mut ByteRecord) -> Result<bool, NoMemory>
        ensures some { IfOk result (λ found. found ≡ true
            → self.old ≡ fields_of into.new ∷ self.new) }
        ensures fields { IfOk result (λ found. found ≡ true → 0 < length (fields_of into.new)) }
        ensures none { IfOk result (λ found. found ≡ false → (self.old ≡ []) × (self.new ≡ [])) }
        ensures ends { OnErr result (self.new ≡ []) }
    {
        if self.ended {
            return Ok(false);
        }
        let Ok(found) = self.reader.read_byte_record(into) else {
            self.ended = true;
            return Err(NoMemory);
        };
        self.ended = !found;
        Ok(found)
    }
}
