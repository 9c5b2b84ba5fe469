ghost use Rattle.std.specs.Prelude.{◌≡◌, ◌++◌, [], map, IfOk, OnOk};
ghost use Rattle.csv.specs.Writing.{default_writer, row_text};
ghost use Rattle.conc_repeat.specs.Written.{bytes_of, IsReady};

use conc_types::NoMemory;
use csv::{Writer, WriterBuilder};
use std::alloc::Global;

/// Records that are written as comma-separated fields, with the defaults of `csv`. It is lent and not
/// moved, since the buffer of the writer is a part of it.
#[derive(Drop)]
pub(crate) struct Lines {
    writer: Writer<Vec<u8>>,
}

impl Lines {
    /// No record. It takes no memory; writing does.
    pub(crate) fn new(alloc: Global) -> Lines
        ensures ready { IsReady result }
        ensures empty { bytes_of result ≡ [] }
    {
        Lines {
            writer: WriterBuilder::new().from_writer(Vec::new(alloc)),
        }
    }

    /// Writes one more record, with these fields.
    pub(crate) fn push(&mut self, fields: &[&[u8]]) -> Result<(), NoMemory>
        requires { IsReady self.old }
        ensures ready { OnOk result (IsReady self.new) }
        ensures bytes { OnOk result (bytes_of self.new
            ≡ bytes_of self.old ++ row_text default_writer (map (λ f. f.now) fields.now)) }
    {
        match self.writer.write_fields(fields) {
            Ok(()) => Ok(()),
            Err(_) => Err(NoMemory),
        }
    }

    /// The bytes of the records.
    pub(crate) fn into_bytes(self) -> Result<Vec<u8>, NoMemory>
        ensures { IfOk result (λ bytes. bytes.items ≡ bytes_of self) }
    {
        match self.writer.into_inner() {
            Ok(bytes) => Ok(bytes),
            Err(_) => Err(NoMemory),
        }
    }
}
