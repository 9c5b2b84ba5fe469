ghost use Rattle.std.specs.Prelude.{◌≡◌, IfErr, IfOk};
ghost use Rattle.conc_data_digests.specs.Taken.{TakesTable};
ghost use Rattle.conc_tables.specs.Tables.{SpellsTable, table_fault};
ghost use Rattle.conc_types.specs.Faults.{IsFailure};
ghost use Rattle.conc_types.specs.declared.refusal.FileKind.TheVariants as file_kind;

use conc_data_columns::{InTurn, OnThreads, keep_columns, keep_columns_on_threads};
use conc_data_digests::InputDigest;
use conc_tables::read_table;
use conc_types::{Plan, ReadFail, Table};
use std::alloc::Global;
use std::thread::{Threads, join};

/// The file of a table: its number, its name, and what it contains.
#[derive(Drop)]
pub struct TableFile<'f> {
    pub number: u32,
    pub name: &'f [u8],
    pub bytes: Vec<u8>,
}

/// How the bytes of a table are read and digested, and what reports ask of its columns is made: one after
/// the other, or beside each other.
pub trait Pace {
    /// The table that the bytes of the file spell, and the digest with the file under its name; or why they
    /// spell none.
    fn read_and_digest(
        &self,
        alloc: Global,
        file: TableFile<'_>,
        digest: InputDigest,
    ) -> Result<(Table, InputDigest), ReadFail>
        ensures ok { IfOk result (λ p. SpellsTable file.entry.bytes.items p.0) }
        ensures err { IfErr result (IsFailure (file_kind.Table file.entry.number)
            (table_fault file.entry.bytes.items)) }
        ensures digest { IfOk result (λ p. TakesTable file.entry.name.now file.entry.bytes.items digest p.1) };

    /// The same plan, with what its reports ask of columns kept beside the cells of its tables.
    fn keep_columns(&self, alloc: Global, plan: Plan) -> Plan
        ensures { result ≡ plan };
}

// One after the other. The bytes are kept: they are digested only where a digest is asked for.
impl Pace for InTurn {
    fn read_and_digest(
        &self,
        alloc: Global,
        file: TableFile<'_>,
        digest: InputDigest,
    ) -> Result<(Table, InputDigest), ReadFail> {
        let TableFile {
            number,
            name,
            bytes,
        } = file;
        let table = read_table(alloc, &bytes, number)?;
        let digest = digest.keep_table(name.to_vec(alloc)?, bytes)?;
        Ok((table, digest))
    }

    fn keep_columns(&self, alloc: Global, plan: Plan) -> Plan {
        keep_columns(alloc, plan)
    }
}

// Beside each other, where threads can be made: the bytes are read in one thread and digested in two
// others.
impl<R: Threads> Pace for OnThreads<'_, R> {
    fn read_and_digest(
        &self,
        alloc: Global,
        file: TableFile<'_>,
        digest: InputDigest,
    ) -> Result<(Table, InputDigest), ReadFail> {
        let rt = self.rt;
        let TableFile {
            number,
            name,
            bytes,
        } = file;
        let bytes = bytes.as_slice();
        let (table, digest) = join(
            rt,
            move || read_table(alloc, bytes, number),
            move || digest.with_table_on_threads(rt, name, bytes),
        );
        Ok((table?, digest))
    }

    fn keep_columns(&self, alloc: Global, plan: Plan) -> Plan {
        keep_columns_on_threads(self.rt, alloc, plan)
    }
}
