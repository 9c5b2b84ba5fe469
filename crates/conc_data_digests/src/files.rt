ghost use Rattle.std.specs.Prelude.{◌≡◌, ◌∷◌, ◌++◌, [], List, OnOk, map, ℕ};
ghost use Rattle.std.specs.List.{concat};
ghost use Rattle.sha2.specs.Hashers.{Holds256};
ghost use Rattle.conc_data_digests.specs.Inputs.{base_message, framed, framed_table, message};
ghost use Rattle.conc_data_digests.specs.Files.{named_bytes, tables_of};

use conc_types::NoMemory;
use sha2::{Digest, Sha256};
use std::alloc::Global;

/// The file of a table.
#[derive(Drop)]
pub(crate) struct TableFile {
    pub(crate) name: Vec<u8>,
    pub(crate) bytes: Vec<u8>,
}

/// The files that a run is given, but for its clock's.
#[derive(Drop)]
pub(crate) struct InputFiles {
    pub(crate) setup: Vec<u8>,
    pub(crate) script: Vec<u8>,
    pub(crate) tables: Vec<TableFile>,
}

/// Takes in bytes with their number before them.
pub(crate) fn add_framed(hasher: &mut Sha256, bytes: &[u8])
    ensures { (m : List ℕ) → Holds256 hasher.old m → Holds256 hasher.new (m ++ framed bytes.now) }
{
    hasher.update((bytes.len() as u64).to_be_bytes());
    hasher.update(bytes);
}

/// The hasher with one more table, by its name and its bytes.
pub(crate) fn extended(mut hasher: Sha256, name: &[u8], bytes: &[u8]) -> Sha256
    ensures { (m : List ℕ) → Holds256 hasher m
        → Holds256 result (m ++ framed_table (name.now, bytes.now)) }
{
    add_framed(&mut hasher, name);
    add_framed(&mut hasher, bytes);
    hasher
}

// The hasher with these tables behind what it holds.
fn with_tables(hasher: Sha256, tables: &[TableFile]) -> Sha256
    ensures { (m : List ℕ) → Holds256 hasher m
        → Holds256 result (m ++ concat (map framed_table (map named_bytes tables.now))) }
{
    match tables.split_first() {
        None => hasher,
        Some((table, rest)) => with_tables(extended(hasher, &table.name, &table.bytes), rest),
    }
}

impl InputFiles {
    /// A setup and a script, and no table. It takes no memory.
    pub(crate) fn new(alloc: Global, setup: Vec<u8>, script: Vec<u8>) -> InputFiles
        ensures setup { result.setup ≡ setup }
        ensures script { result.script ≡ script }
        ensures tables { tables_of result ≡ [] }
    {
        InputFiles {
            setup,
            script,
            tables: Vec::new(alloc),
        }
    }

    /// Takes one more table.
    pub(crate) fn push(&mut self, name: Vec<u8>, bytes: Vec<u8>) -> Result<(), NoMemory>
        ensures setup { self.new.setup ≡ self.old.setup }
        ensures script { self.new.script ≡ self.old.script }
        ensures tables { OnOk result (tables_of self.new
            ≡ tables_of self.old ++ (name.items, bytes.items) ∷ []) }
    {
        Ok(self.tables.push(TableFile { name, bytes })?)
    }

    /// A hasher of the message of the full digest.
    pub(crate) fn full_hasher(&self) -> Sha256
        ensures { Holds256 result
            (message self.now.setup.items self.now.script.items (tables_of self.now)) }
    {
        let mut hasher = Sha256::new();
        add_framed(&mut hasher, &self.setup);
        add_framed(&mut hasher, &self.script);
        with_tables(hasher, &self.tables)
    }

    /// A hasher of the message of the base digest.
    pub(crate) fn base_hasher(&self) -> Sha256
        ensures { Holds256 result (base_message self.now.setup.items (tables_of self.now)) }
    {
        let mut hasher = Sha256::new();
        add_framed(&mut hasher, &self.setup);
        with_tables(hasher, &self.tables)
    }
}
