ghost use Rattle.std.specs.Prelude.{◌≡◌, ◌∷◌, ◌++◌, [], List, IfOk, ℕ};
ghost use Rattle.conc_data_digests.specs.Files.{tables_of};
ghost use Rattle.conc_data_digests.specs.Inputs.{input_digests};
ghost use Rattle.conc_data_digests.specs.Taken.{HoldMessages};

use crate::digests::LazyDigests;
use crate::files::{InputFiles, extended};
use conc_types::{Digests, NoMemory};
use sha2::{Digest, Sha256};
use std::alloc::Global;
use std::thread::{Threads, join};

/// The hashers of the two digests.
#[derive(Drop)]
pub(crate) struct Hashers {
    full: Sha256,
    base: Sha256,
}

impl Hashers {
    // Those of the files.
    fn of(files: &InputFiles) -> Hashers
        ensures { HoldMessages result files.now.setup.items files.now.script.items
            (tables_of files.now) }
    {
        Hashers {
            full: files.full_hasher(),
            base: files.base_hasher(),
        }
    }

    // With this table.
    #[tactic(auto, using(crate::proofs::Messages::message_more, crate::proofs::Messages::base_message_more))]
    fn with_table(self, name: &[u8], bytes: &[u8]) -> Hashers
        ensures { (setup script : List ℕ) (tables : List (List ℕ × List ℕ))
            → HoldMessages self setup script tables
            → HoldMessages result setup script (tables ++ (name.now, bytes.now) ∷ []) }
    {
        Hashers {
            full: extended(self.full, name, bytes),
            base: extended(self.base, name, bytes),
        }
    }

    // The digests of the messages.
    fn finish(self) -> Digests
        ensures { (setup script : List ℕ) (tables : List (List ℕ × List ℕ))
            → HoldMessages self setup script tables
            → result ≡ input_digests setup script tables }
    {
        Digests {
            full: self.full.finalize(),
            base: self.base.finalize(),
        }
    }
}

// What was taken in so far: the files themselves, or what the hashers hold of them.
#[derive(Drop)]
enum Taken {
    Kept(InputFiles),
    Digested(Hashers),
}

/// The digests of the files that a run is given, which take them in one by one as they are read:
/// the setup, the script, and then each table under its name, each with its length before it, so that no
/// two inputs make one message. The base digest leaves the script out.
#[derive(Drop)]
pub struct InputDigest {
    taken: Taken,
}

// The hashers with this table, each on a thread of their own, where they can be made.
#[tactic(auto, using(crate::proofs::Messages::message_more, crate::proofs::Messages::base_message_more))]
fn extended_on_threads<R: Threads>(rt: &R, hashers: Hashers, name: &[u8], bytes: &[u8]) -> Hashers
    ensures { (setup script : List ℕ) (tables : List (List ℕ × List ℕ))
        → HoldMessages hashers setup script tables
        → HoldMessages result setup script (tables ++ (name.now, bytes.now) ∷ []) }
{
    let Hashers { full, base } = hashers;
    let (full, base) = join(
        rt,
        move || extended(full, name, bytes),
        move || extended(base, name, bytes),
    );
    Hashers { full, base }
}

impl InputDigest {
    ghost use Rattle.conc_data_digests.specs.Taken.{HasTaken, TakesTable};

    /// The digest of a setup and a script, before any table. It takes no memory.
    pub fn new(alloc: Global, setup: Vec<u8>, script: Vec<u8>) -> InputDigest
        ensures { HasTaken result setup.items script.items [] }
    {
        InputDigest {
            taken: Taken::Kept(InputFiles::new(alloc, setup, script)),
        }
    }

    /// The digest with the next table, by its name and its bytes. The bytes are kept, and digested only where
    /// a digest is asked for.
    pub fn keep_table(self, name: Vec<u8>, bytes: Vec<u8>) -> Result<InputDigest, NoMemory>
        ensures { IfOk result (TakesTable name.items bytes.items self) }
    {
        let taken = match self.taken {
            Taken::Kept(mut files) => {
                files.push(name, bytes)?;
                Taken::Kept(files)
            }
            Taken::Digested(hashers) => Taken::Digested(hashers.with_table(&name, &bytes)),
        };
        Ok(InputDigest { taken })
    }

    /// The same, with the bytes digested at once, each of the two digests in a thread of its own, where one
    /// can be made.
    pub fn with_table_on_threads<R: Threads>(self, rt: &R, name: &[u8], bytes: &[u8]) -> InputDigest
        ensures { TakesTable name.now bytes.now self result }
    {
        let hashers = match self.taken {
            Taken::Kept(files) => Hashers::of(&files),
            Taken::Digested(hashers) => hashers,
        };
        InputDigest {
            taken: Taken::Digested(extended_on_threads(rt, hashers, name, bytes)),
        }
    }

    /// The digests of what was taken in.
    pub fn finish(self) -> LazyDigests
        ensures { (setup script : List ℕ) (tables : List (List ℕ × List ℕ))
            → HasTaken self setup script tables
            → result ≡ input_digests setup script tables }
    {
        match self.taken {
            Taken::Kept(files) => LazyDigests::of_files(files),
            Taken::Digested(hashers) => LazyDigests::from(hashers.finish()),
        }
    }
}
