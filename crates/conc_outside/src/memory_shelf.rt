ghost use Rattle.std.specs.Prelude.{◌≡◌, map, Some, None, IfOk, IfSome, IsErrOf, IsTrue};
ghost use Rattle.std.specs.List.{find};
ghost use Rattle.std.specs.Option.{option_copied};
ghost use Rattle.std.specs.Str.{bytes_eq};
ghost use Rattle.conc_types.specs.Words.{are_distinct};
ghost use Rattle.conc_outside.specs.Counts.{Rose};
ghost use Rattle.conc_outside.specs.Files as spec;
ghost use Rattle.conc_outside.specs.Exposed.{exposed};
ghost use Rattle.conc_outside.specs.declared.error.ShelfFail.TheVariants.{Absent, Failed};

use crate::shelf::MOST_BYTES;
use crate::{Shelf, ShelfFail};
use conc_types::Name;
use std::alloc::Global;

/// A shelf whose files stand in memory. A lacking file is `Absent` and counted. A file that is there
/// is `Failed` and counted at the listed reads, and else given as far as memory goes. The counts are
/// of 64 bits and stand still at their end.
#[derive(Drop)]
pub struct MemShelf {
    files: Vec<(Name, Vec<u8>)>,
    fails: Vec<u64>,
    reads: u64,
    absences: u64,
    faults: u64,
}

impl MemShelf {
    ghost use Rattle.conc_outside.specs.Reads.{fails_of, reads_of};

    /// A shelf of these files, no two of one name. The reads with these numbers, counted from 0,
    /// are to fail where the file is there. It takes no memory.
    pub fn new(files: Vec<(Name, Vec<u8>)>, fails: Vec<u64>) -> Self
        requires { IsTrue (are_distinct bytes_eq (map (λ f. f.0) files.items)) }
        ensures state { ⟦<MemShelf as Shelf>⟧.state result
            ≡ record { files = Some (exposed files.items); absences = 0; faults = 0 } }
        ensures fails { fails_of result ≡ fails.items }
        ensures reads { reads_of result ≡ 0 }
    {
        MemShelf {
            files,
            fails,
            reads: 0,
            absences: 0,
            faults: 0,
        }
    }
}

/// The first file with this name, and its name.
fn row_named<'a>(files: &'a [(Name, Vec<u8>)], name: &Name) -> Option<&'a (Name, Vec<u8>)>
    ensures { option_copied result ≡ find (λ f. bytes_eq f.0 name.now) files.now }
{
    files
        .iter()
        .find(|file| file.0.as_bytes() == name.as_bytes())
}

/// The bytes of the file with this name.
fn file_named<'a>(files: &'a [(Name, Vec<u8>)], name: &Name) -> Option<&'a [u8]>
    ensures { option_copied result ≡ spec.file_named (exposed files.now) name.now }
{
    match row_named(files, name) {
        Some(file) => Some(file.1.as_slice()),
        None => None,
    }
}

impl Shelf for MemShelf {
    ghost use Rattle.conc_outside.specs.Reads.{FailsAsListed, shelf_state};

    ghost state = { λ s. shelf_state s };

    fn read_file(&mut self, alloc: Global, name: &Name) -> Result<Vec<u8>, ShelfFail>
        ensures later { spec.IsLater (shelf_state self.old) (shelf_state self.new) }
        ensures found { IfOk result (λ bytes. spec.Gives (shelf_state self.old).files name.now
            bytes.items) }
        ensures absent { IsErrOf result Absent
            → Rose (shelf_state self.old).absences (shelf_state self.new).absences
            × spec.Lacks (shelf_state self.old).files name.now }
        ensures lacking { IfSome (shelf_state self.old).files
            (λ exposed. spec.file_named exposed name.now ≡ None → IsErrOf result Absent) }
        ensures failed { IsErrOf result Failed
            → Rose (shelf_state self.old).faults (shelf_state self.new).faults }
        ensures exact { FailsAsListed self.old self.new name.now result }
    {
        let number = self.reads;
        self.reads = number.saturating_add(1);
        let Some(bytes) = file_named(&self.files, name) else {
            self.absences = self.absences.saturating_add(1);
            return Err(ShelfFail::Absent);
        };
        if self.fails.contains(&number) {
            self.faults = self.faults.saturating_add(1);
            return Err(ShelfFail::Failed);
        }
        let front = &bytes[..MOST_BYTES.min(bytes.len())];
        Ok(front.to_vec(alloc)?)
    }
}
