ghost use Rattle.std.specs.Prelude.{◌≡◌, IfOk, IfSome, IsErrOf, None};
ghost use Rattle.conc_outside.specs.Counts.{Rose};
ghost use Rattle.conc_outside.specs.declared.error.ShelfFail.TheVariants.{Absent, Failed};
ghost use Rattle.conc_outside.specs.Files.{file_named, Gives, IsLater, Lacks, ShelfState};

use crate::ShelfFail;
use conc_types::Name;
use std::alloc::Global;

/// How much of a file is read.
pub(crate) const MOST_BYTES: usize = 67_108_865;

/// A shelf of files, each with a name of its own.
pub trait Shelf {
    /// Its files, if the shelf exposes them, and its counts.
    ghost state: { Self → ShelfState };

    /// The bytes of a file, or its first 67,108,865 bytes where it is longer. The counts of absences
    /// and of faults never fall.
    fn read_file(&mut self, alloc: Global, name: &Name) -> Result<Vec<u8>, ShelfFail>
        ensures later { IsLater (state self.old) (state self.new) }
        ensures found { IfOk result (λ bytes. Gives (state self.old).files name.now bytes.items) }

        // A file that is lacking is told as such, and nothing else is.
        ensures absent { IsErrOf result Absent
            → Rose (state self.old).absences (state self.new).absences
            × Lacks (state self.old).files name.now }
        ensures lacking { IfSome (state self.old).files
            (λ exposed. file_named exposed name.now ≡ None → IsErrOf result Absent) }

        ensures failed { IsErrOf result Failed
            → Rose (state self.old).faults (state self.new).faults };
}
