ghost use Rattle.std.specs.Prelude.{◌≡◌};

use conc_types::Name;

/// The names of the files that a run or a check is given.
#[derive(Drop)]
pub struct FileNames {
    pub setup: Name,
    pub script: Name,
    /// That of the clock's file, or `system`, which asks the clock of the system.
    pub clock: Name,
}

impl FileNames {
    /// These names.
    pub fn new(setup: Name, script: Name, clock: Name) -> Self
        ensures { result ≡ record { setup = setup; script = script; clock = clock } }
    {
        FileNames {
            setup,
            script,
            clock,
        }
    }
}
