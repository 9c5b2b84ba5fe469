//! What the reader of scripts makes of the scripts that files of repeats are expanded to.
#![tactic(auto)]

ghost use Rattle.std.specs.Prelude.{ℕ, List, drop};
ghost use Rattle.conc_types.specs.declared.setup.Setup.{Setup};
ghost use Rattle.conc_data_records.specs.Records.{records_of};
ghost use Rattle.conc_repeat.specs.Script.{Expands};
ghost use Rattle.conc_data_repeat_laws.specs.Readings.{HasNames, IsReadAs};

/// What a file of repeats is expanded to is a script of each setup that has a program or a set with
/// the name of each record, and its commands are the submissions of the records, by their moments.
pub fn expanded_scripts_are_read()
    ensures { (setup : Setup) (file bytes : List ℕ) → Expands file bytes
        → HasNames setup (drop 1 (records_of file))
        → IsReadAs setup (drop 1 (records_of file)) bytes }
{}
