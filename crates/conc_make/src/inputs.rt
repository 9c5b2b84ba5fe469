ghost use Rattle.std.specs.Prelude.{◌≡◌, ◌≤◌, IfOk};
ghost use Rattle.conc_make.specs.Accepted.{AreAccepted};
ghost use Rattle.conc_make.specs.Files.{clock_text, script_text, setup_text, table_text};

use crate::draws::Draws;
use crate::script::put_script;
use crate::setup::setup_bytes;
use crate::table::put_table;
use conc_types::NoMemory;
use std::alloc::Global;

/// The files of a run: its setup, its script, its clock file, and the one table of the setup.
#[derive(Debug, Drop)]
pub struct Inputs {
    pub setup: Vec<u8>,
    pub script: Vec<u8>,
    pub clock: Vec<u8>,
    pub table: Vec<u8>,
}

/// The inputs of a seed, with so many submissions. The same seed and size give the same bytes.
///
/// The setup is always the same: eight programs over the table, of which one warns and one runs
/// alone, three incompatibilities, a manager of four places, and a set of two stages. The table's 64
/// rows are drawn first, and then, submission by submission, the program or set, the user, the
/// priority and the domain. Each submission, and the clock's one reading, is at the first moment of
/// 2025. The readers accept all four files, and a plan of them has no fault. `NoMemory` tells that
/// there was no memory.
#[tactic(auto, unfolding(crate::specs::Files::script_text, crate::specs::Files::clock_text))]
pub fn make(alloc: Global, seed: u64, size: u32) -> Result<Inputs, NoMemory>
    requires some { 1 ≤ size }
    requires few { size ≤ 4000 }
    ensures setup { IfOk result (λ inputs. inputs.setup.items ≡ setup_text) }
    ensures script { IfOk result (λ inputs. inputs.script.items ≡ script_text seed size) }
    ensures clock { IfOk result (λ inputs. inputs.clock.items ≡ clock_text) }
    ensures table { IfOk result (λ inputs. inputs.table.items ≡ table_text seed) }
    ensures accepted { IfOk result (λ inputs. AreAccepted inputs.setup.items inputs.script.items
        inputs.clock.items inputs.table.items) }
{
    let mut draws = Draws { number: seed };
    let mut table = Vec::new(alloc);
    put_table(&mut table, &mut draws)?;
    let mut script = Vec::new(alloc);
    put_script(&mut script, &mut draws, size)?;
    Ok(Inputs {
        setup: setup_bytes().to_vec(alloc)?,
        script,
        clock: b"2025-01-01T00:00:00\n".to_vec(alloc)?,
        table,
    })
}
