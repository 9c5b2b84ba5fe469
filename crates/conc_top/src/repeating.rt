ghost use Rattle.std.specs.Prelude.{◌≡◌};
ghost use Rattle.conc_outside.specs.Files.{IsLater};
ghost use Rattle.conc_top.specs.Printing.{sunk};
ghost use Rattle.conc_top.specs.Repeats.{RepeatEnds};
ghost use Rattle.conc_top.specs.Ways.{exit_of};

use crate::Exit;
use crate::context::Context;
use crate::printing::write_text;
use conc_outside::{Shelf, Sink};
use conc_repeat::expand;
use conc_top_inputs::read_file;
use conc_types::{Name, ReadFail};
use std::alloc::Global;

// Reads a file of repeats, and prints the script to which it expands.
fn expand_and_print<F: Shelf, O: Sink>(
    alloc: Global,
    shelf: &mut F,
    out: &mut O,
    repeats: Name,
) -> Result<(), Exit>
    ensures ends { RepeatEnds (record {
      name = repeats;
      before = F.state shelf.old;
      after = F.state shelf.new;
    })
        (sunk (O.state out.old) (O.state out.new)) (exit_of result) }
    ensures later { IsLater (F.state shelf.old) (F.state shelf.new) }
{
    let bytes = read_file(alloc, shelf, &repeats)?;
    let script = match expand(alloc, &bytes) {
        Ok(script) => script,
        Err(ReadFail::Refused(refusal)) => {
            return Err(Exit::Refused {
                refusal,
                name: repeats,
            });
        }
        Err(ReadFail::NoMemory) => return Err(Exit::NoMemory),
    };
    write_text(&script, out)
}

impl<F: Shelf, O: Sink> Context<'_, F, O> {
    ghost use Rattle.conc_top.specs.Contexts.{Continues, around_by};
    ghost use Rattle.conc_top.specs.Answers.{AnswersRepeat};
    ghost use Rattle.conc_edge_clock.specs.Clocks.{ClockState};

    /// Prints the script to which the file of repeats with this name expands.
    pub(crate) fn expand_file(&mut self, repeats: Name) -> Result<(), Exit>
        ensures continues { Continues F.Shelf self.old self.new }
        ensures answers { (clock : ClockState) → AnswersRepeat repeats
            (around_by F.Shelf O.Sink self.old self.new clock clock) (exit_of result) }
    {
        expand_and_print(self.alloc, self.shelf, self.out, repeats)
    }
}
