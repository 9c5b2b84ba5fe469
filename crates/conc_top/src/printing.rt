ghost use Rattle.std.specs.Prelude.{◌≤◌};
ghost use Rattle.conc_top.specs.Answers.{AnswersMake};
ghost use Rattle.conc_top.specs.Printing.{sunk, Wrote};
ghost use Rattle.conc_top.specs.Ways.{exit_of};

use crate::Exit;
use conc_outside::{Sink, write_all};
use conc_run_make::summarize;
use std::alloc::Global;

/// Writes a text.
pub(crate) fn write_text<O: Sink>(text: &[u8], out: &mut O) -> Result<(), Exit>
    ensures { Wrote text.now (sunk (O.state out.old) (O.state out.new)) (exit_of result) }
{
    write_all(out, text).map_err(|_| Exit::WriteFault)
}

/// Prints the summary of the run of the inputs that are made of this seed with so many submissions.
pub(crate) fn print_summary<O: Sink>(
    alloc: Global,
    seed: u64,
    size: u32,
    out: &mut O,
) -> Result<(), Exit>
    requires some { 1 ≤ size }
    requires few { size ≤ 4000 }
    ensures { AnswersMake seed size (sunk (O.state out.old) (O.state out.new)) (exit_of result) }
{
    let text = summarize(alloc, seed, size)?;
    write_text(&text, out)
}
