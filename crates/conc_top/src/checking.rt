ghost use Rattle.std.specs.Prelude.{◌≡◌, IfOk};
ghost use Rattle.conc_outside.specs.Files.{IsLater};
ghost use Rattle.conc_top.specs.Checks as spec;
ghost use Rattle.conc_top.specs.Checks.{CheckEnds, verdict_text};
ghost use Rattle.conc_top.specs.Printing.{sunk};
ghost use Rattle.conc_top.specs.Ways.{exit_of};

use crate::Exit;
use crate::context::Context;
use crate::line::put;
use crate::printing::write_text;
use conc_edge_clock::Clock;
use conc_history_check::{Verdict, judge_text};
use conc_outside::{Shelf, Sink};
use conc_top_inputs::{FileNames, InTurn, accept_timed, read_file};
use conc_types::{Name, NoMemory, Plan, Readings, put_decimal};
use std::alloc::Global;

fn finished_word(finished: bool) -> &'static [u8]
    ensures { result.now ≡ spec.finished_word finished }
{
    if finished {
        b" finished\n"
    } else {
        b" unfinished\n"
    }
}

// The line that tells of a lawful history how many events it has, and whether it is finished.
fn put_verdict(alloc: Global, events: u64, finished: bool) -> Result<Vec<u8>, NoMemory>
    ensures { IfOk result (λ text. text.items ≡ verdict_text events finished) }
{
    let mut text = Vec::new(alloc);
    put(&mut text, b"lawful ")?;
    put_decimal(&mut text, events)?;
    put(&mut text, finished_word(finished))?;
    Ok(text)
}

// Reads the text of a history, judges it, and prints the verdict.
fn judge_and_print<F: Shelf, O: Sink>(
    alloc: Global,
    plan: &Plan,
    readings: &Readings,
    shelf: &mut F,
    out: &mut O,
    history: &Name,
) -> Result<(), Exit>
    ensures ends { CheckEnds (record {
      plan = plan.now;
      readings = readings.now.list;
      name = history.now;
      before = F.state shelf.old;
      after = F.state shelf.new;
    })
        (sunk (O.state out.old) (O.state out.new)) (exit_of result) }
    ensures later { IsLater (F.state shelf.old) (F.state shelf.new) }
{
    let bytes = read_file(alloc, shelf, history)?;
    let (events, finished) = match judge_text(alloc, plan, readings, &bytes)? {
        Verdict::Lawful { events, finished } => (events, finished),
        Verdict::NotLawful { line } => return Err(Exit::NotLawful { line }),
    };
    let text = put_verdict(alloc, events, finished)?;
    write_text(&text, out)
}

impl<F: Shelf, O: Sink> Context<'_, F, O> {
    ghost use Rattle.conc_top_inputs.specs.Given.{names_of};
    ghost use Rattle.conc_top.specs.Answers.{AnswersCheck};
    ghost use Rattle.conc_top.specs.Contexts.{Continues, around_by};
    ghost use Rattle.conc_top.specs.Ways.{exit_of};

    /// Judges the text of a history by the files with these names, and prints how many events it has and
    /// whether it is finished, where it is lawful.
    pub(crate) fn check_files<C: Clock>(
        &mut self,
        clock: &mut C,
        files: FileNames,
        history: Name,
    ) -> Result<(), Exit>
        ensures continues { Continues F.Shelf self.old self.new }
        ensures answers { AnswersCheck (names_of files) history
            (around_by F.Shelf O.Sink self.old self.new (C.state clock.old) (C.state clock.new))
            (exit_of result) }
    {
        let (accepted, readings) = accept_timed(self.alloc, self.shelf, clock, &InTurn, files)?;
        judge_and_print(
            self.alloc,
            &accepted.plan,
            &readings,
            self.shelf,
            self.out,
            &history,
        )
    }
}
