ghost use Rattle.std.specs.Prelude.{◌≡◌, ◌≤◌, IfOk};
ghost use Rattle.conc_run_make.specs.Summary.{IsSummary, summary_text};

use crate::counting::{put_line, put_outcomes};
use crate::generating::generate;
use crate::running::run_in_memory;
use conc_history_replay::state_after;
use conc_types::{Event, NoMemory, Plan};
use std::alloc::Global;

// The text of the summary of a history of the plan.
#[tactic(auto, unfolding(crate::specs::Summary::summary_text))]
fn text_of(
    alloc: Global,
    seed: u64,
    size: u32,
    plan: &Plan,
    history: &[Event],
) -> Result<Vec<u8>, NoMemory>
    ensures { IfOk result (λ text. text.items ≡ summary_text seed size plan.now history.now) }
{
    let state = state_after(alloc, plan, history)?;
    let mut text = Vec::new(alloc);
    put_line(&mut text, b"seed", seed)?;
    put_line(&mut text, b"size", u64::from(size))?;
    put_line(&mut text, b"requests", plan.requests.len() as u64)?;
    put_line(&mut text, b"events", history.len() as u64)?;
    put_outcomes(&mut text, &state)?;
    Ok(text)
}

/// The summary of the run, without workers, of the inputs that are made of this seed with so many
/// submissions. The run begins with no events, is kept in memory, and is finished.
///
/// The summary has nine lines, each a word, a blank and a number: `seed` and `size`, as they are given;
/// `requests`, how many the plan has, the members of sets among them; `events`, how many the history
/// has, ticks among them; and then `normal`, `warning`, `error`, `cancelled` and `terminated`, how many
/// requests are completed with that outcome, sets among them. The same seed and size give the same
/// bytes. `NoMemory` tells that there was no memory.
pub fn summarize(alloc: Global, seed: u64, size: u32) -> Result<Vec<u8>, NoMemory>
    requires some { 1 ≤ size }
    requires few { size ≤ 4000 }
    ensures { IfOk result (λ text. IsSummary seed size text.items) }
{
    let generated = generate(alloc, seed, size)?;
    let history = run_in_memory(alloc, &generated)?;
    text_of(alloc, seed, size, &generated.plan, &history)
}
