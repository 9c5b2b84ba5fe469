ghost use Rattle.std.specs.Prelude.{◌≡◌, ◌++◌, OnOk};
ghost use Rattle.std.specs.List.{concat};
ghost use Rattle.conc_run_make.specs.Summary as spec;
ghost use Rattle.conc_run_make.specs.Summary.{line, outcome_lines};

use conc_types::{Facts, NoMemory, Outcome, State, put_decimal};

fn is_completed_with(outcome: Outcome, facts: &Facts) -> bool
    ensures { result ≡ spec.is_completed_with outcome facts.now }
{
    facts.outcome == Some(outcome)
}

// How many requests are completed with an outcome, sets among them.
fn count_completed(outcome: Outcome, state: &State) -> u64
    ensures { result ≡ spec.count_completed outcome state.now }
{
    let facts = state.facts.as_slice();
    facts
        .iter()
        .filter(|own| is_completed_with(outcome, own))
        .count() as u64
}

/// Appends a line: a word, a blank and a number.
#[tactic(auto, unfolding(crate::specs::Summary::line))]
pub(crate) fn put_line(out: &mut Vec<u8>, word: &[u8], n: u64) -> Result<(), NoMemory>
    ensures { OnOk result (out.new.items ≡ out.old.items ++ line word.now n) }
{
    out.extend_from_slice(word)?;
    out.extend_from_slice(b" ")?;
    put_decimal(out, n)?;
    out.extend_from_slice(b"\n")?;
    Ok(())
}

// Appends the line of an outcome.
fn put_outcome(
    out: &mut Vec<u8>,
    word: &[u8],
    outcome: Outcome,
    state: &State,
) -> Result<(), NoMemory>
    ensures { OnOk result (out.new.items ≡ out.old.items
        ++ line word.now (spec.count_completed outcome state.now)) }
{
    put_line(out, word, count_completed(outcome, state))
}

/// Appends a line for each outcome: how many requests are completed with it.
pub(crate) fn put_outcomes(out: &mut Vec<u8>, state: &State) -> Result<(), NoMemory>
    ensures { OnOk result (out.new.items ≡ out.old.items ++ concat (outcome_lines state.now)) }
{
    put_outcome(out, b"normal", Outcome::Normal, state)?;
    put_outcome(out, b"warning", Outcome::Warning, state)?;
    put_outcome(out, b"error", Outcome::Error, state)?;
    put_outcome(out, b"cancelled", Outcome::Cancelled, state)?;
    put_outcome(out, b"terminated", Outcome::Terminated, state)?;
    Ok(())
}
