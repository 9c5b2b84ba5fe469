ghost use Rattle.std.specs.Prelude.{◌≡◌, ◌++◌, ◌∷◌, [], IfOk, OnOk, reverse};
ghost use Rattle.conc_base_law.specs.Text.{id_word, phase_word, spaced, status_word, table_text};
ghost use Rattle.conc_history.specs.Table.{line_at, line_with, table_at};

use crate::words::{item_name, put_bytes};
use conc_event_decisions::status;
use conc_history_lines::{phase_bytes, status_bytes};
use conc_history_replay::state_after;
use conc_types::{Event, NoMemory, Phase, Plan, Req, RequestId, State, Status, put_decimal};
use std::alloc::Global;

// The line of a request as far as the status.
fn put_status(out: &mut Vec<u8>, r: RequestId, phase: Phase, status: Status) -> Result<(), NoMemory>
    ensures { OnOk result (out.new.items ≡ out.old.items
        ++ spaced (id_word r ∷ phase_word phase ∷ status_word status ∷ [])) }
{
    put_decimal(out, u64::from(r.number))?;
    put_bytes(out, b" ")?;
    put_bytes(out, phase_bytes(phase))?;
    put_bytes(out, b" ")?;
    put_bytes(out, status_bytes(status))
}

fn put_line(
    out: &mut Vec<u8>,
    plan: &Plan,
    r: &Req,
    phase: Phase,
    status: Status,
) -> Result<(), NoMemory>
    ensures { OnOk result (out.new.items ≡ out.old.items
        ++ line_with plan.now r.now (phase, status)) }
{
    put_status(out, r.number, phase, status)?;
    put_bytes(out, b" ")?;
    put_bytes(out, item_name(plan, r.item))?;
    put_bytes(out, b"\n")
}

// Appends the line of a request, if it is submitted.
#[tactic(auto, unfolding(crate::specs::Table::line_at))]
fn put_request_line(out: &mut Vec<u8>, plan: &Plan, state: &State, r: &Req) -> Result<(), NoMemory>
    ensures { OnOk result (out.new.items ≡ out.old.items ++ line_at plan.now state.now r.now) }
{
    match status(plan, state, r) {
        Some((phase, status)) => put_line(out, plan, r, phase, status),
        None => Ok(()),
    }
}

/// Appends a line for each submitted request.
#[tactic(auto, unfolding(crate::specs::Table::table_at))]
pub(crate) fn put_table(out: &mut Vec<u8>, plan: &Plan, state: &State) -> Result<(), NoMemory>
    ensures { OnOk result (out.new.items ≡ out.old.items ++ table_at plan.now state.now) }
{
    for r in plan.requests.as_slice() {
        put_request_line(out, plan, state, r)?;
    }
    Ok(())
}

/// The table of the requests as they stand after the events: a line for each submitted request with
/// its number, phase, status and name. It is the part behind the line `--` of the text of the history.
#[tactic(auto, unfolding(conc_base_law::specs::Text::table_text, conc_base_law::specs::Text::request_line, crate::specs::Table::table_at, crate::specs::Table::line_at))]
pub fn put_status_table(alloc: Global, plan: &Plan, events: &[Event]) -> Result<Vec<u8>, NoMemory>
    ensures { IfOk result (λ text. text.items ≡ table_text plan.now (reverse events.now)) }
{
    let state = state_after(alloc, plan, events)?;
    let mut text = Vec::new(alloc);
    put_table(&mut text, plan, &state)?;
    Ok(text)
}
