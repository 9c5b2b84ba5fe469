ghost use Rattle.std.specs.Prelude.{◌≡◌, IfOk};
ghost use Rattle.conc_base_law.specs.Text.{text_of};

use crate::lines::put_events;
use crate::table::put_table;
use crate::words::put_bytes;
use conc_history_replay::state_after;
use conc_types::{Event, NoMemory, Plan};
use std::alloc::Global;

/// The text of a history of the plan: a line for each event, the line `--`, and a line for each
/// submitted request with its number, phase, status and name.
#[tactic(auto, unfolding(conc_base_law::specs::Text::text_of, conc_base_law::specs::Text::table_text, conc_base_law::specs::Text::request_line, crate::specs::Table::table_at, crate::specs::Table::line_at))]
pub fn put_history(alloc: Global, plan: &Plan, events: &[Event]) -> Result<Vec<u8>, NoMemory>
    ensures { IfOk result (λ text. text.items ≡ text_of plan.now events.now) }
{
    let state = state_after(alloc, plan, events)?;
    let mut text = Vec::new(alloc);
    put_events(&mut text, plan, events)?;
    put_bytes(&mut text, b"--\n")?;
    put_table(&mut text, plan, &state)?;
    Ok(text)
}
