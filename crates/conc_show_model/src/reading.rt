ghost use Rattle.std.specs.Prelude.{◌≡◌, None, IfErr, IfOk};
ghost use Rattle.conc_show_model.specs.Reading as spec;
ghost use Rattle.conc_show_model.specs.Reading.{events_of, history_fault, rows_of};
ghost use Rattle.conc_show_model.specs.Whys.{IsFailure};

use crate::judging::judge;
use crate::rows::skip;
use crate::runs::runs_of;
use crate::table::read_table;
use crate::{Chart, ChartFail, ChartFile, ChartWhy};
use conc_history_lines::read_history;
use conc_types::Seq;
use std::alloc::Global;

// The first place of each of 64 managers, and the count of all places.
static FIRST_PLACES: [u32; 65] = [
    0, 64, 128, 192, 256, 320, 384, 448, 512, 576, 640, 704, 768, 832, 896, 960, 1024, 1088, 1152,
    1216, 1280, 1344, 1408, 1472, 1536, 1600, 1664, 1728, 1792, 1856, 1920, 1984, 2048, 2112, 2176,
    2240, 2304, 2368, 2432, 2496, 2560, 2624, 2688, 2752, 2816, 2880, 2944, 3008, 3072, 3136, 3200,
    3264, 3328, 3392, 3456, 3520, 3584, 3648, 3712, 3776, 3840, 3904, 3968, 4032, 4096,
];

// How many bytes and events there are at most; with more there is no memory.
const MOST: u64 = 1 << 62;

#[tactic(auto, unfolding(crate::specs::Reading::first_places))]
fn first_places() -> &'static [u32]
    ensures { result.now ≡ spec.first_places }
{
    &FIRST_PLACES
}

/// Reads the text of a history, as `conc run` prints it.
pub fn read_chart(alloc: Global, history: &[u8]) -> Result<Chart, ChartFail>
    ensures events { IfOk result (λ chart. chart.events ≡ events_of history.now) }
    ensures rows { IfOk result (λ chart. chart.rows ≡ rows_of history.now) }
    ensures ok { IfOk result (λ _. history_fault history.now ≡ None) }
    ensures err { IfErr result (IsFailure (history_fault history.now)) }
{
    let lines = read_history(alloc, history, first_places())?;
    if let Some(line) = lines.bad {
        return Err(ChartFile::History.refused(line, ChartWhy::NoEventLine));
    }
    let count = lines.events.len() as u64;
    if count > MOST || history.len() as u64 > MOST {
        return Err(ChartFail::NoMemory);
    }
    let rows = read_table(alloc, count + 2, skip(history, lines.next))?;
    judge(alloc, rows.as_slice(), lines.events.as_slice())?;
    let runs = runs_of(alloc, lines.events.as_slice())?;
    Ok(Chart {
        events: lines.events,
        rows: Seq::from_vec(rows),
        runs: Seq::from_vec(runs),
        planned: Seq::from_vec(Vec::new(alloc)),
    })
}
