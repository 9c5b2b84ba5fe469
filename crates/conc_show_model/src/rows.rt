ghost use Rattle.std.specs.Prelude.{◌≡◌, ◌==◌, drop, position, IfOk};
ghost use Rattle.conc_history_lines.specs.Numbers as numbers_spec;
ghost use Rattle.conc_show_model.specs.Rows as spec;

use crate::Row;
use conc_history_lines::{phase_bytes, status_bytes};
use conc_types::{Name, NoMemory, Phase, RequestId, Status, is_name, read_decimal};
use std::alloc::Global;

const PHASES: [Phase; 4] = [
    Phase::Pending,
    Phase::Running,
    Phase::Completed,
    Phase::Inactive,
];

const PENDING: [Status; 4] = [
    Status::Normal,
    Status::Standby,
    Status::Scheduled,
    Status::Waiting,
];

const RUNNING: [Status; 3] = [Status::Normal, Status::Paused, Status::Terminating];

const COMPLETED: [Status; 5] = [
    Status::Normal,
    Status::Warning,
    Status::Error,
    Status::Cancelled,
    Status::Terminated,
];

const INACTIVE: [Status; 3] = [Status::OnHold, Status::Disabled, Status::NoManager];

// What is left of a text without so many bytes in front.
pub(crate) fn skip(text: &[u8], count: usize) -> &[u8]
    ensures { result.now ≡ drop count text.now }
{
    if count <= text.len() {
        &text[count..]
    } else {
        &[]
    }
}

#[tactic(auto, unfolding(crate::specs::Rows::begins_with))]
fn begins_with(word: &[u8], text: &[u8]) -> bool
    ensures { result ≡ spec.begins_with word.now text.now }
{
    text.starts_with(word) && skip(text, word.len()).starts_with(b" ")
}

// The phase whose word the text begins with.
#[tactic(auto, unfolding(crate::specs::Rows::phase_at))]
fn phase_at(text: &[u8]) -> Option<Phase>
    ensures { result ≡ spec.phase_at text.now }
{
    PHASES
        .iter()
        .copied()
        .find(|phase| begins_with(phase_bytes(*phase), text))
}

// The statuses that a request can have in a phase.
fn statuses_of(phase: Phase) -> &'static [Status]
    ensures { result.now ≡ spec.statuses_of phase }
{
    match phase {
        Phase::Pending => &PENDING,
        Phase::Running => &RUNNING,
        Phase::Completed => &COMPLETED,
        Phase::Inactive => &INACTIVE,
    }
}

// The status of the phase whose word the text begins with.
#[tactic(auto, unfolding(crate::specs::Rows::status_at))]
fn status_at(phase: Phase, text: &[u8]) -> Option<Status>
    ensures { result ≡ spec.status_at phase text.now }
{
    statuses_of(phase)
        .iter()
        .copied()
        .find(|status| begins_with(status_bytes(*status), text))
}

fn find(bytes: &[u8], byte: u8) -> Option<usize>
    ensures { result ≡ position (λ other. other == byte) bytes.now }
{
    bytes.iter().position(|other| *other == byte)
}

// What stands before the first blank of a line.
fn first_word(line: &[u8]) -> &[u8]
    ensures { result.now ≡ spec.first_word line.now }
{
    match find(line, b' ') {
        Some(end) => &line[..end],
        None => line,
    }
}

// The request that a word numbers.
#[tactic(auto, unfolding(conc_history_lines::specs::Numbers::number_of))]
fn id_of(word: &[u8]) -> Option<RequestId>
    ensures { result ≡ numbers_spec.id_of word.now }
{
    let number = u32::try_from(read_decimal(word)?).ok()?;
    Some(RequestId { number })
}

// The row with this name, where it is one.
fn named_row(
    alloc: Global,
    request: RequestId,
    phase: Phase,
    status: Status,
    name: &[u8],
) -> Result<Option<Row>, NoMemory>
    ensures { IfOk result (λ row. row ≡ spec.named_row request phase status name.now) }
{
    if !is_name(name) {
        return Ok(None);
    }
    let name = Name::from_vec(Vec::from_slice(alloc, name)?);
    Ok(Some(Row {
        request,
        phase,
        status,
        name,
    }))
}

fn row_with(
    alloc: Global,
    request: RequestId,
    phase: Phase,
    text: &[u8],
) -> Result<Option<Row>, NoMemory>
    ensures { IfOk result (λ row. row ≡ spec.row_with request phase text.now) }
{
    match status_at(phase, text) {
        Some(status) => {
            let name = skip(text, status_bytes(status).len() + 1);
            named_row(alloc, request, phase, status, name)
        }
        None => Ok(None),
    }
}

fn row_numbered(alloc: Global, request: RequestId, text: &[u8]) -> Result<Option<Row>, NoMemory>
    ensures { IfOk result (λ row. row ≡ spec.row_numbered request text.now) }
{
    match phase_at(text) {
        Some(phase) => row_with(
            alloc,
            request,
            phase,
            skip(text, phase_bytes(phase).len() + 1),
        ),
        None => Ok(None),
    }
}

// The row that a line without its LF is, if it is a line of the table.
#[tactic(auto, unfolding(crate::specs::Rows::row_of))]
fn read_row(alloc: Global, line: &[u8]) -> Result<Option<Row>, NoMemory>
    ensures { IfOk result (λ row. row ≡ spec.row_of line.now) }
{
    let word = first_word(line);
    match id_of(word) {
        Some(request) => row_numbered(alloc, request, skip(line, word.len() + 1)),
        None => Ok(None),
    }
}

/// The row that a line without its LF is, if it is a line of the table, and its number is above
/// another one.
#[tactic(auto, unfolding(crate::specs::Rows::row_above))]
pub(crate) fn row_above(alloc: Global, last: u32, line: &[u8]) -> Result<Option<Row>, NoMemory>
    ensures { IfOk result (λ row. row ≡ spec.row_above last line.now) }
{
    match read_row(alloc, line)? {
        Some(row) if last < row.request.number => Ok(Some(row)),
        _ => Ok(None),
    }
}
