ghost use Rattle.std.specs.Prelude.{◌≡◌};
ghost use Rattle.conc_base_law.specs.Text.{outcome_word, phase_word, status_word};

use conc_types::{Outcome, Phase, Status};

/// The name of an outcome in a history's text.
pub fn outcome_bytes(outcome: Outcome) -> &'static [u8]
    ensures { result.now ≡ outcome_word outcome }
{
    match outcome {
        Outcome::Normal => b"Normal",
        Outcome::Warning => b"Warning",
        Outcome::Error => b"Error",
        Outcome::Terminated => b"Terminated",
        Outcome::Cancelled => b"Cancelled",
    }
}

/// The name of a phase in a history's text.
pub fn phase_bytes(phase: Phase) -> &'static [u8]
    ensures { result.now ≡ phase_word phase }
{
    match phase {
        Phase::Pending => b"Pending",
        Phase::Running => b"Running",
        Phase::Completed => b"Completed",
        Phase::Inactive => b"Inactive",
    }
}

/// The name of a status in a history's text.
pub fn status_bytes(status: Status) -> &'static [u8]
    ensures { result.now ≡ status_word status }
{
    match status {
        Status::Normal => b"Normal",
        Status::Standby => b"Standby",
        Status::Scheduled => b"Scheduled",
        Status::Waiting => b"Waiting",
        Status::Paused => b"Paused",
        Status::Terminating => b"Terminating",
        Status::Error => b"Error",
        Status::Warning => b"Warning",
        Status::Cancelled => b"Cancelled",
        Status::Terminated => b"Terminated",
        Status::Disabled => b"Disabled",
        Status::OnHold => b"On Hold",
        Status::NoManager => b"No Manager",
    }
}
