ghost use Rattle.std.specs.Prelude.{◌≡◌};
ghost use Rattle.conc_run_state.specs.Fails.{of_read};
ghost use Rattle.conc_run_open.specs.declared.error.TextFail.TheVariants as text_fail;

use conc_disk::ReadBack;
use conc_run_state::HistoryFail;
use thiserror::Error;

/// Why no text of a report is given.
#[derive(Clone, Copy, Debug, PartialEq, Eq, Error)]
pub enum TextFail {
    /// What stands on the disks is refused, or could not be read.
    #[error(transparent)]
    NoHistory(HistoryFail),
    /// The journal has no end of the request that has a report.
    #[error("the request has not ended with a report")]
    NotEnded,
}

impl From<HistoryFail> for TextFail {
    ghost from_gives = { λ fail e. e ≡ text_fail.NoHistory fail };

    fn from(fail: HistoryFail) -> Self {
        TextFail::NoHistory(fail)
    }
}

impl From<ReadBack> for TextFail {
    ghost from_gives = { λ fail e. e ≡ text_fail.NoHistory (of_read fail) };

    fn from(fail: ReadBack) -> Self {
        TextFail::NoHistory(HistoryFail::from(fail))
    }
}
