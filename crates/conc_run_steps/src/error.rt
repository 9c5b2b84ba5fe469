ghost use Rattle.std.specs.Prelude.{◌≡◌};
ghost use Rattle.conc_run_state.specs.declared.error.RunFail.TheVariants as run_fail;

use conc_run_state::RunFail;

/// The journal's disk failed, or an earlier append to the journal had met a fault.
#[derive(Clone, Copy, Debug, PartialEq, Eq)]
pub struct JournalFault;

impl From<JournalFault> for RunFail {
    ghost from_gives = { λ _ e. e ≡ run_fail.JournalFault };

    fn from(_: JournalFault) -> Self {
        RunFail::JournalFault
    }
}
