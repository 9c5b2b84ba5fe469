// What is kept of a request: its end, with what was left for it.
ghost use Rattle.std.specs.Prelude.{◌≡◌, IfSome, None, reverse, Some};
ghost use Rattle.conc_run_desk.specs.Keeping.{end_in, IsLeftIn, MakesOf, must_stop, run_fail};
ghost use Rattle.conc_run_choice.specs.Choices.{HasItsText};
ghost use Rattle.conc_run_state.specs.Works.{list_in};
ghost use Rattle.conc_run_steps.specs.Steps.{any_disk, IsTied, plan_in};

use conc_board::Posted;
use conc_run_choice::{Next, reported_end, terminated_end};
use conc_run_state::{RunFail, Work};
use conc_types::{Event, Plan, RequestId};
use thiserror::Error;

/// What a call to keep an end answers.
#[derive(Clone, Copy, Debug, PartialEq, Eq)]
pub enum Kept {
    /// The end of the request, which is kept and comes next.
    Ready(Event),
    /// Nothing was left for the request yet.
    NotYet,
}

/// Why no end is kept. The request is done on the board, and has no end in this life.
#[derive(Clone, Copy, Debug, PartialEq, Eq, Error)]
pub enum KeepFail {
    #[error("the spool's disk failed")]
    SpoolFault,
    #[error("no memory")]
    NoMemory,
}

impl From<KeepFail> for RunFail {
    ghost from_gives = { λ fail e. e ≡ run_fail fail };

    fn from(fail: KeepFail) -> Self {
        match fail {
            KeepFail::SpoolFault => RunFail::SpoolFault,
            KeepFail::NoMemory => RunFail::NoMemory,
        }
    }
}

/// The end of a request that runs, with its text if it has one, by what was left for it. One that has to stop ends
/// as terminated, whatever was left. None where its report found no memory.
pub(crate) fn end_left(plan: &Plan, work: &Work<'_>, r: RequestId, posted: Posted) -> Option<Next>
    requires plan { plan.now ≡ plan_in work.now }
    requires tied { IsTied None work.now any_disk any_disk }
    requires left { IsLeftIn plan.now (reverse (list_in work.now)) r posted }
    ensures event { IfSome result (λ next. end_in plan.now (reverse (list_in work.now)) r
        ≡ Some next.event) }
    ensures text { IfSome result (λ next. HasItsText plan.now next.event next.text) }
    ensures makes { MakesOf (must_stop plan.now (reverse (list_in work.now)) r) posted result }
{
    let Some(request) = plan.request(r) else {
        unreachable!()
    };
    if work.machine.must_stop(r) {
        return Some(terminated_end(request));
    }
    match posted {
        Posted::Text(made) => Some(reported_end(request, made, work.spool.used())),
        Posted::NoMemory => None,
        Posted::Stopped => unreachable!(),
    }
}
