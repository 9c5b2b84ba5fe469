ghost use Rattle.std.specs.Prelude.{◌≡◌, ◌≤◌, IfOk};
ghost use Rattle.conc_types.specs.Scripts.{entered_by};
ghost use Rattle.conc_script.specs.Actions.{act_by, submit_by};

use crate::actions::{Action, Submission, Verb};
use conc_types::{Act, Name, NoMemory, Seq, Setup};
use std::alloc::Global;

fn own_submission(alloc: Global, submission: &Submission) -> Result<Act, NoMemory>
    ensures { IfOk result (λ act. act ≡ submit_by submission.now) }
{
    Ok(Act::Submit {
        item: submission.item,
        user: Name::from_vec(submission.user.to_vec(alloc)?),
        priority: submission.priority,
        start: submission.start,
        domain: Name::from_vec(submission.domain.to_vec(alloc)?),
        argument: Seq::from_vec(submission.argument.to_vec(alloc)?),
    })
}

/// What a command does, with bytes of its own.
pub(crate) fn own(alloc: Global, action: &Action) -> Result<Act, NoMemory>
    ensures { IfOk result (λ act. act ≡ act_by action.now) }
{
    match action {
        Action::Submit(submission) => own_submission(alloc, submission),
        Action::On(Verb::Hold, request) => Ok(Act::Hold { request: *request }),
        Action::On(Verb::Unhold, request) => Ok(Act::Unhold { request: *request }),
        Action::On(Verb::Cancel, request) => Ok(Act::Cancel { request: *request }),
        Action::On(Verb::Terminate, request) => Ok(Act::Terminate { request: *request }),
    }
}

/// How many requests a command enters.
pub(crate) fn entered_with(setup: &Setup, action: &Action) -> u32
    ensures value { result ≡ entered_by setup.now (act_by action.now) }
    ensures few { result ≤ 4097 }
{
    match action {
        Action::Submit(submission) => setup.request_count(submission.item),
        Action::On(..) => 0,
    }
}
