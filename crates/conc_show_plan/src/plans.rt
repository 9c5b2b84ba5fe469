ghost use Rattle.std.specs.Prelude.{◌≡◌, None, slice_get, IfErr, IfOk};
ghost use Rattle.std.specs.Option.{option_copied};
ghost use Rattle.conc_show_model.specs.Whys.{IsFailure};
ghost use Rattle.conc_show_plan.specs.Plans.{plan_fault, planned_from, planned_of, submits_given};
ghost use Rattle.conc_show_plan.specs.Submits.{script_fault};
ghost use Rattle.std.specs.Option.{option_and_then};

use crate::listing::read_sets;
use crate::submits::read_submits;
use conc_show_model::{ChartFail, Planned};
use conc_types::{NoMemory, RequestId, Seq};
use std::alloc::Global;

// The command that submits next, after so many.
fn command_at(submits: &[u32], taken: usize) -> Option<u32>
    ensures { result ≡ slice_get submits.now taken }
{
    submits.get(taken).copied()
}

// What is told of requests with these sets, where these commands submit.
fn plan_requests(
    alloc: Global,
    sets: &[Option<RequestId>],
    submits: &[u32],
) -> Result<Vec<Planned>, NoMemory>
    ensures { IfOk result (λ planned. planned.items ≡ planned_from sets.now submits.now None) }
{
    let mut planned = Vec::new(alloc);
    let mut taken = 0;
    let mut command = None;
    for i in 0..sets.len() {
        let set = sets[i];
        if set.is_none() {
            command = command_at(submits, taken);
            taken += 1;
        }
        planned.push(Planned { set, command })?;
    }
    Ok(planned)
}

// The commands of a script that submit, or none where no script is given.
fn submits_of(alloc: Global, script: Option<&[u8]>) -> Result<Vec<u32>, ChartFail>
    ensures submits { IfOk result (λ submits. submits.items
        ≡ submits_given (option_copied script.entry)) }
    ensures ok { IfOk result (λ _. option_and_then script_fault (option_copied script.entry) ≡ None) }
    ensures err { IfErr result (IsFailure (option_and_then script_fault (option_copied script.entry))) }
{
    match script {
        Some(script) => read_submits(alloc, script),
        None => Ok(Vec::new(alloc)),
    }
}

/// What the listing of a plan tells of each of its requests, and the script where one is given. The
/// listing is what `conc plan` prints for a setup and this script.
pub fn read_planned(
    alloc: Global,
    listing: &[u8],
    script: Option<&[u8]>,
) -> Result<Seq<Planned>, ChartFail>
    ensures planned { IfOk result (λ planned. planned
        ≡ planned_of listing.now (option_copied script.entry)) }
    ensures ok { IfOk result (λ _. plan_fault listing.now (option_copied script.entry) ≡ None) }
    ensures err { IfErr result (IsFailure (plan_fault listing.now (option_copied script.entry))) }
{
    let sets = read_sets(alloc, listing)?;
    let submits = submits_of(alloc, script)?;
    let planned = plan_requests(alloc, sets.as_slice(), submits.as_slice())?;
    Ok(Seq::from_vec(planned))
}
