ghost use Rattle.std.specs.Prelude.{◌≡◌, IfOk, IsSome};
ghost use Rattle.std.specs.Option.{option_map};
ghost use Rattle.conc_reports.specs.Reports.{as_report};
ghost use Rattle.conc_pool_seats.specs.Reports as reports_spec;
ghost use Rattle.conc_worker.specs.Leaving.{IsPostedAs};

use conc_board::Posted;
use conc_reports::{Made, report};
use conc_rules::program_of;
use conc_types::{NoMemory, Plan, RequestId};
use std::alloc::Global;

/// The report of a request. Only a request of a program has one.
#[tactic(auto, unfolding(conc_base_law::specs::Alone::report_of))]
pub fn report_for(alloc: Global, plan: &Plan, r: RequestId) -> Result<Option<Made>, NoMemory>
    ensures { IfOk result (λ made. option_map as_report made ≡ reports_spec.report_for plan.now r) }
{
    let Some(request) = plan.request(r) else {
        return Ok(None);
    };
    let Some(program) = program_of(plan, request) else {
        return Ok(None);
    };
    match plan
        .setup
        .table_named(plan.tables.as_slice(), &program.job.table)
    {
        Some(table) => {
            let made = report(alloc, &program.job, request.argument.as_slice(), table)?;
            Ok(Some(made))
        }
        None => Ok(None),
    }
}

/// What a worker leaves that was not told to stop: the report, or that there was no memory for one.
pub(crate) fn posted_as(made: Result<Option<Made>, NoMemory>) -> Posted
    requires { IfOk made IsSome }
    ensures { IsPostedAs made result }
{
    match made {
        Ok(Some(made)) => Posted::Text(made),
        Ok(None) => unreachable!(),
        Err(_) => Posted::NoMemory,
    }
}
