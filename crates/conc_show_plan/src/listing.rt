ghost use Rattle.std.specs.Prelude.{◌≡◌, None, IfErr, IfOk};
ghost use Rattle.conc_show_model.specs.Whys.{IsFailure};
ghost use Rattle.conc_show_plan.specs.Listing.{line_fault_of, listing_fault, sets_of};

use crate::lines::plan_line;
use conc_history_lines::split_line;
use conc_show_model::{ChartFail, ChartFile, ChartWhy};
use conc_types::RequestId;
use std::alloc::Global;

/// Of each request of a plan the request of its set, if it has one, by the listing of the plan.
pub(crate) fn read_sets(alloc: Global, listing: &[u8]) -> Result<Vec<Option<RequestId>>, ChartFail>
    ensures sets { IfOk result (λ sets. sets.items ≡ sets_of listing.now) }
    ensures ok { IfOk result (λ _. line_fault_of listing.now ≡ None) }
    ensures err { IfErr result (IsFailure (listing_fault listing.now)) }
{
    let mut sets = Vec::new(alloc);
    let mut rest = listing;
    while let Some((line, after)) = split_line(rest) {
        let number = sets.len() as u64 + 1;
        let Some(set) = plan_line(number, line) else {
            return Err(ChartFile::Plan.refused(number, ChartWhy::NoPlanLine));
        };
        sets.push(set)?;
        rest = after;
    }
    if !rest.is_empty() {
        let number = sets.len() as u64 + 1;
        return Err(ChartFile::Plan.refused(number, ChartWhy::NoPlanLine));
    }
    Ok(sets)
}
