ghost use Rattle.std.specs.Prelude.{◌≡◌, IfOk, map};
ghost use Rattle.conc_base_law.specs.Next as spec;
ghost use Rattle.conc_history_check.specs.Prepared.{IsPrepared};

use conc_event_classes::Classes;
use conc_event_reach::Spans;
use conc_history_replay::Entries;
use conc_rules::can_run;
use conc_types::{NoMemory, Plan, Req, Seq};
use std::alloc::Global;

/// What of a plan alone is used at each position.
#[derive(Drop)]
pub(crate) struct Prepared {
    /// Where the requests of each command and the members of each set stand.
    pub spans: Spans,
    /// What the commands enter that do no more.
    pub entries: Entries,
    pub classes: Classes,
    /// For each request whether it is a set, or of an enabled program and admitted by some manager.
    pub runnable: Seq<bool>,
}

fn all_runnable(alloc: Global, plan: &Plan) -> Result<Seq<bool>, NoMemory>
    ensures { IfOk result (λ all. all ≡ map (spec.can_run plan.now) plan.now.requests) }
{
    let mut all = Vec::with_capacity(alloc, plan.requests.len())?;
    for r in plan.requests.as_slice() {
        all.push(can_run(plan, r))?;
    }
    Ok(Seq::from_vec(all))
}

impl Prepared {
    pub fn new(alloc: Global, plan: &Plan) -> Result<Prepared, NoMemory>
        ensures { IfOk result (IsPrepared plan.now) }
    {
        let spans = Spans::new(alloc, plan)?;
        Ok(Prepared {
            entries: Entries::new(alloc, plan, &spans)?,
            spans,
            classes: Classes::new(alloc, plan)?,
            runnable: all_runnable(alloc, plan)?,
        })
    }
}
