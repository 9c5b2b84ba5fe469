ghost use Rattle.std.specs.Prelude.{◌≡◌, [], Bool, IfOk, List, false, map};
ghost use Rattle.conc_types.specs.declared.script.Order.{Order};
ghost use Rattle.conc_base_law.specs.Facts.{facts_of};
ghost use Rattle.conc_base_law.specs.State as spec;
ghost use Rattle.conc_base_law.specs.State.{state};

use conc_types::{Facts, NoMemory, Order, Plan, Req, Seq, State};
use std::alloc::Global;

fn all_facts(alloc: Global, requests: &[Req]) -> Result<Seq<Facts>, NoMemory>
    ensures { IfOk result (λ all. all ≡ map (λ (r : Req). spec.no_facts) requests.now) }
{
    let mut all = Vec::with_capacity(alloc, requests.len())?;
    for r in requests {
        let _r = r;
        all.push(Facts::NONE)?;
    }
    Ok(Seq::from_vec(all))
}

fn no_flags(alloc: Global, orders: &[Order]) -> Result<Seq<bool>, NoMemory>
    ensures { IfOk result (λ flags. flags ≡ map (λ (order : Order). false) orders.now) }
{
    let mut flags = Vec::with_capacity(alloc, orders.len())?;
    for order in orders {
        let _order = order;
        flags.push(false)?;
    }
    Ok(Seq::from_vec(flags))
}

/// The state after no events. It takes all the memory that `advance` needs.
pub fn begin(alloc: Global, plan: &Plan) -> Result<State, NoMemory>
    ensures { IfOk result (λ s. s ≡ state plan.now []) }
{
    let facts = all_facts(alloc, plan.requests.as_slice())?;
    let done = no_flags(alloc, plan.script.commands.as_slice())?;
    Ok(State {
        empty: true,
        time: None,
        used: Some(0),
        done,
        facts,
    })
}
