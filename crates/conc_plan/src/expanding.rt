ghost use Rattle.std.specs.Prelude.{◌≡◌, ◌≤◌, length, IfErr, IfOk, None};
ghost use Rattle.conc_types.specs.Expansion.{expansion, parts_by};
ghost use Rattle.conc_types.specs.Faults.{first_fault, IsFailure};
ghost use Rattle.conc_types.specs.declared.refusal.FileKind.TheVariants as file;
ghost use Rattle.conc_plan.specs.Faults.{record_kind};

use crate::entering::enter;
use conc_types::{Act, FileKind, Order, ReadFail, RefusalKind, Req, Setup};
use std::alloc::Global;

const MOST_REQUESTS: usize = 16384;

// How many requests the command enters.
fn entered_count(setup: &Setup, order: &Order) -> usize
    ensures count { result ≡ length (parts_by setup.now order.now.act) }
    ensures few { result ≤ 4097 }
{
    match &order.act {
        Act::Submit { item, .. } => setup.request_count(*item) as usize,
        _ => 0,
    }
}

/// The requests that these commands enter. They are refused at the record of the first command with
/// which there are more than 16,384; the first command stands in record 2.
pub fn expand(alloc: Global, setup: &Setup, orders: &[Order]) -> Result<Vec<Req>, ReadFail>
    requires { length orders.now ≤ 4096 }
    ensures ok { IfOk result (λ requests. requests.items ≡ expansion setup.now orders.now) }
    ensures few { IfOk result (λ requests. length requests.items ≤ 16384) }
    ensures faultless { IfOk result (λ _. first_fault (record_kind setup.now orders.now) 2
        (length orders.now) ≡ None) }
    ensures err { IfErr result (IsFailure file.Script
        (first_fault (record_kind setup.now orders.now) 2 (length orders.now))) }
{
    let mut requests = Vec::new(alloc);
    let mut command = 1;
    for order in orders {
        if requests.len() + entered_count(setup, order) > MOST_REQUESTS {
            return Err(ReadFail::refused(
                FileKind::Script,
                u64::from(command) + 1,
                RefusalKind::TooManyRequests,
            ));
        }
        enter(alloc, setup, command, order, &mut requests)?;
        command += 1;
    }
    Ok(requests)
}
