ghost use Rattle.std.specs.Prelude.{◌≡◌, ◌↔◌, IfErr, IsTrue, List, OnErr, OnOk};
ghost use Rattle.conc_types.specs.declared.event.Event.{Event};
ghost use Rattle.conc_journal.specs.Receipts.{IsNextOf, list_with};
ghost use Rattle.conc_run_state.specs.declared.error.RunFail.TheVariants as run_fail;

use conc_journal::{Receipt, Teller};
use conc_run_state::RunFail;
use std::sync::Wait;

/// Tells a teller of an event that is on the disk. `NoMemory` comes only from a teller that may find none.
pub fn tell<R: Wait, T: Teller>(rt: &R, teller: &mut T, receipt: &Receipt) -> Result<(), RunFail>
    requires { IsNextOf (T.list teller.old) (T.takes teller.old) receipt.now }
    ensures told { OnOk result (T.list teller.new ≡ list_with receipt.now (T.list teller.old)) }
    ensures unchanged { OnErr result (T.list teller.new ≡ T.list teller.old) }
    ensures takes { (events : List Event) → T.takes teller.new events
        ↔ T.takes teller.old events }
    ensures cause { IfErr result (λ fail. fail ≡ run_fail.NoMemory) }
    ensures lacked { OnErr result (IsTrue (T.may_lack teller.new)) }
{
    Ok(teller.tell(rt, receipt)?)
}
