//! Events that are added to a journal and told to a view.
ghost use Rattle.std.specs.Prelude.{◌≡◌, List};
ghost use Rattle.conc_types.specs.declared.event.Event.{Event as any_event};
ghost use Rattle.conc_edge_devices.specs.Calls.{state_of};
ghost use Rattle.conc_journal.specs.Journals.{IsOn, list_of as journal_list};
ghost use Rattle.conc_base_law.specs.Law.{LawfulSoFar};
ghost use Rattle.conc_machine.specs.StandsFor.{plan_of as machine_plan};
ghost use Rattle.conc_view.specs.Publisher.{list_of, told_plan};
ghost use Rattle.conc_test_view.specs.Follows.{Follows};

use conc_edge_devices::MemDisk;
use conc_journal::{Journal, Teller};
use conc_journal_image::has_record;
use conc_machine::Machine;
use conc_types::Event;
use conc_view::{Naming, Publisher};
use std::process::Abort;
use std::sync::Wait;

/// Adds an event, which has to be lawful, to the journal, and tells it.
pub(super) fn tell<'p, J: Naming, R: Wait + Abort>(
    rt: &R,
    publisher: &mut Publisher<'p, J>,
    journal: &mut Journal,
    disk: &mut MemDisk,
    machine: &mut Machine<'p>,
    event: Event,
)
    requires on { IsOn journal.old (state_of disk.old) }
    requires list { list_of publisher.old ≡ journal_list journal.old }
    requires follows { Follows machine.old (journal_list journal.old) }
    requires takes { (events : List any_event) → LawfulSoFar (machine_plan machine.old) events
        → LawfulSoFar (told_plan publisher.old) events }
    ensures on { IsOn journal.new (state_of disk.new) }
    ensures list { list_of publisher.new ≡ journal_list journal.new }
    ensures follows { Follows machine.new (journal_list journal.new) }
    ensures takes { (events : List any_event) → LawfulSoFar (machine_plan machine.new) events
        → LawfulSoFar (told_plan publisher.new) events }
{
    if !journal.takes_events() || journal.room() == 0 || !has_record(&event) {
        panic!(rt; "the journal does not take the event");
    }
    if !machine.judge(&event) {
        panic!(rt; "the event is not lawful");
    }
    let Ok(receipt) = journal.append(disk, event, 0) else {
        panic!(rt; "the disk failed");
    };
    machine.apply(event);
    let Ok(()) = publisher.tell(rt, &receipt) else {
        panic!(rt; "there is no memory");
    };
}
