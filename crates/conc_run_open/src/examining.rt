ghost use Rattle.std.specs.Prelude.{◌≡◌, IfErr, IfOk, IfSome, None, OnOk, reverse, Some};
ghost use Rattle.conc_journal.specs.Journals.{list_of, room_of, stamps_held, state_of};
ghost use Rattle.conc_base_law.specs.Alone.{opening};
ghost use Rattle.conc_restart.specs.Machines.{plan_of, readings_of, StandsFor};
ghost use Rattle.conc_restart.specs.Need as spec;
ghost use Rattle.conc_journal_spool.specs.Spools.{used_of};
ghost use Rattle.conc_run_state.specs.Causes.{HasCause};
ghost use Rattle.conc_run_state.specs.Handed.{IsUntouched};
ghost use Rattle.conc_run_state.specs.Stores.{ran_over, SameStores};
ghost use Rattle.conc_run_open.specs.Examined.{IsExamined, IsInHand, IsReady, list_found, plan_held};
ghost use Rattle.conc_run_open.specs.Extents.{counted};
ghost use Rattle.conc_run_open.specs.Refusals.{LacksRoom, CannotBegin};

use crate::judging::resume_whole;
use crate::reading::{open_own, open_texts};
use crate::scripts::stamps_due;
use conc_disk::Disk;
use conc_journal::{Journal, Opened};
use conc_journal_image::MOST_RECORDS;
use conc_journal_spool::Spool;
use conc_restart::{Machine, need};
use conc_run_state::{HistoryFail, Input, Stores};
use conc_types::{Event, NoMemory, Plan, Readings};
use std::alloc::Global;

/// What a run has in hand before it writes. The machine stands for the events found with the resume of
/// the life that is to begin; the journal has the events alone, with room for a life.
#[derive(Drop)]
pub struct Examined<'p> {
    pub(crate) input: Input<'p>,
    pub(crate) machine: Machine<'p>,
    pub(crate) journal: Journal,
    pub(crate) spool: Spool,
    // The stamps of the commands found, which a journal of version 1 does not have.
    pub(crate) due: Vec<u64>,
}

impl<'p> Examined<'p> {
    /// The plan of the run.
    pub fn plan(&self) -> &'p Plan
        ensures { result.now ≡ plan_held self.now }
    {
        self.machine.plan()
    }

    /// The events found.
    pub fn events(&self) -> &[Event]
        ensures { result.now ≡ list_found self.now }
    {
        self.journal.events()
    }
}

// Takes room for one more life, where the journal can have as much.
fn make_room(plan: &Plan, readings: &Readings, journal: &mut Journal) -> Result<(), HistoryFail>
    requires { room_of journal.old ≡ 0 }
    ensures room { OnOk result (room_of journal.new ≡ spec.need plan.now readings.now.list) }
    ensures list { list_of journal.new ≡ list_of journal.old }
    ensures stamps { stamps_held journal.new ≡ stamps_held journal.old }
    ensures state { state_of journal.new ≡ state_of journal.old }
    ensures lacks_room { IfErr result (LacksRoom plan.now readings.now.list (list_of journal.old)) }
{
    let len = journal.events().len() as u64;
    let need = need(plan, readings);
    if need > MOST_RECORDS - len {
        return Err(HistoryFail::JournalFull { len, need });
    }
    Ok(journal.reserve(need)?)
}

// Takes into the machine the resume of a life that goes on from events, and then its readings.
fn begin_life(
    alloc: Global,
    machine: &mut Machine,
    readings: &Readings,
    events: &[Event],
) -> Result<(), NoMemory>
    requires { StandsFor machine.old (reverse events.now) }
    ensures plan { plan_of machine.new ≡ plan_of machine.old }
    ensures readings { OnOk result (readings_of machine.new ≡ Some readings.now.list) }
    ensures stands { OnOk result (StandsFor machine.new (reverse (opening events.now))) }
{
    if !events.is_empty() {
        machine.apply(Event::Resume);
    }
    machine.take_readings(alloc, readings)
}

// Judges what was found, where the spool has all extents, and takes the memory of a life.
fn prepare<'p>(
    alloc: Global,
    input: &Input<'p>,
    opened: Opened,
    spool: Spool,
) -> Result<Examined<'p>, HistoryFail>
    requires room { room_of opened.journal ≡ 0 }
    requires spool { used_of spool ≡ counted (list_of opened.journal) }
    ensures input { IfOk result (λ examined. examined.input ≡ input.now) }
    ensures ready { IfOk result (IsReady input.now.plan.now input.now.readings.now.list) }
    ensures list { IfOk result (λ examined. list_of examined.journal ≡ list_of opened.journal) }
    ensures stamps { IfOk result (λ examined. stamps_held examined.journal
        ≡ stamps_held opened.journal) }
    ensures state { IfOk result (λ examined. state_of examined.journal ≡ state_of opened.journal) }
    ensures spool { IfOk result (λ examined. examined.spool ≡ spool) }
    ensures whole { OnOk result (opened.broken ≡ None) }
    ensures cannot_begin { IfErr result
        (CannotBegin input.now.plan.now input.now.readings.now.list (list_of opened.journal) opened.broken) }
{
    let Opened {
        mut journal,
        broken,
        ..
    } = opened;
    let mut machine = resume_whole(alloc, input.plan, journal.events(), broken)?;
    make_room(input.plan, input.readings, &mut journal)?;
    let due = stamps_due(alloc, input.plan, journal.events())?;
    begin_life(alloc, &mut machine, input.readings, journal.events())?;
    Ok(Examined {
        input: *input,
        machine,
        journal,
        spool,
        due,
    })
}

/// Opens and judges what stands on the disks of a run, and takes all memory that its life needs. It
/// writes nothing.
pub fn examine<'p, D: Disk, E: Disk>(
    alloc: Global,
    input: &Input<'p>,
    stores: &mut Stores<'_, D, E>,
) -> Result<Examined<'p>, HistoryFail>
    ensures same { SameStores stores.old stores.new }
    ensures input { IfOk result (λ examined. examined.input ≡ input.now) }
    ensures examined { IfOk result
        (IsExamined (ran_over D.Disk E.Disk input.now stores.old stores.new)) }
    ensures in_hand { IfOk result (λ examined. IsInHand examined
        (D.state stores.new.journal.now) (E.state stores.new.spool.now)) }
    ensures cause { IfErr result
        (HasCause (ran_over D.Disk E.Disk input.now stores.old stores.new)) }
    ensures untouched { IsUntouched (ran_over D.Disk E.Disk input.now stores.old stores.new) }
{
    let opened = open_own(alloc, input.plan, input.digests, stores.journal)?;
    let texts = open_texts(alloc, input.plan, opened.journal.events(), stores.spool)?;
    prepare(alloc, input, opened, texts)
}
