//! A run of two requests that may not run at once, and what a watcher sees of it.
ghost use Rattle.std.specs.Prelude.{◌≡◌, [], IfOk, List};
ghost use Rattle.conc_types.specs.declared.event.Event.{Event as any_event};
ghost use Rattle.conc_edge_devices.specs.Calls.{state_of};
ghost use Rattle.conc_journal.specs.Journals.{IsOn, list_of as journal_list};
ghost use Rattle.conc_base_law.specs.Law.{LawfulSoFar};
ghost use Rattle.conc_machine.specs.StandsFor.{plan_of as machine_plan};
ghost use Rattle.conc_view.specs.Opened.{name_of};
ghost use Rattle.conc_view.specs.Publisher.{list_of, told_plan};
ghost use Rattle.conc_test_view.specs.Follows.{Follows};

use super::telling::tell;
use conc_edge_devices::MemDisk;
use conc_journal::Journal;
use conc_machine::Machine;
use conc_run_watch::{Watchers, put_watch_lines};
use conc_test_worked::plan_from;
use conc_types::{
    Digests, Event, Extent, Moment, Outcome, Phase, PlaceId, Plan, ReadFail, RequestId, Status,
};
use conc_view::{Naming, Opened, Publisher, Snapshot, Told, Watcher, new_view};
use std::alloc::Global;
use std::process::Abort;
use std::sync::Wait;
use std::test::Fail;

// P may not run beside itself.
const SETUP: &[u8] = b"tables = [\"t.csv\"]
program = [{ name = \"P\", table = \"t.csv\", group = \"k\", sum = \"v\" }]
incompatible = [{ program = \"P\", with = \"P\", scope = \"program\", type = \"domain\" }]
manager = [{ name = \"M\" }]
";

const SCRIPT: &[u8] = b"at,do,what,user,priority,start,domain,argument
2025-03-03T09:00:00,submit,P,ann,,,,
2025-03-03T09:00:00,submit,P,ann,,,,
";

const TABLE: &[u8] = b"k,v
a,10
b,20
a,5
";

const ONE: RequestId = RequestId { number: 1 };

const TWO: RequestId = RequestId { number: 2 };

const HERE: PlaceId = PlaceId { index: 0 };

// The ends of both, each with a report of 39 bytes.
const ONE_ENDED: Event = Event::Ended {
    request: ONE,
    outcome: Outcome::Normal,
    extent: Some(Extent {
        offset: 0,
        length: 39,
    }),
};

const TWO_ENDED: Event = Event::Ended {
    request: TWO,
    outcome: Outcome::Normal,
    extent: Some(Extent {
        offset: 39,
        length: 39,
    }),
};

// The events of a run, each with how many requests are pending, running, completed and inactive after it.
const EVENTS: [(Event, [u32; 4]); 9] = [
    (
        Event::Tick {
            moment: Moment {
                seconds: 63_876_589_200,
            },
        },
        [0, 0, 0, 0],
    ),
    (Event::Command { number: 1 }, [1, 0, 0, 0]),
    (Event::Command { number: 2 }, [2, 0, 0, 0]),
    (Event::LetOut { request: ONE }, [2, 0, 0, 0]),
    (
        Event::Started {
            request: ONE,
            place: HERE,
        },
        [1, 1, 0, 0],
    ),
    (ONE_ENDED, [1, 0, 1, 0]),
    (Event::LetOut { request: TWO }, [1, 0, 1, 0]),
    (
        Event::Started {
            request: TWO,
            place: HERE,
        },
        [0, 1, 1, 0],
    ),
    (TWO_ENDED, [0, 0, 2, 0]),
];

// What is seen before the first event, and after the last one.
const NOTHING: Snapshot = Snapshot {
    length: 0,
    counts: [0, 0, 0, 0],
};

const ALL: Snapshot = Snapshot {
    length: 9,
    counts: [0, 0, 2, 0],
};

/// The plan of the two requests.
pub(super) fn plan_of(rt: &impl Abort, alloc: Global) -> Result<Plan, ReadFail> {
    let plan = plan_from(alloc, SETUP, SCRIPT, TABLE)?;
    Ok(plan.expect(rt, "one table"))
}

// Some digests.
fn digests() -> Digests {
    Digests {
        full: [0; 32],
        base: [0; 32],
    }
}

// A journal that is begun on an empty disk, with room for the events.
fn begun(alloc: Global, disk: &mut MemDisk) -> Result<Journal, Fail>
    ensures on { IfOk result (λ journal. IsOn journal (state_of disk.new)) }
    ensures none { IfOk result (λ journal. journal_list journal ≡ []) }
{
    let opened = Journal::open_on(alloc, disk)?;
    if opened.broken.is_some() || opened.label.is_some() {
        return Err("the disk is not empty".into());
    }
    let mut journal = opened.journal;
    journal.begin(disk, &digests())?;
    journal.reserve(EVENTS.len() as u64)?;
    Ok(journal)
}

fn sees<J: Naming, R: Abort>(rt: &R, watcher: &mut Watcher<'_, J>, wanted: Snapshot) {
    assert_eq!(rt; watcher.look(), wanted);
}

// Tells all events. A watcher that is there looks after each.
fn tell_all<'p, J: Naming, R: Wait + Abort>(
    rt: &R,
    publisher: &mut Publisher<'p, J>,
    journal: &mut Journal,
    disk: &mut MemDisk,
    machine: &mut Machine<'p>,
    watcher: &mut Watcher<'_, J>,
    looks: bool,
)
    requires on { IsOn journal.old (state_of disk.old) }
    requires list { list_of publisher.old ≡ journal_list journal.old }
    requires follows { Follows machine.old (journal_list journal.old) }
    requires takes { (events : List any_event) → LawfulSoFar (machine_plan machine.old) events
        → LawfulSoFar (told_plan publisher.old) events }
{
    for i in 0..EVENTS.len() {
        let (event, counts) = EVENTS[i];
        tell(rt, publisher, journal, disk, machine, event);
        if looks {
            let length = i as u64 + 1;
            sees(rt, watcher, Snapshot { length, counts });
        }
    }
}

// What was seen before the end is seen after it, until the whole is learned.
fn learns_all<J: Naming, R: Abort>(
    rt: &R,
    watcher: &mut Watcher<'_, J>,
    told: &mut Told<J>,
    seen: Snapshot,
) {
    sees(rt, watcher, seen);
    watcher.learn(told);
    sees(rt, watcher, ALL);
    assert_eq!(rt;
        watcher.status(TWO),
        Some((Phase::Completed, Status::Normal))
    );
}

// A view of the empty list with one watcher, which is told all events.
fn told_view<'p, J: Naming, R: Wait + Abort>(
    rt: &R,
    alloc: Global,
    opened: Opened,
    plan: &'p Plan,
    looks: bool,
) -> Result<(Publisher<'p, J>, Vec<Watcher<'p, J>>), Fail>
    requires { name_of opened ≡ J.name }
{
    let mut disk = MemDisk::new(alloc, Vec::new(alloc), Vec::new(alloc));
    let mut journal = begun(alloc, &mut disk)?;
    let mut machine = Machine::new(alloc, plan)?;
    let (mut publisher, mut watchers) = new_view::<J, R>(rt, alloc, opened, plan, &[], 1)?;
    tell_all(
        rt,
        &mut publisher,
        &mut journal,
        &mut disk,
        &mut machine,
        &mut watchers[0],
        looks,
    );
    Ok((publisher, watchers))
}

/// Looks after each event: what is seen grows by one.
pub(super) fn looks_after_each<J: Naming, R: Wait + Abort>(
    rt: &R,
    alloc: Global,
    opened: Opened,
    plan: &Plan,
) -> Result<(), Fail>
    requires { name_of opened ≡ J.name }
{
    let (publisher, watchers) = told_view::<J, R>(rt, alloc, opened, plan, true)?;
    let mut told = publisher.close(rt);
    for mut watcher in watchers {
        learns_all(rt, &mut watcher, &mut told, ALL);
    }
    Ok(())
}

// The lines of what each kept that looks at the end alone.
fn last_lines<J: Naming>(
    alloc: Global,
    watchers: Vec<Watcher<'_, J>>,
    told: &mut Told<J>,
) -> Result<Vec<u8>, Fail> {
    let kept = Watchers::new(alloc, watchers)?.finish(told);
    let mut text = Vec::new(alloc);
    put_watch_lines(&mut text, &kept)?;
    Ok(text)
}

/// Looks at the end alone: nothing is seen before it, and all is kept after it.
pub(super) fn last_look_alone<J: Naming, R: Wait + Abort>(
    rt: &R,
    alloc: Global,
    opened: Opened,
    plan: &Plan,
) -> Result<(), Fail>
    requires { name_of opened ≡ J.name }
{
    let (publisher, mut watchers) = told_view::<J, R>(rt, alloc, opened, plan, false)?;
    let mut told = publisher.close(rt);
    for watcher in &mut watchers {
        sees(rt, watcher, NOTHING);
    }
    let lines = last_lines(alloc, watchers, &mut told)?;
    assert_eq!(rt; lines.as_slice(), b"watch 1 9 0 0 2 0\n".as_slice());
    Ok(())
}
