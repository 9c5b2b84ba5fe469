ghost use Rattle.std.specs.Prelude.{◌≡◌, [], ◌∷◌, IfOk};

use super::expect::{same, same_at};
use conc_history_lines::{Lines, read_history, starts_of};
use conc_types::{
    Event, Extent, Manager, Moment, Name, NoMemory, Outcome, PlaceId, Plan, RequestId, Script, Seq,
    Setup, is_name,
};
use std::alloc::Global;
use std::process::Abort;
use std::test::Fail;

// Manager 1 has two places, and manager 2 has one.
const STARTS: [u32; 3] = [0, 2, 3];

// 2025-03-03T09:00:00
const NINE: Moment = Moment {
    seconds: 63_876_589_200,
};

fn id(number: u32) -> RequestId {
    RequestId { number }
}

fn opened(number: u32) -> Event {
    Event::OpenSet { set: id(number) }
}

fn staged(number: u32, stage: u32) -> Event {
    Event::Stage {
        set: id(number),
        stage,
    }
}

fn started(number: u32, index: u32) -> Event {
    Event::Started {
        request: id(number),
        place: PlaceId { index },
    }
}

fn ended(number: u32, outcome: Outcome, extent: Option<(u64, u32)>) -> Event {
    Event::Ended {
        request: id(number),
        outcome,
        extent: extent.map(|(offset, length)| Extent { offset, length }),
    }
}

fn closed(number: u32, outcome: Outcome) -> Event {
    Event::CloseSet {
        set: id(number),
        outcome,
    }
}

// What is read of a history of this one line and no table.
fn read_line(alloc: Global, line: &str) -> Result<Lines, Fail> {
    let text = format!(in alloc; "{line}\n--\n")?;
    Ok(read_history(alloc, text.as_bytes(), &STARTS)?)
}

#[test]
fn reads_event_lines(rt: HostRuntime) -> Result<(), Fail> {
    for (line, event) in [
        ("tick 2025-03-03T09:00:00", Event::Tick { moment: NINE }),
        ("do 1", Event::Command { number: 1 }),
        ("do 0", Event::Command { number: 0 }),
        ("open 4294967295", opened(4_294_967_295)),
        ("stage 1 2", staged(1, 2)),
        ("close 1 Normal", closed(1, Outcome::Normal)),
        ("close 1 Warning", closed(1, Outcome::Warning)),
        ("close 1 Error", closed(1, Outcome::Error)),
        ("let 5", Event::LetOut { request: id(5) }),
        ("start 1 1.1", started(1, 0)),
        ("start 1 1.2", started(1, 1)),
        ("start 2 2.1", started(2, 2)),
        (
            "end 1 Normal 0 39",
            ended(1, Outcome::Normal, Some((0, 39))),
        ),
        (
            "end 1 Warning 39 0",
            ended(1, Outcome::Warning, Some((39, 0))),
        ),
        (
            "end 1 Error 18446744073709551615 4294967295",
            ended(1, Outcome::Error, Some((u64::MAX, u32::MAX))),
        ),
        ("end 1 Terminated", ended(1, Outcome::Terminated, None)),
        ("resume", Event::Resume),
        ("interrupt 3", Event::Interrupt { request: id(3) }),
    ] {
        let lines = read_line(rt.alloc(), line)?;
        same_at(&rt, lines.events.as_slice(), [event].as_slice(), line);
        same_at(&rt, lines.bad, None, line);
    }
    Ok(())
}

// Lines that tell no event.
const OTHERS: &str = concat!(
    "\n",
    "do\n",
    "do \n",
    "do  1\n",
    " do 1\n",
    "do 1 \n",
    "do\t1\n",
    "do 1\r\n",
    "do 1 2\n",
    "do 01\n",
    "do +1\n",
    "do -1\n",
    "do 4294967296\n",
    "Do 1\n",
    "resume \n",
    "resume 1\n",
    "tick 2025-02-30T09:00:00\n",
    "tick 2025-03-03T09:00:00 !\n",
    "stage 1\n",
    "stage 1 0\n",
    "close 1\n",
    "close 1 Terminated\n",
    "start 1 1.0\n",
    "start 1 0.1\n",
    "start 1 1.3\n",
    "start 1 2.2\n",
    "start 1 3.1\n",
    "start 1 1\n",
    "start 1 1.1.1\n",
    "start 1 1.01\n",
    "start 1 18446744073709551615.1\n",
    "start 1 1.18446744073709551615\n",
    "end 1\n",
    "end 1 Normal\n",
    "end 1 Normal 0\n",
    "end 1 normal 0 1\n",
    "end 1 Cancelled 0 1\n",
    "end 1 Terminated 0 1\n",
    "end 1 Normal 0 1 2\n",
    "end 1 Normal 0 4294967296\n",
    "end 1 Normal 18446744073709551616 1",
);

// How many events are read of a history of this one line, and which line is bad.
fn found_of(alloc: Global, line: &str) -> Result<(usize, Option<u64>), Fail> {
    let lines = read_line(alloc, line)?;
    Ok((lines.events.len(), lines.bad))
}

#[test]
fn refuses_other_lines(rt: HostRuntime) -> Result<(), Fail> {
    for line in OTHERS.split('\n') {
        same_at(&rt, found_of(rt.alloc(), line)?, (0, Some(1)), line);
    }
    Ok(())
}

fn check(rt: &impl Abort, lines: &Lines, events: usize, bad: Option<u64>, next: usize) {
    same(rt, lines.events.len(), events);
    same(rt, lines.bad, bad);
    same(rt, lines.next, next);
}

// Texts of histories, how many events are read, the first line that is bad, and where the rest begins.
static TEXTS: [(&str, usize, Option<u64>, usize); 12] = [
    ("--\n", 0, None, 3),
    ("do 1\nlet 1\n--\n1 Pending Normal P\n", 2, None, 14),
    ("do 1\n--\n--\nx", 1, None, 8),
    ("", 0, Some(1), 0),
    ("do 1", 0, Some(1), 4),
    ("do 1\n", 1, Some(2), 5),
    ("do 1\nlet 1", 1, Some(2), 10),
    ("do 1\n--", 1, Some(2), 7),
    ("do 1\n-- \n", 1, Some(2), 9),
    ("do 1\n\n--\n", 1, Some(2), 9),
    ("do 1\nx\nlet 1\n--\nx", 1, Some(2), 16),
    ("do 1\r\n--\n", 0, Some(1), 9),
];

#[test]
fn reads_texts(rt: HostRuntime) -> Result<(), Fail> {
    for (text, events, bad, next) in TEXTS {
        let lines = read_history(rt.alloc(), text.as_bytes(), &STARTS)?;
        check(&rt, &lines, events, bad, next);
    }
    Ok(())
}

#[test]
fn reads_a_worked_history(rt: HostRuntime) -> Result<(), Fail> {
    let text =
        b"tick 2025-03-03T09:00:00\ndo 1\nlet 1\nstart 1 1.1\nend 1 Normal 0 39\n--\n1 Completed Normal P\n";
    let lines = read_history(rt.alloc(), text.as_slice(), &[0, 1])?;
    check(&rt, &lines, 5, None, 69);
    let events = lines.events.as_slice();
    same(
        &rt,
        events.get(2).copied(),
        Some(Event::LetOut { request: id(1) }),
    );
    same(
        &rt,
        events.last().copied(),
        Some(ended(1, Outcome::Normal, Some((0, 39)))),
    );
    Ok(())
}

fn none<T>(alloc: Global) -> Seq<T>
    ensures { result ≡ [] }
{
    Seq::from_vec(Vec::new(alloc))
}

fn one<T: Drop>(alloc: Global, item: T) -> Result<Seq<T>, NoMemory>
    ensures { IfOk result (λ items. items ≡ item ∷ []) }
{
    let mut items = Vec::new(alloc);
    items.push(item)?;
    Ok(Seq::from_vec(items))
}

// A manager without a rule and without a shift.
fn manager(rt: &impl Abort, alloc: Global) -> Result<Manager, NoMemory>
    ensures include { IfOk result (λ manager. manager.include ≡ []) }
    ensures exclude { IfOk result (λ manager. manager.exclude ≡ []) }
    ensures shifts { IfOk result (λ manager. manager.shifts ≡ []) }
{
    let name = b"a".to_vec(alloc)?;
    assert!(rt; is_name(name.as_slice()));
    Ok(Manager {
        name: Name::from_vec(name),
        include: none(alloc),
        exclude: none(alloc),
        shifts: none(alloc),
    })
}

fn setup(rt: &impl Abort, alloc: Global) -> Result<Setup, NoMemory>
    ensures tables { IfOk result (λ setup. setup.tables ≡ []) }
    ensures programs { IfOk result (λ setup. setup.programs ≡ []) }
{
    Ok(Setup {
        tables: none(alloc),
        programs: none(alloc),
        entries: none(alloc),
        managers: one(alloc, manager(rt, alloc)?)?,
        sets: none(alloc),
    })
}

fn plan(rt: &impl Abort, alloc: Global) -> Result<Plan, NoMemory> {
    Ok(Plan {
        setup: setup(rt, alloc)?,
        script: Script {
            commands: none(alloc),
        },
        tables: none(alloc),
        requests: none(alloc),
        stamps: none(alloc),
    })
}

#[test]
fn makes_the_table_of_places(rt: HostRuntime) -> Result<(), Fail> {
    let starts = starts_of(rt.alloc(), &plan(&rt, rt.alloc())?)?;
    same(&rt, starts.as_slice(), [0, 1].as_slice());
    Ok(())
}
