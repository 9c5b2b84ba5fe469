ghost use Rattle.std.specs.Prelude.{◌≡◌, ◌≤◌, [], IfOk, IfSome, IsTrue, length};
ghost use Rattle.std.specs.List.{All};
ghost use Rattle.conc_types.specs.Words.{is_between};
ghost use Rattle.conc_journal_image.specs.declared.layout.TheConstants.{MOST_RECORDS};
ghost use Rattle.conc_base_law.specs.Law.{LawfulSoFar};
ghost use Rattle.conc_view.specs.Line.{shown};
ghost use Rattle.conc_view.specs.Opened.{name_of};
ghost use Rattle.conc_view.specs.Publisher.{list_of, told_plan};
ghost use Rattle.conc_view.specs.Views.{Counts, HasSeen};

use crate::book::{Book, Reached};
use crate::bounds::Counter;
use crate::line::Line;
use crate::naming::Naming;
use crate::opened::Opened;
use crate::publisher::{Publisher, Publishing};
use crate::store::{Entry, Store};
use crate::watcher::Watcher;
use conc_restart::resume;
use conc_types::{Event, NoMemory, Plan};
use std::alloc::Global;
use std::sync::Wait;

// The list of some events, which are added to the book. None where the book has events already.
fn told<J: Naming>(book: &Book<J>, none: Reached<J>, events: &[Event]) -> Option<Reached<J>>
    requires few { length events.now ≤ MOST_RECORDS }
    requires none { none ≡ [] }
    ensures { IfSome result (λ reached. reached ≡ events.now) }
{
    let mut reached = none;
    for event in events {
        reached = reached.with(book, *event)?;
    }
    Some(reached)
}

// So many watchers, each of which has seen what a line shows.
fn seats<'p, J: Naming>(
    alloc: Global,
    plan: &'p Plan,
    events: &[Event],
    line: &Line<Store<J>, Entry<J>>,
    counter: &mut Counter<J>,
    watchers: u32,
) -> Result<Vec<Watcher<'p, J>>, NoMemory>
    requires shown { (shown line.now).reached ≡ events.now }
    requires counted { Counts counter.old events.now }
    ensures counter { counter.new ≡ counter.old }
    ensures count { IfOk result (λ seated. length seated.items ≡ watchers) }
    ensures seen { IfOk result (λ seated. All (HasSeen plan.now events.now) seated.items) }
{
    let mut seated = Vec::with_capacity(alloc, watchers as usize)?;
    for _place in 0..watchers {
        let Ok(machine) = resume(alloc, plan, events) else {
            return Err(NoMemory);
        };
        let reader = line.reader()?;
        let bound = counter.bound()?;
        let reached = line.shown().reached.again();
        seated.push(Watcher::over(machine, reached, bound, reader))?;
    }
    Ok(seated)
}

/// Begins a view of some events of a plan, with so many watchers, each of which has seen these events.
/// The name is that of what it begins with. It takes all the memory that the watchers need, and room
/// for as many events as a journal has at most.
pub fn new_view<'p, J: Naming, R: Wait>(
    rt: &R,
    alloc: Global,
    opened: Opened,
    plan: &'p Plan,
    events: &[Event],
    watchers: u32,
) -> Result<(Publisher<'p, J>, Vec<Watcher<'p, J>>), NoMemory>
    requires named { name_of opened ≡ J.name }
    requires lawful { LawfulSoFar plan.now events.now }
    requires few { length events.now ≤ MOST_RECORDS }
    requires watchers { IsTrue (is_between 1 8 watchers) }

    ensures list { IfOk result (λ view. list_of view.0 ≡ events.now) }
    ensures plan { IfOk result (λ view. told_plan view.0 ≡ plan.now) }
    ensures count { IfOk result (λ view. length view.1.items ≡ watchers) }
    ensures seen { IfOk result (λ view. All (HasSeen plan.now events.now) view.1.items) }
{
    let (book, none, mut counter) = opened.named::<J>();
    let reached = told(&book, none, events).ok_or(NoMemory)?;
    let first = Store::of(alloc, events, reached.again())?;
    let second = Store::of(alloc, events, reached)?;
    let line = Line::new(alloc, first, second, watchers)?;
    counter.raise(events.len() as u64);
    match seats(alloc, plan, events, &line, &mut counter, watchers) {
        Ok(seated) => Ok((Publishing::over(plan, book, line, counter), seated)),
        Err(NoMemory) => {
            drop(line.take(rt));
            Err(NoMemory)
        }
    }
}
