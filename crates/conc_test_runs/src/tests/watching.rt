//! What a history tells of the lines of watchers behind it.

use conc_types::read_decimal;

// A watcher keeps so many looks at most.
const MOST_LOOKS: u64 = 64;

// A look of a watcher: how many events it saw, and how many requests were in each phase after them.
#[derive(Clone, Copy)]
struct Look {
    watcher: u64,
    length: u64,
    pending: u64,
    running: u64,
    completed: u64,
    inactive: u64,
}

impl Look {
    // How many requests were submitted.
    fn requests(self) -> u64 {
        self.pending
            .saturating_add(self.running)
            .saturating_add(self.completed)
            .saturating_add(self.inactive)
    }
}

// The look that the words behind `watch` tell.
fn look_of(line: &str) -> Option<Look> {
    let mut numbers = [0; 6];
    let mut words = line.split(' ');
    for number in &mut numbers {
        *number = read_decimal(words.next()?.as_bytes())?;
    }
    if words.next().is_some() {
        return None;
    }
    let [watcher, length, pending, running, completed, inactive] = numbers;
    Some(Look {
        watcher,
        length,
        pending,
        running,
        completed,
        inactive,
    })
}

// How many requests run after so many first events: those that were started or opened, and neither ended,
// closed nor interrupted.
fn running_after(events: &str, length: u64) -> u64 {
    let mut running = 0u64;
    for event in events.lines().take(length as usize) {
        let (word, _) = event.split_once(' ').unwrap_or((event, ""));
        match word {
            "start" | "open" => running = running.saturating_add(1),
            "end" | "close" | "interrupt" => running = running.saturating_sub(1),
            _ => {}
        }
    }
    running
}

// How many requests of a table are in this phase.
fn in_phase(table: &str, phase: &str) -> u64 {
    let mut count = 0u64;
    for line in table.lines() {
        if let Some((_, rest)) = line.split_once(' ') {
            if rest.starts_with(phase) {
                count = count.saturating_add(1);
            }
        }
    }
    count
}

// The events of a history, and how many they are and how many requests its table has in each phase. This end is that
// of a watcher 0, behind which the lines of watcher 1 begin.
#[derive(Clone, Copy)]
struct History<'a> {
    events: &'a str,
    end: Look,
}

impl<'a> History<'a> {
    fn of(events: &'a str, table: &str) -> Self {
        History {
            events,
            end: Look {
                watcher: 0,
                length: events.lines().count() as u64,
                pending: in_phase(table, "Pending "),
                running: in_phase(table, "Running "),
                completed: in_phase(table, "Completed "),
                inactive: in_phase(table, "Inactive "),
            },
        }
    }

    // Whether so many requests may be in each phase after so many first events. After all events they are as
    // the table has them.
    fn allows(self, look: Look) -> bool {
        let end = self.end;
        let whole = look.pending == end.pending
            && look.completed == end.completed
            && look.inactive == end.inactive;
        look.length <= end.length
            && look.running == running_after(self.events, look.length)
            && look.completed <= end.completed
            && look.requests() <= end.requests()
            && (look.length < end.length || whole)
    }

    // Whether a look may stand behind another one: it is a later one of the same watcher, or the first one of
    // the next, where the other one saw all events.
    fn follows(self, last: Look, look: Look) -> bool {
        if look.watcher == last.watcher {
            look.length > last.length
                && look.completed >= last.completed
                && look.requests() >= last.requests()
        } else {
            last.length == self.end.length && look.watcher == last.watcher.saturating_add(1)
        }
    }

    fn has_looks(self, lines: &str, watchers: u64) -> bool {
        let mut last = self.end;
        let mut kept = 0u64;
        for line in lines.split("\nwatch ") {
            let Some(look) = look_of(line) else {
                return false;
            };
            kept = if look.watcher == last.watcher {
                kept.saturating_add(1)
            } else {
                1
            };
            if kept > MOST_LOOKS || !self.follows(last, look) || !self.allows(look) {
                return false;
            }
            last = look;
        }
        last.watcher == watchers && last.length == self.end.length
    }
}

/// Whether this is the text of a history, and behind it lines of so many watchers that may be right: those of each
/// watcher have rising lengths, of which the last one is the number of events; so many requests run as the events
/// say, and at the end as many are in each phase as the table has there.
pub(crate) fn is_watched(text: &str, watchers: u64) -> bool {
    let Some((history, behind)) = text.split_once("\nwatch ") else {
        return watchers == 0;
    };
    let Some((events, table)) = history.split_once("--") else {
        return false;
    };
    match behind.strip_suffix('\n') {
        Some(lines) => History::of(events, table).has_looks(lines, watchers),
        None => false,
    }
}

// Runs with watchers. How often one looks is left open.
pub(crate) const WATCHED: &str =
    r#"a script without a command: a watcher sees the one event, and maybe before that none
== call run a.toml a.csv a.clock --threads 0 --watch 1
== ends 0
== watched 1
tick 2025-03-03T09:00:00
--
== judged
lawful 1 finished
=====
the watchers of a run on threads see it to its end, and those of the next run begin with what it left
== script
2025-03-03T09:00:00,submit,P,ann,,,,
2025-03-03T09:00:00,submit,P,ann,,,,
== call run a.toml a.csv a.clock --watch=8
== ends 0
== watched 8
tick 2025-03-03T09:00:00
do 1
do 2
let 1
start 1 1.1
end 1 Normal 0 39
let 2
start 2 1.1
end 2 Normal 39 39
--
1 Completed Normal P
2 Completed Normal P
== judged
lawful 9 finished
== call run --watch 2 a.toml a.csv a.clock --threads=0
== ends 0
== watched 2
tick 2025-03-03T09:00:00
do 1
do 2
let 1
start 1 1.1
end 1 Normal 0 39
let 2
start 2 1.1
end 2 Normal 39 39
resume
tick 2025-03-03T09:00:00
--
1 Completed Normal P
2 Completed Normal P
== judged
lawful 11 finished
== call run a.toml a.csv a.clock --watch 9
== ends 2
usage: conc run|plan|check|status|output|make
== disks-stay
"#;
