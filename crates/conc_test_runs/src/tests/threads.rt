use super::call::{Given, NO_CRASHES, NO_FAILS, call_through};
use conc_edge_gate::PairGate;
use conc_types::RequestId;
use std::alloc::Global;
use std::process::Abort;
use std::sync::Wait;
use std::test::Fail;
use std::thread::Threads;

// Runs with workers in threads. What they may do in either order is left open.
pub(crate) const THREADS: &str = r#"a run without a word of threads has 4
== setup
tables = ["t.csv"]
program = [{ name = "P", table = "t.csv", group = "k", sum = "v" }]
manager = [{ name = "M" }]
== script
2025-03-03T09:00:00,submit,P,ann,,,,
== call run a.toml a.csv a.clock
== ends 0
== prints
tick 2025-03-03T09:00:00
do 1
let 1
start 1 1.1
end 1 Normal 0 39
--
1 Completed Normal P
== spool-text
key,count,sum
a,2,15
b,1,20
total,3,35
=====
a request that is let while its place is closed starts after the reading that opens it
== setup
tables = ["t.csv"]
program = [{ name = "P", table = "t.csv", group = "k", sum = "v" }]
manager = [{ name = "M", shift = [{ from = "10:00", to = "24:00", places = 1 }] }]
== script
2025-03-03T09:00:00,submit,P,ann,,,,
== clock
2025-03-03T09:00:00
2025-03-03T10:00:00
== call run a.toml a.csv a.clock --threads 4
== ends 0
== prints
tick 2025-03-03T09:00:00
do 1
let 1
tick 2025-03-03T10:00:00
start 1 1.1
end 1 Normal 0 39
--
1 Completed Normal P
=====
a reading that need not wait closes the places where claims may wait: what did not start then starts the next day
== setup
tables = ["t.csv"]
program = [{ name = "P", table = "t.csv", group = "k", sum = "v" }]
manager = [{ name = "M", shift = [{ from = "09:00", to = "17:00", places = 4 }] }]
== script
2025-03-03T09:00:00,submit,P,ann,,,,
2025-03-03T09:00:00,submit,P,ann,,,,
2025-03-03T09:00:00,submit,P,ann,,,,
2025-03-03T09:00:00,submit,P,ann,,,,
2025-03-03T09:00:00,submit,P,ann,,,,
2025-03-03T09:00:00,submit,P,ann,,,,
== clock
2025-03-03T09:00:00
2025-03-03T17:00:00 !
2025-03-04T09:00:00
== call run a.toml a.csv a.clock --threads 4
== ends 0
== judged
lawful 27 finished
== prints-lines 34
=====
a hold takes a request back that a worker may claim, and the worker goes on with another one
== setup
tables = ["t.csv"]
program = [{ name = "P", table = "t.csv", group = "k", sum = "v" }]
manager = [{ name = "M", shift = [{ from = "10:00", to = "24:00", places = 1 }] }]
== script
2025-03-03T09:00:00,submit,P,ann,1,,,
2025-03-03T09:00:00,submit,P,ann,2,,,
2025-03-03T10:00:00,hold,1,,,,,
== clock
2025-03-03T09:00:00
2025-03-03T10:00:00
== call run a.toml a.csv a.clock --threads 2
== ends 0
== prints
tick 2025-03-03T09:00:00
do 1
do 2
let 1
let 2
tick 2025-03-03T10:00:00
do 3
start 2 1.1
end 2 Normal 0 39
--
1 Inactive On Hold P
2 Completed Normal P
"#;

// A run with COUNT threads, whose table and texts are the same for each COUNT.
pub(crate) const ANY_THREADS: &str =
    r#"a program that excludes itself has its requests run one after the other, at any of 4 places, and COUNT threads
== setup
tables = ["t.csv"]
program = [{ name = "P", table = "t.csv", group = "k", sum = "v" }]
incompatible = [{ program = "P", with = "P" }]
manager = [{ name = "M", shift = [{ places = 4 }] }]
== script
2025-03-03T09:00:00,submit,P,ann,,,,
2025-03-03T09:00:00,submit,P,ann,,,,
== call run a.toml a.csv a.clock --threads COUNT
== ends 0
== prints
tick 2025-03-03T09:00:00
do 1
do 2
let 1
start 1 1.*
end 1 Normal 0 39
let 2
start 2 1.*
end 2 Normal 39 39
--
1 Completed Normal P
2 Completed Normal P
== judged
lawful 9 finished
== spool-text
key,count,sum
a,2,15
b,1,20
total,3,35
key,count,sum
a,2,15
b,1,20
total,3,35
"#;

// A manager with 2 places, and 2 requests that may run beside each other.
const TWO: Given<'static> = Given {
    words: "run a.toml a.csv a.clock --threads 2",
    setup: r#"tables = ["t.csv"]
program = [{ name = "P", table = "t.csv", group = "k", sum = "v" }]
manager = [{ name = "M", shift = [{ places = 2 }] }]
"#,
    records: "2025-03-03T09:00:00,submit,P,ann,,,,\n2025-03-03T09:00:00,submit,P,ann,,,,\n",
    has_header: true,
    clock_file: "a.clock",
    clock: "2025-03-03T09:00:00\n",
    table: "k,v\na,10\nb,20\na,5\n",
    history: None,
    has_moment: false,
    fails: NO_FAILS,
    crashes: NO_CRASHES,
};

// How often a worker at the gate yields its thread before it goes on without the other one.
const TURNS: u64 = 20_000_000;

// Each of two requests is held at the gate, before its report, until the other one has come.
pub(crate) fn check_two_at_once<Rt: Abort + Threads + Wait + Sync>(
    rt: &Rt,
    alloc: Global,
) -> Result<(), Fail> {
    let gate = PairGate::new(RequestId { number: 1 }, RequestId { number: 2 }, TURNS);
    let ended = call_through(rt, alloc, TWO, &[], &[], &gate)?;
    assert_eq!(rt; ended.number, 0);
    assert!(rt; gate.held_both(), "the two requests did not run at once");
    assert!(rt;
        ended
            .text
            .ends_with(b"--\n1 Completed Normal P\n2 Completed Normal P\n")
    );
    Ok(())
}
