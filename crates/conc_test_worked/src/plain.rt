/// One or two programs and a manager.
pub const PLAIN: &str = r#"a script without a command
== setup
tables = ["t.csv"]
program = [{ name = "P", table = "t.csv", group = "k", sum = "v" }]
manager = [{ name = "M" }]
== script
== clock
2025-03-03T09:00:00
== table
k,v
a,10
b,20
a,5
== history
tick 2025-03-03T09:00:00
--
== lawful 1 finished
# A list without an event is lawful, and its reading is left.
1 | tick 2025-03-03T09:00:00 |  | lawful 0 unfinished
# A tick is at the next reading, and there is no further one.
1 | tick 2025-03-03T09:00:00 | tick 2025-03-03T09:00:01 | not lawful: 1
2 |  | tick 2025-03-03T09:00:00 | not lawful: 2
# A resume does not stand first.
1 | tick 2025-03-03T09:00:00 | resume | not lawful: 1
# The script has no command.
2 |  | do 1 | not lawful: 2
# The line -- is not left out, and ends with LF.
1 | ... |  | not lawful: 1
2 | -- |  | not lawful: 2
2 | -- | --! | not lawful: 2
# What follows the table is not looked at.
3 |  | do 1; --; watch! | lawful 1 finished
=====
a program that excludes itself has its requests run one after the other
== setup
tables = ["t.csv"]
program = [{ name = "P", table = "t.csv", group = "k", sum = "v" }]
incompatible = [{ program = "P", with = "P", scope = "program", type = "domain" }]
manager = [{ name = "M" }]
== script
2025-03-03T09:00:00,submit,P,ann,,,,
2025-03-03T09:00:00,submit,P,ann,,,,
== clock
2025-03-03T09:00:00
== table
k,v
a,10
b,20
a,5
== history
tick 2025-03-03T09:00:00
do 1
do 2
let 1
start 1 1.1
end 1 Normal 0 39
let 2
start 2 1.1
end 2 Normal 39 39
--
1 Completed Normal P
2 Completed Normal P
== lawful 9 finished
# Commands are done in their order, each of them once, and before all else.
2 | do 1; do 2 | do 2; do 1 | not lawful: 2
2 | do 1 |  | not lawful: 2
3 | do 2 | do 1 | not lawful: 3
3 | do 2 |  | not lawful: 3
4 |  | do 2 | not lawful: 4
# The second is not let while the first is live.
5 |  | let 2 | not lawful: 5
6 | end 1 Normal 0 39; let 2 | let 2; end 1 Normal 0 39 | not lawful: 6
# What is let is not let again, and nor is what is completed.
5 |  | let 1 | not lawful: 5
7 | let 2 | let 1 | not lawful: 7
# What starts is let and does not run, and starts at a place of the manager.
5 | start 1 1.1 | start 2 1.1 | not lawful: 5
5 | start 1 1.1 | start 3 1.1 | not lawful: 5
5 | start 1 1.1 | start 1 1.2 | not lawful: 5
6 |  | start 1 1.1 | not lawful: 6
7 | let 2; start 2 1.1 | start 2 1.1; let 2 | not lawful: 7
# What ends runs, and ends once.
5 | start 1 1.1 |  | not lawful: 5
6 | end 1 Normal 0 39 | end 2 Normal 0 39 | not lawful: 6
6 | end 1 Normal 0 39 |  | not lawful: 6
7 |  | end 1 Normal 39 39 | not lawful: 7
# An offset is the sum of the lengths before it, and no length is 0.
6 | end 1 Normal 0 39 | end 1 Normal 1 39 | not lawful: 6
6 | end 1 Normal 0 39 | end 1 Normal 0 0 | not lawful: 6
6 | end 1 Normal 0 39 | end 1 Normal 0 40 | not lawful: 9
9 | end 2 Normal 39 39 | end 2 Normal 0 39 | not lawful: 9
9 | end 2 Normal 39 39 | end 2 Normal 39 1 | lawful 9 finished
# No terminate took effect.
6 | end 1 Normal 0 39 | end 1 Terminated | not lawful: 6
# The table tells the outcome.
6 | end 1 Normal 0 39 | end 1 Warning 0 39 | not lawful: 11
9 | ... | end 2 Error 39 39; --; 1 Completed Normal P; 2 Completed Error P | lawful 9 finished
# No manager's place runs a request at the end of a finished history.
9 | end 2 Normal 39 39 |  | not lawful: 11
9 | ... | --; 1 Completed Normal P; 2 Running Normal P | lawful 8 unfinished
# Only submitted requests have a status.
3 | ... | --; 1 Pending Standby P | lawful 2 unfinished
# A table has each of its lines, in the order of the requests, and each ends with LF.
11 | 1 Completed Normal P |  | not lawful: 11
12 | 2 Completed Normal P |  | not lawful: 12
12 | 2 Completed Normal P | 2 Completed Normal P! | not lawful: 12
12 | 2 Completed Normal P | 2 Completed Normal P  | not lawful: 12
11 | 1 Completed Normal P; 2 Completed Normal P | 2 Completed Normal P; 1 Completed Normal P | not lawful: 11
# These are no event lines.
3 | do 2 | do 02 | not lawful: 3
4 | let 1 | let 1  | not lawful: 4
9 | end 2 Normal 39 39 | end 2 Normal 39 | not lawful: 9
10 | -- | --  | not lawful: 10
10 | -- |  | not lawful: 10
# Of an unlawful event and a line that is no event line the first one is told.
4 | let 1; start 1 1.1 | let 2; start | not lawful: 4
4 | let 1; start 1 1.1 | let; start 2 1.1 | not lawful: 4
5 | start 1 1.1; end 1 Normal 0 39 | start 2 1.1; end 1 Normal | not lawful: 5
=====
places that are free do not help where requests exclude each other
== setup
tables = ["t.csv"]
program = [{ name = "P", table = "t.csv", group = "k", sum = "v" }]
incompatible = [{ program = "P", with = "P" }]
manager = [{ name = "M", shift = [{ places = 4 }] }]
== script
2025-03-03T09:00:00,submit,P,ann,,,,
2025-03-03T09:00:00,submit,P,ann,,,,
== clock
2025-03-03T09:00:00
== table
k,v
a,10
b,20
a,5
== history
tick 2025-03-03T09:00:00
do 1
do 2
let 1
start 1 1.1
end 1 Normal 0 39
let 2
start 2 1.1
end 2 Normal 39 39
--
1 Completed Normal P
2 Completed Normal P
== lawful 9 finished
# Any free place of the manager will do, and only its own.
5 | start 1 1.1 | start 1 1.4 | lawful 9 finished
5 | start 1 1.1 | start 1 1.5 | not lawful: 5
5 | start 1 1.1 | start 1 2.1 | not lawful: 5
5 | start 1 1.1 | start 1 1.0 | not lawful: 5
=====
the lower priority number goes first
== setup
tables = ["t.csv"]
program = [{ name = "P", table = "t.csv", group = "k", sum = "v" }]
incompatible = [{ program = "P", with = "P", scope = "program", type = "domain" }]
manager = [{ name = "M" }]
== script
2025-03-03T09:00:00,submit,P,ann,99,,,
2025-03-03T09:00:00,submit,P,ann,1,,,
== clock
2025-03-03T09:00:00
== table
k,v
a,10
b,20
a,5
== history
tick 2025-03-03T09:00:00
do 1
do 2
let 2
start 2 1.1
end 2 Normal 0 39
let 1
start 1 1.1
end 1 Normal 39 39
--
1 Completed Normal P
2 Completed Normal P
== lawful 9 finished
# The lower priority number is first in precedence.
4 | let 2 | let 1 | not lawful: 4
# A due command comes before a let.
3 | do 2; let 2 | let 2; do 2 | not lawful: 3
=====
with the same priority and start the lower number goes first
== setup
tables = ["t.csv"]
program = [{ name = "P", table = "t.csv", group = "k", sum = "v" }]
incompatible = [{ program = "P", with = "P", scope = "program", type = "domain" }]
manager = [{ name = "M" }]
== script
2025-03-03T09:00:00,submit,P,ann,7,,,
2025-03-03T09:00:00,submit,P,ann,7,,,
== clock
2025-03-03T09:00:00
== table
k,v
a,10
b,20
a,5
== history
tick 2025-03-03T09:00:00
do 1
do 2
let 1
start 1 1.1
end 1 Normal 0 39
let 2
start 2 1.1
end 2 Normal 39 39
--
1 Completed Normal P
2 Completed Normal P
== lawful 9 finished
# Of the same priority and start the lower number is first.
4 | let 1 | let 2 | not lawful: 4
=====
a request waits for its start
== setup
tables = ["t.csv"]
program = [{ name = "P", table = "t.csv", group = "k", sum = "v" }]
manager = [{ name = "M" }]
== script
2025-03-03T09:00:00,submit,P,ann,,2025-03-03T09:00:01,,
== clock
2025-03-03T09:00:00
== table
k,v
a,10
b,20
a,5
== history
tick 2025-03-03T09:00:00
do 1
--
1 Pending Scheduled P
== lawful 2 finished
# The start is later than the last reading.
3 |  | let 1 | not lawful: 3
4 | 1 Pending Scheduled P | 1 Pending Standby P | not lawful: 4
=====
a request is let out at the reading that reaches its start
== setup
tables = ["t.csv"]
program = [{ name = "P", table = "t.csv", group = "k", sum = "v" }]
manager = [{ name = "M" }]
== script
2025-03-03T09:00:00,submit,P,ann,,2025-03-03T09:05:00,,
== clock
2025-03-03T09:00:00
2025-03-03T09:05:00 !
== table
k,v
a,10
b,20
a,5
== history
tick 2025-03-03T09:00:00
do 1
tick 2025-03-03T09:05:00
let 1
start 1 1.1
end 1 Normal 0 39
--
1 Completed Normal P
== lawful 6 finished
# At rest, with a reading that is left.
3 | ... | --; 1 Pending Scheduled P | lawful 2 unfinished
=====
a request is held and another one cancelled before they are let out
== setup
tables = ["t.csv"]
program = [{ name = "P", table = "t.csv", group = "k", sum = "v" }]
incompatible = [{ program = "P", with = "P", scope = "program", type = "domain" }]
manager = [{ name = "M" }]
== script
2025-03-03T09:00:00,submit,P,ann,,,,
2025-03-03T09:00:00,hold,1,ann,,,,
2025-03-03T09:00:00,submit,P,ann,,,,
2025-03-03T09:00:00,cancel,2,,,,,
== clock
2025-03-03T09:00:00
== table
k,v
a,10
b,20
a,5
== history
tick 2025-03-03T09:00:00
do 1
do 2
do 3
do 4
--
1 Inactive On Hold P
2 Completed Cancelled P
== lawful 5 finished
# What is held is not let, and nor is what was cancelled.
6 |  | let 1 | not lawful: 6
6 |  | let 2 | not lawful: 6
7 | 1 Inactive On Hold P | 1 Inactive  On Hold P | not lawful: 7
=====
a cell that is no whole number makes an error
== setup
tables = ["t.csv"]
program = [{ name = "P", table = "t.csv", group = "k", sum = "v" }]
manager = [{ name = "M" }]
== script
2025-03-03T09:00:00,submit,P,ann,,,,
== clock
2025-03-03T09:00:00
== table
k,v
a,1
a,12x
== history
tick 2025-03-03T09:00:00
do 1
let 1
start 1 1.1
end 1 Error 0 26
--
1 Completed Error P
== lawful 5 finished
# The report is not made again, but the table tells the outcome of the end.
5 | end 1 Error 0 26 | end 1 Normal 0 26 | not lawful: 7
5 | ... | end 1 Normal 0 27; --; 1 Completed Normal P | lawful 5 finished
=====
a sum may have more than 64 bits
== setup
tables = ["t.csv"]
program = [{ name = "P", table = "t.csv", sum = "v" }]
manager = [{ name = "M" }]
== script
2025-03-03T09:00:00,submit,P,ann,,,,
== clock
2025-03-03T09:00:00
== table
k,v
a,9223372036854775807
a,9223372036854775807
== history
tick 2025-03-03T09:00:00
do 1
let 1
start 1 1.1
end 1 Normal 0 43
--
1 Completed Normal P
== lawful 5 finished
# A length has 32 bits.
5 | end 1 Normal 0 43 | end 1 Normal 0 4294967295 | lawful 5 finished
5 | end 1 Normal 0 43 | end 1 Normal 0 4294967296 | not lawful: 5
=====
an incompatibility within domains leaves two domains apart
== setup
tables = ["t.csv"]
program = [
    { name = "Q", table = "t.csv", group = "k", sum = "v" },
    { name = "R", table = "t.csv", group = "k", sum = "v" },
]
incompatible = [{ program = "Q", with = "R", type = "domain" }]
manager = [{ name = "M" }]
== script
2025-03-03T09:00:00,submit,Q,ann,,,North,
2025-03-03T09:00:00,submit,R,ann,,,South,
== clock
2025-03-03T09:00:00
== table
k,v
a,10
b,20
a,5
== history
tick 2025-03-03T09:00:00
do 1
do 2
let 1
let 2
start 1 1.1
end 1 Normal 0 39
start 2 1.1
end 2 Normal 39 39
--
1 Completed Normal Q
2 Completed Normal R
== lawful 9 finished
# No start comes while a let is due, and the lets have their order.
5 | let 2 |  | not lawful: 5
5 | let 2; start 1 1.1 | start 1 1.1; let 2 | not lawful: 5
4 | let 1; let 2 | let 2; let 1 | not lawful: 4
# A place runs one request at a time.
7 | end 1 Normal 0 39; start 2 1.1 | start 2 1.1; end 1 Normal 0 39 | not lawful: 7
# Each let request may start first.
6 | start 1 1.1; end 1 Normal 0 39; start 2 1.1; end 2 Normal 39 39 | start 2 1.1; end 2 Normal 0 39; start 1 1.1; end 1 Normal 39 39 | lawful 9 finished
# A start is allowed, so that the system is not at rest.
8 | ... | --; 1 Completed Normal Q; 2 Pending Normal R | lawful 7 unfinished
=====
a global incompatibility holds across domains
== setup
tables = ["t.csv"]
program = [
    { name = "Q", table = "t.csv", group = "k", sum = "v" },
    { name = "R", table = "t.csv", group = "k", sum = "v" },
]
incompatible = [{ program = "Q", with = "R", type = "global" }]
manager = [{ name = "M" }]
== script
2025-03-03T09:00:00,submit,Q,ann,,,North,
2025-03-03T09:00:00,submit,R,ann,,,South,
== clock
2025-03-03T09:00:00
== table
k,v
a,10
b,20
a,5
== history
tick 2025-03-03T09:00:00
do 1
do 2
let 1
start 1 1.1
end 1 Normal 0 39
let 2
start 2 1.1
end 2 Normal 39 39
--
1 Completed Normal Q
2 Completed Normal R
== lawful 9 finished
# The second is not let while the first is live, and is let before it starts.
5 |  | let 2 | not lawful: 5
7 | let 2 |  | not lawful: 7
"#;
