/// Shifts, rules and holds.
pub const MANAGERS: &str = r#"nothing starts from the end of a shift on
== setup
tables = ["t.csv"]
program = [{ name = "P", table = "t.csv", group = "k", sum = "v" }]
manager = [{ name = "M", shift = [{ from = "09:00", to = "17:00", places = 1 }] }]
== script
2025-03-03T16:59:59,submit,P,ann,,,,
2025-03-03T17:00:00,submit,P,ann,,,,
== clock
2025-03-03T16:59:59
2025-03-03T17:00:00
== table
k,v
a,10
b,20
a,5
== history
tick 2025-03-03T16:59:59
do 1
let 1
start 1 1.1
end 1 Normal 0 39
tick 2025-03-03T17:00:00
do 2
let 2
--
1 Completed Normal P
2 Pending Normal P
== lawful 8 finished
# From 17:00 on the place is not usable.
9 |  | start 2 1.1 | not lawful: 9
# A reading waits while a start is allowed, and while a request runs.
4 | start 1 1.1 | tick 2025-03-03T17:00:00 | not lawful: 4
5 | end 1 Normal 0 39; tick 2025-03-03T17:00:00 | tick 2025-03-03T17:00:00; end 1 Normal 0 39 | not lawful: 5
# Readings are taken one after the other, and no other moments.
1 | tick 2025-03-03T16:59:59 | tick 2025-03-03T17:00:00 | not lawful: 1
6 | tick 2025-03-03T17:00:00 | tick 2025-03-03T17:00:01 | not lawful: 6
# A command is not done before its moment has come.
1 | tick 2025-03-03T16:59:59 |  | not lawful: 1
6 | tick 2025-03-03T17:00:00 |  | not lawful: 6
6 | tick 2025-03-03T17:00:00; do 2 | do 2; tick 2025-03-03T17:00:00 | not lawful: 6
# At rest, with a reading that is left.
6 | ... | --; 1 Completed Normal P | lawful 5 unfinished
=====
a shift of the date goes before one of the weekday
== setup
tables = ["t.csv"]
program = [{ name = "P", table = "t.csv", group = "k", sum = "v" }]

[[manager]]
name = "M"
shift = [{ date = "2025-03-03", places = 0 }, { days = ["Mon"], places = 3 }]
== script
2025-03-03T09:00:00,submit,P,ann,,,,
== clock
2025-03-03T09:00:00
== table
k,v
a,10
b,20
a,5
== history
tick 2025-03-03T09:00:00
do 1
let 1
--
1 Pending Normal P
== lawful 3 finished
# The places are there, and none of them is usable at that date.
4 |  | start 1 1.1 | not lawful: 4
4 |  | start 1 1.3 | not lawful: 4
# A let that is left out is still due.
3 | let 1 |  | not lawful: 4
3 | ... | --; 1 Pending Standby P | lawful 2 unfinished
=====
a manager excludes a user of a program that it includes
== setup
tables = ["t.csv"]
program = [{ name = "P", table = "t.csv", group = "k", sum = "v" }]

[[manager]]
name = "M"
include = [{ program = "P" }]
exclude = [{ program = "P", user = "bob" }]
== script
2025-03-03T09:00:00,submit,P,ann,,,,
2025-03-03T09:00:00,submit,P,bob,,,,
== clock
2025-03-03T09:00:00
== table
k,v
a,10
b,20
a,5
== history
tick 2025-03-03T09:00:00
do 1
do 2
let 1
start 1 1.1
end 1 Normal 0 39
--
1 Completed Normal P
2 Inactive No Manager P
== lawful 6 finished
# No manager admits the second request.
5 |  | let 2 | not lawful: 5
7 |  | let 2 | not lawful: 7
9 | 2 Inactive No Manager P | 2 Pending Standby P | not lawful: 9
=====
what was let out and is held is let out again once it is free
== setup
tables = ["t.csv"]
program = [{ name = "P", table = "t.csv", group = "k", sum = "v" }]
manager = [{ name = "M", shift = [{ from = "09:00", to = "17:00", places = 1 }] }]
== script
2025-03-03T08:00:00,submit,P,ann,,,,
2025-03-03T08:10:00,hold,1,,,,,
2025-03-03T08:40:00,unhold,1,,,,,
== clock
2025-03-03T08:00:00
2025-03-03T08:30:00
2025-03-03T09:00:00
== table
k,v
a,10
b,20
a,5
== history
tick 2025-03-03T08:00:00
do 1
let 1
tick 2025-03-03T08:30:00
do 2
tick 2025-03-03T09:00:00
do 3
let 1
start 1 1.1
end 1 Normal 0 39
--
1 Completed Normal P
== lawful 10 finished
# Before 09:00 no place is usable.
4 |  | start 1 1.1 | not lawful: 4
# No reading is passed over, and a due command comes before the next one.
4 | tick 2025-03-03T08:30:00 |  | not lawful: 4
4 | tick 2025-03-03T08:30:00 | tick 2025-03-03T09:00:00 | not lawful: 4
5 | do 2; tick 2025-03-03T09:00:00 | tick 2025-03-03T09:00:00; do 2 | not lawful: 5
# What is held is not let, and has to be let again afterwards.
6 |  | let 1 | not lawful: 6
8 | let 1 |  | not lawful: 8
4 | ... | --; 1 Pending Normal P | lawful 3 unfinished
6 | ... | --; 1 Inactive On Hold P | lawful 5 unfinished
"#;
