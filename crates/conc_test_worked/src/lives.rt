/// What a run alone does not print: a terminate, and lives after the first.
pub const LIVES: &str = r#"a request that runs is terminated at an early reading
== setup
tables = ["t.csv"]
program = [{ name = "P", table = "t.csv", group = "k", sum = "v" }]
manager = [{ name = "M" }]
== script
2025-03-03T09:00:00,submit,P,ann,,,,
2025-03-03T09:05:00,terminate,1,,,,,
== clock
2025-03-03T09:00:00
2025-03-03T09:05:00 !
== table
k,v
a,10
b,20
a,5
== history
tick 2025-03-03T09:00:00
do 1
let 1
start 1 1.1
tick 2025-03-03T09:05:00
do 2
end 1 Terminated
--
1 Completed Terminated P
== lawful 7 finished
# After a terminate the end is Terminated and has no report.
7 | end 1 Terminated | end 1 Normal 0 39 | not lawful: 7
7 | end 1 Terminated | end 1 Terminated 0 39 | not lawful: 7
8 |  | end 1 Terminated | not lawful: 8
# Without the terminate it is not.
5 | tick 2025-03-03T09:05:00; do 2 |  | not lawful: 5
6 | do 2; end 1 Terminated | end 1 Terminated; do 2 | not lawful: 6
# A marked reading need not wait, but then the terminate comes before the start.
4 | start 1 1.1; tick 2025-03-03T09:05:00 | tick 2025-03-03T09:05:00; start 1 1.1 | not lawful: 5
# It may wait, and what is completed is not terminated.
5 | ... | end 1 Normal 0 39; tick 2025-03-03T09:05:00; do 2; --; 1 Completed Normal P | lawful 7 finished
# What is let and does not run is not terminated either.
4 | ... | tick 2025-03-03T09:05:00; do 2; start 1 1.1; end 1 Normal 0 39; --; 1 Completed Normal P | lawful 7 finished
6 | ... | --; 1 Running Normal P | lawful 5 unfinished
7 | ... | --; 1 Running Terminating P | lawful 6 unfinished
=====
what ran at a stop and has no mark for restart is an error
== setup
tables = ["t.csv"]
program = [{ name = "P", table = "t.csv", group = "k", sum = "v" }]
manager = [{ name = "M" }]
== script
2025-03-03T09:00:00,submit,P,ann,,,,
== clock
2025-03-03T09:00:00
== table
k,v
a,10
b,20
a,5
== history
tick 2025-03-03T09:00:00
do 1
let 1
start 1 1.1
resume
interrupt 1
tick 2025-03-03T09:00:00
--
1 Completed Error P
== lawful 7 finished
# What ran at the resume is interrupted, before all else and once.
6 | interrupt 1 |  | not lawful: 6
6 | interrupt 1 | interrupt 2 | not lawful: 6
6 | interrupt 1 | end 1 Normal 0 39 | not lawful: 6
7 |  | interrupt 1 | not lawful: 7
# Nothing is interrupted without a resume, and nothing that does not run.
5 | resume |  | not lawful: 5
5 | resume; interrupt 1 | interrupt 1; resume | not lawful: 5
4 | start 1 1.1 |  | not lawful: 5
# Without the mark it is completed.
7 |  | let 1 | not lawful: 7
9 | 1 Completed Error P | 1 Pending Standby P | not lawful: 9
# A resume follows any event, another one too.
5 |  | resume | lawful 8 finished
# The last life takes the readings that are not earlier than the last one before it.
7 | tick 2025-03-03T09:00:00 |  | lawful 6 unfinished
7 | tick 2025-03-03T09:00:00 | tick 2025-03-03T09:00:01 | not lawful: 7
8 |  | resume | lawful 8 unfinished
# The clock of an earlier life is not known, and here it leaves no reading to take.
1 | tick 2025-03-03T09:00:00 | tick 2025-03-03T09:00:01 | not lawful: 7
1 | tick 2025-03-03T09:00:00 | tick 2025-03-03T08:59:59 | not lawful: 2
=====
what ran at a stop and has the mark for restart runs again
== setup
tables = ["t.csv"]
program = [{ name = "P", table = "t.csv", group = "k", sum = "v", restart = true }]
manager = [{ name = "M" }]
== script
2025-03-03T09:00:00,submit,P,ann,,,,
== clock
2025-03-03T09:00:00
== table
k,v
a,10
b,20
a,5
== history
tick 2025-03-03T09:00:00
do 1
let 1
start 1 1.1
resume
interrupt 1
let 1
start 1 1.1
end 1 Normal 0 39
tick 2025-03-03T09:00:00
--
1 Completed Normal P
== lawful 10 finished
# The interrupt comes first, then the let, and a start only after it.
6 | interrupt 1 |  | not lawful: 6
7 | let 1 |  | not lawful: 7
7 |  | tick 2025-03-03T09:00:00 | not lawful: 7
# A reading waits while a start is allowed.
8 |  | tick 2025-03-03T09:00:00 | not lawful: 8
# What was interrupted made no report.
9 | end 1 Normal 0 39 | end 1 Normal 39 39 | not lawful: 9
# A resume before the end has it interrupted again.
9 |  | resume | not lawful: 10
7 | ... | --; 1 Pending Standby P | lawful 6 unfinished
# Without the stop it is one life, which takes its reading once.
5 | resume; interrupt 1; let 1; start 1 1.1 |  | not lawful: 6
5 | resume; interrupt 1; let 1; start 1 1.1; end 1 Normal 0 39; tick 2025-03-03T09:00:00 | end 1 Normal 0 39 | lawful 5 finished
=====
what had ended before a stop stays as it is
== setup
tables = ["t.csv"]
program = [{ name = "P", table = "t.csv", group = "k", sum = "v" }]
incompatible = [{ program = "P", with = "P", scope = "program", type = "domain" }]
manager = [{ name = "M" }]
== script
2025-03-03T09:00:00,submit,P,ann,,,,
2025-03-03T09:00:00,submit,P,ann,,,,
== clock
2025-03-03T09:00:00
== table
k,v
a,10
b,20
a,5
== history
tick 2025-03-03T09:00:00
do 1
do 2
let 1
start 1 1.1
end 1 Normal 0 39
let 2
start 2 1.1
resume
interrupt 2
tick 2025-03-03T09:00:00
--
1 Completed Normal P
2 Completed Error P
== lawful 11 finished
# What has ended is not interrupted, and what was interrupted is not let again.
10 | interrupt 2 | interrupt 1 | not lawful: 10
11 |  | let 2 | not lawful: 11
# Earlier lives are judged too.
4 | let 1 | let 2 | not lawful: 4
14 | 2 Completed Error P | 2 Completed Normal P | not lawful: 14
"#;
