/// Sets of requests.
pub const SETS: &str = r#"an open set excludes a program, of scope program
== setup
tables = ["t.csv"]
program = [
    { name = "Q", table = "t.csv", group = "k", sum = "v" },
    { name = "R", table = "t.csv", group = "k", sum = "v" },
    { name = "X", table = "t.csv", group = "k", sum = "v" },
]
incompatible = [{ program = "X", with = "S", scope = "program" }]
manager = [{ name = "M" }]

[[set]]
name = "S"
stage = [
    { name = "One", members = ["Q"], on_success = "Two" },
    { name = "Two", members = ["R"] },
]
== script
2025-03-03T09:00:00,submit,S,ann,,,,
2025-03-03T09:00:00,submit,X,ann,,,,
== clock
2025-03-03T09:00:00
== table
k,v
a,10
b,20
a,5
== history
tick 2025-03-03T09:00:00
do 1
do 2
open 1
stage 1 1
let 2
start 2 1.1
end 2 Normal 0 39
stage 1 2
let 3
start 3 1.1
end 3 Normal 39 39
close 1 Normal
let 4
start 4 1.1
end 4 Normal 78 39
--
1 Completed Normal S
2 Completed Normal Q
3 Completed Normal R
4 Completed Normal X
== lawful 16 finished
# A set is opened and not let, it is so once, and it comes first in precedence.
4 | open 1 |  | not lawful: 4
4 | open 1 | let 1 | not lawful: 4
4 | open 1 | let 4 | not lawful: 4
4 | open 1 | open 4 | not lawful: 4
5 |  | open 1 | not lawful: 5
# It begins with its first stage, before a member is let.
5 | stage 1 1 |  | not lawful: 5
5 | stage 1 1 | stage 1 2 | not lawful: 5
5 | stage 1 1 | stage 4 1 | not lawful: 5
5 | stage 1 1 | stage 1 0 | not lawful: 5
5 | stage 1 1 | close 1 Normal | not lawful: 5
6 | let 2 | let 3 | not lawful: 6
# While it is open the program is not let.
7 |  | let 4 | not lawful: 7
13 | close 1 Normal; let 4 | let 4; close 1 Normal | not lawful: 13
# A stage ends with its members, and then the link names the next one.
8 | end 2 Normal 0 39; stage 1 2 | stage 1 2; end 2 Normal 0 39 | not lawful: 8
9 | stage 1 2 |  | not lawful: 9
9 | stage 1 2 | stage 1 1 | not lawful: 9
9 | stage 1 2 | close 1 Normal | not lawful: 9
10 |  | stage 1 2 | not lawful: 10
# After the last stage the set closes once, with its outcome.
13 | close 1 Normal |  | not lawful: 13
13 | close 1 Normal | close 1 Warning | not lawful: 13
13 | close 1 Normal | close 1 Cancelled | not lawful: 13
13 | close 1 Normal | close 2 Normal | not lawful: 13
14 |  | close 1 Normal | not lawful: 14
# An error has no link: the set closes, and its second stage never begins.
8 | end 2 Normal 0 39 | end 2 Error 0 39 | not lawful: 9
8 | ... | end 2 Error 0 39; close 1 Error; let 4; start 4 1.1; end 4 Normal 39 39; --; 1 Completed Error S; 2 Completed Error Q; 3 Completed Cancelled R; 4 Completed Normal X | lawful 12 finished
# Before and after its first stage.
5 | ... | --; 1 Running Normal S; 2 Pending Waiting Q; 3 Pending Waiting R; 4 Pending Standby X | lawful 4 unfinished
6 | ... | --; 1 Running Paused S; 2 Pending Standby Q; 3 Pending Waiting R; 4 Pending Standby X | lawful 5 unfinished
=====
an open set excludes a program, of scope set
== setup
tables = ["t.csv"]
program = [
    { name = "Q", table = "t.csv", group = "k", sum = "v" },
    { name = "R", table = "t.csv", group = "k", sum = "v" },
    { name = "X", table = "t.csv", group = "k", sum = "v" },
]
incompatible = [{ program = "X", with = "S", scope = "set" }]
manager = [{ name = "M" }]

[[set]]
name = "S"
stage = [
    { name = "One", members = ["Q"], on_success = "Two" },
    { name = "Two", members = ["R"] },
]
== script
2025-03-03T09:00:00,submit,S,ann,,,,
2025-03-03T09:00:00,submit,X,ann,,,,
== clock
2025-03-03T09:00:00
== table
k,v
a,10
b,20
a,5
== history
tick 2025-03-03T09:00:00
do 1
do 2
open 1
stage 1 1
let 2
start 2 1.1
end 2 Normal 0 39
stage 1 2
let 3
start 3 1.1
end 3 Normal 39 39
close 1 Normal
let 4
start 4 1.1
end 4 Normal 78 39
--
1 Completed Normal S
2 Completed Normal Q
3 Completed Normal R
4 Completed Normal X
== lawful 16 finished
# The open set excludes the program, and so does each member that is let.
6 | let 2 | let 4 | not lawful: 6
12 | end 3 Normal 39 39 | end 3 Normal 38 39 | not lawful: 12
14 | let 4; start 4 1.1 | start 4 1.1; let 4 | not lawful: 14
=====
of scope program, two members of one set are let out together
== setup
tables = ["t.csv"]
program = [
    { name = "Q", table = "t.csv", group = "k", sum = "v" },
    { name = "X", table = "t.csv", group = "k", sum = "v" },
]
incompatible = [{ program = "X", with = "S", scope = "program" }]
manager = [{ name = "M" }]
set = [{ name = "S", stage = [{ name = "One", members = ["Q", "X"] }] }]
== script
2025-03-03T09:00:00,submit,S,ann,,,,
== clock
2025-03-03T09:00:00
== table
k,v
a,10
b,20
a,5
== history
tick 2025-03-03T09:00:00
do 1
open 1
stage 1 1
let 2
let 3
start 2 1.1
end 2 Normal 0 39
start 3 1.1
end 3 Normal 39 39
close 1 Normal
--
1 Completed Normal S
2 Completed Normal Q
3 Completed Normal X
== lawful 11 finished
# Nothing starts while a member is to be let.
6 | let 3 |  | not lawful: 6
6 | let 3; start 2 1.1; end 2 Normal 0 39 | start 2 1.1; end 2 Normal 0 39; let 3 | not lawful: 6
# A stage has not ended before its last member.
9 |  | close 1 Normal | not lawful: 9
# Without its close the set is open, and the table says so.
11 | close 1 Normal |  | not lawful: 12
=====
of scope set, a member waits for the other members of its set
== setup
tables = ["t.csv"]
program = [
    { name = "Q", table = "t.csv", group = "k", sum = "v" },
    { name = "X", table = "t.csv", group = "k", sum = "v" },
]
incompatible = [{ program = "X", with = "S", scope = "set" }]
manager = [{ name = "M" }]
set = [{ name = "S", stage = [{ name = "One", members = ["Q", "X"] }] }]
== script
2025-03-03T09:00:00,submit,S,ann,,,,
== clock
2025-03-03T09:00:00
== table
k,v
a,10
b,20
a,5
== history
tick 2025-03-03T09:00:00
do 1
open 1
stage 1 1
let 2
start 2 1.1
end 2 Normal 0 39
let 3
start 3 1.1
end 3 Normal 39 39
close 1 Normal
--
1 Completed Normal S
2 Completed Normal Q
3 Completed Normal X
== lawful 11 finished
# Members of one set exclude each other.
6 |  | let 3 | not lawful: 6
5 | let 2 | let 3 | not lawful: 5
8 |  | close 1 Normal | not lawful: 8
=====
what runs alone waits for the set of another that runs alone
== setup
tables = ["t.csv"]
program = [
    { name = "A", table = "t.csv", group = "k", sum = "v", run_alone = true },
    { name = "Z", table = "t.csv", group = "k", sum = "v", run_alone = true },
]
manager = [{ name = "M" }]
set = [{ name = "S", stage = [{ name = "One", members = ["A"] }] }]
== script
2025-03-03T09:00:00,submit,S,ann,,,,
2025-03-03T09:00:00,submit,Z,ann,,,,
== clock
2025-03-03T09:00:00
== table
k,v
a,10
b,20
a,5
== history
tick 2025-03-03T09:00:00
do 1
do 2
open 1
stage 1 1
let 2
start 2 1.1
end 2 Normal 0 39
close 1 Normal
let 3
start 3 1.1
end 3 Normal 39 39
--
1 Completed Normal S
2 Completed Normal A
3 Completed Normal Z
== lawful 12 finished
# What runs alone waits for the member, and for the open set too.
7 |  | let 3 | not lawful: 7
9 | close 1 Normal |  | not lawful: 9
9 | close 1 Normal; let 3 | let 3; close 1 Normal | not lawful: 9
=====
two sets wait for each other
== setup
tables = ["t.csv"]
program = [
    { name = "P", table = "t.csv", group = "k", sum = "v" },
    { name = "A", table = "t.csv", group = "k", sum = "v" },
    { name = "B", table = "t.csv", group = "k", sum = "v" },
]
incompatible = [{ program = "A", with = "U" }, { program = "B", with = "S" }]
manager = [{ name = "M" }]

[[set]]
name = "S"
stage = [
    { name = "One", members = ["P"], on_success = "Two" },
    { name = "Two", members = ["A"] },
]

[[set]]
name = "U"
stage = [
    { name = "One", members = ["P"], on_success = "Two" },
    { name = "Two", members = ["B"] },
]
== script
2025-03-03T09:00:00,submit,S,ann,,,,
2025-03-03T09:00:00,submit,U,ann,,,,
== clock
2025-03-03T09:00:00
== table
k,v
a,10
b,20
a,5
== history
tick 2025-03-03T09:00:00
do 1
do 2
open 1
stage 1 1
let 2
open 4
stage 4 1
let 5
start 2 1.1
end 2 Normal 0 39
stage 1 2
start 5 1.1
end 5 Normal 39 39
stage 4 2
--
1 Running Paused S
2 Completed Normal P
3 Pending Standby A
4 Running Paused U
5 Completed Normal P
6 Pending Standby B
== lawful 15 finished
# The first set's member is let before the second set is opened.
6 | let 2; open 4 | open 4; let 2 | not lawful: 6
# A member waits for the other set, and its own set for the member.
16 |  | let 3 | not lawful: 16
16 |  | close 1 Normal | not lawful: 16
# A stage comes before a start.
12 | stage 1 2; start 5 1.1 | start 5 1.1; stage 1 2 | not lawful: 12
# Each of the two members may start first.
10 | start 2 1.1; end 2 Normal 0 39; stage 1 2; start 5 1.1; end 5 Normal 39 39; stage 4 2 | start 5 1.1; end 5 Normal 0 39; stage 4 2; start 2 1.1; end 2 Normal 39 39; stage 1 2 | lawful 15 finished
17 | 1 Running Paused S | 1 Running Normal S | not lawful: 17
19 | 3 Pending Standby A | 3 Pending Waiting A | not lawful: 19
=====
a warning takes its link, and the last stage tells the set's outcome
== setup
tables = ["t.csv"]
program = [
    { name = "P", table = "t.csv", group = "k", sum = "v" },
    { name = "W", table = "t.csv", group = "k", sum = "v", warn_over = 2 },
    { name = "E", table = "t.csv", group = "k", sum = "v", error_over = 0 },
]
manager = [{ name = "M" }]

[[set]]
name = "S"

[[set.stage]]
name = "One"
members = ["P", "W"]
on_success = "Two"
on_warning = "Three"
critical = false

[[set.stage]]
name = "Two"
members = ["P"]

[[set.stage]]
name = "Three"
members = ["E"]
== script
2025-03-03T09:00:00,submit,S,ann,,,,
== clock
2025-03-03T09:00:00
== table
k,v
a,10
b,20
a,5
== history
tick 2025-03-03T09:00:00
do 1
open 1
stage 1 1
let 2
let 3
start 2 1.1
end 2 Normal 0 39
start 3 1.1
end 3 Warning 39 39
stage 1 3
let 5
start 5 1.1
end 5 Error 78 39
close 1 Error
--
1 Completed Error S
2 Completed Normal P
3 Completed Warning W
4 Completed Cancelled P
5 Completed Error E
== lawful 15 finished
# A warning has another link than a success, and an error has none.
11 | stage 1 3 | stage 1 2 | not lawful: 11
10 | end 3 Warning 39 39 | end 3 Normal 39 39 | not lawful: 11
10 | end 3 Warning 39 39 | end 3 Error 39 39 | not lawful: 11
# The member of the stage that is passed over is not let, and is cancelled.
12 | let 5 | let 4 | not lawful: 12
20 | 4 Completed Cancelled P | 4 Pending Waiting P | not lawful: 20
# No critical stage ran: the outcome is that of the last one.
15 | close 1 Error | close 1 Warning | not lawful: 15
14 | end 5 Error 78 39 | end 5 Normal 78 39 | not lawful: 15
=====
the outcome of a critical stage stays that of its set
== setup
tables = ["t.csv"]
program = [
    { name = "P", table = "t.csv", group = "k", sum = "v" },
    { name = "W", table = "t.csv", group = "k", sum = "v", warn_over = 2 },
    { name = "E", table = "t.csv", group = "k", sum = "v", error_over = 0 },
]
manager = [{ name = "M" }]

[[set]]
name = "S"

[[set.stage]]
name = "One"
members = ["P", "W"]
on_success = "Two"
on_warning = "Three"
critical = true

[[set.stage]]
name = "Two"
members = ["P"]

[[set.stage]]
name = "Three"
members = ["E"]
== script
2025-03-03T09:00:00,submit,S,ann,,,,
== clock
2025-03-03T09:00:00
== table
k,v
a,10
b,20
a,5
== history
tick 2025-03-03T09:00:00
do 1
open 1
stage 1 1
let 2
let 3
start 2 1.1
end 2 Normal 0 39
start 3 1.1
end 3 Warning 39 39
stage 1 3
let 5
start 5 1.1
end 5 Error 78 39
close 1 Warning
--
1 Completed Warning S
2 Completed Normal P
3 Completed Warning W
4 Completed Cancelled P
5 Completed Error E
== lawful 15 finished
# The outcome is that of the critical stage, whatever the last one's is.
15 | close 1 Warning | close 1 Error | not lawful: 15
15 | close 1 Warning | close 1 Normal | not lawful: 15
14 | end 5 Error 78 39 | end 5 Normal 78 39 | not lawful: 21
"#;
