// The words of a call, its clock, each exit, and the listing of a plan.
pub(crate) const EXITS: &str =
    r#"the clock of the system is asked by its word: it gives 2025-03-03T10:10:01
== moment
== call run a.toml a.csv system --threads 0
== ends 0
== prints
tick 2025-03-03T10:10:01
--
=====
the clock of the system is asked by its word: it gives no moment
== call run a.toml a.csv system --threads 0
== ends 8
clock fault
=====
the clock of the system is asked by its word: a file with this name is not read
== clock-file system
== moment
== call run a.toml a.csv system --threads 0
== ends 0
== prints
tick 2025-03-03T10:10:01
--
=====
the clock of the system is asked by its word: a file with this name is not read where it gives no moment
== clock-file system
== call run a.toml a.csv system --threads 0
== ends 8
clock fault
=====
the clock of the system is asked by its word: another name is a file's
== clock-file ./system
== moment
== call run a.toml a.csv ./system --threads 0
== ends 0
== prints
tick 2025-03-03T09:00:00
--
=====
the clock of the system is asked by its word: another name is that of a file that is lacking
== clock-file system
== moment
== call run a.toml a.csv ./system --threads 0
== ends 4
absent: ./system
=====
each exit has its cause: words that are no command line
== script
2025-03-03T09:00:00,submit,P,ann,,,,
== call run a.toml
== ends 2
usage: conc run|plan|check|status|output|make
=====
each exit has its cause: a setup with another key
== setup
programs = []
== script
2025-03-03T09:00:00,submit,P,ann,,,,
== run
== ends 3
refused: a.toml: 0: 2
=====
each exit has its cause: a setup without a program
== setup
tables = []
== script
2025-03-03T09:00:00,submit,P,ann,,,,
== run
== ends 3
refused: a.csv: 2: 23
=====
each exit has its cause: a file is lacking
== script
2025-03-03T09:00:00,submit,P,ann,,,,
== call run a.toml a.csv b.clock --threads 0
== ends 4
absent: b.clock
=====
each exit has its cause: a file cannot be read
== script
2025-03-03T09:00:00,submit,P,ann,,,,
== fails read 3
== run
== ends 5
read fault: t.csv
=====
each exit has its cause: the output cannot be written
== script
2025-03-03T09:00:00,submit,P,ann,,,,
== fails write 0
== run
== ends 6
write fault
=====
plans are listed: a set of two stages, and a program that excludes it
== setup
tables = ["t.csv"]

[[program]]
name = "Q"
table = "t.csv"
group = "k"
sum = "v"

[[program]]
name = "R"
table = "t.csv"
group = "k"
sum = "v"

[[program]]
name = "X"
table = "t.csv"
group = "k"
sum = "v"

[[incompatible]]
program = "X"
with = "S"
scope = "program"

[[manager]]
name = "M"

[[set]]
name = "S"

[[set.stage]]
name = "One"
members = ["Q"]
on_success = "Two"

[[set.stage]]
name = "Two"
members = ["R"]
== script
2025-03-03T09:00:00,submit,S,ann,,,,
2025-03-03T09:00:00,submit,X,ann,,,,
== call plan a.toml a.csv
== ends 0
== prints
1\t50\t2025-03-03T09:00:00\t0\t0\tStandard\tann\tS
2\t50\t2025-03-03T09:00:00\t1\t1\tStandard\tann\tQ
3\t50\t2025-03-03T09:00:00\t1\t2\tStandard\tann\tR
4\t50\t2025-03-03T09:00:00\t0\t0\tStandard\tann\tX
== script
2025-03-03T09:00:00,submit,X,bob,7,2025-03-04T00:00:00,D 1,
2025-03-03T09:00:00,hold,1,ann,,,,
== call plan a.toml a.csv
A priority, a later start and a domain; commands on requests have no line.
== ends 0
== prints
1\t7\t2025-03-04T00:00:00\t0\t0\tD 1\tbob\tX
== script
== clock
== call plan a.toml a.csv
No request, and a clock that is not read.
== ends 0
== prints
== clock
2025-03-03T09:00:00
== table
k,v
a,1
b
== call plan a.toml a.csv
The tables are read.
== ends 3
refused: t.csv: 3: 31
== script
2025-03-03T09:00:00,submit,Y,ann,,,,
== table
== call plan a.toml a.csv
They are read behind the script.
== ends 3
refused: a.csv: 2: 23
== script
== table
k,v
a,10
b,20
a,5
== call plan a.toml b.csv
== ends 4
absent: b.csv
=====
a plan has at most 16,384 requests: a set has a stage of 63 members, all of one program
== setup
tables = ["t.csv"]
[[program]]
name = "P"
table = "t.csv"
group = "k"
sum = "v"
[[incompatible]]
program = "P"
with = "P"
[[manager]]
name = "M"
[[set]]
name = "S"
stage = [{ name = "A", members = [\
"P", "P", "P", "P", "P", "P", "P", "P", "P", "P", "P", "P", "P", "P", "P", "P", \
"P", "P", "P", "P", "P", "P", "P", "P", "P", "P", "P", "P", "P", "P", "P", "P", \
"P", "P", "P", "P", "P", "P", "P", "P", "P", "P", "P", "P", "P", "P", "P", "P", \
"P", "P", "P", "P", "P", "P", "P", "P", "P", "P", "P", "P", "P", "P", "P"] }]
== script
256 times: 2025-03-03T09:00:00,submit,S,ann,,,,
== call plan a.toml a.csv
== ends 0
== prints-lines 16384
== script
256 times: 2025-03-03T09:00:00,submit,S,ann,,,,
2025-03-03T09:00:00,submit,P,ann,,,,
== call plan a.toml a.csv
== ends 3
refused: a.csv: 258: 42
=====
what is generated comes to what another program tells, twice the same
== call make 7 2000
== ends 0
== prints
seed 7
size 2000
requests 2750
events 10501
normal 2015
warning 735
error 0
cancelled 0
terminated 0
== call make 3 20
== ends 0
== prints
seed 3
size 20
requests 26
events 101
normal 19
warning 7
error 0
cancelled 0
terminated 0
== call make 3 20
== ends 0
== prints
seed 3
size 20
requests 26
events 101
normal 19
warning 7
error 0
cancelled 0
terminated 0
== call make 1 4000
== ends 0
== prints
seed 1
size 4000
requests 5323
events 20411
normal 4003
warning 1320
error 0
cancelled 0
terminated 0
"#;
