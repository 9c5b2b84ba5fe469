// Each kind of refusal, by an input that breaks its rule and no other.
pub(crate) const KINDS: &str = r#"each kind of refusal: a setup that is not TOML
== setup
tables = [
== run
== ends 3
refused: a.toml: 0: 1
== disks-stay
=====
each kind of refusal: a setup that is not UTF-8
== setup
# \xff
tables = ["t.csv"]
== run
== ends 3
refused: a.toml: 0: 1
== disks-stay
=====
each kind of refusal: a key that no program has
== setup
tables = ["t.csv"]
program = [{ name = "P", table = "t.csv", owner = "x" }]
== run
== ends 3
refused: a.toml: 1: 2
== disks-stay
=====
each kind of refusal: a program without a table
== setup
tables = ["t.csv"]
program = [{ name = "P" }]
== run
== ends 3
refused: a.toml: 1: 3
== disks-stay
=====
each kind of refusal: a name that is a number
== setup
tables = ["t.csv"]
program = [{ name = 3, table = "t.csv" }]
== run
== ends 3
refused: a.toml: 1: 4
== disks-stay
=====
each kind of refusal: two programs of one name
== setup
tables = ["t.csv"]
program = [{ name = "P", table = "t.csv" }, { name = "P", table = "t.csv" }]
== run
== ends 3
refused: a.toml: 2: 5
== disks-stay
=====
each kind of refusal: a table that stands twice
== setup
tables = ["t.csv", "t.csv"]
== run
== ends 3
refused: a.toml: 0: 5
== disks-stay
=====
each kind of refusal: an entry with a program that is not there
== setup
tables = ["t.csv"]
program = [{ name = "P", table = "t.csv" }]
incompatible = [{ program = "P", with = "Q" }]
== run
== ends 3
refused: a.toml: 2: 6
== disks-stay
=====
each kind of refusal: a name of 81 bytes
== setup
tables = ["t.csv"]
[[program]]
name = "xxxxxxxxxxxxxxxxxxxxxxxxxxxxxxxxxxxxxxxxxxxxxxxxxxxxxxxxxxxxxxxxxxxxxxxxxxxxxxxxx"
table = "t.csv"
== run
== ends 3
refused: a.toml: 1: 7
== disks-stay
=====
each kind of refusal: a shift with a date and days
== setup
tables = ["t.csv"]
manager = [{ name = "M", shift = [{ date = "2025-03-03", days = ["Mon"], places = 1 }] }]
== run
== ends 3
refused: a.toml: 1: 8
== disks-stay
=====
each kind of refusal: a stage that leads to itself
== setup
tables = ["t.csv"]
program = [{ name = "P", table = "t.csv" }]
manager = [{ name = "M" }]
[[set]]
name = "S"
stage = [{ name = "One", members = ["P"], on_success = "Two" }, { name = "Two", members = ["P"], on_error = "Two" }]
== run
== ends 3
refused: a.toml: 3: 9
== disks-stay
=====
each kind of refusal: 65 tables
== setup
tables = [
65 times: "t.csv",
]
== run
== ends 3
refused: a.toml: 0: 10
== disks-stay
=====
each kind of refusal: a script of no byte
== whole-script
== run
== ends 3
refused: a.csv: 1: 20
== disks-stay
=====
each kind of refusal: a record of seven fields
== script
2025-03-03T09:00:00,submit,P,ann,,,
== run
== ends 3
refused: a.csv: 2: 20
== disks-stay
=====
each kind of refusal: a record that is not UTF-8
== script
2025-03-03T09:00:00,submit,P,\xff,,,,
== run
== ends 3
refused: a.csv: 2: 20
== disks-stay
=====
each kind of refusal: a word that is no command
== script
2025-03-03T09:00:00,start,P,ann,,,,
== run
== ends 3
refused: a.csv: 2: 21
== disks-stay
=====
each kind of refusal: a priority of 100
== script
2025-03-03T09:00:00,submit,P,ann,100,,,
== run
== ends 3
refused: a.csv: 2: 22
== disks-stay
=====
each kind of refusal: a clock of no byte
== clock
== run
== ends 3
refused: a.clock: 1: 22
== disks-stay
=====
each kind of refusal: a submission of what is not there
== script
2025-03-03T09:00:00,submit,Q,ann,,,,
== run
== ends 3
refused: a.csv: 2: 23
== disks-stay
=====
each kind of refusal: a hold of what no record enters
== script
2025-03-03T09:00:00,hold,1,ann,,,,
== run
== ends 3
refused: a.csv: 2: 24
== disks-stay
=====
each kind of refusal: a record before the one above it
== script
2025-03-03T09:00:01,submit,P,ann,,,,
2025-03-03T09:00:00,submit,P,ann,,,,
== run
== ends 3
refused: a.csv: 3: 25
== disks-stay
=====
each kind of refusal: 4,097 commands
== script
4097 times: 2025-03-03T09:00:00,submit,P,ann,,,,
== run
== ends 3
refused: a.csv: 4098: 26
== disks-stay
=====
each kind of refusal: a reading before the one above it
== clock
2025-03-03T09:00:01
2025-03-03T09:00:00
== run
== ends 3
refused: a.clock: 2: 27
== disks-stay
=====
each kind of refusal: a table of no byte
== table
== run
== ends 3
refused: t.csv: 1: 30
== disks-stay
=====
each kind of refusal: a row that is shorter than the header
== table
k,v
a
== run
== ends 3
refused: t.csv: 2: 31
== disks-stay
=====
each kind of refusal: two columns of one name
== table
k,v,k
== run
== ends 3
refused: t.csv: 1: 32
== disks-stay
=====
each kind of refusal: 1,048,577 rows
== table
k
1048577 times: a
== run
== ends 3
refused: t.csv: 1048578: 33
== disks-stay
=====
each kind of refusal: a program over a table that is not listed
== setup
tables = ["t.csv"]
program = [{ name = "P", table = "u.csv" }]
== run
== ends 3
refused: a.toml: 1: 40
== disks-stay
=====
each kind of refusal: a program over a column that its table lacks
== table
k,w
a,1
== run
== ends 3
refused: a.toml: 1: 41
== disks-stay
=====
each kind of refusal: 257 submissions of a set that makes 64 requests
== setup
tables = ["t.csv"]
program = [{ name = "P", table = "t.csv" }]
manager = [{ name = "M" }]
[[set]]
name = "S"
[[set.stage]]
name = "One"
members = [
63 times: "P",
]
== script
257 times: 2025-03-03T09:00:00,submit,S,ann,,,,
== run
== ends 3
refused: a.csv: 258: 42
== disks-stay
"#;
