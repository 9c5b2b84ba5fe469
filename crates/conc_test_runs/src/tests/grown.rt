// Scripts that grew since the last run, and other ones. Another program made the digests and the stamps.
pub(crate) const GROWN: &str =
    r#"a script may grow: the run goes on, and the journal has the stamp of each command
== script
2025-03-03T09:00:00,submit,P,ann,,,,
2025-03-03T09:00:00,submit,P,ann,,,,
== run
== ends 0
== journal-length 353
== journal-at 0
bytes 1
text conc journal 1
bytes 10
bytes 225 255 188 191 254 4 216 38 249 172 44 86 109 234 255 168 30 148 168 110 32 240 253 182 130 119 162 245 120 24 89 173
bytes 79 35 50 141 156 136 27 76 161 140 213 97 212 242 162 1
bytes 1 1 0 0 0 0 0 0 0 0 0 0 0 0 0 14 223 87 102 144 0 0 0 0 0 0 0 0 0 0 0 0
bytes 1 2 0 0 0 0 0 1 0 0 0 0 28 114 212 251 147 134 3 194 0 0 0 0 0 0 0 0 0 0 0 0
bytes 1 2 0 0 0 0 0 2 0 0 0 0 196 223 247 107 215 158 48 8 0 0 0 0 0 0 0 0 0 0 0 0
== script
2025-03-03T09:00:00,submit,P,ann,,,,
2025-03-03T09:00:00,submit,P,ann,,,,
2025-03-03T10:00:00,submit,P,ann,,,,
== clock
2025-03-03T09:00:00
2025-03-03T10:00:00
== run
== ends 0
== prints
tick 2025-03-03T09:00:00
do 1
do 2
let 1
start 1 1.1
end 1 Normal 0 39
let 2
start 2 1.1
end 2 Normal 39 39
resume
tick 2025-03-03T09:00:00
tick 2025-03-03T10:00:00
do 3
let 3
start 3 1.1
end 3 Normal 78 39
--
1 Completed Normal P
2 Completed Normal P
3 Completed Normal P
== judged
lawful 16 finished
== goes-on
== starts-once
== journal-length 577
== journal-at 0
bytes 1
text conc journal 1
bytes 10
bytes 225 255 188 191 254 4 216 38 249 172 44 86 109 234 255 168 30 148 168 110 32 240 253 182 130 119 162 245 120 24 89 173
bytes 79 35 50 141 156 136 27 76 161 140 213 97 212 242 162 1
bytes 1 1 0 0 0 0 0 0 0 0 0 0 0 0 0 14 223 87 102 144 0 0 0 0 0 0 0 0 0 0 0 0
bytes 1 2 0 0 0 0 0 1 0 0 0 0 28 114 212 251 147 134 3 194 0 0 0 0 0 0 0 0 0 0 0 0
bytes 1 2 0 0 0 0 0 2 0 0 0 0 196 223 247 107 215 158 48 8 0 0 0 0 0 0 0 0 0 0 0 0
== journal-at 448
bytes 1 2 0 0 0 0 0 3 0 0 0 0 215 42 211 85 101 74 20 106 0 0 0 0 0 0 0 0 0 0 0 0
== spool-text
key,count,sum
a,2,15
b,1,20
total,3,35
key,count,sum
a,2,15
b,1,20
total,3,35
key,count,sum
a,2,15
b,1,20
total,3,35
== call status a.toml a.csv
== ends 0
== prints
1 Completed Normal P
2 Completed Normal P
3 Completed Normal P
== call output a.toml a.csv 3
== ends 0
== prints
key,count,sum
a,2,15
b,1,20
total,3,35
=====
a script may grow: with 4 threads, and 2 watchers
== script
2025-03-03T09:00:00,submit,P,ann,,,,
2025-03-03T09:00:00,submit,P,ann,,,,
== call run a.toml a.csv a.clock --threads 4
== ends 0
== script
2025-03-03T09:00:00,submit,P,ann,,,,
2025-03-03T09:00:00,submit,P,ann,,,,
2025-03-03T10:00:00,submit,P,ann,,,,
== clock
2025-03-03T09:00:00
2025-03-03T10:00:00
== call run a.toml a.csv a.clock --threads 4 --watch 2
== ends 0
== watched 2
tick 2025-03-03T09:00:00
do 1
do 2
let 1
start 1 1.1
end 1 Normal 0 39
let 2
start 2 1.1
end 2 Normal 39 39
resume
tick 2025-03-03T09:00:00
tick 2025-03-03T10:00:00
do 3
let 3
start 3 1.1
end 3 Normal 78 39
--
1 Completed Normal P
2 Completed Normal P
3 Completed Normal P
== journal-length 577
== journal-at 0
bytes 1
text conc journal 1
bytes 10
bytes 225 255 188 191 254 4 216 38 249 172 44 86 109 234 255 168 30 148 168 110 32 240 253 182 130 119 162 245 120 24 89 173
bytes 79 35 50 141 156 136 27 76 161 140 213 97 212 242 162 1
bytes 1 1 0 0 0 0 0 0 0 0 0 0 0 0 0 14 223 87 102 144 0 0 0 0 0 0 0 0 0 0 0 0
bytes 1 2 0 0 0 0 0 1 0 0 0 0 28 114 212 251 147 134 3 194 0 0 0 0 0 0 0 0 0 0 0 0
bytes 1 2 0 0 0 0 0 2 0 0 0 0 196 223 247 107 215 158 48 8 0 0 0 0 0 0 0 0 0 0 0 0
== journal-at 448
bytes 1 2 0 0 0 0 0 3 0 0 0 0 215 42 211 85 101 74 20 106 0 0 0 0 0 0 0 0 0 0 0 0
== spool-text
key,count,sum
a,2,15
b,1,20
total,3,35
key,count,sum
a,2,15
b,1,20
total,3,35
key,count,sum
a,2,15
b,1,20
total,3,35
=====
a script may grow: before the next run status and output tell of the commands that were done
== script
2025-03-03T09:00:00,submit,P,ann,,,,
2025-03-03T09:00:00,submit,P,ann,,,,
== run
== script
2025-03-03T09:00:00,submit,P,ann,,,,
2025-03-03T09:00:00,submit,P,ann,,,,
2025-03-03T10:00:00,submit,P,ann,,,,
== call status a.toml a.csv
== ends 0
== prints
1 Completed Normal P
2 Completed Normal P
== disks-stay
== call output a.toml a.csv 2
== ends 0
== prints
key,count,sum
a,2,15
b,1,20
total,3,35
== disks-stay
== call output a.toml a.csv 3
== ends 15
not ended: 3
== disks-stay
=====
a script may grow twice, and each further command has its stamp
== script
2025-03-03T09:00:00,submit,P,ann,,,,
== run
== ends 0
== script
2025-03-03T09:00:00,submit,P,ann,,,,
2025-03-03T10:00:00,submit,P,ann,,,,
== clock
2025-03-03T09:00:00
2025-03-03T10:00:00
== run
== ends 0
== script
2025-03-03T09:00:00,submit,P,ann,,,,
2025-03-03T10:00:00,submit,P,ann,,,,
2025-03-03T11:00:00,submit,P,bob,7,2025-03-03T12:00:00,D 1,x
2025-03-03T11:00:00,hold,3,,,,,
== clock
2025-03-03T11:00:00
2025-03-03T12:00:00
== run
== ends 0
== prints
tick 2025-03-03T09:00:00
do 1
let 1
start 1 1.1
end 1 Normal 0 39
resume
tick 2025-03-03T09:00:00
tick 2025-03-03T10:00:00
do 2
let 2
start 2 1.1
end 2 Normal 39 39
resume
tick 2025-03-03T11:00:00
do 3
do 4
tick 2025-03-03T12:00:00
--
1 Completed Normal P
2 Completed Normal P
3 Inactive On Hold P
== judged
lawful 17 finished
== goes-on
== starts-once
== journal-at 96
bytes 1 2 0 0 0 0 0 1 0 0 0 0 28 114 212 251 147 134 3 194 0 0 0 0 0 0 0 0 0 0 0 0
== journal-at 320
bytes 1 2 0 0 0 0 0 2 0 0 0 0 190 16 50 216 15 244 42 64 0 0 0 0 0 0 0 0 0 0 0 0
== journal-at 512
bytes 1 2 0 0 0 0 0 3 0 0 0 0 199 104 23 51 186 230 169 122 0 0 0 0 0 0 0 0 0 0 0 0
bytes 1 2 0 0 0 0 0 4 0 0 0 0 105 71 26 62 31 145 221 2 0 0 0 0 0 0 0 0 0 0 0 0
=====
a command that should have come before a record of the journal is told by that record
== script
2025-03-03T09:00:00,submit,P,ann,,,,
2025-03-03T09:00:00,submit,P,ann,,,,
== run
== script
2025-03-03T09:00:00,submit,P,ann,,,,
2025-03-03T09:00:00,submit,P,ann,,,,
2025-03-03T09:00:00,submit,P,ann,,,,
== run
== ends 13
unlawful record: 4
== disks-stay
== call status a.toml a.csv
== ends 13
unlawful record: 4
== disks-stay
=====
a command that should have come before no record is done by the next run
== script
2025-03-03T09:00:00,submit,P,ann,,,,
2025-03-03T09:00:00,submit,P,ann,,,,
== run
== journal
first 160
bytes 0
== spool
first 0
== script
2025-03-03T09:00:00,submit,P,ann,,,,
2025-03-03T09:00:00,submit,P,ann,,,,
2025-03-03T09:00:00,submit,P,ann,,,,
== run
== ends 0
== prints
tick 2025-03-03T09:00:00
do 1
do 2
resume
do 3
let 1
start 1 1.1
end 1 Normal 0 39
let 2
start 2 1.1
end 2 Normal 39 39
let 3
start 3 1.1
end 3 Normal 78 39
tick 2025-03-03T09:00:00
--
1 Completed Normal P
2 Completed Normal P
3 Completed Normal P
== judged
lawful 15 finished
=====
a request that ran at a crash is interrupted before the commands of a script that grew
== script
2025-03-03T09:00:00,submit,P,ann,,,,
2025-03-03T09:00:00,submit,P,ann,,,,
== run
== journal
first 224
bytes 0
== spool
first 0
== script
2025-03-03T09:00:00,submit,P,ann,,,,
2025-03-03T09:00:00,submit,P,ann,,,,
2025-03-03T10:00:00,submit,P,ann,,,,
== clock
2025-03-03T09:00:00
2025-03-03T10:00:00
== run
== ends 0
== prints
tick 2025-03-03T09:00:00
do 1
do 2
let 1
start 1 1.1
resume
interrupt 1
let 2
start 2 1.1
end 2 Normal 0 39
tick 2025-03-03T09:00:00
tick 2025-03-03T10:00:00
do 3
let 3
start 3 1.1
end 3 Normal 39 39
--
1 Completed Error P
2 Completed Normal P
3 Completed Normal P
== judged
lawful 16 finished
== goes-on
"#;

// What is not the script of the run that began the journal, nor a longer one.
pub(crate) const OTHER: &str =
    r#"another script is told by the first command that was done and is another one: the user of command 1 is another one
== script
2025-03-03T09:00:00,submit,P,ann,,,,
2025-03-03T09:00:00,submit,P,ann,,,,
== run
== script
2025-03-03T09:00:00,submit,P,bob,,,,
2025-03-03T09:00:00,submit,P,ann,,,,
== run
== ends 16
other script: 1
== other-stamps 2049934957383910338 2859935939216515390
== disks-stay
== call status a.toml a.csv
== ends 16
other script: 1
== disks-stay
== call output a.toml a.csv 1
== ends 16
other script: 1
== disks-stay
== call run a.toml a.csv a.clock --threads 4
== ends 16
other script: 1
== disks-stay
=====
another script is told by the first command that was done and is another one: the priority of command 2 is another one
== script
2025-03-03T09:00:00,submit,P,ann,,,,
2025-03-03T09:00:00,submit,P,ann,,,,
== run
== script
2025-03-03T09:00:00,submit,P,ann,,,,
2025-03-03T09:00:00,submit,P,ann,49,,,
== run
== ends 16
other script: 2
== other-stamps 14186329393791381512 12020536901168028536
== disks-stay
== call status a.toml a.csv
== ends 16
other script: 2
== disks-stay
== call output a.toml a.csv 1
== ends 16
other script: 2
== disks-stay
== call run a.toml a.csv a.clock --threads 4
== ends 16
other script: 2
== disks-stay
=====
another script is told by the first command that was done and is another one: command 2 is a hold
== script
2025-03-03T09:00:00,submit,P,ann,,,,
2025-03-03T09:00:00,submit,P,ann,,,,
== run
== script
2025-03-03T09:00:00,submit,P,ann,,,,
2025-03-03T09:00:00,hold,1,ann,,,,
== run
== ends 16
other script: 2
== other-stamps 14186329393791381512 16777989802814758104
== disks-stay
== call status a.toml a.csv
== ends 16
other script: 2
== disks-stay
== call output a.toml a.csv 1
== ends 16
other script: 2
== disks-stay
== call run a.toml a.csv a.clock --threads 4
== ends 16
other script: 2
== disks-stay
=====
another script is told by the first command that was done and is another one: there is no command 2
== script
2025-03-03T09:00:00,submit,P,ann,,,,
2025-03-03T09:00:00,submit,P,ann,,,,
== run
== script
2025-03-03T09:00:00,submit,P,ann,,,,
== run
== ends 16
other script: 2
== other-stamps 14186329393791381512 0
== disks-stay
== call status a.toml a.csv
== ends 16
other script: 2
== disks-stay
== call output a.toml a.csv 1
== ends 16
other script: 2
== disks-stay
== call run a.toml a.csv a.clock --threads 4
== ends 16
other script: 2
== disks-stay
=====
another script is told by the first command that was done and is another one: there is no command
== script
2025-03-03T09:00:00,submit,P,ann,,,,
2025-03-03T09:00:00,submit,P,ann,,,,
== run
== script
== run
== ends 16
other script: 1
== other-stamps 2049934957383910338 0
== disks-stay
== call status a.toml a.csv
== ends 16
other script: 1
== disks-stay
== call output a.toml a.csv 1
== ends 16
other script: 1
== disks-stay
== call run a.toml a.csv a.clock --threads 4
== ends 16
other script: 1
== disks-stay
=====
another script is told by the first command that was done and is another one: there is one more command before the first
== script
2025-03-03T09:00:00,submit,P,ann,,,,
2025-03-03T09:00:00,submit,P,ann,,,,
== run
== script
2025-03-03T08:00:00,submit,P,ann,,,,
2025-03-03T09:00:00,submit,P,ann,,,,
2025-03-03T09:00:00,submit,P,ann,,,,
== run
== ends 16
other script: 1
== other-stamps 2049934957383910338 11647455880270414568
== disks-stay
== call status a.toml a.csv
== ends 16
other script: 1
== disks-stay
== call output a.toml a.csv 1
== ends 16
other script: 1
== disks-stay
== call run a.toml a.csv a.clock --threads 4
== ends 16
other script: 1
== disks-stay
=====
another script is told by the stamp in the journal: a byte of the second one is changed
== script
2025-03-03T09:00:00,submit,P,ann,,,,
2025-03-03T09:00:00,submit,P,ann,,,,
== run
== journal
put 0 at 147
== run
== ends 16
other script: 2
== disks-stay
=====
another script is told by the number of no command: it is 9
== script
2025-03-03T09:00:00,submit,P,ann,,,,
2025-03-03T09:00:00,submit,P,ann,,,,
== run
== journal
put 9 at 103
== run
== ends 16
other script: 9
== other-stamps 2049934957383910338 0
== disks-stay
=====
another script is told by the number of no command: it is 0
== script
2025-03-03T09:00:00,submit,P,ann,,,,
2025-03-03T09:00:00,submit,P,ann,,,,
== run
== journal
put 0 at 103
== run
== ends 16
other script: 0
== other-stamps 2049934957383910338 0
== disks-stay
=====
another script is no script that is spelled in another way: the defaults are written, and who holds does not count
== script
2025-03-03T09:00:00,submit,P,ann,,,,
2025-03-03T09:00:00,hold,1,ann,,,,
== run
== ends 0
== script
2025-03-03T09:00:00,"submit",P,ann,50,2025-03-03T09:00:00,Standard,
2025-03-03T09:00:00,hold,1,bob,,,,
== run
== ends 0
== prints
tick 2025-03-03T09:00:00
do 1
do 2
resume
tick 2025-03-03T09:00:00
--
1 Inactive On Hold P
=====
another script is told before the spool's disk and before a record that is broken
== script
2025-03-03T09:00:00,submit,P,ann,,,,
2025-03-03T09:00:00,submit,P,ann,,,,
== run
== journal
put 200 at 289
== script
2025-03-03T09:00:00,submit,P,bob,,,,
2025-03-03T09:00:00,submit,P,ann,,,,
== fails spool 0
== run
== ends 16
other script: 1
== disks-stay
=====
another script is not told by the commands behind a record that is broken
== script
2025-03-03T09:00:00,submit,P,ann,,,,
2025-03-03T09:00:00,submit,P,ann,,,,
== run
== journal
put 200 at 65
== script
2025-03-03T09:00:00,submit,P,bob,,,,
2025-03-03T09:00:00,submit,P,ann,,,,
== run
== ends 13
unlawful record: 1
== disks-stay
=====
another script is told behind another setup
== script
2025-03-03T09:00:00,submit,P,ann,,,,
2025-03-03T09:00:00,submit,P,ann,,,,
== run
== script
2025-03-03T09:00:00,submit,P,bob,,,,
== setup
tables = ["t.csv"]
[[program]]
name = "P"
table = "t.csv"
group = "k"
sum = "v"
[[incompatible]]
program = "P"
with = "P"
[[manager]]
name = "M"
# a comment
== run
== ends 10
other input: 4f23328d9c881b4ca18cd561d4f2a20000000000000000000000000000000000 c309a4707cfecf8b869a1730b6bc8c0000000000000000000000000000000000
== disks-stay
=====
another table is told, and the script does not count
== script
2025-03-03T09:00:00,submit,P,ann,,,,
2025-03-03T09:00:00,submit,P,ann,,,,
== run
== script
2025-03-03T09:00:00,submit,P,ann,,,,
2025-03-03T09:00:00,submit,P,ann,,,,
2025-03-03T10:00:00,submit,P,ann,,,,
== table
k,v
a,10
b,20
a,5
c,1
== run
== ends 10
other input: 4f23328d9c881b4ca18cd561d4f2a20000000000000000000000000000000000 129ad516f4c3176d8f8dc6fa49c0130000000000000000000000000000000000
== disks-stay
"#;
