// What stands on the disks, and what the next calls make of it.
pub(crate) const JOURNALS: &str = r#"what a run left is shown
== script
2025-03-03T09:00:00,submit,P,ann,,,,
2025-03-03T09:00:00,submit,P,ann,,,,
== call status a.toml a.csv
== ends 0
== prints
== call output a.toml a.csv 1
== ends 15
not ended: 1
== run
== ends 0
== prints
tick 2025-03-03T09:00:00
do 1
do 2
let 1
start 1 1.1
end 1 Normal 0 39
let 2
start 2 1.1
end 2 Normal 39 39
--
1 Completed Normal P
2 Completed Normal P
== call status a.toml a.csv
== ends 0
== prints
1 Completed Normal P
2 Completed Normal P
== call output a.toml a.csv 1
== ends 0
== prints
key,count,sum
a,2,15
b,1,20
total,3,35
== call output a.toml a.csv 2
== ends 0
== prints
key,count,sum
a,2,15
b,1,20
total,3,35
== call output a.toml a.csv 3
== ends 15
not ended: 3
== call check a.toml a.csv a.clock b.history
== ends 4
absent: b.history
== call make 3 20
As another program tells it.
== ends 0
== prints
seed 3
size 20
requests 26
events 101
normal 19
warning 7
error 0
cancelled 0
terminated 0
== journal-length 353
=====
a run keeps its journal and its texts
== script
2025-03-03T09:00:00,submit,P,ann,,,,
2025-03-03T09:00:00,submit,P,ann,,,,
== run
The journal has a header, nine records and a closed gate; the first record is a tick at 2025-03-03T09:00:00.
== ends 0
== prints
tick 2025-03-03T09:00:00
do 1
do 2
let 1
start 1 1.1
end 1 Normal 0 39
let 2
start 2 1.1
end 2 Normal 39 39
--
1 Completed Normal P
2 Completed Normal P
== journal-length 353
== journal-at 64
bytes 1 1
zeros 13
bytes 14 223 87 102 144
zeros 12
== spool-text
key,count,sum
a,2,15
b,1,20
total,3,35
key,count,sum
a,2,15
b,1,20
total,3,35
== run
The next run begins a life and has nothing to do in it.
== ends 0
== prints
tick 2025-03-03T09:00:00
do 1
do 2
let 1
start 1 1.1
end 1 Normal 0 39
let 2
start 2 1.1
end 2 Normal 39 39
resume
tick 2025-03-03T09:00:00
--
1 Completed Normal P
2 Completed Normal P
== journal-length 417
== spool-text
key,count,sum
a,2,15
b,1,20
total,3,35
key,count,sum
a,2,15
b,1,20
total,3,35
=====
what ran at a crash is interrupted by the next run: it has no mark for restart
== script
2025-03-03T09:00:00,submit,P,ann,,,,
== run
== ends 0
== journal
first 192
bytes 0
== run
The journal has the start of the request, and not its end.
== ends 0
== prints
tick 2025-03-03T09:00:00
do 1
let 1
start 1 1.1
resume
interrupt 1
tick 2025-03-03T09:00:00
--
1 Completed Error P
== spool-text
key,count,sum
a,2,15
b,1,20
total,3,35
=====
what ran at a crash is interrupted by the next run: with the mark it runs again
== setup
tables = ["t.csv"]
[[program]]
name = "P"
table = "t.csv"
group = "k"
sum = "v"
restart = true
[[manager]]
name = "M"
== script
2025-03-03T09:00:00,submit,P,ann,,,,
== run
== ends 0
== journal
first 192
bytes 0
== run
The journal has the start of the request, and not its end.
== ends 0
== prints
tick 2025-03-03T09:00:00
do 1
let 1
start 1 1.1
resume
interrupt 1
let 1
start 1 1.1
end 1 Normal 0 39
tick 2025-03-03T09:00:00
--
1 Completed Normal P
== spool-text
key,count,sum
a,2,15
b,1,20
total,3,35
=====
a record whose gate is closed is not there, nor is what follows it
== script
2025-03-03T09:00:00,submit,P,ann,,,,
2025-03-03T09:00:00,submit,P,ann,,,,
== run
== journal
put 0 at 320
text any bytes
== run
== ends 0
== prints
tick 2025-03-03T09:00:00
do 1
do 2
let 1
start 1 1.1
end 1 Normal 0 39
let 2
start 2 1.1
resume
interrupt 2
tick 2025-03-03T09:00:00
--
1 Completed Normal P
2 Completed Error P
=====
a journal that is not this run's is refused: its third record is of no kind
== script
2025-03-03T09:00:00,submit,P,ann,,,,
2025-03-03T09:00:00,submit,P,ann,,,,
== run
== journal
put 200 at 129
== run
== ends 13
unlawful record: 3
== disks-stay
=====
a journal that is not this run's is refused: its ninth record is cut
== script
2025-03-03T09:00:00,submit,P,ann,,,,
2025-03-03T09:00:00,submit,P,ann,,,,
== run
== journal
first 340
== run
== ends 13
unlawful record: 9
== disks-stay
=====
a journal that is not this run's is refused: it is a text
== script
2025-03-03T09:00:00,submit,P,ann,,,,
2025-03-03T09:00:00,submit,P,ann,,,,
== run
== journal
first 0
text hello
bytes 10
== run
== ends 9
not a journal
== disks-stay
=====
a journal that is not this run's is refused: the spool is too short for the second text
== script
2025-03-03T09:00:00,submit,P,ann,,,,
2025-03-03T09:00:00,submit,P,ann,,,,
== run
== spool
first 77
== run
== ends 13
unlawful record: 9
== disks-stay
=====
a journal that is not this run's is refused: the setup has one more comment; another program made the digests of all but the script, of which 15 bytes are told
== script
2025-03-03T09:00:00,submit,P,ann,,,,
2025-03-03T09:00:00,submit,P,ann,,,,
== run
== setup
tables = ["t.csv"]
[[program]]
name = "P"
table = "t.csv"
group = "k"
sum = "v"
[[incompatible]]
program = "P"
with = "P"
[[manager]]
name = "M"
# a comment
== run
== ends 10
other input: 4f23328d9c881b4ca18cd561d4f2a20000000000000000000000000000000000 c309a4707cfecf8b869a1730b6bc8c0000000000000000000000000000000000
== disks-stay
=====
a journal without room for a life is refused: it has 1,048,570 records, of ticks at 2025-03-03T09:00:00 and resumes in turn
== script
2025-03-03T10:00:00,submit,P,ann,,,,
== run
== journal
first 64
bytes 1 1
zeros 13
bytes 14 223 87 102 144
zeros 12
bytes 1 9
zeros 30
524285 times from 64
bytes 0
== spool
first 0
== run
== ends 11
journal full: 1048570 13
== disks-stay
=====
what stands on the disks is judged in its order: a disk without a byte is begun
== run
== journal
first 0
== spool
first 0
text texts
== run
== ends 0
== prints
tick 2025-03-03T09:00:00
--
=====
what stands on the disks is judged in its order: a header and a closed gate go on
== run
== journal
first 64
bytes 0
== spool
first 0
text texts
== run
== ends 0
== prints
tick 2025-03-03T09:00:00
--
=====
what stands on the disks is judged in its order: a tick goes on
== run
== journal
first 96
bytes 0
== spool
first 0
text texts
== run
== ends 0
== prints
tick 2025-03-03T09:00:00
resume
tick 2025-03-03T09:00:00
--
=====
what stands on the disks is judged in its order: a resume after a tick goes on
== run
== journal
first 96
bytes 1 9
zeros 31
== spool
first 0
text texts
== run
== ends 0
== prints
tick 2025-03-03T09:00:00
resume
resume
tick 2025-03-03T09:00:00
--
=====
what stands on the disks is judged in its order: of two disks that fail the journal's is told
== run
== journal
first 0
text xx
== spool
first 0
text texts
== fails journal 0
== fails spool 0
== run
== ends 7
disk fault: journal
=====
what stands on the disks is judged in its order: what is no journal is told before the spool's disk
== run
== journal
first 0
text xx
== spool
first 0
text texts
== fails spool 0
== run
== ends 9
not a journal
=====
what stands on the disks is judged in its order: in a journal of version 1 the digest of another input is told before an open gate without a record, and before the spool's disk
== run
== journal
first 16
text abcdefghijklmnopqrstuvwxyz012345
zeros 16
bytes 1
== spool
first 0
text texts
== fails spool 0
== run
== ends 10
other input: 6162636465666768696a6b6c6d6e6f707172737475767778797a303132333435 c422574cc22d1c48adbc2d37fb06714eb0e3f1d25964ca8e48c2033169c7846b
=====
what stands on the disks is judged in its order: the spool's disk is told before an open gate without a record
== run
== journal
first 96
bytes 1
== spool
first 0
text texts
== fails spool 0
== run
== ends 7
disk fault: spool
=====
what stands on the disks is judged in its order: an open gate without a record
== run
== journal
first 96
bytes 1
== spool
first 0
text texts
== run
== ends 13
unlawful record: 2
=====
what stands on the disks is judged in its order: a resume does not stand first
== run
== journal
first 64
bytes 1 9
zeros 31
== spool
first 0
text texts
== run
== ends 13
unlawful record: 1
=====
what stands on the disks is judged in its order: the extent of an end that stands first is of nine bytes
== run
== journal
first 64
bytes 1 8 1 0 0 0 0 1
zeros 15
bytes 9
zeros 9
== spool
first 0
text texts
== run
== ends 13
unlawful record: 1
=====
what stands on the disks is judged in its order: the extent of an end is of nine bytes, which is told before a fault of the journal's disk
== run
== journal
first 96
bytes 1 8 1 0 0 0 0 1
zeros 15
bytes 9
zeros 9
== spool
first 0
text texts
== fails journal 5
== run
== ends 13
unlawful record: 2
=====
what stands on the disks is judged in its order: a fault of the journal's disk behind what it has
== run
== journal
first 96
bytes 0
== spool
first 0
text texts
== fails journal 5
== run
== ends 7
disk fault: journal
"#;

// The run after a run in which this call of the journal's disk fails.
pub(crate) const AFTER_A_FAULT: &str =
    r#"call CALL of the journal's disk fails, and the next run goes on
== script
2025-03-03T09:00:00,submit,P,ann,,,,
2025-03-03T09:00:00,submit,P,ann,,,,
== fails journal CALL
== run
== ends 7
disk fault: journal
== run
== ends 0
=====
call CALL of the journal's disk fails in a run with 4 threads, and the next run goes on with 32
== script
2025-03-03T09:00:00,submit,P,ann,,,,
2025-03-03T09:00:00,submit,P,ann,,,,
== fails journal CALL
== call run a.toml a.csv a.clock --threads 4
== ends 7
disk fault: journal
== call run a.toml a.csv a.clock --threads 32
== ends 0
"#;
