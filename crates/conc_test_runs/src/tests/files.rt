// What files give, and what they are refused for.
pub(crate) const FILES: &str = r#"lines of a clock may end with CR and LF, and the last one without
== script
2025-03-03T09:00:00,submit,P,ann,,2025-03-03T09:05:00,,
== clock
2025-03-03T09:00:00\r
2025-03-03T09:05:00 !\
== run
== ends 0
== prints
tick 2025-03-03T09:00:00
do 1
tick 2025-03-03T09:05:00
let 1
start 1 1.1
end 1 Normal 0 39
--
1 Completed Normal P
=====
an end tells its report: a value that is no number is an error
== script
2025-03-03T09:00:00,submit,P,ann,,,,
== table
k,v
a,1
a,12x
== run
== ends 0
== prints
tick 2025-03-03T09:00:00
do 1
let 1
start 1 1.1
end 1 Error 0 26
--
1 Completed Error P
=====
an end tells its report: quoted fields, CR, an empty line, a value below 0 and no last LF
== script
2025-03-03T09:00:00,submit,P,ann,,,,
== table
k,v\r
"a,b",1\r
\r
a,-2\
== run
== ends 0
== prints
tick 2025-03-03T09:00:00
do 1
let 1
start 1 1.1
end 1 Normal 0 42
--
1 Completed Normal P
=====
an end tells its report: a table with no row
== script
2025-03-03T09:00:00,submit,P,ann,,,,
== table
k,v
== run
== ends 0
== prints
tick 2025-03-03T09:00:00
do 1
let 1
start 1 1.1
end 1 Normal 0 24
--
1 Completed Normal P
=====
the first broken rule is told: a record has too few fields
== script
2025-03-03T09:00:00,submit,P,ann,,,
== run
== ends 3
refused: a.csv: 2: 20
=====
the first broken rule is told: no command is called start
== script
2025-03-03T09:00:00,start,P,ann,,,,
== run
== ends 3
refused: a.csv: 2: 21
=====
the first broken rule is told: a date is no moment
== script
2025-03-03,submit,P,ann,,,,
== run
== ends 3
refused: a.csv: 2: 22
=====
the first broken rule is told: the setup has no program Q
== script
2025-03-03T09:00:00,submit,Q,ann,,,,
== run
== ends 3
refused: a.csv: 2: 23
=====
the first broken rule is told: there is no request 1 to hold
== script
2025-03-03T09:00:00,hold,1,ann,,,,
== run
== ends 3
refused: a.csv: 2: 24
=====
the first broken rule is told: a record is earlier than the one before it
== script
2025-03-03T09:00:01,submit,P,ann,,,,
2025-03-03T09:00:00,submit,P,ann,,,,
== run
== ends 3
refused: a.csv: 3: 25
=====
the first broken rule is told: a clock has no reading
== clock
== run
== ends 3
refused: a.clock: 1: 22
=====
the first broken rule is told: a reading is earlier than the one before it
== clock
2025-03-03T09:00:00
2025-03-03T09:00:01
2025-03-03T09:00:00
== run
== ends 3
refused: a.clock: 3: 27
=====
the first broken rule is told: a table has no header
== table
== run
== ends 3
refused: t.csv: 1: 30
=====
the first broken rule is told: a row of a table has another number of fields
== table
k,v
a,1
b
== run
== ends 3
refused: t.csv: 3: 31
=====
the first broken rule is told: two columns have one name
== table
k,v,k
a,1
== run
== ends 3
refused: t.csv: 1: 32
=====
the first broken rule is told: a table has no column of the program
== table
k,w
a,1
== run
== ends 3
refused: a.toml: 1: 41
=====
the first broken rule is told: of three files the script is told
== script
2025-03-03T09:00:00,start,P,ann,,,,
== clock
== table
== run
== ends 3
refused: a.csv: 2: 21
=====
the first broken rule is told: of two files the clock is told
== clock
== table
== run
== ends 3
refused: a.clock: 1: 22
=====
files have a greatest length: 4,097 records are too many
== script
4097 times: 2025-03-03T09:00:00,submit,P,ann,,,,
== run
== ends 3
refused: a.csv: 4098: 26
=====
files have a greatest length: 65,537 readings are too many
== clock
65537 times: 2025-03-03T09:00:00
== run
== ends 3
refused: a.clock: 65537: 26
"#;
