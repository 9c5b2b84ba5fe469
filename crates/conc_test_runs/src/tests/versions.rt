// Journals of version 1, byte by byte, and the gate of version 2. Another program made the digests and the stamps.
pub(crate) const VERSIONS: &str =
    r#"a journal of version 1 is brought to version 2: with the same files
== script
2025-03-03T09:00:00,submit,P,ann,,,,
2025-03-03T09:00:00,submit,P,ann,,,,
== journal
bytes 1
text conc journal 1
bytes 10
bytes 225 255 188 191 254 4 216 38 249 172 44 86 109 234 255 168 30 148 168 110 32 240 253 182 130 119 162 245 120 24 89 173
zeros 16
bytes 1 1 0 0 0 0 0 0 0 0 0 0 0 0 0 14 223 87 102 144 0 0 0 0 0 0 0 0 0 0 0 0
bytes 1 2 0 0 0 0 0 1 0 0 0 0 0 0 0 0 0 0 0 0 0 0 0 0 0 0 0 0 0 0 0 0
bytes 1 2 0 0 0 0 0 2 0 0 0 0 0 0 0 0 0 0 0 0 0 0 0 0 0 0 0 0 0 0 0 0
bytes 1 6 0 0 0 0 0 1 0 0 0 0 0 0 0 0 0 0 0 0 0 0 0 0 0 0 0 0 0 0 0 0
bytes 1 7 0 0 0 0 0 1 0 0 0 0 0 0 0 0 0 0 0 0 0 0 0 0 0 0 0 0 0 0 0 0
bytes 1 8 1 0 0 0 0 1 0 0 0 0 0 0 0 0 0 0 0 0 0 0 0 39 0 0 0 0 0 0 0 0
bytes 1 6 0 0 0 0 0 2 0 0 0 0 0 0 0 0 0 0 0 0 0 0 0 0 0 0 0 0 0 0 0 0
bytes 1 7 0 0 0 0 0 2 0 0 0 0 0 0 0 0 0 0 0 0 0 0 0 0 0 0 0 0 0 0 0 0
bytes 1 8 1 0 0 0 0 2 0 0 0 0 0 0 0 0 0 0 0 39 0 0 0 39 0 0 0 0 0 0 0 0
bytes 0
== spool
text key,count,sum
bytes 10
text a,2,15
bytes 10
text b,1,20
bytes 10
text total,3,35
bytes 10
text key,count,sum
bytes 10
text a,2,15
bytes 10
text b,1,20
bytes 10
text total,3,35
bytes 10
== call status a.toml a.csv
== ends 0
== prints
1 Completed Normal P
2 Completed Normal P
== disks-stay
== call output a.toml a.csv 2
== ends 0
== prints
key,count,sum
a,2,15
b,1,20
total,3,35
== disks-stay
== run
== ends 0
== prints
tick 2025-03-03T09:00:00
do 1
do 2
let 1
start 1 1.1
end 1 Normal 0 39
let 2
start 2 1.1
end 2 Normal 39 39
resume
tick 2025-03-03T09:00:00
--
1 Completed Normal P
2 Completed Normal P
== judged
lawful 11 finished
== goes-on
== starts-once
== journal-length 417
== journal-at 0
bytes 1
text conc journal 1
bytes 10
bytes 225 255 188 191 254 4 216 38 249 172 44 86 109 234 255 168 30 148 168 110 32 240 253 182 130 119 162 245 120 24 89 173
bytes 79 35 50 141 156 136 27 76 161 140 213 97 212 242 162 1
bytes 1 1 0 0 0 0 0 0 0 0 0 0 0 0 0 14 223 87 102 144 0 0 0 0 0 0 0 0 0 0 0 0
bytes 1 2 0 0 0 0 0 1 0 0 0 0 28 114 212 251 147 134 3 194 0 0 0 0 0 0 0 0 0 0 0 0
bytes 1 2 0 0 0 0 0 2 0 0 0 0 196 223 247 107 215 158 48 8 0 0 0 0 0 0 0 0 0 0 0 0
== journal-at 160
bytes 1 6 0 0 0 0 0 1 0 0 0 0 0 0 0 0 0 0 0 0 0 0 0 0 0 0 0 0 0 0 0 0
bytes 1 7 0 0 0 0 0 1 0 0 0 0 0 0 0 0 0 0 0 0 0 0 0 0 0 0 0 0 0 0 0 0
bytes 1 8 1 0 0 0 0 1 0 0 0 0 0 0 0 0 0 0 0 0 0 0 0 39 0 0 0 0 0 0 0 0
bytes 1 6 0 0 0 0 0 2 0 0 0 0 0 0 0 0 0 0 0 0 0 0 0 0 0 0 0 0 0 0 0 0
bytes 1 7 0 0 0 0 0 2 0 0 0 0 0 0 0 0 0 0 0 0 0 0 0 0 0 0 0 0 0 0 0 0
bytes 1 8 1 0 0 0 0 2 0 0 0 0 0 0 0 0 0 0 0 39 0 0 0 39 0 0 0 0 0 0 0 0
bytes 1 9 0 0 0 0 0 0 0 0 0 0 0 0 0 0 0 0 0 0 0 0 0 0 0 0 0 0 0 0 0 0
bytes 1 1 0 0 0 0 0 0 0 0 0 0 0 0 0 14 223 87 102 144 0 0 0 0 0 0 0 0 0 0 0 0
bytes 0
== script
2025-03-03T09:00:00,submit,P,ann,,,,
2025-03-03T09:00:00,submit,P,ann,,,,
2025-03-03T10:00:00,submit,P,ann,,,,
== clock
2025-03-03T09:00:00
2025-03-03T10:00:00
== run
== ends 0
== prints
tick 2025-03-03T09:00:00
do 1
do 2
let 1
start 1 1.1
end 1 Normal 0 39
let 2
start 2 1.1
end 2 Normal 39 39
resume
tick 2025-03-03T09:00:00
resume
tick 2025-03-03T09:00:00
tick 2025-03-03T10:00:00
do 3
let 3
start 3 1.1
end 3 Normal 78 39
--
1 Completed Normal P
2 Completed Normal P
3 Completed Normal P
== judged
lawful 18 finished
=====
a journal of version 1 is brought to version 2: with 4 threads, and a request that ran at a crash
== script
2025-03-03T09:00:00,submit,P,ann,,,,
2025-03-03T09:00:00,submit,P,ann,,,,
== journal
bytes 1
text conc journal 1
bytes 10
bytes 225 255 188 191 254 4 216 38 249 172 44 86 109 234 255 168 30 148 168 110 32 240 253 182 130 119 162 245 120 24 89 173
zeros 16
bytes 1 1 0 0 0 0 0 0 0 0 0 0 0 0 0 14 223 87 102 144 0 0 0 0 0 0 0 0 0 0 0 0
bytes 1 2 0 0 0 0 0 1 0 0 0 0 0 0 0 0 0 0 0 0 0 0 0 0 0 0 0 0 0 0 0 0
bytes 1 2 0 0 0 0 0 2 0 0 0 0 0 0 0 0 0 0 0 0 0 0 0 0 0 0 0 0 0 0 0 0
bytes 1 6 0 0 0 0 0 1 0 0 0 0 0 0 0 0 0 0 0 0 0 0 0 0 0 0 0 0 0 0 0 0
bytes 1 7 0 0 0 0 0 1 0 0 0 0 0 0 0 0 0 0 0 0 0 0 0 0 0 0 0 0 0 0 0 0
bytes 0
== call run a.toml a.csv a.clock --threads 4
== ends 0
== prints
tick 2025-03-03T09:00:00
do 1
do 2
let 1
start 1 1.1
resume
interrupt 1
let 2
start 2 1.1
end 2 Normal 0 39
tick 2025-03-03T09:00:00
--
1 Completed Error P
2 Completed Normal P
== judged
lawful 11 finished
== goes-on
== journal-at 0
bytes 1
text conc journal 1
bytes 10
bytes 225 255 188 191 254 4 216 38 249 172 44 86 109 234 255 168 30 148 168 110 32 240 253 182 130 119 162 245 120 24 89 173
bytes 79 35 50 141 156 136 27 76 161 140 213 97 212 242 162 1
bytes 1 1 0 0 0 0 0 0 0 0 0 0 0 0 0 14 223 87 102 144 0 0 0 0 0 0 0 0 0 0 0 0
bytes 1 2 0 0 0 0 0 1 0 0 0 0 28 114 212 251 147 134 3 194 0 0 0 0 0 0 0 0 0 0 0 0
bytes 1 2 0 0 0 0 0 2 0 0 0 0 196 223 247 107 215 158 48 8 0 0 0 0 0 0 0 0 0 0 0 0
=====
a journal of version 1 is refused where the script has grown
== script
2025-03-03T09:00:00,submit,P,ann,,,,
2025-03-03T09:00:00,submit,P,ann,,,,
2025-03-03T10:00:00,submit,P,ann,,,,
== journal
bytes 1
text conc journal 1
bytes 10
bytes 225 255 188 191 254 4 216 38 249 172 44 86 109 234 255 168 30 148 168 110 32 240 253 182 130 119 162 245 120 24 89 173
zeros 16
bytes 1 1 0 0 0 0 0 0 0 0 0 0 0 0 0 14 223 87 102 144 0 0 0 0 0 0 0 0 0 0 0 0
bytes 1 2 0 0 0 0 0 1 0 0 0 0 0 0 0 0 0 0 0 0 0 0 0 0 0 0 0 0 0 0 0 0
bytes 1 2 0 0 0 0 0 2 0 0 0 0 0 0 0 0 0 0 0 0 0 0 0 0 0 0 0 0 0 0 0 0
bytes 1 6 0 0 0 0 0 1 0 0 0 0 0 0 0 0 0 0 0 0 0 0 0 0 0 0 0 0 0 0 0 0
bytes 1 7 0 0 0 0 0 1 0 0 0 0 0 0 0 0 0 0 0 0 0 0 0 0 0 0 0 0 0 0 0 0
bytes 1 8 1 0 0 0 0 1 0 0 0 0 0 0 0 0 0 0 0 0 0 0 0 39 0 0 0 0 0 0 0 0
bytes 1 6 0 0 0 0 0 2 0 0 0 0 0 0 0 0 0 0 0 0 0 0 0 0 0 0 0 0 0 0 0 0
bytes 1 7 0 0 0 0 0 2 0 0 0 0 0 0 0 0 0 0 0 0 0 0 0 0 0 0 0 0 0 0 0 0
bytes 1 8 1 0 0 0 0 2 0 0 0 0 0 0 0 0 0 0 0 39 0 0 0 39 0 0 0 0 0 0 0 0
bytes 0
== spool
text key,count,sum
bytes 10
text a,2,15
bytes 10
text b,1,20
bytes 10
text total,3,35
bytes 10
text key,count,sum
bytes 10
text a,2,15
bytes 10
text b,1,20
bytes 10
text total,3,35
bytes 10
== clock
2025-03-03T09:00:00
2025-03-03T10:00:00
== run
== ends 10
other input: e1ffbcbffe04d826f9ac2c566deaffa81e94a86e20f0fdb68277a2f5781859ad f01c4e38eb5c2ff4d1dc77d09c0c595b45dda0b6a928fc616f2e0b59a6117481
== disks-stay
== call status a.toml a.csv
== ends 10
other input: e1ffbcbffe04d826f9ac2c566deaffa81e94a86e20f0fdb68277a2f5781859ad f01c4e38eb5c2ff4d1dc77d09c0c595b45dda0b6a928fc616f2e0b59a6117481
== disks-stay
== call output a.toml a.csv 1
== ends 10
other input: e1ffbcbffe04d826f9ac2c566deaffa81e94a86e20f0fdb68277a2f5781859ad f01c4e38eb5c2ff4d1dc77d09c0c595b45dda0b6a928fc616f2e0b59a6117481
== disks-stay
=====
a journal of version 1 may have anything where version 2 has the base digest and the stamps
== script
2025-03-03T09:00:00,submit,P,ann,,,,
2025-03-03T09:00:00,submit,P,ann,,,,
== journal
bytes 1
text conc journal 1
bytes 10
bytes 225 255 188 191 254 4 216 38 249 172 44 86 109 234 255 168 30 148 168 110 32 240 253 182 130 119 162 245 120 24 89 173
text fifteen letters
bytes 0
bytes 1 1 0 0 0 0 0 0 0 0 0 0 0 0 0 14 223 87 102 144 0 0 0 0 0 0 0 0 0 0 0 0
bytes 1 2 0 0 0 0 0 1 0 0 0 0 255 255 255 255 255 255 255 255 0 0 0 0 0 0 0 0 0 0 0 0
bytes 1 2 0 0 0 0 0 2 0 0 0 0 0 0 0 0 0 0 0 7 0 0 0 0 0 0 0 0 0 0 0 0
bytes 0
== call status a.toml a.csv
== ends 0
== disks-stay
== run
== ends 0
== goes-on
== journal-length 417
== journal-at 0
bytes 1
text conc journal 1
bytes 10
bytes 225 255 188 191 254 4 216 38 249 172 44 86 109 234 255 168 30 148 168 110 32 240 253 182 130 119 162 245 120 24 89 173
bytes 79 35 50 141 156 136 27 76 161 140 213 97 212 242 162 1
bytes 1 1 0 0 0 0 0 0 0 0 0 0 0 0 0 14 223 87 102 144 0 0 0 0 0 0 0 0 0 0 0 0
bytes 1 2 0 0 0 0 0 1 0 0 0 0 28 114 212 251 147 134 3 194 0 0 0 0 0 0 0 0 0 0 0 0
bytes 1 2 0 0 0 0 0 2 0 0 0 0 196 223 247 107 215 158 48 8 0 0 0 0 0 0 0 0 0 0 0 0
=====
a journal of version 1 stays as it is where a run is refused: its third record is of no kind
== script
2025-03-03T09:00:00,submit,P,ann,,,,
2025-03-03T09:00:00,submit,P,ann,,,,
== journal
bytes 1
text conc journal 1
bytes 10
bytes 225 255 188 191 254 4 216 38 249 172 44 86 109 234 255 168 30 148 168 110 32 240 253 182 130 119 162 245 120 24 89 173
zeros 16
bytes 1 1 0 0 0 0 0 0 0 0 0 0 0 0 0 14 223 87 102 144 0 0 0 0 0 0 0 0 0 0 0 0
bytes 1 2 0 0 0 0 0 1 0 0 0 0 0 0 0 0 0 0 0 0 0 0 0 0 0 0 0 0 0 0 0 0
bytes 1 2 0 0 0 0 0 2 0 0 0 0 0 0 0 0 0 0 0 0 0 0 0 0 0 0 0 0 0 0 0 0
bytes 1 6 0 0 0 0 0 1 0 0 0 0 0 0 0 0 0 0 0 0 0 0 0 0 0 0 0 0 0 0 0 0
bytes 1 7 0 0 0 0 0 1 0 0 0 0 0 0 0 0 0 0 0 0 0 0 0 0 0 0 0 0 0 0 0 0
bytes 1 8 1 0 0 0 0 1 0 0 0 0 0 0 0 0 0 0 0 0 0 0 0 39 0 0 0 0 0 0 0 0
bytes 1 6 0 0 0 0 0 2 0 0 0 0 0 0 0 0 0 0 0 0 0 0 0 0 0 0 0 0 0 0 0 0
bytes 1 7 0 0 0 0 0 2 0 0 0 0 0 0 0 0 0 0 0 0 0 0 0 0 0 0 0 0 0 0 0 0
bytes 1 8 1 0 0 0 0 2 0 0 0 0 0 0 0 0 0 0 0 39 0 0 0 39 0 0 0 0 0 0 0 0
bytes 0
== spool
text key,count,sum
bytes 10
text a,2,15
bytes 10
text b,1,20
bytes 10
text total,3,35
bytes 10
text key,count,sum
bytes 10
text a,2,15
bytes 10
text b,1,20
bytes 10
text total,3,35
bytes 10
== journal
put 200 at 129
== run
== ends 13
unlawful record: 3
== disks-stay
=====
a journal of version 1 stays as it is where a run is refused: the spool is too short
== script
2025-03-03T09:00:00,submit,P,ann,,,,
2025-03-03T09:00:00,submit,P,ann,,,,
== journal
bytes 1
text conc journal 1
bytes 10
bytes 225 255 188 191 254 4 216 38 249 172 44 86 109 234 255 168 30 148 168 110 32 240 253 182 130 119 162 245 120 24 89 173
zeros 16
bytes 1 1 0 0 0 0 0 0 0 0 0 0 0 0 0 14 223 87 102 144 0 0 0 0 0 0 0 0 0 0 0 0
bytes 1 2 0 0 0 0 0 1 0 0 0 0 0 0 0 0 0 0 0 0 0 0 0 0 0 0 0 0 0 0 0 0
bytes 1 2 0 0 0 0 0 2 0 0 0 0 0 0 0 0 0 0 0 0 0 0 0 0 0 0 0 0 0 0 0 0
bytes 1 6 0 0 0 0 0 1 0 0 0 0 0 0 0 0 0 0 0 0 0 0 0 0 0 0 0 0 0 0 0 0
bytes 1 7 0 0 0 0 0 1 0 0 0 0 0 0 0 0 0 0 0 0 0 0 0 0 0 0 0 0 0 0 0 0
bytes 1 8 1 0 0 0 0 1 0 0 0 0 0 0 0 0 0 0 0 0 0 0 0 39 0 0 0 0 0 0 0 0
bytes 1 6 0 0 0 0 0 2 0 0 0 0 0 0 0 0 0 0 0 0 0 0 0 0 0 0 0 0 0 0 0 0
bytes 1 7 0 0 0 0 0 2 0 0 0 0 0 0 0 0 0 0 0 0 0 0 0 0 0 0 0 0 0 0 0 0
bytes 1 8 1 0 0 0 0 2 0 0 0 0 0 0 0 0 0 0 0 39 0 0 0 39 0 0 0 0 0 0 0 0
bytes 0
== spool
text key,count,sum
bytes 10
text a,2,15
bytes 10
text b,1,20
bytes 10
text total,3,35
bytes 10
text key,count,sum
bytes 10
text a,2,15
bytes 10
text b,1,20
bytes 10
text total,3,35
bytes 10
== spool
first 77
== run
== ends 13
unlawful record: 9
== disks-stay
=====
a journal of version 1 stays as it is where a run is refused: its second record has the number of no command
== script
2025-03-03T09:00:00,submit,P,ann,,,,
2025-03-03T09:00:00,submit,P,ann,,,,
== journal
bytes 1
text conc journal 1
bytes 10
bytes 225 255 188 191 254 4 216 38 249 172 44 86 109 234 255 168 30 148 168 110 32 240 253 182 130 119 162 245 120 24 89 173
zeros 16
bytes 1 1 0 0 0 0 0 0 0 0 0 0 0 0 0 14 223 87 102 144 0 0 0 0 0 0 0 0 0 0 0 0
bytes 1 2 0 0 0 0 0 1 0 0 0 0 0 0 0 0 0 0 0 0 0 0 0 0 0 0 0 0 0 0 0 0
bytes 1 2 0 0 0 0 0 2 0 0 0 0 0 0 0 0 0 0 0 0 0 0 0 0 0 0 0 0 0 0 0 0
bytes 1 6 0 0 0 0 0 1 0 0 0 0 0 0 0 0 0 0 0 0 0 0 0 0 0 0 0 0 0 0 0 0
bytes 1 7 0 0 0 0 0 1 0 0 0 0 0 0 0 0 0 0 0 0 0 0 0 0 0 0 0 0 0 0 0 0
bytes 1 8 1 0 0 0 0 1 0 0 0 0 0 0 0 0 0 0 0 0 0 0 0 39 0 0 0 0 0 0 0 0
bytes 1 6 0 0 0 0 0 2 0 0 0 0 0 0 0 0 0 0 0 0 0 0 0 0 0 0 0 0 0 0 0 0
bytes 1 7 0 0 0 0 0 2 0 0 0 0 0 0 0 0 0 0 0 0 0 0 0 0 0 0 0 0 0 0 0 0
bytes 1 8 1 0 0 0 0 2 0 0 0 0 0 0 0 0 0 0 0 39 0 0 0 39 0 0 0 0 0 0 0 0
bytes 0
== spool
text key,count,sum
bytes 10
text a,2,15
bytes 10
text b,1,20
bytes 10
text total,3,35
bytes 10
text key,count,sum
bytes 10
text a,2,15
bytes 10
text b,1,20
bytes 10
text total,3,35
bytes 10
== journal
put 9 at 103
== run
== ends 13
unlawful record: 2
== disks-stay
=====
a journal of version 1 stays as it is where a run is refused: it has no room for a life, with 1,048,570 records
== script
2025-03-03T10:00:00,submit,P,ann,,,,
== run
== journal
first 64
put 0 at 63
bytes 1 1
zeros 13
bytes 14 223 87 102 144
zeros 12
bytes 1 9
zeros 30
524285 times from 64
bytes 0
== spool
first 0
== run
== ends 11
journal full: 1048570 13
== disks-stay
=====
the byte of the version is a gate: any value but 0 is version 2
== script
2025-03-03T09:00:00,submit,P,ann,,,,
2025-03-03T09:00:00,submit,P,ann,,,,
== run
== journal
put 255 at 63
== script
2025-03-03T09:00:00,submit,P,ann,,,,
2025-03-03T09:00:00,submit,P,ann,,,,
2025-03-03T10:00:00,submit,P,ann,,,,
== clock
2025-03-03T09:00:00
2025-03-03T10:00:00
== run
== ends 0
== prints
tick 2025-03-03T09:00:00
do 1
do 2
let 1
start 1 1.1
end 1 Normal 0 39
let 2
start 2 1.1
end 2 Normal 39 39
resume
tick 2025-03-03T09:00:00
tick 2025-03-03T10:00:00
do 3
let 3
start 3 1.1
end 3 Normal 78 39
--
1 Completed Normal P
2 Completed Normal P
3 Completed Normal P
=====
the byte of the version is a gate: with 0 it is version 1, which has the digest of all files
== script
2025-03-03T09:00:00,submit,P,ann,,,,
2025-03-03T09:00:00,submit,P,ann,,,,
== run
== journal
put 0 at 63
== run
== ends 0
== journal-at 0
bytes 1
text conc journal 1
bytes 10
bytes 225 255 188 191 254 4 216 38 249 172 44 86 109 234 255 168 30 148 168 110 32 240 253 182 130 119 162 245 120 24 89 173
bytes 79 35 50 141 156 136 27 76 161 140 213 97 212 242 162 1
bytes 1 1 0 0 0 0 0 0 0 0 0 0 0 0 0 14 223 87 102 144 0 0 0 0 0 0 0 0 0 0 0 0
bytes 1 2 0 0 0 0 0 1 0 0 0 0 28 114 212 251 147 134 3 194 0 0 0 0 0 0 0 0 0 0 0 0
bytes 1 2 0 0 0 0 0 2 0 0 0 0 196 223 247 107 215 158 48 8 0 0 0 0 0 0 0 0 0 0 0 0
"#;
