/// The end of a month, whose history is by another program.
pub const MONTH_END: &str = r#"the end of a month
== setup
tables = ["t.csv"]
program = [
    { name = "GL Summary", type = "Ledger", table = "t.csv", group = "k", sum = "v", restart = true },
    { name = "GL Detail", type = "Ledger", table = "t.csv", group = "k", sum = "v" },
    { name = "AP Aging", type = "Payables", table = "t.csv", group = "k", sum = "v" },
    { name = "AP Holds", type = "Payables", table = "t.csv", group = "k", sum = "v", warn_over = 2 },
    { name = "AR Aging", type = "Receivables", table = "t.csv", group = "k", sum = "v" },
    { name = "AR Credit", type = "Receivables", table = "t.csv", group = "k", sum = "v" },
    { name = "FA Depreciation", type = "Assets", table = "t.csv", group = "k", sum = "v", restart = true },
    { name = "Payroll", table = "t.csv", group = "k", sum = "v" },
    { name = "Tax", table = "t.csv", group = "k", sum = "v", warn_over = 2 },
    { name = "Bank", type = "Cash", table = "t.csv", group = "k", sum = "v" },
    { name = "Intercompany", type = "Ledger", table = "t.csv", group = "k", sum = "v" },
    { name = "Consolidation", type = "Ledger", table = "t.csv", group = "k", sum = "v", run_alone = true },
]
incompatible = [
    { program = "GL Summary", with = "GL Summary" },
    { program = "GL Detail", with = "GL Summary", type = "global" },
    { program = "Bank", with = "Month End", scope = "set", type = "global" },
    { program = "AP Holds", with = "AP Aging" },
    { program = "Payroll", with = "Payroll", type = "global" },
]

[[manager]]
name = "Day"
shift = [
    { days = ["Mon", "Tue", "Wed", "Thu", "Fri"], from = "08:00", to = "18:00", places = 3 },
    { places = 1 },
]

[[manager]]
name = "Night"
include = [{ type = "Ledger" }, { program = "Payroll" }]
shift = [
    { from = "18:00", to = "24:00", places = 4 },
    { from = "00:00", to = "08:00", places = 4 },
]

[[manager]]
name = "Close"
exclude = [{ user = "batch" }]
shift = [
    { date = "2025-03-31", places = 6 },
    { date = "2025-04-01", from = "06:00", to = "12:00", places = 2 },
]

[[set]]
name = "Month End"

[[set.stage]]
name = "Check"
members = ["AP Holds", "AR Credit"]
on_success = "Accrue"
on_warning = "Accrue"

[[set.stage]]
name = "Accrue"
members = ["FA Depreciation", "Tax", "Intercompany"]
on_success = "Post"
on_warning = "Post"
on_error = "Report"

[[set.stage]]
name = "Post"
members = ["GL Summary", "GL Detail"]
on_success = "Report"
critical = true

[[set.stage]]
name = "Report"
members = ["Consolidation"]
== script
2025-03-31T06:30:00,submit,GL Summary,ann,,,,
2025-03-31T06:30:00,submit,AR Credit,bob,10,,,
2025-03-31T06:30:00,submit,Intercompany,batch,90,,,
2025-03-31T06:30:00,submit,AP Holds,ann,,,,
2025-03-31T06:30:00,submit,Month End,ann,,,,
2025-03-31T06:30:00,submit,Tax,bob,10,,East,
2025-03-31T06:30:00,submit,GL Detail,batch,90,,East,
2025-03-31T06:30:00,submit,FA Depreciation,ann,,,East,
2025-03-31T06:30:00,submit,Consolidation,bob,10,,East,
2025-03-31T06:30:00,submit,AR Aging,batch,90,,West,
2025-03-31T06:30:00,submit,Bank,ann,,,West,
2025-03-31T06:30:00,submit,AP Aging,bob,10,2025-04-01T06:00:00,West,
2025-03-31T06:30:00,submit,Payroll,batch,90,,West,
2025-03-31T08:30:00,submit,GL Summary,ann,,,,
2025-03-31T08:30:00,submit,AR Credit,bob,10,,,
2025-03-31T08:30:00,submit,Intercompany,batch,90,,,
2025-03-31T08:30:00,submit,AP Holds,ann,,,,
2025-03-31T08:30:00,submit,Tax,bob,10,,East,
2025-03-31T08:30:00,submit,GL Detail,batch,90,,East,
2025-03-31T08:30:00,submit,FA Depreciation,ann,,,East,
2025-03-31T08:30:00,submit,Month End,bob,20,,East,
2025-03-31T08:30:00,submit,Consolidation,bob,10,,East,
2025-03-31T08:30:00,submit,AR Aging,batch,90,,West,
2025-03-31T08:30:00,submit,Bank,ann,,2025-04-01T06:00:00,West,
2025-03-31T08:30:00,submit,AP Aging,bob,10,,West,
2025-03-31T08:30:00,submit,Payroll,batch,90,,West,
2025-03-31T11:00:00,submit,GL Summary,ann,,,,
2025-03-31T11:00:00,submit,AR Credit,bob,10,,,
2025-03-31T11:00:00,submit,Intercompany,batch,90,,,
2025-03-31T11:00:00,submit,AP Holds,ann,,,,
2025-03-31T11:00:00,submit,Tax,bob,10,,East,
2025-03-31T11:00:00,submit,GL Detail,batch,90,,East,
2025-03-31T11:00:00,submit,FA Depreciation,ann,,,East,
2025-03-31T11:00:00,submit,Consolidation,bob,10,,East,
2025-03-31T11:00:00,submit,AR Aging,batch,90,2025-04-01T06:00:00,West,
2025-03-31T11:00:00,submit,Bank,ann,,,West,
2025-03-31T11:00:00,submit,AP Aging,bob,10,,West,
2025-03-31T11:00:00,submit,Payroll,batch,90,,West,
2025-03-31T18:30:00,submit,GL Summary,ann,,,,
2025-03-31T18:30:00,submit,AR Credit,bob,10,,,
2025-03-31T18:30:00,submit,Intercompany,batch,90,,,
2025-03-31T18:30:00,submit,AP Holds,ann,,,,
2025-03-31T18:30:00,submit,Tax,bob,10,,East,
2025-03-31T18:30:00,submit,GL Detail,batch,90,,East,
2025-03-31T19:00:00,hold,3,,,,,
2025-03-31T19:00:00,hold,58,,,,,
2025-03-31T19:00:00,unhold,58,,,,,
2025-03-31T19:00:00,cancel,60,,,,,
2025-03-31T19:00:00,terminate,57,,,,,
== clock
2025-03-31T07:00:00
2025-03-31T09:00:00
2025-03-31T12:00:00 !
2025-03-31T17:30:00
2025-03-31T19:00:00 !
2025-04-01T00:10:00
2025-04-01T06:30:00
2025-04-01T13:00:00
== table
k,v
a,10
b,20
a,5
== history
tick 2025-03-31T07:00:00
do 1
do 2
do 3
do 4
do 5
do 6
do 7
do 8
do 9
do 10
do 11
do 12
do 13
let 2
let 14
let 1
let 4
open 5
stage 5 1
let 6
let 7
let 16
let 3
let 18
let 21
start 2 1.1
end 2 Normal 0 39
start 14 1.1
end 14 Warning 39 39
start 1 1.1
end 1 Normal 78 39
let 15
start 4 1.1
end 4 Warning 117 39
start 6 1.1
end 6 Warning 156 39
start 7 1.1
end 7 Normal 195 39
stage 5 2
let 8
let 9
let 10
start 8 1.1
end 8 Normal 234 39
start 9 1.1
end 9 Warning 273 39
start 10 1.1
end 10 Normal 312 39
stage 5 3
let 12
start 12 1.1
end 12 Normal 351 39
start 16 1.1
end 16 Normal 390 39
start 3 1.1
end 3 Normal 429 39
start 15 1.1
end 15 Normal 468 39
let 17
let 11
start 17 1.1
end 17 Normal 507 39
start 11 1.1
end 11 Normal 546 39
stage 5 4
let 13
start 13 1.1
end 13 Normal 585 39
close 5 Normal
let 19
start 19 1.1
end 19 Normal 624 39
start 18 1.1
end 18 Normal 663 39
start 21 1.1
end 21 Normal 702 39
tick 2025-03-31T09:00:00
do 14
do 15
do 16
do 17
do 18
do 19
do 20
do 21
do 22
do 23
do 24
do 25
do 26
let 23
let 26
let 41
open 29
stage 29 1
let 30
let 31
let 22
let 25
let 28
let 24
let 39
let 42
start 23 1.1
end 23 Normal 741 39
start 26 1.1
end 26 Warning 780 39
start 41 1.1
end 41 Normal 819 39
start 30 1.1
end 30 Warning 858 39
start 31 1.1
end 31 Normal 897 39
stage 29 2
let 32
let 33
let 34
start 32 1.1
end 32 Normal 936 39
start 33 1.1
end 33 Warning 975 39
start 34 1.1
end 34 Normal 1014 39
stage 29 3
let 35
start 35 1.1
end 35 Normal 1053 39
start 22 1.1
end 22 Normal 1092 39
let 36
let 27
start 36 1.1
end 36 Normal 1131 39
stage 29 4
start 25 1.1
end 25 Warning 1170 39
start 28 1.1
end 28 Normal 1209 39
start 24 1.1
end 24 Normal 1248 39
start 27 1.1
end 27 Normal 1287 39
let 37
start 37 1.1
end 37 Normal 1326 39
close 29 Normal
let 38
start 38 1.1
end 38 Normal 1365 39
start 39 1.1
end 39 Normal 1404 39
start 42 1.1
end 42 Normal 1443 39
tick 2025-03-31T12:00:00
do 27
do 28
do 29
do 30
do 31
do 32
do 33
do 34
do 35
do 36
do 37
do 38
let 44
let 47
let 53
let 43
let 46
let 49
let 52
let 45
let 54
start 44 1.1
end 44 Normal 1482 39
start 47 1.1
end 47 Warning 1521 39
start 53 1.1
end 53 Normal 1560 39
start 43 1.1
end 43 Normal 1599 39
let 48
start 46 1.1
end 46 Warning 1638 39
start 49 1.1
end 49 Normal 1677 39
start 52 1.1
end 52 Normal 1716 39
start 45 1.1
end 45 Normal 1755 39
start 48 1.1
end 48 Normal 1794 39
let 50
start 50 1.1
end 50 Normal 1833 39
start 54 1.1
end 54 Normal 1872 39
tick 2025-03-31T17:30:00
tick 2025-03-31T19:00:00
do 39
do 40
do 41
do 42
do 43
do 44
do 45
do 46
do 47
do 48
do 49
let 56
let 59
let 55
let 58
let 57
start 56 1.1
end 56 Normal 1911 39
start 59 1.1
end 59 Warning 1950 39
start 55 1.1
end 55 Normal 1989 39
start 58 1.1
end 58 Warning 2028 39
start 57 1.1
end 57 Normal 2067 39
tick 2025-04-01T00:10:00
tick 2025-04-01T06:30:00
let 20
let 40
let 51
start 20 1.1
end 20 Normal 2106 39
start 40 1.1
end 40 Normal 2145 39
start 51 1.1
end 51 Normal 2184 39
tick 2025-04-01T13:00:00
--
1 Completed Normal GL Summary
2 Completed Normal AR Credit
3 Completed Normal Intercompany
4 Completed Warning AP Holds
5 Completed Normal Month End
6 Completed Warning AP Holds
7 Completed Normal AR Credit
8 Completed Normal FA Depreciation
9 Completed Warning Tax
10 Completed Normal Intercompany
11 Completed Normal GL Summary
12 Completed Normal GL Detail
13 Completed Normal Consolidation
14 Completed Warning Tax
15 Completed Normal GL Detail
16 Completed Normal FA Depreciation
17 Completed Normal Consolidation
18 Completed Normal AR Aging
19 Completed Normal Bank
20 Completed Normal AP Aging
21 Completed Normal Payroll
22 Completed Normal GL Summary
23 Completed Normal AR Credit
24 Completed Normal Intercompany
25 Completed Warning AP Holds
26 Completed Warning Tax
27 Completed Normal GL Detail
28 Completed Normal FA Depreciation
29 Completed Normal Month End
30 Completed Warning AP Holds
31 Completed Normal AR Credit
32 Completed Normal FA Depreciation
33 Completed Warning Tax
34 Completed Normal Intercompany
35 Completed Normal GL Summary
36 Completed Normal GL Detail
37 Completed Normal Consolidation
38 Completed Normal Consolidation
39 Completed Normal AR Aging
40 Completed Normal Bank
41 Completed Normal AP Aging
42 Completed Normal Payroll
43 Completed Normal GL Summary
44 Completed Normal AR Credit
45 Completed Normal Intercompany
46 Completed Warning AP Holds
47 Completed Warning Tax
48 Completed Normal GL Detail
49 Completed Normal FA Depreciation
50 Completed Normal Consolidation
51 Completed Normal AR Aging
52 Completed Normal Bank
53 Completed Normal AP Aging
54 Completed Normal Payroll
55 Completed Normal GL Summary
56 Completed Normal AR Credit
57 Completed Normal Intercompany
58 Completed Warning AP Holds
59 Completed Warning Tax
60 Completed Cancelled GL Detail
== lawful 240 finished
# Of the same priority and start the lower number is first.
15 | let 2; let 14 | let 14; let 2 | not lawful: 15
# What does not stand in the way of others is let as soon as it may be.
33 | let 15 |  | not lawful: 33
# A program that runs alone waits for all of its domain.
58 | start 15 1.1; end 15 Normal 468 39; let 17 | let 17; start 15 1.1; end 15 Normal 468 39 | not lawful: 58
# Outside the hours of its weekdays manager 1 has one place.
31 | start 1 1.1 | start 1 1.2 | not lawful: 31
# Manager 2 admits some programs only, and has places from 18:00 to 08:00.
27 | start 2 1.1 | start 2 2.1 | not lawful: 27
31 | start 1 1.1 | start 1 2.4 | lawful 240 finished
129 | start 22 1.1 | start 22 2.1 | not lawful: 129
# Manager 3 has six places on that date, for all users but one.
27 | start 2 1.1 | start 2 3.6 | lawful 240 finished
56 | start 3 1.1 | start 3 3.1 | not lawful: 56
# Two requests run at once.
28 | end 2 Normal 0 39; start 14 1.1 | start 14 3.1; end 2 Normal 0 39 | lawful 240 finished
28 | end 2 Normal 0 39; start 14 1.1 | start 14 1.1; end 2 Normal 0 39 | not lawful: 28
# The critical stage tells the outcome.
70 | close 5 Normal | close 5 Warning | not lawful: 70
# A reading with the mark does not wait, and then its commands are due; one without it waits.
154 | end 42 Normal 1443 39; tick 2025-03-31T12:00:00 | tick 2025-03-31T12:00:00; end 42 Normal 1443 39 | not lawful: 155
200 | end 54 Normal 1872 39; tick 2025-03-31T17:30:00 | tick 2025-03-31T17:30:00; end 54 Normal 1872 39 | not lawful: 200
201 | tick 2025-03-31T17:30:00 |  | not lawful: 201
229 | tick 2025-04-01T00:10:00 | tick 2025-04-01T06:30:00 | not lawful: 229
# What was cancelled is not let.
219 |  | let 60 | not lawful: 219
301 | 60 Completed Cancelled GL Detail | 60 Inactive On Hold GL Detail | not lawful: 301
"#;
