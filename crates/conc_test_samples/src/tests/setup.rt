use super::expect::{same, same_at};
use conc_setup::read_setup;
use conc_types::{
    Entry, FileKind, Item, Manager, Reach, ReadFail, Refusal, RefusalKind, Scope, SetDef, Setup,
};
use std::process::Abort;
use std::test::Fail;

fn refusal(read: Result<Setup, ReadFail>) -> Option<Refusal> {
    match read {
        Err(ReadFail::Refused(refusal)) => Some(refusal),
        _ => None,
    }
}

// Setup files, each with the line and the kind for which it is refused.
static REFUSED: [(&str, u64, RefusalKind); 30] = [
    // A key twice.
    ("tables = []\ntables = []\n", 0, RefusalKind::NotToml),
    // A key that the top level does not list.
    ("programs = []\n", 0, RefusalKind::UnknownKey),
    // A program without a table.
    ("[[program]]\nname = \"P\"\n", 1, RefusalKind::Missing),
    // A rule that names nothing.
    (
        "[[manager]]\nname = \"M\"\ninclude = [{}]\n",
        1,
        RefusalKind::Missing,
    ),
    // A table in the place of an array of tables.
    ("[program]\nname = \"P\"\n", 0, RefusalKind::WrongKind),
    // A number in the place of a table.
    ("manager = [3]\n", 1, RefusalKind::WrongKind),
    // A float in the place of a whole number.
    (
        "[[manager]]\nname = \"M\"\nshift = [{ places = 1.5 }]\n",
        1,
        RefusalKind::WrongKind,
    ),
    // A table twice.
    (
        "tables = [\"t.csv\", \"u.csv\", \"t.csv\"]\n",
        0,
        RefusalKind::Duplicate,
    ),
    // A set with the name of a program.
    (
        "[[program]]\nname = \"P\"\ntable = \"t.csv\"\n\n[[set]]\nname = \"P\"\nstage = [{ name = \"A\", members = [\"P\"] }]\n",
        2,
        RefusalKind::Duplicate,
    ),
    // A manager's name twice.
    (
        "[[manager]]\nname = \"M\"\n\n[[manager]]\nname = \"M\"\n",
        2,
        RefusalKind::Duplicate,
    ),
    // A stage's name twice.
    (
        "[[program]]\nname = \"P\"\ntable = \"t.csv\"\n\n[[set]]\nname = \"S\"\nstage = [{ name = \"A\", members = [\"P\"] }, { name = \"A\", members = [\"P\"] }]\n",
        2,
        RefusalKind::Duplicate,
    ),
    // An incompatibility with what is not there.
    (
        "[[program]]\nname = \"P\"\ntable = \"t.csv\"\n\n[[incompatible]]\nprogram = \"P\"\nwith = \"Q\"\n",
        2,
        RefusalKind::UnknownName,
    ),
    // A rule for a set.
    (
        "[[program]]\nname = \"P\"\ntable = \"t.csv\"\n\n[[manager]]\nname = \"M\"\ninclude = [{ program = \"S\" }]\n\n[[set]]\nname = \"S\"\nstage = [{ name = \"A\", members = [\"P\"] }]\n",
        2,
        RefusalKind::UnknownName,
    ),
    // A member that is a set.
    (
        "[[program]]\nname = \"P\"\ntable = \"t.csv\"\n\n[[set]]\nname = \"S\"\nstage = [{ name = \"A\", members = [\"P\", \"S\"] }]\n",
        2,
        RefusalKind::UnknownName,
    ),
    // A link to a stage that is not there.
    (
        "[[program]]\nname = \"P\"\ntable = \"t.csv\"\n\n[[set]]\nname = \"S\"\nstage = [{ name = \"A\", members = [\"P\"], on_success = \"B\" }]\n",
        2,
        RefusalKind::UnknownName,
    ),
    // 65 places of a shift.
    (
        "[[manager]]\nname = \"M\"\nshift = [{ places = 65 }]\n",
        1,
        RefusalKind::OutOfRange,
    ),
    // A stage without a member.
    (
        "[[set]]\nname = \"S\"\nstage = [{ name = \"A\", members = [] }]\n",
        1,
        RefusalKind::OutOfRange,
    ),
    // A set without a stage.
    (
        "[[set]]\nname = \"S\"\nstage = []\n",
        1,
        RefusalKind::OutOfRange,
    ),
    // A time without the other.
    (
        "[[manager]]\nname = \"M\"\nshift = [{ from = \"08:00\", places = 1 }]\n",
        1,
        RefusalKind::BadShift,
    ),
    // A link to the same stage.
    (
        "[[program]]\nname = \"P\"\ntable = \"t.csv\"\n\n[[set]]\nname = \"S\"\nstage = [{ name = \"A\", members = [\"P\"], on_error = \"A\" }]\n",
        2,
        RefusalKind::BackLink,
    ),
    // A link to an earlier stage.
    (
        "[[program]]\nname = \"P\"\ntable = \"t.csv\"\n\n[[set]]\nname = \"S\"\nstage = [{ name = \"A\", members = [\"P\"] }, { name = \"B\", members = [\"P\"], on_warning = \"A\" }]\n",
        2,
        RefusalKind::BackLink,
    ),
    // 65 places in all, before a fault of a later line.
    (
        "[[manager]]\nname = \"M\"\nshift = [{ places = 64 }]\n\n[[manager]]\nname = \"N\"\n\n[[manager]]\nplace = 1\n",
        0,
        RefusalKind::TooMany,
    ),
    // 17 filters of a program.
    (
        "[[program]]\nname = \"P\"\ntable = \"t.csv\"\n\n[[program]]\nname = \"Q\"\ntable = \"t.csv\"\nfilter = [{ column = \"k\", test = \"is\", value = \"$\" }, { column = \"k\", test = \"is\", value = \"$\" }, { column = \"k\", test = \"is\", value = \"$\" }, { column = \"k\", test = \"is\", value = \"$\" }, { column = \"k\", test = \"is\", value = \"$\" }, { column = \"k\", test = \"is\", value = \"$\" }, { column = \"k\", test = \"is\", value = \"$\" }, { column = \"k\", test = \"is\", value = \"$\" }, { column = \"k\", test = \"is\", value = \"$\" }, { column = \"k\", test = \"is\", value = \"$\" }, { column = \"k\", test = \"is\", value = \"$\" }, { column = \"k\", test = \"is\", value = \"$\" }, { column = \"k\", test = \"is\", value = \"$\" }, { column = \"k\", test = \"is\", value = \"$\" }, { column = \"k\", test = \"is\", value = \"$\" }, { column = \"k\", test = \"is\", value = \"$\" }, { column = \"k\", test = \"is\", value = \"$\" }]\n",
        2,
        RefusalKind::TooMany,
    ),
    // The places of a manager that is refused do not count.
    (
        "[[manager]]\nname = \"M\"\nshift = [{ places = 64 }]\n\n[[manager]]\nname = \"N\"\nplace = 1\n",
        2,
        RefusalKind::UnknownKey,
    ),
    // Two faults on one line: an unknown key where another one is missing.
    (
        "[[program]]\nname = \"P\"\ntype = 3\nowner = \"x\"\n",
        1,
        RefusalKind::UnknownKey,
    ),
    // Two faults on one line: a link to the same stage, and a member that is not there.
    (
        "[[set]]\nname = \"S\"\nstage = [{ name = \"A\", members = [\"P\"], on_success = \"A\" }]\n",
        1,
        RefusalKind::UnknownName,
    ),
    // Faults on two lines of one array.
    (
        "[[program]]\nname = \"\"\ntable = \"t.csv\"\n\n[[program]]\nname = \"P\"\n",
        1,
        RefusalKind::OutOfRange,
    ),
    // Faults on the lines of two arrays, the later one of a lesser kind.
    (
        "[[program]]\nname = \"P\"\ntable = \"t.csv\"\n\n[[set]]\nname = \"S\"\nstage = [{ name = \"A\", members = [\"Q\"] }]\n\n[[set]]\nname = \"T\"\nstage = [{ name = \"A\", members = [\"P\"], on_success = \"A\" }]\n",
        2,
        RefusalKind::UnknownName,
    ),
    // A name twice on a later line than a name that is not there.
    (
        "[[program]]\nname = \"P\"\ntable = \"t.csv\"\n\n[[incompatible]]\nprogram = \"P\"\nwith = \"Q\"\n\n[[manager]]\nname = \"M\"\n\n[[manager]]\nname = \"M\"\n",
        4,
        RefusalKind::Duplicate,
    ),
    // An unknown key on a later line than a name twice.
    (
        "[[program]]\nname = \"P\"\ntable = \"t.csv\"\n\n[[program]]\nname = \"P\"\ntable = \"t.csv\"\n\n[[program]]\nname = \"Q\"\ntable = \"t.csv\"\nowner = \"x\"\n",
        3,
        RefusalKind::UnknownKey,
    ),
];

fn refused(line: u64, kind: RefusalKind) -> Option<Refusal> {
    let file = FileKind::Setup;
    Some(Refusal { file, line, kind })
}

#[test]
fn refuses_setups(rt: HostRuntime) {
    for (text, line, kind) in REFUSED {
        let read = read_setup(rt.alloc(), text.as_bytes());
        same_at(&rt, refusal(read), refused(line, kind), text);
    }
    let read = read_setup(rt.alloc(), b"tables = [\"\xff\"]\n");
    same(&rt, refusal(read), refused(0, RefusalKind::NotToml));
}

// A setup of two programs, an incompatibility, a manager and a set.
const DEPARTMENT: &str = "tables = [\"gl.csv\", \"ap.csv\"]

[[program]]
name = \"GL Journal Summary\"
type = \"Ledger\"
restart = true
table = \"gl.csv\"
group = \"account\"
sum = \"cents\"
filter = [{ column = \"period\", test = \"is\", value = \"$\" }]

[[program]]
name = \"AP Hold Report\"
type = \"Payables\"
table = \"ap.csv\"
group = \"supplier\"
warn_over = 0

[[incompatible]]
program = \"AP Hold Report\"
with = \"Month End\"
scope = \"set\"
type = \"global\"

[[manager]]
name = \"Standard Manager\"
exclude = [{ type = \"Ledger\", user = \"batch\" }]
shift = [
  { days = [\"Mon\", \"Tue\", \"Wed\", \"Thu\", \"Fri\"], from = \"08:00\", to = \"18:00\", places = 3 },
  { date = \"2025-03-31\", places = 6 },
  { places = 1 },
]

[[set]]
name = \"Month End\"

[[set.stage]]
name = \"Check\"
members = [\"AP Hold Report\"]
on_success = \"Summary\"
on_warning = \"Summary\"

[[set.stage]]
name = \"Summary\"
critical = true
members = [\"GL Journal Summary\"]
";

fn is_the_manager<Rt: Abort>(rt: &Rt, manager: &Manager) {
    let [week, day, other] = manager.shifts.as_slice() else {
        panic!(rt; "{} shifts", manager.shifts.len());
    };
    let times = Some((28_800, 64_800));
    same(rt, (week.days, week.times, week.places), (31, times, 3));
    same(rt, (day.date, day.places), (Some(739_340), 6));
    same(rt, other.places, 1);
    same(rt, manager.exclude.len(), 1);
}

fn is_the_set<Rt: Abort>(rt: &Rt, set: &SetDef) {
    let [check, summary] = set.stages.as_slice() else {
        panic!(rt; "{} stages", set.stages.len());
    };
    same(rt, check.links, [Some(1), Some(1), None]);
    same(rt, check.members.as_slice().first().copied(), Some(1));
    same(rt, summary.links, [None, None, None]);
    same(rt, summary.members.as_slice().first().copied(), Some(0));
    assert!(rt; summary.critical && !check.critical);
}

fn is_the_department<Rt: Abort>(rt: &Rt, setup: &Setup) {
    same(rt, setup.tables.len(), 2);
    same(rt, setup.programs.len(), 2);
    let entry = Entry {
        owner: Item::Program(1),
        other: Item::Set(0),
        scope: Scope::Set,
        reach: Reach::Global,
    };
    same(rt, setup.entries.as_slice().first().copied(), Some(entry));
    let [manager] = setup.managers.as_slice() else {
        panic!(rt; "{} managers", setup.managers.len());
    };
    is_the_manager(rt, manager);
    let [set] = setup.sets.as_slice() else {
        panic!(rt; "{} sets", setup.sets.len());
    };
    is_the_set(rt, set);
}

#[test]
fn reads_setups(rt: HostRuntime) -> Result<(), Fail> {
    let setup = read_setup(rt.alloc(), DEPARTMENT.as_bytes())?;
    is_the_department(&rt, &setup);
    Ok(())
}
