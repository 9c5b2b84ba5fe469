use super::expect::same;
use conc_plan::make_plan;
use conc_script::read_script;
use conc_setup::read_setup;
use conc_tables::read_table;
use conc_types::{Moment, Plan, ReadFail, Req, RequestId, Seq};
use std::alloc::Global;
use std::process::Abort;
use std::test::Fail;

const SETUP: &[u8] =
    b"tables = [\"t.csv\"]\n[[program]]\nname = \"P\"\ntable = \"t.csv\"\n[[manager]]\nname = \"M\"\n";

const EMPTY: &[u8] = b"at,do,what,user,priority,start,domain,argument\n";

// Between two submissions a command on the first one's request.
const THREE: &[u8] =
    b"at,do,what,user,priority,start,domain,argument\n2025-03-03T09:00:00,submit,P,ann,,,,\n2025-03-03T09:00:00,hold,1,ann,,,,\n2025-03-03T09:00:01,submit,P,bob,7,2025-03-03T09:00:02,D 1,x\n";

// Two programs and a set.
const SET: &[u8] = b"tables = [\"t.csv\"]
program = [{ name = \"P\", table = \"t.csv\" }, { name = \"Q\", table = \"t.csv\" }]
manager = [{ name = \"M\" }]
[[set]]
name = \"S\"
stage = [{ name = \"One\", members = [\"P\"] }]
";

// Each command once, and a submission of each kind of item.
const SIX: &[u8] = b"at,do,what,user,priority,start,domain,argument
2025-03-03T09:00:00,submit,Q,ann,,,,
2025-03-03T09:00:00,submit,S,bob,7,2025-03-03T09:00:02,D 1,x
2025-03-03T09:00:01,hold,1,ann,,,,
2025-03-03T09:00:02,unhold,1,,,,,
2025-03-03T09:00:03,cancel,2,,,,,
2025-03-03T09:00:04,terminate,3,,,,,
";

// Python's `hashlib` over the codings of the commands, one behind the other.
const STAMPS_OF_THREE: [u64; 3] = [
    0x1c72_d4fb_9386_03c2,
    0xe8d7_64d5_01e6_5cd8,
    0x2997_aacd_40fb_4aac,
];

const STAMPS_OF_SIX: [u64; 6] = [
    0xc4fa_bf01_3d40_a4fc,
    0x6fa0_e362_4eb3_796a,
    0x51b7_ef05_63f3_ae06,
    0x0654_bda7_812b_02b5,
    0x2d9e_6a72_49e1_30e5,
    0x499c_b598_bf33_1e33,
];

// The plan of a script for a setup.
fn plan_of(rt: &impl Abort, alloc: Global, setup: &[u8], script: &[u8]) -> Result<Plan, ReadFail> {
    let setup = read_setup(alloc, setup)?;
    let script = read_script(alloc, script, &setup)?;
    let mut tables = Vec::new(alloc);
    tables.push(read_table(alloc, b"k,v\n", 0)?)?;
    assert!(rt; tables.len() == setup.tables.len());
    make_plan(alloc, setup, script, Seq::from_vec(tables))
}

#[test]
fn a_script_without_a_command_enters_nothing(rt: HostRuntime) -> Result<(), Fail> {
    let plan = plan_of(&rt, rt.alloc(), SETUP, EMPTY)?;
    assert!(rt; plan.requests.is_empty());
    Ok(())
}

fn is_of_bob<Rt: Abort>(rt: &Rt, request: &Req) {
    same(rt, request.number, RequestId { number: 2 });
    same(rt, request.command, 3);
    // 2025-03-03T09:00:02
    let start = Moment {
        seconds: 63_876_589_202,
    };
    same(rt, request.start, start);
    same(rt, request.priority, 7);
    same(rt, request.user.as_bytes(), b"bob".as_slice());
    same(rt, request.domain.as_bytes(), b"D 1".as_slice());
    same(rt, request.argument.as_slice(), b"x".as_slice());
    same(rt, request.parent, None);
}

#[test]
fn a_submission_enters_a_request(rt: HostRuntime) -> Result<(), Fail> {
    let plan = plan_of(&rt, rt.alloc(), SETUP, THREE)?;
    same(&rt, plan.requests.len(), 2);
    is_of_bob(
        &rt,
        plan.requests.as_slice().last().expect(&rt, "a request"),
    );
    Ok(())
}

#[test]
fn each_command_has_its_stamp(rt: HostRuntime) -> Result<(), Fail> {
    let plan = plan_of(&rt, rt.alloc(), SETUP, EMPTY)?;
    same(&rt, plan.stamp(1), None);
    let plan = plan_of(&rt, rt.alloc(), SETUP, THREE)?;
    same(&rt, plan.stamps.as_slice(), STAMPS_OF_THREE.as_slice());
    for (command, stamp) in [
        (0, None),
        (1, Some(0x1c72_d4fb_9386_03c2)),
        (3, Some(0x2997_aacd_40fb_4aac)),
        (4, None),
    ] {
        same(&rt, plan.stamp(command), stamp);
    }
    let plan = plan_of(&rt, rt.alloc(), SET, SIX)?;
    same(&rt, plan.stamps.as_slice(), STAMPS_OF_SIX.as_slice());
    Ok(())
}
