ghost use Rattle.std.specs.Prelude.{◌≡◌, ◌<◌, length, IfOk, IsTrue};
ghost use Rattle.conc_pool_lanes.specs.Lanes.{AreHandPasses, are_shorter, IsHandPassOf, IsLeadPassOf, plan_of, puts_of};
ghost use Rattle.conc_pool_lanes.specs.Rooms.{room_for};

use conc_pool_lanes::{HandPass, Lanes, LeadPass, lists_grow_by_one};
use conc_test_worked::plan_from;
use conc_types::{Plan, ReadFail, RequestId};
use std::alloc::Global;
use std::process::Abort;
use std::sync::Wait;
use std::test::Fail;

// A manager that runs every request.
const SETUP: &[u8] = b"tables = [\"t.csv\"]
program = [{ name = \"P\", table = \"t.csv\" }]
[[manager]]
name = \"M\"
";

const SCRIPT: &[u8] = b"at,do,what,user,priority,start,domain,argument
2025-03-03T09:00:00,submit,P,ann,,,,
2025-03-03T09:00:00,submit,P,ann,,,,
2025-03-03T09:00:00,submit,P,ann,,,,
2025-03-03T09:00:00,submit,P,ann,,,,
2025-03-03T09:00:00,submit,P,ann,,,,
";

fn plan_of_five(rt: &impl Abort, alloc: Global) -> Result<Plan, ReadFail>
    ensures managers { IfOk result (λ plan. length plan.setup.managers ≡ 1) }
    ensures room { IfOk result (λ plan. 5 < room_for plan) }
{
    let plan = plan_from(alloc, SETUP, SCRIPT, b"k,v\na,1\n")?.expect(rt, "one table");
    assert!(rt; plan.setup.managers.len() == 1);
    assert!(rt; plan.requests.len() == 5);
    Ok(plan)
}

// Puts the requests 1 to 5.
fn put_five<R: Wait>(rt: &R, lanes: &Lanes<'_>, lead: &mut LeadPass)
    requires pass { IsLeadPassOf lanes.now lead.old }
    requires room { 5 < room_for (plan_of lanes.now) }
    requires short { IsTrue (are_shorter 1 (puts_of lead.old)) }
    ensures pass { IsLeadPassOf lanes.now lead.new }
{
    lists_grow_by_one();
    for number in 1..6 {
        lanes.put(rt, lead, RequestId { number });
    }
}

// Takes a request with this pass, and compares.
fn take_and_see<R: Wait + Abort>(rt: &R, lanes: &Lanes<'_>, pass: &mut HandPass, want: Option<u32>)
    requires pass { IsHandPassOf lanes.now pass.old }
    requires managers { length (plan_of lanes.now).setup.managers ≡ 1 }
    ensures pass { IsHandPassOf lanes.now pass.new }
{
    let found = lanes.take(rt, pass, 0).map(|r| r.number);
    assert!(rt; found == want);
}

// Takes them with two passes in turn.
#[tactic(auto, unfolding(conc_pool_lanes::specs::Lanes::AreHandPasses))]
fn take_in_turn<R: Wait + Abort>(rt: &R, lanes: &Lanes<'_>, passes: &mut [HandPass])
    requires passes { AreHandPasses lanes.now passes.old }
    requires managers { length (plan_of lanes.now).setup.managers ≡ 1 }
{
    let Some((first, rest)) = passes.split_first_mut() else {
        panic!(rt; "no pass");
    };
    let Some((second, _)) = rest.split_first_mut() else {
        panic!(rt; "one pass");
    };
    take_and_see(rt, lanes, first, Some(1));
    take_and_see(rt, lanes, second, Some(2));
    take_and_see(rt, lanes, first, Some(3));
    take_and_see(rt, lanes, second, Some(4));
    take_and_see(rt, lanes, first, Some(5));
    take_and_see(rt, lanes, second, None);
    take_and_see(rt, lanes, first, None);
}

#[test]
fn a_lane_is_taken_in_order(rt: HostRuntime) -> Result<(), Fail> {
    let plan = plan_of_five(&rt, rt.alloc())?;
    let (lanes, mut lead, mut passes) = Lanes::new(rt.alloc(), &plan, 2)?;
    put_five(&rt, &lanes, &mut lead);
    take_in_turn(&rt, &lanes, &mut passes);
    Ok(())
}
