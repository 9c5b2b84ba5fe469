mod run;
mod telling;

use conc_view::Opened;
use run::{last_look_alone, looks_after_each, plan_of};
use std::marker::Brand;
use std::test::Fail;

#[test]
fn each_look_sees_one_more(rt: HostRuntime) -> Result<(), Fail> {
    let plan = plan_of(&rt, rt.alloc())?;
    let opened = Opened::new(rt.alloc())?;
    looks_after_each::<Brand, _>(&rt, rt.alloc(), opened, &plan)
}

#[test]
fn who_looks_at_the_end_alone_sees_all(rt: HostRuntime) -> Result<(), Fail> {
    let plan = plan_of(&rt, rt.alloc())?;
    let opened = Opened::new(rt.alloc())?;
    last_look_alone::<Brand, _>(&rt, rt.alloc(), opened, &plan)
}
