ghost use Rattle.std.specs.Prelude.{◌≡◌, ◌≤◌, length};
ghost use Rattle.std.specs.Option.{option_copied};
ghost use Rattle.conc_base_law.specs.Next as next_spec;
ghost use Rattle.conc_base_law.specs.Plans as plans_spec;

use crate::admission::admits;
use crate::exclusion::excludes;
use crate::items::{is_id, is_set};
use conc_types::{Item, Plan, Program, Req, RequestId, SetDef, Stage};

/// The request of the set whose member `r` is.
#[tactic(auto, unfolding(conc_base_law::specs::Plans::parent))]
pub fn parent<'a>(plan: &'a Plan, r: &Req) -> Option<&'a Req>
    ensures { option_copied result ≡ plans_spec.parent plan.now r.now }
{
    match r.parent {
        Some(id) => plan.request(id),
        None => None,
    }
}

/// The set of which the request is a member, as an item.
#[tactic(auto, unfolding(conc_base_law::specs::Plans::parent_item))]
pub fn parent_item(plan: &Plan, r: &Req) -> Option<Item>
    ensures { result ≡ plans_spec.parent_item plan.now r.now }
{
    match parent(plan, r) {
        Some(set) => Some(set.item),
        None => None,
    }
}

/// The program of a request that is no set.
#[tactic(auto, unfolding(conc_base_law::specs::Plans::program_of, conc_base_law::specs::Plans::program_at))]
pub fn program_of<'a>(plan: &'a Plan, r: &Req) -> Option<&'a Program>
    ensures { option_copied result ≡ plans_spec.program_of plan.now r.now }
{
    match r.item {
        Item::Program(n) => plan.setup.programs.as_slice().get(n as usize),
        Item::Set(_) => None,
    }
}

/// Whether the request's program is enabled. A set has none.
#[tactic(auto, unfolding(conc_base_law::specs::Plans::is_enabled))]
pub fn is_enabled(plan: &Plan, r: &Req) -> bool
    ensures { result ≡ plans_spec.is_enabled plan.now r.now }
{
    program_of(plan, r).is_some_and(|program| program.enabled)
}

/// Whether some manager admits the request.
#[tactic(auto, unfolding(conc_base_law::specs::Plans::is_admitted))]
pub fn is_admitted(plan: &Plan, r: &Req) -> bool
    ensures { result ≡ plans_spec.is_admitted plan.now r.now }
{
    plan.setup
        .managers
        .as_slice()
        .iter()
        .any(|manager| admits(manager, r))
}

/// Whether the request is a set, or of an enabled program and admitted by some manager.
#[tactic(auto, unfolding(conc_base_law::specs::Next::can_run))]
pub fn can_run(plan: &Plan, r: &Req) -> bool
    ensures { result ≡ next_spec.can_run plan.now r.now }
{
    is_set(r.item) || (is_enabled(plan, r) && is_admitted(plan, r))
}

/// Whether the request's program has the mark for restart. A set has none.
#[tactic(auto, unfolding(conc_base_law::specs::Plans::has_restart))]
pub fn has_restart(plan: &Plan, r: &Req) -> bool
    ensures { result ≡ plans_spec.has_restart plan.now r.now }
{
    program_of(plan, r).is_some_and(|program| program.restart)
}

/// Whether two requests of the plan never run at the same time.
#[tactic(auto, unfolding(conc_base_law::specs::Plans::are_exclusive))]
pub fn are_exclusive(plan: &Plan, x: &Req, y: &Req) -> bool
    ensures { result ≡ plans_spec.are_exclusive plan.now x.now y.now }
{
    excludes(
        &plan.setup,
        x,
        y,
        (parent_item(plan, x), parent_item(plan, y)),
    )
}

/// Whether `r` is a member of this stage, from 1, of the set's request.
#[tactic(auto, unfolding(conc_base_law::specs::Plans::is_member))]
pub fn is_member(set: RequestId, stage: u32, r: &Req) -> bool
    ensures { result ≡ plans_spec.is_member set stage r.now }
{
    is_id(r.parent, set) && r.stage == stage
}

#[tactic(auto, unfolding(conc_base_law::specs::Plans::set_at))]
fn set_at(plan: &Plan, item: Item) -> Option<&SetDef>
    ensures { option_copied result ≡ plans_spec.set_at plan.now item }
{
    match item {
        Item::Program(_) => None,
        Item::Set(n) => plan.setup.sets.as_slice().get(n as usize),
    }
}

/// The stages of the set of a request; none where it is no set.
#[tactic(auto, unfolding(conc_base_law::specs::Plans::stages_of))]
pub fn stages_of<'a>(plan: &'a Plan, set: &Req) -> &'a [Stage]
    ensures stages { result.now ≡ plans_spec.stages_of plan.now set.now }
    ensures few { length result.now ≤ 64 }
{
    match set_at(plan, set.item) {
        Some(def) => def.stages.as_slice(),
        None => &[],
    }
}
