ghost use Rattle.std.specs.Prelude.{◌≡◌, ◌≤◌, ◌<◌, IfOk, IsTrue, Ok, length, map, nat_lt};
ghost use Rattle.std.specs.List.{enumerate_from, list_all};
ghost use Rattle.conc_types.specs.Fields.{are_links};
ghost use Rattle.conc_types.specs.Sets.{are_stages};
ghost use Rattle.conc_types.specs.Words.{is_between, none_or};
ghost use Rattle.conc_data_fields.specs.Reads.{IfRead, read_as};
ghost use Rattle.conc_setup.specs.SecondPass.{has_distinct_stages};
ghost use Rattle.conc_setup.specs.ThirdPass as spec;

use crate::copies::copy_of_name;
use crate::names::{Named, place_of};
use crate::resolve::{Items, resolve_good};
use conc_data_entries::{RawSet, RawStage};
use conc_data_fields::{FieldFail, Judged, all_good, both};
use conc_types::{Name, NoMemory, RefusalKind, Seq, SetDef, Stage};
use std::alloc::Global;

impl Named for RawSet {
    ghost name_of = { λ set. set.name };

    fn name(&self) -> &Name {
        &self.name
    }
}

impl Named for RawStage {
    ghost name_of = { λ stage. stage.name };

    fn name(&self) -> &Name {
        &self.name
    }
}

// The place of the stage with this name, to which the stage at the place given leads.
fn link_of(stages: &[RawStage], at: usize, name: &Name) -> Judged<u32>
    requires { length stages.now ≤ 64 }
    ensures value { result ≡ spec.link_of stages.now at name.now }
    ensures near { IfOk result (λ place. place < 64) }
{
    match place_of(stages, name) {
        None => Err(RefusalKind::UnknownName),
        Some(place) => {
            if at < place {
                Ok(place as u32)
            } else {
                Err(RefusalKind::BackLink)
            }
        }
    }
}

fn link_if_named(
    stages: &[RawStage],
    at: usize,
    name: &Option<Name>,
) -> Result<Option<u32>, FieldFail>
    requires { length stages.now ≤ 64 }
    ensures value { result ≡ read_as (spec.if_named (spec.link_of stages.now at) name.now) }
    ensures near { IfOk result (λ link. IsTrue (none_or (λ place. nat_lt place 64) link)) }
{
    match name {
        None => Ok(None),
        Some(name) => Ok(Some(link_of(stages, at, name)?)),
    }
}

fn stage_with(
    alloc: Global,
    raw: &RawStage,
    links: [Option<u32>; 3],
    members: Seq<u32>,
) -> Result<Stage, NoMemory>
    requires near { IsTrue (are_links links) }
    requires some { IsTrue (is_between 1 64 (length members)) }
    ensures { IfOk result (λ stage. spec.stage_with raw.now links members ≡ Ok stage) }
{
    let name = raw.name.try_clone(alloc)?;
    Ok(Stage {
        name,
        critical: raw.critical,
        links,
        members,
    })
}

// A stage of a set with these stages, at its place.
#[tactic(auto, unfolding(crate::specs::ThirdPass::resolved_stage))]
fn resolve_stage(
    alloc: Global,
    items: &Items,
    stages: &[RawStage],
    at: usize,
    stage: &RawStage,
) -> Result<Stage, FieldFail>
    requires { length stages.now ≤ 64 }
    ensures { IfRead result (λ r. r ≡ spec.resolved_stage items.now.programs.now stages.now
        (at, stage.now)) }
{
    let success = link_if_named(stages, at, &stage.links.success);
    let warning = link_if_named(stages, at, &stage.links.warning);
    let error = link_if_named(stages, at, &stage.links.error);
    let members = resolve_good(alloc, items, stage.members.list.as_slice());
    let parts = both(success, both(warning, both(error, members)));
    let (success, (warning, (error, members))) = parts?;
    Ok(stage_with(alloc, stage, [success, warning, error], members)?)
}

fn resolve_stages(
    alloc: Global,
    items: &Items,
    stages: &[RawStage],
) -> Result<Seq<Judged<Stage>>, NoMemory>
    requires { length stages.now ≤ 64 }
    ensures { IfOk result (λ all. all ≡ map (spec.resolved_stage items.now.programs.now stages.now)
        (enumerate_from 0 stages.now)) }
{
    let mut all = Vec::new(alloc);
    for (at, stage) in stages.iter().enumerate() {
        match resolve_stage(alloc, items, stages, at, stage) {
            Ok(resolved) => all.push(Ok(resolved))?,
            Err(FieldFail::Refused(kind)) => all.push(Err(kind))?,
            Err(FieldFail::NoMemory) => return Err(NoMemory),
        }
    }
    Ok(Seq::from_vec(all))
}

fn set_with(alloc: Global, name: &Name, stages: Seq<Stage>) -> Result<SetDef, NoMemory>
    requires some { IsTrue (is_between 1 64 (length stages)) }
    requires forward { IsTrue (are_stages stages) }
    ensures { IfOk result (λ set. spec.to_set name.now stages ≡ Ok set) }
{
    let name = name.try_clone(alloc)?;
    Ok(SetDef { name, stages })
}

#[tactic(auto, unfolding(crate::specs::ThirdPass::resolved_set))]
fn resolve_set(alloc: Global, items: &Items, set: &RawSet) -> Result<SetDef, FieldFail>
    requires { IsTrue (has_distinct_stages set.now) }
    ensures { IfRead result (λ r. r ≡ spec.resolved_set items.now.programs.now set.now) }
{
    let all = resolve_stages(alloc, items, set.stages.list.as_slice())?;
    let stages = all_good(alloc, all)?;
    Ok(set_with(alloc, &set.name, stages)?)
}

/// What each of the sets is made into, in their order. No two stages of a set have one name.
pub(crate) fn resolve_sets(
    alloc: Global,
    items: &Items,
    sets: &[RawSet],
) -> Result<Seq<Judged<SetDef>>, NoMemory>
    requires { IsTrue (list_all has_distinct_stages sets.now) }
    ensures { IfOk result (λ all. all ≡ map (spec.resolved_set items.now.programs.now) sets.now) }
{
    let mut all = Vec::new(alloc);
    for set in sets {
        match resolve_set(alloc, items, set) {
            Ok(resolved) => all.push(Ok(resolved))?,
            Err(FieldFail::Refused(kind)) => all.push(Err(kind))?,
            Err(FieldFail::NoMemory) => return Err(NoMemory),
        }
    }
    Ok(Seq::from_vec(all))
}
