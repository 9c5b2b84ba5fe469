ghost use Rattle.std.specs.Prelude.{◌≡◌, ◌≤◌, ◌+◌, IfOk, IsTrue, Ok, length};
ghost use Rattle.std.specs.Option.{option_map};
ghost use Rattle.conc_types.specs.Fields.{is_rule};
ghost use Rattle.conc_data_fields.specs.Reads.{IfRead};
ghost use Rattle.conc_setup.specs.ThirdPass as spec;

use crate::copies::{copy_of_name, copy_of_text};
use crate::names::Named;
use crate::resolve::{Items, Resolve, program_of, resolve_good};
use conc_data_entries::{RawManager, RawRule};
use conc_data_fields::{FieldFail, Judged, both};
use conc_types::{Manager, Name, NoMemory, Rule, Seq};
use std::alloc::Global;

fn program_if_named(items: &Items, name: &Option<Name>) -> Judged<Option<u32>>
    ensures { result ≡ spec.if_named (spec.program_of items.now.programs.now) name.now }
{
    match name {
        None => Ok(None),
        Some(name) => Ok(Some(program_of(items, name)?)),
    }
}

fn rule_for(alloc: Global, program: Option<u32>, raw: &RawRule) -> Result<Rule, NoMemory>
    requires { IsTrue (is_rule program (option_map (λ t. t.text) raw.now.request_type)
        raw.now.user) }
    ensures { IfOk result (λ rule. spec.to_rule raw.now program ≡ Ok rule) }
{
    Ok(Rule {
        program,
        request_type: copy_of_text(alloc, &raw.request_type)?,
        user: copy_of_name(alloc, &raw.user)?,
    })
}

impl Resolve for RawRule {
    type Out = Rule;

    ghost resolved = { λ programs sets raw. spec.resolved_rule programs raw };

    #[tactic(auto, unfolding(crate::specs::ThirdPass::resolved_rule))]
    fn resolve(&self, alloc: Global, items: &Items) -> Result<Rule, FieldFail> {
        let program = program_if_named(items, &self.program)?;
        Ok(rule_for(alloc, program, self)?)
    }
}

fn manager_with(
    alloc: Global,
    raw: &RawManager,
    include: Seq<Rule>,
    exclude: Seq<Rule>,
) -> Result<Manager, NoMemory>
    requires { length include + length exclude ≤ 64 }
    ensures { IfOk result (λ manager. spec.to_manager raw.now (include, exclude) ≡ Ok manager) }
{
    let name = raw.name.try_clone(alloc)?;
    let shifts = Seq::from_vec(raw.shifts.list.as_slice().to_vec(alloc)?);
    Ok(Manager {
        name,
        include,
        exclude,
        shifts,
    })
}

impl Named for RawManager {
    ghost name_of = { λ manager. manager.name };

    fn name(&self) -> &Name {
        &self.name
    }
}

impl Resolve for RawManager {
    type Out = Manager;

    ghost resolved = { λ programs sets raw. spec.resolved_manager programs raw };

    #[tactic(auto, unfolding(crate::specs::ThirdPass::resolved_manager))]
    fn resolve(&self, alloc: Global, items: &Items) -> Result<Manager, FieldFail> {
        let included = resolve_good(alloc, items, self.include.as_slice());
        let excluded = resolve_good(alloc, items, self.exclude.as_slice());
        let (include, exclude) = both(included, excluded)?;
        Ok(manager_with(alloc, self, include, exclude)?)
    }
}
