ghost use Rattle.std.specs.Prelude.{◌≡◌, ◌≤◌, IfOk, List, Result, length, map};
ghost use Rattle.conc_types.specs.declared.kind.RefusalKind.{RefusalKind};
ghost use Rattle.conc_types.specs.declared.program.Program.{Program};
ghost use Rattle.conc_data_fields.specs.Arrays as arrays_spec;
ghost use Rattle.conc_data_fields.specs.Reads.{IfRead, read_as};
ghost use Rattle.conc_data_entries.specs.declared.raw.RawSet.{RawSet};
ghost use Rattle.conc_setup.specs.ThirdPass as spec;

use crate::names::place_of;
use conc_data_entries::RawSet;
use conc_data_fields::{FieldFail, Judged, all_good};
use conc_types::{Item, Name, NoMemory, Program, RefusalKind, Seq};
use std::alloc::Global;

/// The programs and sets, in which names are looked up.
#[derive(Drop)]
pub(crate) struct Items<'a> {
    pub programs: &'a [Program],
    pub sets: &'a [RawSet],
    ghost few_programs: { length programs.now ≤ 1024 },
    ghost few_sets: { length sets.now ≤ 256 },
}

/// The place of the program with this name.
pub(crate) fn program_of(items: &Items, name: &Name) -> Judged<u32>
    ensures { result ≡ spec.program_of items.now.programs.now name.now }
{
    match place_of(items.programs, name) {
        Some(place) => Ok(place as u32),
        None => Err(RefusalKind::UnknownName),
    }
}

/// The program or set with this name.
#[tactic(auto, unfolding(crate::specs::ThirdPass::item_of))]
pub(crate) fn item_of(items: &Items, name: &Name) -> Result<Item, FieldFail>
    ensures { result ≡ read_as (spec.item_of items.now.programs.now items.now.sets.now name.now) }
{
    match place_of(items.programs, name) {
        Some(place) => Ok(Item::Program(place as u32)),
        None => match place_of(items.sets, name) {
            Some(place) => Ok(Item::Set(place as u32)),
            None => Err(FieldFail::Refused(RefusalKind::UnknownName)),
        },
    }
}

/// What has names, and is made into a value with places in their stead.
pub(crate) trait Resolve {
    /// What it is made into.
    type Out: Drop;

    ghost resolved: { List Program → List RawSet → Self → Result Self.Out RefusalKind };

    /// The value with places, or the least kind of what is wrong with a name, unless memory lacks.
    fn resolve(&self, alloc: Global, items: &Items) -> Result<Self::Out, FieldFail>
        ensures { IfRead result (λ r. r ≡ resolved items.now.programs.now items.now.sets.now
            self.now) };
}

impl Resolve for Name {
    type Out = u32;

    ghost resolved = { λ programs sets name. spec.program_of programs name };

    fn resolve(&self, _alloc: Global, items: &Items) -> Result<u32, FieldFail> {
        Ok(program_of(items, self)?)
    }
}

/// What each of the values is made into, in their order.
pub(crate) fn resolve_all<T: Resolve>(
    alloc: Global,
    items: &Items,
    values: &[T],
) -> Result<Seq<Judged<T::Out>>, NoMemory>
    ensures { IfOk result (λ all. all ≡ map (T.resolved items.now.programs.now items.now.sets.now)
        values.now) }
{
    let mut all = Vec::new(alloc);
    for value in values {
        match value.resolve(alloc, items) {
            Ok(resolved) => all.push(Ok(resolved))?,
            Err(FieldFail::Refused(kind)) => all.push(Err(kind))?,
            Err(FieldFail::NoMemory) => return Err(NoMemory),
        }
    }
    Ok(Seq::from_vec(all))
}

/// What the values are made into, or the least kind of what is wrong with one of them, unless memory
/// lacks.
pub(crate) fn resolve_good<T: Resolve>(
    alloc: Global,
    items: &Items,
    values: &[T],
) -> Result<Seq<T::Out>, FieldFail>
    ensures value { IfRead result (λ r. r
        ≡ arrays_spec.all_good (map (T.resolved items.now.programs.now items.now.sets.now)
        values.now)) }
    ensures count { IfOk result (λ all. length all ≡ length values.now) }
{
    let all = resolve_all(alloc, items, values)?;
    all_good(alloc, all)
}
