ghost use Rattle.std.specs.Prelude.{◌≡◌, IfErr, IfOk, IsTrue, Ok, None, Option};
ghost use Rattle.std.specs.Result.{result_err};
ghost use Rattle.conc_types.specs.declared.refusal.FileKind.TheVariants as file;
ghost use Rattle.conc_types.specs.Faults.{IsFailure};
ghost use Rattle.conc_types.specs.Setups.{are_named, are_references};
ghost use Rattle.conc_setup.specs.FirstPass.{IsFew};
ghost use Rattle.conc_setup.specs.SecondPass.{name_again};
ghost use Rattle.conc_setup.specs.ThirdPass as spec;

use crate::raw::{Fault, RawSetup, refused};
use crate::resolve::{Items, resolve_all};
use crate::set::resolve_sets;
use conc_data_fields::{Counted, Judged, first_wrong, goods};
use conc_types::{Entry, Manager, Name, NoMemory, Program, ReadFail, Seq, SetDef, Setup};
use std::alloc::Global;

/// The entries of a setup with what they refer to, each with the least kind of what is wrong with it.
#[derive(Drop)]
struct Resolved {
    entries: Seq<Judged<Entry>>,
    managers: Seq<Judged<Manager>>,
    sets: Seq<Judged<SetDef>>,
}

fn resolve_each(alloc: Global, raw: &RawSetup) -> Result<Resolved, NoMemory>
    requires few { IsFew raw.now }
    requires named { name_again raw.now ≡ None }
    ensures entries { IfOk result (λ r. r.entries ≡ spec.entries_of raw.now) }
    ensures managers { IfOk result (λ r. r.managers ≡ spec.managers_of raw.now) }
    ensures sets { IfOk result (λ r. r.sets ≡ spec.sets_of raw.now) }
{
    let items = Items {
        programs: raw.programs.as_slice(),
        sets: raw.sets.as_slice(),
    };
    let entries = resolve_all(alloc, &items, raw.entries.as_slice())?;
    let managers = resolve_all(alloc, &items, raw.managers.as_slice())?;
    let sets = resolve_sets(alloc, &items, raw.sets.as_slice())?;
    Ok(Resolved {
        entries,
        managers,
        sets,
    })
}

// The first line with a name that is not there, or with a link that does not lead on.
#[tactic(auto, unfolding(crate::specs::ThirdPass::wrong_name))]
fn wrong_name(raw: &RawSetup, resolved: &Resolved) -> Option<Fault>
    requires few { IsFew raw.now }
    requires entries { resolved.now.entries ≡ spec.entries_of raw.now }
    requires managers { resolved.now.managers ≡ spec.managers_of raw.now }
    requires sets { resolved.now.sets ≡ spec.sets_of raw.now }
    ensures { result ≡ spec.wrong_name raw.now }
{
    let first_entry = 1 + raw.programs.len() as u64;
    let first_manager = first_entry + raw.entries.len() as u64;
    let first_set = first_manager + raw.managers.len() as u64;
    first_wrong(first_entry, resolved.entries.as_slice())
        .or(first_wrong(first_manager, resolved.managers.as_slice()))
        .or(first_wrong(first_set, resolved.sets.as_slice()))
}

fn setup_with(
    tables: Counted<Name, 0, 64>,
    programs: Seq<Program>,
    entries: Seq<Entry>,
    managers: Seq<Manager>,
    sets: Seq<SetDef>,
) -> Setup
    requires few { IsTrue (spec.are_few programs entries managers sets) }
    requires named { IsTrue (are_named tables.list programs managers sets) }
    requires references { IsTrue (are_references programs entries managers sets) }
    ensures { spec.to_setup tables programs entries managers sets ≡ Ok result }
{
    Setup {
        tables: tables.list,
        programs,
        entries,
        managers,
        sets,
    }
}

fn accepted(alloc: Global, raw: RawSetup, resolved: Resolved) -> Result<Setup, NoMemory>
    requires few { IsFew raw }
    requires named { name_again raw ≡ None }
    requires known { spec.wrong_name raw ≡ None }
    requires entries { resolved.entries ≡ spec.entries_of raw }
    requires managers { resolved.managers ≡ spec.managers_of raw }
    requires sets { resolved.sets ≡ spec.sets_of raw }
    ensures { IfOk result (λ setup. spec.resolved raw ≡ Ok setup) }
{
    let entries = goods(alloc, resolved.entries)?;
    let managers = goods(alloc, resolved.managers)?;
    let sets = goods(alloc, resolved.sets)?;
    Ok(setup_with(raw.tables, raw.programs, entries, managers, sets))
}

/// The setup with places in its lists in the stead of names, if each name is there and each link leads
/// to a later stage. Else the file is refused for the first line of which this is not so, and the least
/// kind of what is wrong with it. Where memory lacks there is neither. No name stands twice where it may
/// not.
#[tactic(auto, unfolding(crate::specs::ThirdPass::third_pass))]
pub(crate) fn third_pass(alloc: Global, raw: RawSetup) -> Result<Setup, ReadFail>
    requires few { IsFew raw }
    requires named { name_again raw ≡ None }
    ensures value { IfOk result (λ setup. spec.third_pass raw ≡ Ok setup) }
    ensures fault { IfErr result (IsFailure file.Setup (result_err (spec.third_pass raw))) }
{
    let resolved = resolve_each(alloc, &raw)?;
    match wrong_name(&raw, &resolved) {
        Some(fault) => Err(refused(fault)),
        None => Ok(accepted(alloc, raw, resolved)?),
    }
}
