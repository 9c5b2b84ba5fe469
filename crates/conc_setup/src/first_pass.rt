ghost use Rattle.std.specs.Prelude.{◌≡◌, IfErr, IfOk, Ok, Option};
ghost use Rattle.std.specs.Result.{result_err};
ghost use Rattle.conc_types.specs.declared.refusal.FileKind.TheVariants as file;
ghost use Rattle.conc_types.specs.Faults.{IsFailure};
ghost use Rattle.conc_setup.specs.FirstPass as spec;

use crate::raw::{Document, Fault, RawSetup, refused};
use conc_data_fields::{first_wrong, goods};
use conc_types::{NoMemory, ReadFail};
use std::alloc::Global;

// The first entry that is wrong, with the least kind of what is wrong with it.
#[tactic(auto, unfolding(crate::specs::FirstPass::wrong_entry))]
fn wrong_entry(document: &Document) -> Option<Fault>
    ensures { result ≡ spec.wrong_entry document.now }
{
    let first_entry = 1 + document.programs.list.len() as u64;
    let first_manager = first_entry + document.entries.list.len() as u64;
    let first_set = first_manager + document.managers.list.len() as u64;
    first_wrong(1, document.programs.list.as_slice())
        .or(first_wrong(first_entry, document.entries.list.as_slice()))
        .or(first_wrong(first_manager, document.managers.list.as_slice()))
        .or(first_wrong(first_set, document.sets.list.as_slice()))
}

fn accepted(alloc: Global, document: Document) -> Result<RawSetup, NoMemory>
    ensures value { IfOk result (λ raw. raw ≡ spec.accepted document) }
    ensures few { IfOk result spec.IsFew }
{
    Ok(RawSetup {
        tables: document.tables,
        programs: goods(alloc, document.programs.list)?,
        entries: goods(alloc, document.entries.list)?,
        managers: goods(alloc, document.managers.list)?,
        sets: goods(alloc, document.sets.list)?,
    })
}

/// The setup, if each entry is right by itself. Else the file is refused for the first entry that is
/// not, and the least kind of what is wrong with it. Where memory lacks there is neither.
#[tactic(auto, unfolding(crate::specs::FirstPass::first_pass))]
pub(crate) fn first_pass(alloc: Global, document: Document) -> Result<RawSetup, ReadFail>
    ensures value { IfOk result (λ raw. spec.first_pass document ≡ Ok raw) }
    ensures fault { IfErr result (IsFailure file.Setup (result_err (spec.first_pass document))) }
    ensures few { IfOk result spec.IsFew }
{
    match wrong_entry(&document) {
        Some(fault) => Err(refused(fault)),
        None => Ok(accepted(alloc, document)?),
    }
}
