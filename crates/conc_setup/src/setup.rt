ghost use Rattle.std.specs.Prelude.{◌≡◌, IfErr, IfOk, Ok};
ghost use Rattle.std.specs.Result.{result_err};
ghost use Rattle.conc_types.specs.declared.refusal.FileKind.TheVariants as file;
ghost use Rattle.conc_types.specs.Faults.{IsFailure};
ghost use Rattle.conc_setup.specs.FirstPass as first_pass_spec;
ghost use Rattle.conc_setup.specs.FirstPass.{IsFew};
ghost use Rattle.conc_setup.specs.Lines.{passed};
ghost use Rattle.conc_setup.specs.SecondPass as second_pass_spec;
ghost use Rattle.conc_setup.specs.Setups as setups_spec;
ghost use Rattle.conc_setup.specs.Setups.{fault_in};
ghost use Rattle.conc_setup.specs.ThirdPass as third_pass_spec;

use crate::document::document_in;
use crate::first_pass::first_pass;
use crate::raw::{Document, RawSetup, refused};
use crate::second_pass::second_pass;
use crate::third_pass::third_pass;
use conc_data_fields::FieldFail;
use conc_types::{ReadFail, Setup};
use std::alloc::Global;

// What the second and the third pass make of a setup.
#[tactic(auto, unfolding(crate::specs::SecondPass::second_pass))]
fn pass_names(alloc: Global, raw: RawSetup) -> Result<Setup, ReadFail>
    requires { IsFew raw }
    ensures value { IfOk result (λ setup. passed third_pass_spec.third_pass
        (second_pass_spec.second_pass raw) ≡ Ok setup) }
    ensures fault { IfErr result (IsFailure file.Setup (result_err (passed third_pass_spec.third_pass
        (second_pass_spec.second_pass raw)))) }
{
    match second_pass(&raw) {
        Some(fault) => Err(refused(fault)),
        None => third_pass(alloc, raw),
    }
}

// What the three passes make of a document.
fn pass_all(alloc: Global, document: Document) -> Result<Setup, ReadFail>
    ensures value { IfOk result (λ setup. passed third_pass_spec.third_pass
        (passed second_pass_spec.second_pass (first_pass_spec.first_pass document)) ≡ Ok setup) }
    ensures fault { IfErr result (IsFailure file.Setup (result_err (passed third_pass_spec.third_pass
        (passed second_pass_spec.second_pass (first_pass_spec.first_pass document))))) }
{
    let raw = first_pass(alloc, document)?;
    pass_names(alloc, raw)
}

/// The setup that a file says: a TOML document with the array `tables` of the names of files, and the
/// arrays of tables `program`, `incompatible`, `manager` and `set`, each empty where it is absent. Where
/// a table names a program, a set or a stage, the setup has its place in its list.
///
/// Where the file breaks a rule it is refused for the kind of that rule, at a line. A line is the number
/// of an entry, from 1, counted through the four arrays in this order; 0 is the file as a whole. A rule,
/// shift, filter or stage has the number of the entry that it is part of. A file of more than 67,108,864
/// bytes (`TooMany`) and one that is not TOML (`NotToml`) are refused at line 0. Then come three passes,
/// of which the first one that finds something refuses the file for the least line and on it for the
/// kind with the least number: one for what is wrong with an entry by itself (`UnknownKey`, `Missing`,
/// `WrongKind`, `OutOfRange`, `BadShift` and `TooMany`), with the places of all managers that are right
/// by themselves on line 0; one for names that stand twice (`Duplicate`); and one for names that are not
/// there (`UnknownName`) and links to the same or an earlier stage (`BackLink`). Where memory lacks
/// there is neither a setup nor a refusal.
#[tactic(auto, unfolding(crate::specs::Setups::setup_in))]
pub fn read_setup(alloc: Global, bytes: &[u8]) -> Result<Setup, ReadFail>
    ensures value { IfOk result (λ setup. setups_spec.setup_in bytes.now ≡ Ok setup) }
    ensures fault { IfErr result (IsFailure file.Setup (fault_in bytes.now)) }
{
    match document_in(alloc, bytes) {
        Ok(document) => pass_all(alloc, document),
        Err(FieldFail::Refused(kind)) => Err(refused((0, kind))),
        Err(FieldFail::NoMemory) => Err(ReadFail::NoMemory),
    }
}
