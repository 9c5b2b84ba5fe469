ghost use Rattle.std.specs.Prelude.{◌≡◌, length, IfErr, IfOk, IsTrue, None};
ghost use Rattle.conc_types.specs.Scripts.{are_commands};
ghost use Rattle.conc_plan.specs.Faults.{plan_fault, IsFailure};
ghost use Rattle.conc_data_digests.specs.Stamps.{stamps_of};

use crate::expanding::expand;
use crate::judging::first_bad_program;
use conc_data_digests::stamps_of;
use conc_types::{FileKind, Plan, ReadFail, Script, Seq, Setup, Table};
use std::alloc::Global;

/// The plan of a setup, a script that fits it, and its tables in the order of the setup's names: with
/// them, the requests that the script enters, numbered from 1 in the order in which the submissions
/// stand in it, a set before its members; and the stamps of the script's commands.
///
/// It is refused in the setup, at the first program whose table is not one of the setup's
/// (`UnknownTable`) or whose table lacks a column that its filters, group or sum name
/// (`UnknownColumn`); else in the script, at the record with which there are more than 16,384 requests
/// (`TooManyRequests`). What was handed in is dropped then.
#[tactic(auto, unfolding(crate::specs::Faults::plan_fault))]
pub fn make_plan(
    alloc: Global,
    setup: Setup,
    script: Script,
    tables: Seq<Table>,
) -> Result<Plan, ReadFail>
    requires commands { IsTrue (are_commands setup script.commands) }
    requires tables { length tables ≡ length setup.tables }
    ensures setup { IfOk result (λ plan. plan.setup ≡ setup) }
    ensures script { IfOk result (λ plan. plan.script ≡ script) }
    ensures tables { IfOk result (λ plan. plan.tables ≡ tables) }
    ensures stamps { IfOk result (λ plan. plan.stamps ≡ stamps_of script.commands) }
    ensures faultless { IfOk result (λ _. plan_fault setup script.commands tables ≡ None) }
    ensures err { IfErr result (IsFailure (plan_fault setup script.commands tables)) }
{
    if let Some((line, kind)) = first_bad_program(&setup, tables.as_slice()) {
        return Err(ReadFail::refused(FileKind::Setup, line, kind));
    }
    let requests = expand(alloc, &setup, script.commands.as_slice())?;
    let stamps = stamps_of(alloc, script.commands.as_slice())?;
    Ok(Plan {
        setup,
        script,
        tables,
        requests: Seq::from_vec(requests),
        stamps: Seq::from_vec(stamps),
    })
}
