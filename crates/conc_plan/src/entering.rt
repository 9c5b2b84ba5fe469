ghost use Rattle.std.specs.Prelude.{◌≡◌, ◌≤◌, ◌<◌, ◌+◌, ◌^◌, ◌++◌, ◌==◌, if◌then◌else◌, None, Some, length, OnOk};
ghost use Rattle.conc_types.specs.Expansion.{entered, members_of, parts, parts_by, request_by};
ghost use Rattle.conc_plan.specs.Entering.{entered_by, members_in, set_parts};

use crate::copies::{copy_text, copy_type};
use conc_types::{Act, Item, NoMemory, Order, Req, RequestId, Setup, Stage};
use std::alloc::Global;

/// A command of a setup's script, with its number and the number of the first request that it enters.
#[derive(Clone, Copy)]
pub(crate) struct Command<'a> {
    setup: &'a Setup,
    order: &'a Order,
    number: u32,
    first: u32,
}

// The set's request, for a request in a stage, and 0 is no stage.
fn parent(stage: u32, first: u32) -> Option<RequestId>
    ensures { result ≡ if stage == 0 then None else Some (record { number = first }) }
{
    if stage == 0 {
        None
    } else {
        Some(RequestId { number: first })
    }
}

fn enter_part(
    alloc: Global,
    command: Command<'_>,
    next: u32,
    stage: u32,
    item: Item,
    out: &mut Vec<Req>,
) -> Result<(), NoMemory>
    ensures { OnOk result (out.new.items ≡ out.old.items
        ++ request_by command.entry.setup.now command.entry.number command.entry.first
        command.entry.order.now.act (next, (stage, item))) }
{
    match &command.order.act {
        Act::Submit {
            user,
            priority,
            start,
            domain,
            argument,
            ..
        } => {
            let request = Req {
                number: RequestId { number: next },
                command: command.number,
                item,
                user: user.try_clone(alloc)?,
                request_type: copy_type(alloc, command.setup, item)?,
                priority: *priority,
                start: *start,
                domain: domain.try_clone(alloc)?,
                argument: copy_text(alloc, argument)?,
                parent: parent(stage, command.first),
                stage,
            };
            out.push(request)?;
            Ok(())
        }
        _ => Ok(()),
    }
}

// Enters the members of a stage, whose number is from 1.
fn enter_stage(
    alloc: Global,
    command: Command<'_>,
    mut next: u32,
    number: u32,
    stage: &Stage,
    out: &mut Vec<Req>,
) -> Result<(), NoMemory>
    requires { next + length stage.now.members < 2 ^ 32 }
    ensures { OnOk result (out.new.items ≡ out.old.items
        ++ entered_by command.entry next (members_of (number, stage.now))) }
{
    for program in stage.members.as_slice() {
        enter_part(alloc, command, next, number, Item::Program(*program), out)?;
        next += 1;
    }
    Ok(())
}

// The stages of the set at a place in the setup's list, if there is one.
fn stages_at(setup: &Setup, place: u32) -> &[Stage]
    ensures parts { members_in result.now ≡ set_parts setup.now place }
    ensures few { length result.now ≤ 64 }
{
    match setup.sets.as_slice().get(place as usize) {
        Some(set) => set.stages.as_slice(),
        None => &[],
    }
}

// Enters the members of a set, stage by stage.
fn enter_members(
    alloc: Global,
    command: Command<'_>,
    mut next: u32,
    stages: &[Stage],
    out: &mut Vec<Req>,
) -> Result<(), NoMemory>
    requires few { length stages.now ≤ 64 }
    requires fits { next + length (members_in stages.now) < 2 ^ 32 }
    ensures { OnOk result (out.new.items ≡ out.old.items
        ++ entered_by command.entry next (members_in stages.now)) }
{
    let mut number = 1;
    for stage in stages {
        enter_stage(alloc, command, next, number, stage, out)?;
        next += stage.members.len() as u32;
        number += 1;
    }
    Ok(())
}

// Enters a program; or a set, and then its members.
fn enter_item(
    alloc: Global,
    command: Command<'_>,
    next: u32,
    item: Item,
    out: &mut Vec<Req>,
) -> Result<(), NoMemory>
    requires { next + length (parts command.setup.now item) < 2 ^ 32 }
    ensures { OnOk result (out.new.items ≡ out.old.items
        ++ entered_by command.entry next (parts command.entry.setup.now item)) }
{
    enter_part(alloc, command, next, 0, item, out)?;
    match item {
        Item::Program(_) => Ok(()),
        Item::Set(place) => {
            let stages = stages_at(command.setup, place);
            enter_members(alloc, command, next + 1, stages, out)
        }
    }
}

/// Enters the requests of a command, which is given with its number, after those that stand in `out`.
pub fn enter(
    alloc: Global,
    setup: &Setup,
    command: u32,
    order: &Order,
    out: &mut Vec<Req>,
) -> Result<(), NoMemory>
    requires { length out.old.items + length (parts_by setup.now order.now.act) ≤ 16384 }
    ensures { OnOk result (out.new.items ≡ out.old.items
        ++ entered setup.now (length out.old.items + 1) (command, order.now)) }
{
    match &order.act {
        Act::Submit { item, .. } => {
            let first = out.len() as u32 + 1;
            let command = Command {
                setup,
                order,
                number: command,
                first,
            };
            enter_item(alloc, command, first, *item, out)
        }
        _ => Ok(()),
    }
}
