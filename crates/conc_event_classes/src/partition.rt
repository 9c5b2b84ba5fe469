ghost use Rattle.std.specs.Prelude.{◌≡◌, ◌+◌, ◌<◌, ◌≤◌, ◌^◌, IfOk, OnOk, Some, length, slice_get, slice_index, suc, take};
ghost use Rattle.std.specs.List.{find};
ghost use Rattle.std.specs.Option.{option_copied};
ghost use Rattle.conc_event_classes.specs.Keys as keys_spec;
ghost use Rattle.conc_event_classes.specs.Kinds.{kind_at};
ghost use Rattle.conc_event_classes.specs.Partitions as spec;
ghost use Rattle.conc_event_classes.specs.Partitions.{IsJoined, IsOpened, IsPartition};
ghost use Rattle.conc_event_classes.specs.Shelf.{IsShelf, bucket};

use crate::keys::kind_key;
use crate::kinds::{Head, are_one_kind, head_of};
use crate::shelf::Shelf;
use conc_types::{NoMemory, Plan, Req};
use std::alloc::Global;

/// The class and the slot of each request, and for each class its size and its first request.
#[derive(Drop)]
pub(crate) struct Partition {
    pub classes: Vec<u32>,
    pub slots: Vec<u32>,
    pub sizes: Vec<u32>,
    pub heads: Vec<Head>,
    /// Each class by its kind.
    pub shelf: Shelf,
}

// Whether the class with this number is of the kind.
#[tactic(auto, unfolding(crate::specs::Partitions::is_of_kind))]
fn is_of_kind(plan: &Plan, heads: &[Head], class: u32, head: Head) -> bool
    ensures { result ≡ spec.is_of_kind plan.now heads.now (kind_at plan.now head) class }
{
    match heads.get(class as usize) {
        Some(other) => are_one_kind(plan, *other, head),
        None => false,
    }
}

// The class of this kind, if there is one.
fn class_of<'a>(plan: &Plan, heads: &[Head], shelf: &'a Shelf, head: Head) -> Option<&'a u32>
    ensures { option_copied result ≡ find (spec.is_of_kind plan.now heads.now (kind_at plan.now head))
        (bucket shelf.now (keys_spec.kind_key (kind_at plan.now head))) }
{
    shelf
        .bucket(kind_key(plan, head))
        .iter()
        .find(|class| is_of_kind(plan, heads, **class, head))
}

// Places one more request, in this class.
fn join(partition: &mut Partition, class: u32) -> Result<(), NoMemory>
    requires within { class < length partition.old.sizes.items }
    requires few { slice_index partition.old.sizes.items class ≤ 16384 }
    ensures { OnOk result (IsJoined partition.old partition.new class) }
{
    let size = partition.sizes[class as usize];
    partition.classes.push(class)?;
    partition.slots.push(size)?;
    partition.sizes[class as usize] = size + 1;
    Ok(())
}

// Places one more request, in a class of its own.
fn open(plan: &Plan, partition: &mut Partition, head: Head) -> Result<(), NoMemory>
    requires few { length partition.old.heads.items ≤ 16384 }
    requires shelf { IsShelf partition.old.shelf }
    ensures { OnOk result (IsOpened partition.old partition.new head) }
{
    let class = partition.heads.len() as u32;
    partition.classes.push(class)?;
    partition.slots.push(0)?;
    partition.sizes.push(1)?;
    partition.heads.push(head)?;
    partition.shelf.put(kind_key(plan, head), class)?;
    Ok(())
}

// Places the request at this index, which is the next one.
fn slot(plan: &Plan, partition: &mut Partition, index: u32, r: &Req) -> Result<(), NoMemory>
    requires before { IsPartition plan.now (take index plan.now.requests) partition.old }
    requires here { slice_get plan.now.requests index ≡ Some r.now }
    ensures { OnOk result (IsPartition plan.now (take (suc index) plan.now.requests)
        partition.new) }
{
    let head = head_of(plan, index, r);
    match class_of(plan, partition.heads.as_slice(), &partition.shelf, head).copied() {
        Some(class) => join(partition, class),
        None => open(plan, partition, head),
    }
}

/// Places all requests of the plan.
pub(crate) fn partition_all(alloc: Global, plan: &Plan) -> Result<Partition, NoMemory>
    ensures { IfOk result (λ partition. IsPartition plan.now plan.now.requests partition) }
{
    let mut partition = Partition {
        classes: Vec::with_capacity(alloc, plan.requests.len())?,
        slots: Vec::with_capacity(alloc, plan.requests.len())?,
        sizes: Vec::new(alloc),
        heads: Vec::new(alloc),
        shelf: Shelf::new(alloc)?,
    };
    for (i, r) in plan.requests.as_slice().iter().enumerate() {
        slot(plan, &mut partition, i as u32, r)?;
    }
    Ok(partition)
}
