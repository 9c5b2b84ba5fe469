ghost use Rattle.std.specs.Prelude.{◌≡◌, ◌≤◌, IfOk, length, map, slice_index};
ghost use Rattle.std.specs.List.{filter, range_with_len};
ghost use Rattle.conc_event_classes.specs.Classes.{excludes_kin_at};
ghost use Rattle.conc_event_queue.specs.Least.{vacant};

use conc_event_classes::Classes;
use conc_event_queue::Queue;
use conc_types::{NoMemory, Seq};
use std::alloc::Global;

/// For each of the first classes, so many, a queue in which no request has a key.
pub(crate) fn vacant_queues(
    alloc: Global,
    classes: &Classes,
    count: u32,
) -> Result<Vec<Queue>, NoMemory>
    requires { count ≤ length classes.now.sizes }
    ensures { IfOk result (λ queues. queues.items
        ≡ map (λ c. vacant (slice_index classes.now.sizes c)) (range_with_len 0 count)) }
{
    let mut queues = Vec::with_capacity(alloc, count as usize)?;
    for class in 0..count {
        let size = classes.size(class);
        queues.push(Queue::new(alloc, size as usize)?)?;
    }
    Ok(queues)
}

/// For each of so many classes zero.
pub(crate) fn zeros(alloc: Global, count: u32) -> Result<Seq<u32>, NoMemory>
    ensures { IfOk result (λ counts. counts ≡ map (λ c. 0) (range_with_len 0 count)) }
{
    let mut counts = Vec::with_capacity(alloc, count as usize)?;
    for _ in 0..count {
        counts.push(0)?;
    }
    Ok(Seq::from_vec(counts))
}

/// Those of the first classes, so many, that may exclude kin.
pub(crate) fn kin_classes(
    alloc: Global,
    classes: &Classes,
    count: u32,
) -> Result<Seq<u32>, NoMemory>
    ensures { IfOk result (λ kin. kin ≡ filter (excludes_kin_at classes.now)
        (range_with_len 0 count)) }
{
    let mut kin = Vec::new(alloc);
    for class in 0..count {
        if classes.excludes_kin(class) {
            kin.push(class)?;
        }
    }
    Ok(Seq::from_vec(kin))
}
