ghost use Rattle.std.specs.Prelude.{◌≡◌, [], IfOk, slice_get, slice_set, true, unwrap_or};
ghost use Rattle.conc_event_classes.specs.ExcludesKin as spec;
ghost use Rattle.conc_event_classes.specs.ExcludesKin.{AreKinMarked, MarksKin, are_row_rivals};

use conc_types::{NoMemory, Plan, Req, RequestId, Seq, numbered};
use std::alloc::Global;

#[tactic(auto, unfolding(crate::specs::ExcludesKin::parent_class))]
fn parent_class(classes: &[u32], r: &Req) -> Option<u32>
    ensures { result ≡ spec.parent_class classes.now r.now }
{
    match r.parent {
        Some(id) => numbered(classes, id.number).copied(),
        None => None,
    }
}

fn row_at(rows: &[Seq<u32>], class: u32) -> &[u32]
    ensures { result.now ≡ unwrap_or (slice_get rows.now class) [] }
{
    match rows.get(class as usize) {
        Some(row) => row.as_slice(),
        None => &[],
    }
}

#[tactic(auto, unfolding(crate::specs::ExcludesKin::are_row_rivals))]
fn are_rivals(rows: &[Seq<u32>], c: u32, d: u32) -> bool
    ensures { result ≡ are_row_rivals rows.now c d }
{
    row_at(rows, c).iter().any(|x| *x == d)
}

// The class of a request's parent, if it excludes the request's own class.
#[tactic(auto, unfolding(crate::specs::ExcludesKin::rival_parent))]
fn rival_parent(classes: &[u32], rows: &[Seq<u32>], r: &Req, class: u32) -> Option<u32>
    ensures { result ≡ spec.rival_parent classes.now rows.now r.now class }
{
    match parent_class(classes, r) {
        Some(parent) => {
            if are_rivals(rows, parent, class) {
                Some(parent)
            } else {
                None
            }
        }
        None => None,
    }
}

fn mark(excludes_kin: &mut Vec<bool>, class: u32)
    ensures { excludes_kin.new.items ≡ slice_set excludes_kin.old.items class true }
{
    if (class as usize) < excludes_kin.len() {
        excludes_kin[class as usize] = true;
    }
}

fn none_excluding_kin(alloc: Global, count: usize) -> Result<Vec<bool>, NoMemory> {
    let mut excludes_kin = Vec::with_capacity(alloc, count)?;
    for _ in 0..count {
        excludes_kin.push(false)?;
    }
    Ok(excludes_kin)
}

// Marks the class of a request and that of its parent, if these exclude each other.
fn mark_kin(classes: &[u32], rows: &[Seq<u32>], index: usize, r: &Req, excludes_kin: &mut Vec<bool>)
    ensures { MarksKin classes.now rows.now index r.now excludes_kin.old.items
        excludes_kin.new.items }
{
    if let Some(class) = classes.get(index).copied() {
        if let Some(parent) = rival_parent(classes, rows, r, class) {
            mark(excludes_kin, parent);
            mark(excludes_kin, class);
        }
    }
}

/// For each class, whether a request of it would exclude kin of its own, were they not kin.
pub(crate) fn all_excluding_kin(
    alloc: Global,
    plan: &Plan,
    classes: &[u32],
    rows: &[Seq<u32>],
) -> Result<Seq<bool>, NoMemory>
    ensures { IfOk result (λ excludes_kin. AreKinMarked plan.now.requests classes.now rows.now
        excludes_kin) }
{
    let mut excludes_kin = none_excluding_kin(alloc, rows.len())?;
    for (i, r) in plan.requests.as_slice().iter().enumerate() {
        mark_kin(classes, rows, i, r, &mut excludes_kin);
    }
    Ok(Seq::from_vec(excludes_kin))
}
