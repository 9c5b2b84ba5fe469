ghost use Rattle.std.specs.Prelude.{◌≡◌, Some, slice_get};
ghost use Rattle.conc_event_classes.specs.Kinds as spec;
ghost use Rattle.conc_event_classes.specs.Kinds.{domain_at, kind_at, kind_eq, kind_of, parent_eq};

use conc_rules::{is_same_item, parent_item};
use conc_types::{Item, Plan, Req};

/// The first request of a class: what the exclusion of the class depends on.
#[derive(Clone, Copy, Debug, PartialEq, Eq)]
pub(crate) struct Head {
    pub item: Item,
    /// The item of its parent.
    pub parent: Option<Item>,
    /// Its index among the plan's requests, which has the domain.
    pub first: u32,
}

fn is_same_parent(a: Option<Item>, b: Option<Item>) -> bool
    ensures { result ≡ parent_eq a b }
{
    match (a, b) {
        (None, None) => true,
        (Some(x), Some(y)) => is_same_item(x, y),
        _ => false,
    }
}

/// The domain of the request at an index.
#[tactic(auto, unfolding(crate::specs::Kinds::domain_at))]
pub(crate) fn domain(plan: &Plan, index: u32) -> &[u8]
    ensures { result.now ≡ domain_at plan.now index }
{
    match plan.requests.as_slice().get(index as usize) {
        Some(r) => r.domain.as_bytes(),
        None => &[],
    }
}

#[tactic(auto, unfolding(crate::specs::Kinds::kind_at, crate::specs::Kinds::one_domain))]
pub(crate) fn are_in_one_domain(plan: &Plan, a: Head, b: Head) -> bool
    ensures { result ≡ spec.one_domain (kind_at plan.now a) (kind_at plan.now b) }
{
    domain(plan, a.first) == domain(plan, b.first)
}

#[tactic(auto, unfolding(crate::specs::Kinds::kind_at, crate::specs::Kinds::kind_eq, crate::specs::Kinds::one_domain))]
pub(crate) fn are_one_kind(plan: &Plan, a: Head, b: Head) -> bool
    ensures { result ≡ kind_eq (kind_at plan.now a) (kind_at plan.now b) }
{
    is_same_item(a.item, b.item)
        && is_same_parent(a.parent, b.parent)
        && are_in_one_domain(plan, a, b)
}

// The head of a class of which the request, at this index, is the first.
pub(crate) fn head_of(plan: &Plan, index: u32, r: &Req) -> Head
    ensures { slice_get plan.now.requests index ≡ Some r.now
        → kind_at plan.now result ≡ kind_of plan.now r.now }
{
    Head {
        item: r.item,
        parent: parent_item(plan, r),
        first: index,
    }
}
