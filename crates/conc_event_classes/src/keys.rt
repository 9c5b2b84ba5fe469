ghost use Rattle.std.specs.Prelude.{◌≡◌, ◌<◌, ◌^◌};
ghost use Rattle.conc_event_classes.specs.Keys as spec;
ghost use Rattle.conc_event_classes.specs.Kinds.{kind_at};

use crate::kinds::{Head, domain};
use conc_types::{Item, Plan};

/// A number for each item.
#[tactic(auto, unfolding(crate::specs::Keys::item_key))]
pub(crate) fn item_key(item: Item) -> u64
    ensures key { result ≡ spec.item_key item }
    ensures small { result < 2 ^ 34 }
{
    match item {
        Item::Program(n) => u64::from(n) * 2,
        Item::Set(n) => u64::from(n) * 2 + 1,
    }
}

/// A number for the item of a parent, and one for none.
#[tactic(auto, unfolding(crate::specs::Keys::parent_key))]
pub(crate) fn parent_key(parent: Option<Item>) -> u64
    ensures key { result ≡ spec.parent_key parent }
    ensures small { result < 2 ^ 34 }
{
    match parent {
        Some(set) => item_key(set),
        None => 0,
    }
}

// A number below 1021, made of each byte in turn.
#[tactic(auto, unfolding(crate::specs::Keys::bytes_key))]
fn bytes_key(bytes: &[u8]) -> u64
    ensures key { result ≡ spec.bytes_key bytes.now }
    ensures small { result < 1021 }
{
    let mut key = 0;
    for byte in bytes {
        key = (key * 31 + u64::from(*byte)) % 1021;
    }
    key
}

/// A number for the domain of a class. Equal domains have one number.
#[tactic(auto, unfolding(crate::specs::Keys::domain_key, crate::specs::Kinds::kind_at))]
pub(crate) fn domain_key(plan: &Plan, head: Head) -> u64
    ensures key { result ≡ spec.domain_key (kind_at plan.now head) }
    ensures small { result < 1021 }
{
    bytes_key(domain(plan, head.first))
}

/// A number for the kind of a class. Equal kinds have one number.
#[tactic(auto, unfolding(crate::specs::Keys::kind_key, crate::specs::Kinds::kind_at))]
pub(crate) fn kind_key(plan: &Plan, head: Head) -> u64
    ensures { result ≡ spec.kind_key (kind_at plan.now head) }
{
    item_key(head.item) * 1031 + parent_key(head.parent) * 61 + domain_key(plan, head)
}
