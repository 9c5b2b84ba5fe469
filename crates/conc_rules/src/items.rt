ghost use Rattle.std.specs.Prelude.{◌≡◌};
ghost use Rattle.conc_types.specs.Words.{some_and};
ghost use Rattle.conc_base_law.specs.Kinds as kinds_spec;
ghost use Rattle.conc_base_law.specs.Words as spec;
ghost use Rattle.conc_base_law.specs.Words.{id_eq, item_eq};

use conc_types::{Event, Item, RequestId};

/// Whether the item is a set.
pub fn is_set(item: Item) -> bool
    ensures { result ≡ spec.is_set item }
{
    matches!(item, Item::Set(_))
}

/// Whether two items are the same program or the same set.
pub fn is_same_item(a: Item, b: Item) -> bool
    ensures { result ≡ item_eq a b }
{
    match (a, b) {
        (Item::Program(x), Item::Program(y)) => x == y,
        (Item::Set(x), Item::Set(y)) => x == y,
        _ => false,
    }
}

/// Whether the event is a resume.
pub fn is_resume(e: Event) -> bool
    ensures { result ≡ kinds_spec.is_resume e }
{
    matches!(e, Event::Resume)
}

// Whether there is an id, and it is this one.
pub(crate) fn is_id(a: Option<RequestId>, b: RequestId) -> bool
    ensures { result ≡ some_and (id_eq b) a }
{
    match a {
        Some(id) => b.number == id.number,
        None => false,
    }
}
