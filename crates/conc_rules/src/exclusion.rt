ghost use Rattle.std.specs.Prelude.{◌≡◌};
ghost use Rattle.std.specs.List.{list_any};
ghost use Rattle.conc_base_law.specs.Exclusion as spec;
ghost use Rattle.conc_base_law.specs.Exclusion.{covers, entry_excludes, excludes_from, is_kin, same_domain};

use crate::items::{is_id, is_same_item};
use conc_types::{Entry, Item, Reach, Req, Scope, Setup};

#[tactic(auto, unfolding(conc_base_law::specs::Exclusion::is_kin))]
fn are_kin(x: &Req, y: &Req) -> bool
    ensures { result ≡ is_kin x.now y.now }
{
    is_id(x.parent, y.number) || is_id(y.parent, x.number)
}

#[tactic(auto, unfolding(conc_base_law::specs::Exclusion::same_domain))]
fn are_in_one_domain(x: &Req, y: &Req) -> bool
    ensures { result ≡ same_domain x.now y.now }
{
    x.domain.as_bytes() == y.domain.as_bytes()
}

#[tactic(auto, unfolding(conc_base_law::specs::Exclusion::covers))]
fn entry_covers(entry: Entry, y: &Req, parent: Option<Item>) -> bool
    ensures { result ≡ covers entry y.now parent }
{
    if is_same_item(entry.other, y.item) {
        return true;
    }
    match (entry.scope, parent) {
        (Scope::Set, Some(set)) => is_same_item(entry.other, set),
        _ => false,
    }
}

/// Whether the item is a program that never runs beside another request of its domain.
#[tactic(auto, unfolding(conc_base_law::specs::Exclusion::runs_alone))]
pub fn runs_alone(setup: &Setup, item: Item) -> bool
    ensures { result ≡ spec.runs_alone setup.now item }
{
    match item {
        Item::Program(n) => match setup.programs.as_slice().get(n as usize) {
            Some(program) => program.run_alone,
            None => false,
        },
        Item::Set(_) => false,
    }
}

#[tactic(auto, unfolding(conc_base_law::specs::Exclusion::entry_excludes))]
fn one_entry_excludes(entry: Entry, x: &Req, y: &Req, parent: Option<Item>) -> bool
    ensures { result ≡ entry_excludes x.now y.now parent entry }
{
    is_same_item(entry.owner, x.item)
        && entry_covers(entry, y, parent)
        && (matches!(entry.reach, Reach::Global) || are_in_one_domain(x, y))
}

fn some_entry_excludes(setup: &Setup, x: &Req, y: &Req, parent: Option<Item>) -> bool
    ensures { result ≡ list_any (entry_excludes x.now y.now parent) setup.now.entries }
{
    setup
        .entries
        .as_slice()
        .iter()
        .any(|entry| one_entry_excludes(*entry, x, y, parent))
}

// Whether an entry of x, or its mark to run alone, keeps y out.
#[tactic(auto, unfolding(conc_base_law::specs::Exclusion::excludes_from))]
fn excludes_one_way(setup: &Setup, x: &Req, y: &Req, parent: Option<Item>) -> bool
    ensures { result ≡ excludes_from setup.now x.now y.now parent }
{
    some_entry_excludes(setup, x, y, parent)
        || (runs_alone(setup, x.item) && are_in_one_domain(x, y))
}

/// Whether two requests of the setup never run at the same time: they are distinct, neither is the
/// other's parent, and either an entry of one item covers the other request, in one domain or
/// globally, or the program of one runs alone and the domains are equal. `parents` are the items of
/// the parents of `x` and `y`. It takes no memory.
#[tactic(auto, unfolding(conc_base_law::specs::Exclusion::excludes))]
pub fn excludes(setup: &Setup, x: &Req, y: &Req, parents: (Option<Item>, Option<Item>)) -> bool
    ensures { result ≡ spec.excludes setup.now x.now y.now parents.0 parents.1 }
{
    x.number.number != y.number.number
        && !are_kin(x, y)
        && (excludes_one_way(setup, x, y, parents.1) || excludes_one_way(setup, y, x, parents.0))
}
