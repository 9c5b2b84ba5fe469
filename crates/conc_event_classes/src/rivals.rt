ghost use Rattle.std.specs.Prelude.{◌≡◌, ◌≤◌, ◌&&◌, IfOk, length};
ghost use Rattle.std.specs.List.{filter, list_any};
ghost use Rattle.conc_event_classes.specs.Kinds as kinds_spec;
ghost use Rattle.conc_event_classes.specs.Kinds.{covers_item};
ghost use Rattle.conc_event_classes.specs.Rivals as rivals_spec;
ghost use Rattle.conc_event_classes.specs.Rivals.{IsClaim, claimed_by, row_of, rows_of};
ghost use Rattle.conc_event_classes.specs.Shelves.{AreShelves};

use crate::candidates::candidates;
use crate::kinds::{Head, are_in_one_domain};
use crate::shelves::Shelves;
use conc_rules::{is_same_item, runs_alone};
use conc_types::{Entry, Item, NoMemory, Plan, Reach, Scope, Seq};
use std::alloc::Global;

/// All that excludes the requests of a class.
#[derive(Drop)]
pub(crate) struct Claim {
    pub head: Head,
    /// The entries of its item.
    pub owned: Vec<Entry>,
    /// The entries that cover its requests.
    pub covering: Vec<Entry>,
    /// Its program runs alone.
    pub alone: bool,
}

#[tactic(auto, unfolding(crate::specs::Kinds::owns))]
fn owns(item: Item, entry: Entry) -> bool
    ensures { result ≡ kinds_spec.owns item entry }
{
    is_same_item(entry.owner, item)
}

#[tactic(auto, unfolding(crate::specs::Kinds::covers_item))]
fn covers(item: Item, parent: Option<Item>, entry: Entry) -> bool
    ensures { result ≡ covers_item item parent entry }
{
    if is_same_item(entry.other, item) {
        return true;
    }
    match (entry.scope, parent) {
        (Scope::Set, Some(set)) => is_same_item(entry.other, set),
        _ => false,
    }
}

#[tactic(auto, unfolding(crate::specs::Kinds::reaches))]
fn reaches(same_domain: bool, entry: Entry) -> bool
    ensures { result ≡ kinds_spec.reaches same_domain entry }
{
    matches!(entry.reach, Reach::Global) || same_domain
}

fn entries_of(alloc: Global, entries: &[Entry], item: Item) -> Result<Vec<Entry>, NoMemory>
    ensures { IfOk result (λ all. all.items ≡ filter (kinds_spec.owns item) entries.now) }
{
    Ok(
        entries
            .iter()
            .copied()
            .filter(|entry| owns(item, *entry))
            .collect(alloc)?,
    )
}

fn entries_over(alloc: Global, entries: &[Entry], head: Head) -> Result<Vec<Entry>, NoMemory>
    ensures { IfOk result (λ all. all.items
        ≡ filter (covers_item head.item head.parent) entries.now) }
{
    Ok(
        entries
            .iter()
            .copied()
            .filter(|entry| covers(head.item, head.parent, *entry))
            .collect(alloc)?,
    )
}

fn claim_of(alloc: Global, plan: &Plan, head: Head) -> Result<Claim, NoMemory>
    ensures { IfOk result (λ claim. IsClaim plan.now head claim) }
{
    let entries = plan.setup.entries.as_slice();
    Ok(Claim {
        head,
        owned: entries_of(alloc, entries, head.item)?,
        covering: entries_over(alloc, entries, head)?,
        alone: runs_alone(&plan.setup, head.item),
    })
}

fn some_covers(owned: &[Entry], other: Head, same_domain: bool) -> bool
    ensures { result ≡ list_any (λ entry. covers_item other.item other.parent entry
        && kinds_spec.reaches same_domain entry) owned.now }
{
    owned.iter().any(|entry| {
        covers(other.item, other.parent, *entry) && reaches(same_domain, *entry)
    })
}

fn some_is_owned(covering: &[Entry], other: Head, same_domain: bool) -> bool
    ensures { result ≡ list_any (λ entry. kinds_spec.owns other.item entry
        && kinds_spec.reaches same_domain entry) covering.now }
{
    covering.iter().any(|entry| owns(other.item, *entry) && reaches(same_domain, *entry))
}

#[tactic(auto, unfolding(crate::specs::Rivals::claims))]
fn claims(claim: &Claim, other: Head, same_domain: bool) -> bool
    ensures { result ≡ rivals_spec.claims claim.now other same_domain }
{
    some_covers(claim.owned.as_slice(), other, same_domain) || (claim.alone && same_domain)
}

#[tactic(auto, unfolding(crate::specs::Rivals::claimed_by))]
fn is_claimed_by(plan: &Plan, claim: &Claim, other: Head, same_domain: bool) -> bool
    ensures { result ≡ claimed_by plan.now claim.now other same_domain }
{
    some_is_owned(claim.covering.as_slice(), other, same_domain)
        || (runs_alone(&plan.setup, other.item) && same_domain)
}

#[tactic(auto, unfolding(crate::specs::Rivals::either_claims))]
fn either_claims(plan: &Plan, claim: &Claim, other: Head, same_domain: bool) -> bool
    ensures { result ≡ rivals_spec.either_claims plan.now claim.now other same_domain }
{
    claims(claim, other, same_domain) || is_claimed_by(plan, claim, other, same_domain)
}

// Whether requests of two classes exclude each other, unless they are one or kin.
fn clashes(plan: &Plan, claim: &Claim, other: Head) -> bool
    requires { IsClaim plan.now claim.now.head claim.now }
    ensures { result ≡ rivals_spec.heads_clash plan.now claim.now.head other }
{
    let same_domain = are_in_one_domain(plan, claim.head, other);
    either_claims(plan, claim, other, same_domain)
}

// Whether the class with this number excludes that of the claim.
#[tactic(auto, unfolding(crate::specs::Rivals::clashes_at))]
fn clashes_at(plan: &Plan, heads: &[Head], claim: &Claim, class: u32) -> bool
    requires { IsClaim plan.now claim.now.head claim.now }
    ensures { result ≡ rivals_spec.clashes_at plan.now heads.now claim.now.head class }
{
    match heads.get(class as usize) {
        Some(other) => clashes(plan, claim, *other),
        None => false,
    }
}

// Those of the classes that exclude that of the claim.
fn clashing(
    alloc: Global,
    plan: &Plan,
    heads: &[Head],
    claim: &Claim,
    found: &[u32],
) -> Result<Seq<u32>, NoMemory>
    requires { IsClaim plan.now claim.now.head claim.now }
    ensures { IfOk result (λ row. row
        ≡ filter (rivals_spec.clashes_at plan.now heads.now claim.now.head) found.now) }
{
    let mut row = Vec::new(alloc);
    for class in found {
        if clashes_at(plan, heads, claim, *class) {
            row.push(*class)?;
        }
    }
    Ok(Seq::from_vec(row))
}

// The classes that exclude the class with this head, in rising order.
fn row(
    alloc: Global,
    plan: &Plan,
    heads: &[Head],
    shelves: &Shelves,
    head: Head,
) -> Result<Seq<u32>, NoMemory>
    requires { AreShelves plan.now heads.now shelves.now }
    ensures { IfOk result (λ row. row ≡ row_of plan.now heads.now head) }
{
    let claim = claim_of(alloc, plan, head)?;
    let mut found = candidates(alloc, plan, heads, shelves, &claim)?;
    found.sort_unstable();
    found.dedup();
    clashing(alloc, plan, heads, &claim, found.as_slice())
}

/// For the class of each head the classes that exclude it, in rising order.
pub(crate) fn all_rows(
    alloc: Global,
    plan: &Plan,
    heads: &[Head],
) -> Result<Seq<Seq<u32>>, NoMemory>
    requires few { length heads.now ≤ 16384 }
    ensures { IfOk result (λ rows. rows ≡ rows_of plan.now heads.now heads.now) }
{
    let shelves = Shelves::new(alloc, plan, heads)?;
    let mut rows = Vec::with_capacity(alloc, heads.len())?;
    for head in heads {
        rows.push(row(alloc, plan, heads, &shelves, *head)?)?;
    }
    Ok(Seq::from_vec(rows))
}
