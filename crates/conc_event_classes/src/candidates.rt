ghost use Rattle.std.specs.Prelude.{◌≡◌, ◌++◌, ℕ, IfOk, IsTrue, OnOk, Some, slice_get};
ghost use Rattle.std.specs.List.{flat_map};
ghost use Rattle.conc_base_law.specs.Words.{Has};
ghost use Rattle.conc_event_classes.specs.Candidates as spec;
ghost use Rattle.conc_event_classes.specs.Candidates.{AddsNear};
ghost use Rattle.conc_event_classes.specs.Rivals.{IsClaim, heads_clash};
ghost use Rattle.conc_event_classes.specs.Shelves.{AreShelves};
ghost use Rattle.conc_event_classes.specs.declared.kinds.Head.{Head};

use crate::kinds::Head;
use crate::rivals::Claim;
use crate::shelves::Shelves;
use conc_types::{Entry, NoMemory, Plan, Reach};
use std::alloc::Global;

// Whether the entry counts in all domains, or in one, as is asked.
#[tactic(auto, unfolding(crate::specs::Candidates::has_reach))]
fn has_reach(far: bool, entry: Entry) -> bool
    ensures { result ≡ spec.has_reach far entry }
{
    matches!(entry.reach, Reach::Global) == far
}

/// The side from which an entry is followed.
#[derive(Clone, Copy)]
pub(crate) enum Side {
    /// From its owner, to the classes that it covers.
    Owner,
    /// From what it covers, to the classes of its owner.
    Covered,
}

// Adds the classes to which an entry leads from a side.
fn add_led(
    found: &mut Vec<u32>,
    shelves: &Shelves,
    side: Side,
    entry: Entry,
) -> Result<(), NoMemory>
    ensures { OnOk result (found.new.items ≡ found.old.items ++ spec.led side shelves.now entry) }
{
    match side {
        Side::Owner => {
            found.extend_from_slice(shelves.others(entry))?;
            found.extend_from_slice(shelves.members(entry))?;
            Ok(())
        }
        Side::Covered => {
            found.extend_from_slice(shelves.owners(entry))?;
            Ok(())
        }
    }
}

// Adds those to which the entries of this reach lead.
#[tactic(auto, unfolding(crate::specs::Candidates::reached))]
fn add_reached(
    found: &mut Vec<u32>,
    shelves: &Shelves,
    far: bool,
    side: Side,
    entries: &[Entry],
) -> Result<(), NoMemory>
    ensures { OnOk result (found.new.items
        ≡ found.old.items ++ flat_map (spec.reached side shelves.now far) entries.now) }
{
    for entry in entries {
        if has_reach(far, *entry) {
            add_led(found, shelves, side, *entry)?;
        }
    }
    Ok(())
}

// Adds the classes to which an entry of this reach joins the class of the claim.
#[tactic(auto, unfolding(crate::specs::Candidates::joined))]
fn add_joined(
    found: &mut Vec<u32>,
    shelves: &Shelves,
    far: bool,
    claim: &Claim,
) -> Result<(), NoMemory>
    ensures { OnOk result (found.new.items
        ≡ found.old.items ++ spec.joined shelves.now far claim.now) }
{
    add_reached(found, shelves, far, Side::Owner, claim.owned.as_slice())?;
    add_reached(
        found,
        shelves,
        far,
        Side::Covered,
        claim.covering.as_slice(),
    )?;
    Ok(())
}

// ---- those in the same domain

// How many classes the entries that count in one domain lead to, and the programs that run alone.
fn count_near(shelves: &Shelves, claim: &Claim) -> usize {
    let mut count = shelves.alone().len();
    for entry in &claim.owned {
        if has_reach(false, *entry) {
            count = count
                .saturating_add(shelves.others(*entry).len())
                .saturating_add(shelves.members(*entry).len());
        }
    }
    for entry in &claim.covering {
        if has_reach(false, *entry) {
            count = count.saturating_add(shelves.owners(*entry).len());
        }
    }
    count
}

// Adds the classes in the domain of the claim's class, or, where these are fewer, those to which entries
// that count in one domain join it and those that run alone.
fn add_near(
    found: &mut Vec<u32>,
    plan: &Plan,
    shelves: &Shelves,
    claim: &Claim,
) -> Result<(), NoMemory>
    ensures { OnOk result (AddsNear plan.now shelves.now claim.now found.old.items
        found.new.items) }
{
    let domain = shelves.in_domain(plan, claim.head);
    if claim.alone || count_near(shelves, claim) > domain.len() {
        found.extend_from_slice(domain)?;
        return Ok(());
    }
    add_joined(found, shelves, false, claim)?;
    found.extend_from_slice(shelves.alone())?;
    Ok(())
}

/// Classes among which are all that exclude the class of a claim, some of them more than once. They are
/// found by the entries of the class, and not by a look at all classes.
pub(crate) fn candidates(
    alloc: Global,
    plan: &Plan,
    _heads: &[Head],
    shelves: &Shelves,
    claim: &Claim,
) -> Result<Vec<u32>, NoMemory>
    requires shelves { AreShelves plan.now _heads.now shelves.now }
    requires claim { IsClaim plan.now claim.now.head claim.now }
    ensures { IfOk result (λ found. (class : ℕ) (other : Head) → slice_get _heads.now class ≡ Some other
        → IsTrue (heads_clash plan.now claim.now.head other) → Has found.items class) }
{
    let mut found = Vec::new(alloc);
    add_joined(&mut found, shelves, true, claim)?;
    add_near(&mut found, plan, shelves, claim)?;
    Ok(found)
}
