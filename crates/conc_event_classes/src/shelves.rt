ghost use Rattle.std.specs.Prelude.{◌≡◌, ◌≤◌, IfOk, OnOk, Some, length, slice_get, suc};
ghost use Rattle.conc_event_classes.specs.Kinds.{kind_at};
ghost use Rattle.conc_event_classes.specs.Shelf.{bucket};
ghost use Rattle.conc_event_classes.specs.Keys as keys_spec;
ghost use Rattle.conc_event_classes.specs.Shelves as spec;
ghost use Rattle.conc_event_classes.specs.Shelves.{AreShelves, AreShelvesTo};

use crate::keys::{domain_key, item_key, parent_key};
use crate::kinds::Head;
use crate::shelf::Shelf;
use conc_rules::runs_alone;
use conc_types::{Entry, NoMemory, Plan, Scope};
use std::alloc::Global;

/// Where the classes stand that entries and marks speak of.
#[derive(Drop)]
pub(crate) struct Shelves {
    by_item: Shelf,
    // By the item of the parent.
    by_parent: Shelf,
    by_domain: Shelf,
    // Those of programs that run alone.
    alone: Vec<u32>,
}

impl Shelves {
    // Puts the class with this head, which is the next one.
    fn put(&mut self, plan: &Plan, _heads: &[Head], class: u32, head: Head) -> Result<(), NoMemory>
        requires here { slice_get _heads.now class ≡ Some head }
        requires before { AreShelvesTo plan.now _heads.now class self.old }
        ensures { OnOk result (AreShelvesTo plan.now _heads.now (suc class) self.new) }
    {
        self.by_item.put(item_key(head.item), class)?;
        self.by_parent.put(parent_key(head.parent), class)?;
        self.by_domain.put(domain_key(plan, head), class)?;
        if runs_alone(&plan.setup, head.item) {
            self.alone.push(class)?;
        }
        Ok(())
    }

    /// Where the classes with these heads stand.
    pub fn new(alloc: Global, plan: &Plan, heads: &[Head]) -> Result<Shelves, NoMemory>
        requires few { length heads.now ≤ 16384 }
        ensures { IfOk result (AreShelves plan.now heads.now) }
    {
        let mut shelves = Shelves {
            by_item: Shelf::new(alloc)?,
            by_parent: Shelf::new(alloc)?,
            by_domain: Shelf::new(alloc)?,
            alone: Vec::new(alloc),
        };
        for (i, head) in heads.iter().enumerate() {
            shelves.put(plan, heads, i as u32, *head)?;
        }
        Ok(shelves)
    }

    /// Classes among which are those of the other item of an entry.
    pub fn others(&self, entry: Entry) -> &[u32]
        ensures { result.now ≡ bucket self.now.by_item (keys_spec.item_key entry.other) }
    {
        self.by_item.bucket(item_key(entry.other))
    }

    /// Classes among which are those of the members that an entry covers beside its other item.
    #[tactic(auto, unfolding(crate::specs::Shelves::members))]
    pub fn members(&self, entry: Entry) -> &[u32]
        ensures { result.now ≡ spec.members self.now entry }
    {
        match entry.scope {
            Scope::Set => self.by_parent.bucket(item_key(entry.other)),
            Scope::Program => &[],
        }
    }

    /// Classes among which are those of the owner of an entry.
    pub fn owners(&self, entry: Entry) -> &[u32]
        ensures { result.now ≡ bucket self.now.by_item (keys_spec.item_key entry.owner) }
    {
        self.by_item.bucket(item_key(entry.owner))
    }

    /// Classes among which are those in the domain of a class.
    pub fn in_domain(&self, plan: &Plan, head: Head) -> &[u32]
        ensures { result.now ≡ bucket self.now.by_domain (keys_spec.domain_key (kind_at plan.now head)) }
    {
        self.by_domain.bucket(domain_key(plan, head))
    }

    /// The classes of programs that run alone.
    pub fn alone(&self) -> &[u32]
        ensures { result.now ≡ self.now.alone.items }
    {
        self.alone.as_slice()
    }
}
