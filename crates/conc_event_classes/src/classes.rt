ghost use Rattle.std.specs.Prelude.{◌≡◌, ◌<◌, IfOk, length, slice_index, unwrap_or};
ghost use Rattle.std.specs.Option.{option_copied};
ghost use Rattle.conc_types.specs.Words as words_spec;
ghost use Rattle.conc_event_classes.specs.Classes.{AreClasses, class_at, rivals_at, slot_at, excludes_kin_at};

use crate::excludes_kin::all_excluding_kin;
use crate::partition::partition_all;
use crate::rivals::all_rows;
use conc_types::{NoMemory, Plan, Req, Seq, numbered};
use std::alloc::Global;

/// The classes of a plan's requests. A class has the requests of one item, whose parents have one
/// item, in one domain.
#[derive(Drop)]
pub struct Classes {
    // The class of each request, from 0.
    classes: Seq<u32>,
    // The slot of each request among those of its class, from 0.
    slots: Seq<u32>,
    // How many requests each class has.
    sizes: Seq<u32>,
    // For each class those whose requests exclude its requests.
    rivals: Seq<Seq<u32>>,
    // For each class, whether a request of it would exclude kin of its own, were they not kin.
    excludes_kin: Seq<bool>,
}

// What a list has for a request.
fn at_request(list: &Seq<u32>, r: &Req) -> u32
    ensures { result ≡ unwrap_or (words_spec.numbered list.now r.now.number.number) 0 }
{
    numbered(list.as_slice(), r.number.number)
        .copied()
        .unwrap_or(0)
}

impl Classes {
    /// The classes of the plan's requests.
    pub fn new(alloc: Global, plan: &Plan) -> Result<Classes, NoMemory>
        ensures { IfOk result (λ classes. AreClasses plan.now classes) }
    {
        let partition = partition_all(alloc, plan)?;
        let rivals = all_rows(alloc, plan, partition.heads.as_slice())?;
        let excludes_kin = all_excluding_kin(
            alloc,
            plan,
            partition.classes.as_slice(),
            rivals.as_slice(),
        )?;
        Ok(Classes {
            classes: Seq::from_vec(partition.classes),
            slots: Seq::from_vec(partition.slots),
            sizes: Seq::from_vec(partition.sizes),
            rivals,
            excludes_kin,
        })
    }

    /// How many classes there are.
    pub fn count(&self) -> usize
        ensures { result ≡ length self.now.sizes }
    {
        self.sizes.len()
    }

    /// How many requests a class has.
    pub fn size(&self, class: u32) -> u32
        requires { class < length self.now.sizes }
        ensures { result ≡ slice_index self.now.sizes class }
    {
        self.sizes.as_slice()[class as usize]
    }

    /// The class of a request, from 0.
    #[tactic(auto, unfolding(crate::specs::Classes::class_at))]
    pub fn class(&self, r: &Req) -> u32
        ensures { result ≡ class_at self.now r.now }
    {
        at_request(&self.classes, r)
    }

    /// The slot of a request among those of its class, from 0.
    #[tactic(auto, unfolding(crate::specs::Classes::slot_at))]
    pub fn slot(&self, r: &Req) -> u32
        ensures { result ≡ slot_at self.now r.now }
    {
        at_request(&self.slots, r)
    }

    /// The classes whose requests exclude those of a class, in rising order.
    #[tactic(auto, unfolding(crate::specs::Classes::rivals_at))]
    pub fn rivals(&self, class: u32) -> &[u32]
        ensures { result.now ≡ rivals_at self.now class }
    {
        match self.rivals.as_slice().get(class as usize) {
            Some(rivals) => rivals.as_slice(),
            None => &[],
        }
    }

    /// Whether a request of the class would exclude kin of its own, were they not kin.
    #[tactic(auto, unfolding(crate::specs::Classes::excludes_kin_at))]
    pub fn excludes_kin(&self, class: u32) -> bool
        ensures { result ≡ excludes_kin_at self.now class }
    {
        self.excludes_kin
            .as_slice()
            .get(class as usize)
            .copied()
            .unwrap_or(true)
    }
}
