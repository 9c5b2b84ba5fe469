ghost use Rattle.std.specs.Prelude.{◌≡◌, ◌↔◌, ◌+◌, ◌*◌, ◌/◌, ◌<◌, [], IfOk, IsTrue, true, drop, length, slice_set};
ghost use Rattle.conc_event_queue.specs.Least as spec;
ghost use Rattle.conc_event_queue.specs.Least.{vacant};
ghost use Rattle.conc_event_queue.specs.Tournament.{IsTournament, IsTournamentBut, played};

use conc_types::NoMemory;
use std::alloc::Global;
use std::marker::Model;

/// Slots, each with a key or none, of which the least key is known. Contracts see the list of the
/// slots. They are the last of the nodes, and each node `i` before them, from 1, is the lesser of the
/// nodes `2 * i` and `2 * i + 1`: so node 1 is the least of all.
#[derive(Drop)]
pub struct Queue {
    slots: usize,
    nodes: Vec<Option<u64>>,
}

impl Model for Queue {
    ghost use Rattle.std.specs.Prelude.{ℕ, List, Option, drop};
    ghost use Rattle.conc_event_queue.specs.Tournament.{IsTournament};

    ghost Value = { List (Option ℕ) };

    ghost view = { λ q. drop q.slots q.nodes.items };

    ghost invariant = { λ q. IsTournament q.slots q.nodes.items };
}

impl Queue {
    /// So many slots without a key.
    #[tactic(auto, using(crate::proofs::Vacant::vacant_push), unfolding(crate::specs::Least::vacant))]
    pub fn new(alloc: Global, slots: usize) -> Result<Queue, NoMemory>
        ensures { IfOk result (λ q. q ≡ vacant slots) }
    {
        let Some(count) = slots.checked_mul(2) else {
            return Err(NoMemory);
        };
        let mut nodes = Vec::with_capacity(alloc, count)?;
        for _ in 0..count {
            nodes.push(None)?;
        }
        Ok(Queue { slots, nodes })
    }

    /// Gives a slot this key, or none. It takes no memory, and a time that grows with the logarithm
    /// of the number of slots where the least key changes, and less elsewhere.
    #[tactic(auto, using(crate::proofs::Tournaments::slot_written))]
    pub fn put(&mut self, slot: usize, key: Option<u64>)
        requires { slot < length self.old }
        ensures { self.new ≡ slice_set self.old slot key }
    {
        let node = self.slots + slot;
        self.nodes[node] = key;
        settle_above(self.nodes.as_mut_slice(), self.slots, node);
    }

    /// The least key. It takes the same time at any number of slots.
    #[tactic(auto, using(crate::proofs::Tournaments::first_least, crate::proofs::Tournaments::none_least))]
    pub fn least(&self) -> Option<u64>
        ensures { result ≡ spec.least self.now }
    {
        if self.slots == 0 {
            return None;
        }
        self.nodes[1]
    }

    /// How many slots there are.
    pub fn len(&self) -> usize
        ensures { result ≡ length self.now }
    {
        self.slots
    }

    /// Whether there is no slot.
    #[tactic(auto, using(crate::proofs::Tournaments::no_slots, crate::proofs::Tournaments::no_list))]
    pub fn is_empty(&self) -> bool
        ensures { IsTrue result ↔ (self.now ≡ []) }
    {
        self.slots == 0
    }
}

/// The lesser of two keys, where both are there, and else the one that is.
pub fn lesser(a: Option<u64>, b: Option<u64>) -> Option<u64>
    ensures { result ≡ spec.lesser a b }
{
    match (a, b) {
        (None, _) => b,
        (Some(_), None) => a,
        (Some(x), Some(y)) => Some(if y < x { y } else { x }),
    }
}

// Makes a node the lesser of the two below it, and says whether it was that before.
fn settle(nodes: &mut [Option<u64>], node: usize) -> bool
    requires { node * 2 + 1 < length nodes.old }
    ensures settled { nodes.new ≡ slice_set nodes.old node (played nodes.old node) }
    ensures same { result ≡ true → nodes.new ≡ nodes.old }
{
    let key = lesser(nodes[node * 2], nodes[node * 2 + 1]);
    if nodes[node] == key {
        return true;
    }
    nodes[node] = key;
    false
}

// Makes each node above this one the lesser of the two below it, up to the first that was that before.
fn settle_above(nodes: &mut [Option<u64>], slots: usize, node: usize)
    requires positive { 0 < node }
    requires within { node < length nodes.old }
    requires below { IsTournamentBut slots nodes.old (node / 2) }
    ensures all { IsTournament slots nodes.new }
    ensures same_slots { drop slots nodes.new ≡ drop slots nodes.old }
{
    let mut at = node;
    while at > 1 {
        at /= 2;
        if settle(nodes, at) {
            return;
        }
    }
}
