ghost use Rattle.std.specs.Prelude.{◌≡◌, ◌++◌, ◌<◌, ◌∷◌, [], OnErr, OnOk, length, option_map, slice_get};
ghost use Rattle.conc_types.specs.Cells as spec;

use crate::NoMemory;
use std::alloc::Global;
use std::marker::Model;

/// Byte strings that lie one after the other in one buffer. Contracts see the list of the strings.
#[derive(Drop)]
pub struct Cells {
    bytes: Vec<u8>,
    ends: Vec<u32>,
}

impl Model for Cells {
    ghost use Rattle.std.specs.Prelude.{List, ℕ, length};
    ghost use Rattle.conc_types.specs.Cells.{AreEnds, cut};

    ghost Value = { List (List ℕ) };

    ghost view = { λ c. cut 0 c.ends.items c.bytes.items };

    ghost invariant = { λ c. AreEnds 0 c.ends.items (length c.bytes.items) };
}

// Where the string at an index starts: where the one before it ends.
#[tactic(auto, using(crate::proofs::Places::starts))]
fn start_of(ends: &[u32], index: usize) -> usize
    requires { index < length ends.now }
    ensures { result ≡ spec.start_of 0 ends.now index }
{
    if index == 0 {
        0
    } else {
        ends[index - 1] as usize
    }
}

impl Cells {
    /// No string. It takes no memory.
    #[tactic(auto, unfolding(crate::specs::Cells::cut, crate::specs::Cells::AreEnds))]
    pub fn new(alloc: Global) -> Self
        ensures { result ≡ [] }
    {
        Cells {
            bytes: Vec::new(alloc),
            ends: Vec::new(alloc),
        }
    }

    /// The strings that lie one after the other in these bytes and end at these places. It takes no
    /// memory.
    pub fn from_parts(bytes: Vec<u8>, ends: Vec<u32>) -> Cells
        requires { spec.AreEnds 0 ends.items (length bytes.items) }
        ensures { result ≡ spec.cut 0 ends.items bytes.items }
    {
        Cells { bytes, ends }
    }

    /// Appends a string. Without memory for it, or with more than `u32::MAX` bytes in all, the
    /// strings stay as they were.
    pub fn push(&mut self, cell: &[u8]) -> Result<(), NoMemory>
        ensures ok { OnOk result (self.new ≡ self.old ++ cell.now ∷ []) }
        ensures err { OnErr result (self.new ≡ self.old) }
    {
        let end = self.bytes.len() + cell.len();
        if end > u32::MAX as usize {
            return Err(NoMemory);
        }
        self.ends.push(end as u32)?;
        if self.bytes.extend_from_slice(cell).is_err() {
            self.ends.pop();
            return Err(NoMemory);
        }
        Ok(())
    }

    // What the strings' memory is taken from.
    pub(crate) fn allocator(&self) -> Global {
        *self.bytes.allocator()
    }

    /// How many strings there are.
    pub fn len(&self) -> usize
        ensures { result ≡ length self.now }
    {
        self.ends.len()
    }

    /// How many bytes of memory the strings and their places take.
    pub fn size(&self) -> usize {
        self.ends
            .len()
            .saturating_mul(4)
            .saturating_add(self.bytes.len())
    }

    /// The string at an index, if there is one. It takes the same time at each.
    pub fn get(&self, index: usize) -> Option<&[u8]>
        ensures { option_map (λ s. s.now) result ≡ slice_get self.now index }
    {
        if index >= self.ends.len() {
            return None;
        }
        let start = start_of(self.ends.as_slice(), index);
        let end = self.ends[index] as usize;
        Some(&self.bytes.as_slice()[start..end])
    }
}
