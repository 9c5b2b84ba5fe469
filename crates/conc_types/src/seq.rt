ghost use Rattle.std.specs.Prelude.{◌≡◌, ◌<◌, ◌↔◌, [], length, slice_get, slice_set, IsTrue};
ghost use Rattle.std.specs.Borrow.{sem};
ghost use Rattle.std.specs.Option.{option_copied, option_copied_mut};
ghost use Rattle.conc_types.specs.Words as spec;

use std::marker::Model;

/// A vector that contracts see as the list of its items.
#[derive(Drop)]
pub struct Seq<T> {
    inner: Vec<T>,
}

impl<T> Model for Seq<T> {
    ghost use Rattle.std.specs.Prelude.{List};

    ghost Value = { List T };

    ghost view = { λ s. s.inner.items };
}

impl<T> Seq<T> {
    ghost use Rattle.conc_types.specs.Lent.{lends_item};

    /// The items of a vector. It takes no memory.
    pub fn from_vec(inner: Vec<T>) -> Self
        ensures { result ≡ inner.items }
    {
        Seq { inner }
    }

    /// The vector again. It takes no memory.
    pub fn into_vec(self) -> Vec<T>
        ensures { result.items ≡ self }
    {
        self.inner
    }

    /// The items in order.
    pub fn as_slice(&self) -> &[T]
        ensures { result.now ≡ self.now }
    {
        self.inner.as_slice()
    }

    /// The item at an index, to write to, if there is one. The others stay as they are.
    pub fn get_mut(&mut self, index: usize) -> Option<&mut T>
        ensures* writes_back { sem 𝓛 (lends_item T.row self.entry index result) }
        ensures value { option_copied_mut result ≡ slice_get self.old index }
    {
        self.inner.get_mut(index)
    }

    /// How many items there are.
    pub fn len(&self) -> usize
        ensures { result ≡ length self.now }
    {
        self.inner.len()
    }

    /// Whether there is no item.
    pub fn is_empty(&self) -> bool
        ensures { IsTrue result ↔ (self.now ≡ []) }
    {
        self.inner.is_empty()
    }
}

impl<T: Copy> Seq<T> {
    /// Puts a value in place of the one at an index.
    pub fn set(&mut self, index: usize, value: T)
        requires { index < length self.old }
        ensures { self.new ≡ slice_set self.old index value }
    {
        self.inner[index] = value;
    }
}

/// The item that has this number, where the first one has number 1.
pub fn numbered<T>(items: &[T], number: u32) -> Option<&T>
    ensures { option_copied result ≡ spec.numbered items.now number }
{
    if number == 0 {
        return None;
    }
    items.get(number as usize - 1)
}
