ghost use Rattle.std.specs.Prelude.{◌≡◌, IfOk, IsTrue};
ghost use Rattle.conc_types.specs.Texts as spec;

use crate::NoMemory;
use crate::text::{are_printable, is_utf8};
use std::alloc::Global;
use std::marker::Model;

/// A name: 1 to 80 bytes of UTF-8 without control bytes, which are those below 32 and 127.
/// Contracts see its bytes.
#[derive(Drop)]
pub struct Name {
    bytes: Vec<u8>,
}

impl Model for Name {
    ghost use Rattle.std.specs.Prelude.{List, ℕ, IsTrue};
    ghost use Rattle.conc_types.specs.Texts.{is_name};

    ghost Value = { List ℕ };

    ghost view = { λ n. n.bytes.items };

    ghost invariant = { λ n. IsTrue (is_name n.bytes.items) };
}

impl Name {
    /// The name with these bytes, which `is_name` accepts. It takes no memory.
    pub fn from_vec(bytes: Vec<u8>) -> Self
        requires { IsTrue (spec.is_name bytes.items) }
        ensures { result ≡ bytes.items }
    {
        Name { bytes }
    }

    /// A name with the same bytes.
    pub fn try_clone(&self, alloc: Global) -> Result<Name, NoMemory>
        ensures { IfOk result (λ copy. copy ≡ self.now) }
    {
        Ok(Name {
            bytes: self.bytes.to_vec(alloc)?,
        })
    }

    /// The bytes of the name.
    pub fn as_bytes(&self) -> &[u8]
        ensures { result.now ≡ self.now }
    {
        self.bytes.as_slice()
    }
}

/// Whether these bytes are a name.
pub fn is_name(bytes: &[u8]) -> bool
    ensures { result ≡ spec.is_name bytes.now }
{
    1 <= bytes.len() && bytes.len() <= 80 && are_printable(bytes) && is_utf8(bytes)
}
