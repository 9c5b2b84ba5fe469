ghost use Rattle.std.specs.Prelude.{◌≡◌, IfOk};
ghost use Rattle.conc_types.specs.Expansion.{type_of};

use conc_types::{Item, NoMemory, Seq, Setup, Text};
use std::alloc::Global;

pub fn copy_text(alloc: Global, text: &Text) -> Result<Text, NoMemory>
    ensures { IfOk result (λ copy. copy ≡ text.now) }
{
    Ok(Seq::from_vec(text.as_slice().to_vec(alloc)?))
}

/// The request type of an item, which is its program's; a set has none.
pub fn copy_type(alloc: Global, setup: &Setup, item: Item) -> Result<Text, NoMemory>
    ensures { IfOk result (λ copy. copy ≡ type_of setup.now item) }
{
    match item {
        Item::Program(n) => match setup.programs.as_slice().get(n as usize) {
            Some(program) => copy_text(alloc, &program.request_type),
            None => Ok(Seq::from_vec(Vec::new(alloc))),
        },
        Item::Set(_) => Ok(Seq::from_vec(Vec::new(alloc))),
    }
}
