ghost use Rattle.std.specs.Prelude.{◌≡◌, IfOk};
ghost use Rattle.std.specs.Option.{option_map};

use conc_data_fields::ShortText;
use conc_types::{Name, NoMemory, Seq, Text};
use std::alloc::Global;

/// The same name, where there is one.
pub(crate) fn copy_of_name(alloc: Global, name: &Option<Name>) -> Result<Option<Name>, NoMemory>
    ensures { IfOk result (λ copy. copy ≡ name.now) }
{
    match name {
        None => Ok(None),
        Some(name) => Ok(Some(name.try_clone(alloc)?)),
    }
}

/// The same text, where there is one.
pub(crate) fn copy_of_text<const MOST: usize>(
    alloc: Global,
    text: &Option<ShortText<MOST>>,
) -> Result<Option<Text>, NoMemory>
    ensures { IfOk result (λ copy. copy ≡ option_map (λ short. short.text) text.now) }
{
    match text {
        None => Ok(None),
        Some(short) => Ok(Some(Seq::from_vec(short.text.as_slice().to_vec(alloc)?))),
    }
}
