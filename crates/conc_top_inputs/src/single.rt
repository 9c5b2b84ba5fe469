ghost use Rattle.std.specs.Prelude.{IfErr, IfOk};
ghost use Rattle.conc_outside.specs.Files.{Gives, IsLater};
ghost use Rattle.conc_top_inputs.specs.Fails.{IsUnread};

use crate::InputFail;
use crate::error::named;
use crate::given::read;
use conc_outside::Shelf;
use conc_types::Name;
use std::alloc::Global;

/// The bytes of the file with this name, as the shelf gives them.
pub fn read_file<F: Shelf>(alloc: Global, shelf: &mut F, name: &Name) -> Result<Vec<u8>, InputFail>
    ensures later { IsLater (F.state shelf.old) (F.state shelf.new) }
    ensures ok { IfOk result (λ bytes. Gives (F.state shelf.old).files name.now bytes.items) }
    ensures err { IfErr result (IsUnread (F.state shelf.old) (F.state shelf.new) name.now) }
{
    named(alloc, name, read(alloc, shelf, name))
}
