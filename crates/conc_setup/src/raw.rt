ghost use Rattle.std.specs.Prelude.{◌≡◌, IsTrue, nat_le};
ghost use Rattle.conc_types.specs.declared.error.ReadFail.TheVariants as read_fail;
ghost use Rattle.conc_types.specs.declared.refusal.FileKind.TheVariants as file;
ghost use Rattle.conc_data_fields.specs.Arrays.{goods};
ghost use Rattle.conc_setup.specs.Places.{places_in_all};

use conc_data_entries::{RawEntry, RawManager, RawSet};
use conc_data_fields::{Counted, Judged};
use conc_types::{FileKind, Name, Program, ReadFail, RefusalKind, Seq};

/// A line of the file, where 0 is the file as a whole, and the kind of the rule that it breaks.
pub(crate) type Fault = (u64, RefusalKind);

/// What a setup file with this first fault is refused for.
pub(crate) fn refused(fault: Fault) -> ReadFail
    ensures { result ≡ read_fail.Refused (record { file = file.Setup; line = fault.0; kind = fault.1 }) }
{
    let (line, kind) = fault;
    ReadFail::refused(FileKind::Setup, line, kind)
}

/// A setup file whose top level is right: the entries of its arrays, each as it is read, or the least
/// kind of what is wrong with it.
#[derive(Drop)]
pub(crate) struct Document {
    pub tables: Counted<Name, 0, 64>,
    pub programs: Counted<Judged<Program>, 0, 1024>,
    pub entries: Counted<Judged<RawEntry>, 0, 4096>,
    pub managers: Counted<Judged<RawManager>, 0, 64>,
    pub sets: Counted<Judged<RawSet>, 0, 256>,
    ghost few_places: { IsTrue (nat_le (places_in_all (goods managers.list)) 64) },
}

/// A setup whose entries are right each by itself, with names that have not been looked up.
#[derive(Drop)]
pub(crate) struct RawSetup {
    pub tables: Counted<Name, 0, 64>,
    pub programs: Seq<Program>,
    pub entries: Seq<RawEntry>,
    pub managers: Seq<RawManager>,
    pub sets: Seq<RawSet>,
}
