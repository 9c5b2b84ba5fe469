ghost use Rattle.std.specs.Prelude.{◌≡◌};
ghost use Rattle.conc_data_fields.specs.Reads as spec;

use conc_types::{ReadFail, RefusalKind};

/// What is judged of a value that is read, or the least kind of the rules that it breaks.
pub type Judged<T> = Result<T, RefusalKind>;

/// Why a value of a document is not read. Of the rules that it breaks this has the least kind.
pub type FieldFail = ReadFail<RefusalKind>;

// What two values fail for together: the lesser kind, and no kind where memory lacks for one.
fn lesser(a: FieldFail, b: FieldFail) -> FieldFail
    ensures { result ≡ spec.lesser_fail a b }
{
    match (a, b) {
        (FieldFail::Refused(j), FieldFail::Refused(k)) => FieldFail::Refused(j.lesser(k)),
        (FieldFail::Refused(_), FieldFail::NoMemory) => FieldFail::NoMemory,
        (FieldFail::NoMemory, _) => FieldFail::NoMemory,
    }
}

/// Both values, or what they fail for together: the lesser kind of what is wrong with them, and no
/// kind where memory lacked for one of them.
pub fn both<A: Drop, B: Drop>(
    a: Result<A, FieldFail>,
    b: Result<B, FieldFail>,
) -> Result<(A, B), FieldFail>
    ensures { result ≡ spec.both_read a b }
{
    match (a, b) {
        (Ok(a), Ok(b)) => Ok((a, b)),
        (Ok(_), Err(k)) => Err(k),
        (Err(j), Ok(_)) => Err(j),
        (Err(j), Err(k)) => Err(lesser(j, k)),
    }
}

/// The value, or what it fails for together with the kind of what is wrong beside it.
pub fn beside<A: Drop>(
    kind: Option<RefusalKind>,
    value: Result<A, FieldFail>,
) -> Result<A, FieldFail>
    ensures { result ≡ spec.beside_read kind value }
{
    match (kind, value) {
        (None, value) => value,
        (Some(j), Ok(_)) => Err(FieldFail::Refused(j)),
        (Some(j), Err(k)) => Err(lesser(FieldFail::Refused(j), k)),
    }
}
