ghost use Rattle.std.specs.Prelude.{◌≡◌};
ghost use Rattle.std.specs.List.{list_all};
ghost use Rattle.std.specs.Str as str_spec;
ghost use Rattle.conc_types.specs.Texts as texts_spec;

use crate::Seq;

/// Bytes that are a text without control bytes, which are those below 32 and 127.
pub type Text = Seq<u8>;

/// Bytes of any kind.
pub type Bytes = Seq<u8>;

fn is_printable(byte: u8) -> bool
    ensures { result ≡ texts_spec.is_printable byte }
{
    32 <= byte && byte != 127
}

/// Whether there is no control byte among the bytes.
pub(crate) fn are_printable(bytes: &[u8]) -> bool
    ensures { result ≡ list_all texts_spec.is_printable bytes.now }
{
    bytes.iter().all(|byte| is_printable(*byte))
}

/// Whether the bytes are UTF-8.
pub fn is_utf8(bytes: &[u8]) -> bool
    ensures { result ≡ str_spec.is_utf8 bytes.now }
{
    str::from_utf8(bytes).is_ok()
}

/// Whether the bytes are a text: at most so many bytes of UTF-8 without control bytes.
pub fn is_text(most: usize, bytes: &[u8]) -> bool
    ensures { result ≡ texts_spec.is_text most bytes.now }
{
    bytes.len() <= most && are_printable(bytes) && is_utf8(bytes)
}
