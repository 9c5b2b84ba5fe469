ghost use Rattle.std.specs.Prelude.{◌≡◌, IfOk, IsTrue};
ghost use Rattle.conc_types.specs.Texts as texts_spec;
ghost use Rattle.conc_top_words.specs.Words as words_spec;

use conc_types::{Name, NoMemory, RequestId, is_name, read_decimal};
use std::alloc::Global;

// How many submissions are made at most.
const MOST_SUBMISSIONS: u32 = 4000;

pub(crate) fn is(text: &[u8], word: &[u8]) -> bool
    ensures { result ≡ words_spec.is text.now word.now }
{
    word == text
}

/// Whether the word is no option: it is not empty, and does not begin with a dash.
pub(crate) fn is_positional(word: &[u8]) -> bool
    ensures { result ≡ words_spec.is_positional word.now }
{
    !word.is_empty() && !word.starts_with(b"-")
}

/// Whether the word names a file.
pub(crate) fn is_file(word: &[u8]) -> bool
    ensures { result ≡ words_spec.is_file word.now }
{
    is_positional(word) && is_name(word)
}

/// A name of its own with these bytes.
pub(crate) fn own_name(alloc: Global, bytes: &[u8]) -> Result<Name, NoMemory>
    requires { IsTrue (texts_spec.is_name bytes.now) }
    ensures { IfOk result (λ name. name ≡ bytes.now) }
{
    Ok(Name::from_vec(Vec::from_slice(alloc, bytes)?))
}

/// The number that a word spells, if it is from one number to another.
pub(crate) fn number_between(least: u32, most: u32, word: &[u8]) -> Option<u32>
    ensures { result ≡ words_spec.number_between least most word.now }
{
    let number = u32::try_from(read_decimal(word)?).ok()?;
    if least <= number && number <= most {
        Some(number)
    } else {
        None
    }
}

/// The request that a word numbers, from 1.
pub(crate) fn request_of(word: &[u8]) -> Option<RequestId>
    ensures { result ≡ words_spec.request_of word.now }
{
    let number = number_between(1, u32::MAX, word)?;
    Some(RequestId { number })
}

/// How many submissions to make: 1 to 4,000.
pub(crate) fn size_of(word: &[u8]) -> Option<u32>
    ensures { result ≡ words_spec.size_of word.now }
{
    number_between(1, MOST_SUBMISSIONS, word)
}
