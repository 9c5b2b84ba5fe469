ghost use Rattle.std.specs.Prelude.{◌≡◌, ◌==◌, [], ◌∷◌, MatchOption};
ghost use Rattle.std.specs.List.{slice_split};
ghost use Rattle.conc_history_lines.specs.EventLines.{words_of};
ghost use Rattle.conc_history_lines.specs.Numbers as numbers_spec;
ghost use Rattle.conc_history_lines.specs.Places as places_spec;

use crate::names::outcome_bytes;
use crate::split::split_once;
use conc_types::{Extent, Outcome, PlaceId, RequestId, read_decimal};

/// The outcomes that a set may have, and a request that was not terminated.
const REPORTED: [Outcome; 3] = [Outcome::Normal, Outcome::Warning, Outcome::Error];

/// The first word of a line, and the words behind it, if there are any.
pub(crate) fn split_word(line: &[u8]) -> (&[u8], Option<&[u8]>)
    ensures { MatchOption result.1 (words_of line.now ≡ result.0.now ∷ [])
        (λ rest. words_of line.now ≡ result.0.now ∷ words_of rest.now) }
{
    match split_once(line, b' ') {
        Some((word, rest)) => (word, Some(rest)),
        None => (line, None),
    }
}

/// The number that a word spells as a decimal, where 32 bits hold it.
#[tactic(auto, unfolding(crate::specs::Numbers::number_of))]
pub fn number_of(word: &[u8]) -> Option<u32>
    ensures { result ≡ numbers_spec.number_of word.now }
{
    u32::try_from(read_decimal(word)?).ok()
}

pub(crate) fn id_of(word: &[u8]) -> Option<RequestId>
    ensures { result ≡ numbers_spec.id_of word.now }
{
    let number = number_of(word)?;
    Some(RequestId { number })
}

/// The number of a stage, from 1.
#[tactic(auto, unfolding(crate::specs::Numbers::stage_of))]
pub(crate) fn stage_of(word: &[u8]) -> Option<u32>
    ensures { result ≡ numbers_spec.stage_of word.now }
{
    let stage = number_of(word)?;
    if 1 <= stage { Some(stage) } else { None }
}

/// The outcome of a set, or of a request that was not terminated.
#[tactic(auto, unfolding(crate::specs::Numbers::outcome_of))]
pub(crate) fn outcome_of(word: &[u8]) -> Option<Outcome>
    ensures { result ≡ numbers_spec.outcome_of word.now }
{
    REPORTED
        .iter()
        .copied()
        .find(|outcome| word == outcome_bytes(*outcome))
}

#[tactic(auto, unfolding(crate::specs::Numbers::extent_of))]
pub(crate) fn extent_of(offset: &[u8], length: &[u8]) -> Option<Extent>
    ensures { result ≡ numbers_spec.extent_of offset.now length.now }
{
    let offset = read_decimal(offset)?;
    let length = number_of(length)?;
    Some(Extent { offset, length })
}

// Place n of manager m, both from 1.
#[tactic(auto, unfolding(crate::specs::Places::place_at))]
fn place_at(starts: &[u32], m: u64, n: u64) -> Option<PlaceId>
    ensures { result ≡ places_spec.place_at starts.now m n }
{
    let first = u64::from(*starts.get(m.checked_sub(1)? as usize)?);
    let next = u64::from(*starts.get(m as usize)?);
    let index = first.checked_add(n.checked_sub(1)?)?;
    if index < next {
        Some(PlaceId {
            index: index as u32,
        })
    } else {
        None
    }
}

/// The place that a word names as `M.N`, by the table of places.
#[tactic(auto, unfolding(crate::specs::Places::place_of))]
pub(crate) fn place_of(starts: &[u32], word: &[u8]) -> Option<PlaceId>
    ensures { result ≡ places_spec.place_of starts.now word.now }
{
    let (manager, place) = split_once(word, b'.')?;
    place_at(starts, read_decimal(manager)?, read_decimal(place)?)
}
