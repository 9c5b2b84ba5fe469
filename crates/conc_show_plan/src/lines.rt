ghost use Rattle.std.specs.Prelude.{◌≡◌};
ghost use Rattle.conc_show_plan.specs.Lines as spec;

use crate::fields::{Fields, eight};
use conc_history_lines::number_of;
use conc_time::read_moment;
use conc_types::{RequestId, is_name, read_decimal};

#[tactic(auto, unfolding(crate::specs::Lines::is_numbered))]
fn is_numbered(number: u64, word: &[u8]) -> bool
    ensures { result ≡ spec.is_numbered number word.now }
{
    number_of(word).is_some_and(|value| u64::from(value) == number)
}

#[tactic(auto, unfolding(crate::specs::Lines::is_priority))]
fn is_priority(word: &[u8]) -> bool
    ensures { result ≡ spec.is_priority word.now }
{
    read_decimal(word).is_some_and(|value| 1 <= value && value <= 99)
}

#[tactic(auto, unfolding(crate::specs::Lines::is_moment))]
fn is_moment(word: &[u8]) -> bool
    ensures { result ≡ spec.is_moment word.now }
{
    read_moment(word).is_some()
}

// The request of a member's set, or that there is none; by the numbers of the set and of the stage.
#[tactic(auto, unfolding(crate::specs::Lines::set_of))]
fn set_of(set: &[u8], stage: &[u8]) -> Option<Option<RequestId>>
    ensures { result ≡ spec.set_of set.now stage.now }
{
    let number = number_of(set)?;
    let stage = number_of(stage)?;
    match (number == 0, stage == 0) {
        (true, true) => Some(None),
        (false, false) => Some(Some(RequestId { number })),
        _ => None,
    }
}

// Whether the fields other than set and stage have their form, in the line with a number.
fn are_formed(number: u64, fields: &Fields) -> bool
    ensures { result ≡ spec.are_formed number fields.now.number.now fields.now.priority.now
        fields.now.start.now fields.now.domain.now fields.now.user.now fields.now.name.now }
{
    is_numbered(number, fields.number)
        && is_priority(fields.priority)
        && is_moment(fields.start)
        && is_name(fields.domain)
        && is_name(fields.user)
        && is_name(fields.name)
}

/// The request of the set of the request that a line without its LF lists, or that it has none. None
/// where the line is not the one with this number of a listing.
#[tactic(auto, unfolding(crate::specs::Lines::plan_line))]
pub(crate) fn plan_line(number: u64, line: &[u8]) -> Option<Option<RequestId>>
    ensures { result ≡ spec.plan_line number line.now }
{
    let fields = eight(line)?;
    if are_formed(number, &fields) {
        set_of(fields.member.set, fields.member.stage)
    } else {
        None
    }
}
