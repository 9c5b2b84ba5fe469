ghost use Rattle.std.specs.Prelude.{◌≡◌, ◌≤◌, ◌+◌, ◌-◌, ◌^◌, IfOk, IfSome, IsNone, Ok, length, map};
ghost use Rattle.conc_data_fields.specs.Faults.{IsFirstWrong};
ghost use Rattle.conc_data_fields.specs.Arrays as spec;

use crate::Judged;
use conc_types::{NoMemory, RefusalKind, Seq};
use std::alloc::Global;

fn lesser<T: Drop>(read: &Judged<T>, kind: Option<RefusalKind>) -> Option<RefusalKind>
    ensures { result ≡ spec.lesser read.now kind }
{
    match (read, kind) {
        (Ok(_), kind) => kind,
        (Err(j), None) => Some(*j),
        (Err(j), Some(k)) => Some(k.lesser(*j)),
    }
}

/// The least kind of what is wrong, if anything is.
pub(crate) fn worst<T: Drop>(all: &[Judged<T>]) -> Option<RefusalKind>
    ensures { result ≡ spec.worst all.now }
{
    let mut least = None;
    let mut place = all.len();
    while place > 0 {
        place -= 1;
        least = lesser(&all[place], least);
    }
    least
}

/// The values of those with which nothing is wrong, in their order.
#[tactic(auto, unfolding(crate::specs::Arrays::goods))]
pub fn goods<T: Drop>(alloc: Global, all: Seq<Judged<T>>) -> Result<Seq<T>, NoMemory>
    ensures { IfOk result (λ values. values ≡ spec.goods all) }
{
    let mut values = Vec::new(alloc);
    for read in all.into_vec() {
        if let Ok(value) = read {
            values.push(value)?;
        }
    }
    Ok(Seq::from_vec(values))
}

#[tactic(auto, unfolding(crate::specs::Arrays::first_wrong))]
fn wrong_from<T: Drop>(line: u64, all: &[Judged<T>]) -> Option<(u64, RefusalKind)>
    requires { line + length all.now ≤ 2 ^ 64 - 1 }
    ensures { result ≡ spec.first_wrong line all.now }
{
    match all.split_first() {
        None => None,
        Some((Ok(_), rest)) => wrong_from(line + 1, rest),
        Some((Err(kind), _)) => Some((line, *kind)),
    }
}

/// The first with which something is wrong: its line, where the first of all has the line given,
/// and its kind. None where nothing is wrong with any. It takes no memory.
pub fn first_wrong<T: Drop>(line: u64, all: &[Judged<T>]) -> Option<(u64, RefusalKind)>
    requires { line + length all.now ≤ 2 ^ 64 - 1 }
    ensures value { result ≡ spec.first_wrong line all.now }
    ensures first { IfSome result (IsFirstWrong line all.now) }
    ensures none { IsNone result → all.now ≡ map Ok (spec.goods all.now) }
{
    wrong_from(line, all)
}
