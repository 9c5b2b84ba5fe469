ghost use Rattle.std.specs.Prelude.{◌≡◌, ◌++◌, ◌∷◌, [], IfOk, OnOk};
ghost use Rattle.std.specs.Fmt.{decimal};
ghost use Rattle.std.specs.List.{join_with_byte};
ghost use Rattle.conc_base_law.specs.Moments.{moment_text};
ghost use Rattle.conc_base_law.specs.Text as spec;
ghost use Rattle.conc_history.specs.Listing.{listed, listing, parent_word};

use crate::words::{item_name, put_bytes};
use conc_time::put_moment;
use conc_types::{NoMemory, Plan, Req, RequestId, put_decimal};
use std::alloc::Global;

fn number_or_zero(set: Option<RequestId>) -> u32
    ensures { decimal result ≡ parent_word set }
{
    match set {
        Some(set) => set.number,
        None => 0,
    }
}

// The number, the priority and the start of a request.
fn put_order(out: &mut Vec<u8>, r: &Req) -> Result<(), NoMemory>
    ensures { OnOk result (out.new.items ≡ out.old.items
        ++ join_with_byte 9 (decimal r.now.number.number ∷ decimal r.now.priority
        ∷ moment_text r.now.start ∷ [])) }
{
    put_decimal(out, u64::from(r.number.number))?;
    put_bytes(out, b"\t")?;
    put_decimal(out, u64::from(r.priority))?;
    put_bytes(out, b"\t")?;
    put_moment(out, r.start)
}

// Its set and its stage.
fn put_member(out: &mut Vec<u8>, r: &Req) -> Result<(), NoMemory>
    ensures { OnOk result (out.new.items ≡ out.old.items
        ++ join_with_byte 9 (parent_word r.now.parent ∷ decimal r.now.stage ∷ [])) }
{
    put_decimal(out, u64::from(number_or_zero(r.parent)))?;
    put_bytes(out, b"\t")?;
    put_decimal(out, u64::from(r.stage))
}

// Its domain, its user and its name, and the end of the line.
fn put_names(out: &mut Vec<u8>, plan: &Plan, r: &Req) -> Result<(), NoMemory>
    ensures { OnOk result (out.new.items ≡ out.old.items
        ++ (join_with_byte 9 (r.now.domain ∷ r.now.user ∷ spec.item_name plan.now r.now.item ∷ [])
        ++ 10 ∷ [])) }
{
    put_bytes(out, r.domain.as_bytes())?;
    put_bytes(out, b"\t")?;
    put_bytes(out, r.user.as_bytes())?;
    put_bytes(out, b"\t")?;
    put_bytes(out, item_name(plan, r.item))?;
    put_bytes(out, b"\n")
}

// Appends the line of a request.
fn put_listed(out: &mut Vec<u8>, plan: &Plan, r: &Req) -> Result<(), NoMemory>
    ensures { OnOk result (out.new.items ≡ out.old.items ++ listed plan.now r.now) }
{
    put_order(out, r)?;
    put_bytes(out, b"\t")?;
    put_member(out, r)?;
    put_bytes(out, b"\t")?;
    put_names(out, plan, r)
}

/// The listing of a plan: a line for each request, in order of their numbers, with its number, its
/// priority, its start, the request of its set and its stage there, each 0 where it is no member, its
/// domain, its user and the name of its program or set. A tab stands between two of them.
#[tactic(auto, unfolding(crate::specs::Listing::listing))]
pub fn put_plan(alloc: Global, plan: &Plan) -> Result<Vec<u8>, NoMemory>
    ensures { IfOk result (λ text. text.items ≡ listing plan.now) }
{
    let mut text = Vec::new(alloc);
    for r in plan.requests.as_slice() {
        put_listed(&mut text, plan, r)?;
    }
    Ok(text)
}
