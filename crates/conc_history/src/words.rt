ghost use Rattle.std.specs.Prelude.{◌≡◌, ◌++◌, codes, OnOk};
ghost use Rattle.std.specs.Fmt.{decimal};
ghost use Rattle.conc_base_law.specs.Text as spec;
ghost use Rattle.conc_base_law.specs.Text.{place_word};

use conc_time::place_of;
use conc_types::{Item, NoMemory, PlaceId, Plan, put_decimal};

// The name of a program or set of the plan.
#[tactic(auto, unfolding(conc_base_law::specs::Text::item_name))]
pub(crate) fn item_name(plan: &Plan, item: Item) -> &[u8]
    ensures { result.now ≡ spec.item_name plan.now item }
{
    match item {
        Item::Program(n) => match plan.setup.programs.as_slice().get(n as usize) {
            Some(program) => program.name.as_bytes(),
            None => b"",
        },
        Item::Set(n) => match plan.setup.sets.as_slice().get(n as usize) {
            Some(set) => set.name.as_bytes(),
            None => b"",
        },
    }
}

pub(crate) fn put_bytes(out: &mut Vec<u8>, bytes: &[u8]) -> Result<(), NoMemory>
    ensures { OnOk result (out.new.items ≡ out.old.items ++ bytes.now) }
{
    out.extend_from_slice(bytes)?;
    Ok(())
}

fn put_dotted(out: &mut Vec<u8>, m: u32, n: u32) -> Result<(), NoMemory>
    ensures { OnOk result (out.new.items ≡ out.old.items ++ decimal m ++ codes "." ++ decimal n) }
{
    put_decimal(out, u64::from(m))?;
    put_bytes(out, b".")?;
    put_decimal(out, u64::from(n))
}

// A place of the plan: the number of its manager and its own.
#[tactic(auto, unfolding(conc_base_law::specs::Text::place_word))]
pub(crate) fn put_place(out: &mut Vec<u8>, plan: &Plan, place: PlaceId) -> Result<(), NoMemory>
    ensures { OnOk result (out.new.items ≡ out.old.items ++ place_word plan.now place) }
{
    match place_of(plan, place) {
        Some((manager, _, number)) => put_dotted(out, manager, number),
        None => Ok(()),
    }
}
