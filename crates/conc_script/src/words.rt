ghost use Rattle.std.specs.Prelude.{◌≡◌, ◌<◌, ◌≤◌, length, position, IfSome, IsTrue};
ghost use Rattle.std.specs.Option.{option_copied};
ghost use Rattle.std.specs.Str.{bytes_eq};
ghost use Rattle.conc_types.specs.Texts as texts_spec;
ghost use Rattle.conc_types.specs.Setups.{is_item};
ghost use Rattle.conc_types.specs.Words.{is_between};
ghost use Rattle.conc_script.specs.Script as script_spec;

use conc_time::read_moment;
use conc_types::{Item, Moment, Program, SetDef, Setup, is_name, read_decimal};

fn program_named(programs: &[Program], name: &[u8]) -> Option<usize>
    ensures { result ≡ position (λ p. bytes_eq name.now p.name) programs.now }
{
    programs
        .iter()
        .position(|program| name == program.name.as_bytes())
}

fn set_named(sets: &[SetDef], name: &[u8]) -> Option<usize>
    ensures { result ≡ position (λ s. bytes_eq name.now s.name) sets.now }
{
    sets.iter().position(|set| name == set.name.as_bytes())
}

/// The program or set of a setup with this name, if there is one.
#[tactic(auto, unfolding(crate::specs::Script::item_named))]
pub(crate) fn item_named(setup: &Setup, name: &[u8]) -> Option<Item>
    ensures value { result ≡ script_spec.item_named setup.now name.now }
    ensures there { IfSome result (λ item. IsTrue
        (is_item setup.now.programs setup.now.sets item)) }
{
    match program_named(setup.programs.as_slice(), name) {
        Some(index) => Some(Item::Program(index as u32)),
        None => {
            let index = set_named(setup.sets.as_slice(), name)?;
            Some(Item::Set(index as u32))
        }
    }
}

/// The priority that a field says, 1 to 99, or 50 where it is empty.
#[tactic(auto, unfolding(crate::specs::Script::priority_of))]
pub(crate) fn priority_of(bytes: &[u8]) -> Option<u8>
    ensures value { result ≡ script_spec.priority_of bytes.now }
    ensures within { IfSome result (λ priority. IsTrue (is_between 1 99 priority)) }
{
    if bytes.is_empty() {
        return Some(50);
    }
    let priority = read_decimal(bytes)?;
    if 1 <= priority && priority <= 99 {
        Some(priority as u8)
    } else {
        None
    }
}

/// The start that a field says, or the moment of the command where it is empty.
#[tactic(auto, unfolding(crate::specs::Script::start_of))]
pub(crate) fn start_of(at: Moment, bytes: &[u8]) -> Option<Moment>
    ensures { result ≡ script_spec.start_of at bytes.now }
{
    if bytes.is_empty() {
        return Some(at);
    }
    read_moment(bytes)
}

/// The domain that a field says, or `Standard` where it is empty.
#[tactic(auto, using(crate::proofs::Forms::is_name_standard), unfolding(crate::specs::Script::domain_of))]
pub(crate) fn domain_of(bytes: &[u8]) -> Option<&[u8]>
    ensures value { option_copied result ≡ script_spec.domain_of bytes.now }
    ensures named { IfSome result (λ domain. IsTrue (texts_spec.is_name domain.now)) }
{
    if bytes.is_empty() {
        return Some(b"Standard");
    }
    if is_name(bytes) { Some(bytes) } else { None }
}
