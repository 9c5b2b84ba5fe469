ghost use Rattle.std.specs.Prelude.{◌≡◌, map};
ghost use Rattle.std.specs.List.{list_any};
ghost use Rattle.std.specs.Str.{bytes_eq};
ghost use Rattle.conc_types.specs.Words as spec;

use conc_outside::MemShelf;
use conc_types::{Name, NoMemory, is_name};
use std::alloc::Global;

fn is_named(name: &Name, files: &[(Name, Vec<u8>)]) -> bool
    ensures { result ≡ list_any (bytes_eq name.now) (map (λ f. f.0) files.now) }
{
    match files.split_first() {
        None => false,
        Some((file, rest)) => name.as_bytes() == file.0.as_bytes() || is_named(name, rest),
    }
}

// Whether no two of the files have one name.
fn are_distinct(files: &[(Name, Vec<u8>)]) -> bool
    ensures { result ≡ spec.are_distinct bytes_eq (map (λ f. f.0) files.now) }
{
    match files.split_first() {
        None => true,
        Some((file, rest)) => !is_named(&file.0, rest) && are_distinct(rest),
    }
}

/// A file of a shelf with these bytes; None where the name is no name.
pub fn file_of(
    alloc: Global,
    name: &str,
    bytes: Vec<u8>,
) -> Result<Option<(Name, Vec<u8>)>, NoMemory> {
    let name = name.as_bytes().to_vec(alloc)?;
    if !is_name(&name) {
        return Ok(None);
    }
    Ok(Some((Name::from_vec(name), bytes)))
}

/// A shelf of these files, whose reads with these numbers fail; None where two files have one name.
pub fn shelf_with(files: Vec<(Name, Vec<u8>)>, fails: Vec<u64>) -> Option<MemShelf> {
    if are_distinct(&files) {
        Some(MemShelf::new(files, fails))
    } else {
        None
    }
}
