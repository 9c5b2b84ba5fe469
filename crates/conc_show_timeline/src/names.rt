//! Names cut to a number of columns.
ghost use Rattle.std.specs.Prelude.{◌≡◌, ◌+◌, ◌≤◌, ◌++◌, OnOk, IfOk, chars, encode_utf8_all, string_bytes};
ghost use Rattle.conc_show_timeline.specs.Names as spec;
ghost use Rattle.conc_show_timeline.specs.Names.{blanks, cell, cut, text_columns};

use conc_show_model::put_bytes;
use conc_types::{Name, NoMemory};
use std::alloc::{AllocError, Global};
use unicode_width::UnicodeWidthChar;

const BLANKS: [u8; 32] = [b' '; 32];

/// Appends so many blanks.
pub(crate) fn put_blanks(out: &mut Vec<u8>, count: usize) -> Result<(), NoMemory>
    requires { count ≤ 32 }
    ensures { OnOk result (out.new.items ≡ out.old.items ++ blanks count) }
{
    put_bytes(out, &BLANKS[..count])
}

// The columns of a character.
fn columns_of(character: char) -> usize
    ensures { result ≡ spec.columns_of character }
{
    character.width().unwrap_or(0)
}

fn text_of(name: &Name) -> &str
    ensures { result.now ≡ spec.readable name.now }
{
    match str::from_utf8(name.as_bytes()) {
        Ok(text) => text,
        Err(_) => "",
    }
}

fn characters_of(alloc: Global, text: &str) -> Result<Vec<char>, AllocError>
    ensures { IfOk result (λ characters. characters.items ≡ chars text.now) }
{
    text.chars().collect(alloc)
}

// The first of these characters, as many as so many columns take, and the columns that they leave.
fn cut_text(alloc: Global, characters: &[char], room: usize) -> Result<(String, usize), NoMemory>
    ensures text { IfOk result (λ made.
        string_bytes made.0 ≡ encode_utf8_all (cut room characters.now)) }
    ensures left { IfOk result (λ made.
        made.1 + text_columns (cut room characters.now) ≡ room) }
{
    let mut kept = String::new(alloc);
    let mut left = room;
    for character in characters {
        let columns = columns_of(*character);
        if columns > left {
            break;
        }
        kept.push(*character)?;
        left -= columns;
    }
    Ok((kept, left))
}

/// Appends a name, cut or filled up with blanks to so many columns.
#[tactic(auto, unfolding(crate::specs::Names::cell))]
pub(crate) fn put_name(
    alloc: Global,
    out: &mut Vec<u8>,
    name: &Name,
    room: usize,
) -> Result<(), NoMemory>
    requires { room ≤ 32 }
    ensures { OnOk result (out.new.items ≡ out.old.items ++ cell room name.now) }
{
    let characters = characters_of(alloc, text_of(name))?;
    let (kept, left) = cut_text(alloc, characters.as_slice(), room)?;
    put_bytes(out, kept.as_bytes())?;
    put_blanks(out, left)
}
