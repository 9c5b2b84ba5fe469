ghost use Rattle.std.specs.Prelude.{◌≡◌, ◌++◌, ◌∷◌, OnOk};
ghost use Rattle.conc_make.specs.Draws.{after};
ghost use Rattle.conc_make.specs.Files.{item_word, line, made, script_header, submission, text_of};

use crate::draws::Draws;
use crate::words::{put_bytes, put_numbered};
use conc_types::NoMemory;

/// The drawn number that stands for the set. Those below it stand for programs.
const SET: u64 = 8;

// Appends the name of what is submitted.
fn put_item(out: &mut Vec<u8>, item: u64) -> Result<(), NoMemory>
    ensures { OnOk result (out.new.items ≡ out.old.items ++ item_word item) }
{
    if item == SET {
        put_bytes(out, b"S")
    } else {
        put_numbered(out, b"P", item)
    }
}

// Appends a submission: what is submitted, by which user, with which priority and in which domain.
#[tactic(auto, unfolding(crate::specs::Draws::after))]
fn put_submission(out: &mut Vec<u8>, draws: &mut Draws) -> Result<(), NoMemory>
    ensures text { OnOk result (out.new.items ≡ out.old.items
        ++ line (submission draws.old.number)) }
    ensures number { OnOk result (draws.new.number ≡ after 4 draws.old.number) }
{
    let item = draws.draw(9);
    let user = draws.draw(3);
    let priority = 1 + draws.draw(99);
    let domain = draws.draw(4);
    put_bytes(out, b"2025-01-01T00:00:00,submit,")?;
    put_item(out, item)?;
    put_numbered(out, b",u", user)?;
    put_numbered(out, b",", priority)?;
    put_numbered(out, b",,d", domain)?;
    put_bytes(out, b",\n")?;
    Ok(())
}

/// Appends the script: its header, and so many submissions at one moment.
pub(crate) fn put_script(out: &mut Vec<u8>, draws: &mut Draws, size: u32) -> Result<(), NoMemory>
    ensures { OnOk result (out.new.items ≡ out.old.items
        ++ text_of (script_header ∷ made submission 4 size draws.old.number)) }
{
    put_bytes(out, b"at,do,what,user,priority,start,domain,argument\n")?;
    for _submission in 0..size {
        put_submission(out, draws)?;
    }
    Ok(())
}
