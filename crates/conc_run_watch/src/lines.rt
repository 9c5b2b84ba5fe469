//! The lines that tell what watchers kept.
ghost use Rattle.std.specs.Prelude.{◌≡◌, ◌++◌, OnOk, map};
ghost use Rattle.conc_run_watch.specs.Lines.{field_of, line_of, lines_of, watch_text};

use conc_types::{NoMemory, put_decimal};
use conc_view::Snapshot;

fn put(out: &mut Vec<u8>, piece: &[u8]) -> Result<(), NoMemory>
    ensures { OnOk result (out.new.items ≡ out.old.items ++ piece.now) }
{
    out.extend_from_slice(piece)?;
    Ok(())
}

// A space and a number.
fn put_field(out: &mut Vec<u8>, n: u64) -> Result<(), NoMemory>
    ensures { OnOk result (out.new.items ≡ out.old.items ++ field_of n) }
{
    put(out, b" ")?;
    put_decimal(out, n)
}

fn put_line(out: &mut Vec<u8>, watcher: u64, snapshot: &Snapshot) -> Result<(), NoMemory>
    ensures { OnOk result (out.new.items ≡ out.old.items ++ line_of watcher snapshot.now) }
{
    let [pending, running, completed, inactive] = snapshot.counts;
    put(out, b"watch")?;
    put_field(out, watcher)?;
    put_field(out, snapshot.length)?;
    put_field(out, u64::from(pending))?;
    put_field(out, u64::from(running))?;
    put_field(out, u64::from(completed))?;
    put_field(out, u64::from(inactive))?;
    put(out, b"\n")
}

// The lines of one watcher.
fn put_lines(out: &mut Vec<u8>, watcher: u64, kept: &[Snapshot]) -> Result<(), NoMemory>
    ensures { OnOk result (out.new.items ≡ out.old.items ++ lines_of watcher kept.now) }
{
    for snapshot in kept {
        put_line(out, watcher, snapshot)?;
    }
    Ok(())
}

/// Appends the lines of what each watcher kept, numbered from 1: for each snapshot the word `watch`, the
/// watcher's number, the number of events, and how many requests were pending, running, completed and
/// inactive after them.
pub fn put_watch_lines(out: &mut Vec<u8>, kept: &[Vec<Snapshot>]) -> Result<(), NoMemory>
    ensures { OnOk result (out.new.items
        ≡ out.old.items ++ watch_text 1 (map (λ v. v.items) kept.now)) }
{
    for i in 0..kept.len() {
        put_lines(out, i as u64 + 1, kept[i].as_slice())?;
    }
    Ok(())
}
