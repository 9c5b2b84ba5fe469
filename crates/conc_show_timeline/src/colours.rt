//! The colours of a terminal.
ghost use Rattle.std.specs.Prelude.{◌≡◌, ◌++◌, OnOk};
ghost use Rattle.conc_show_timeline.specs.Rows as spec;
ghost use Rattle.conc_show_timeline.specs.Rows.{mark_text};

use conc_show_model::put_bytes;
use conc_types::NoMemory;

fn paint_of(mark: u8) -> &'static [u8]
    ensures { result.now ≡ spec.paint_of mark }
{
    match mark {
        b'E' | b'T' | b'!' => b"\x1b[31m",
        b'W' => b"\x1b[33m",
        b'N' => b"\x1b[32m",
        _ => b"",
    }
}

fn paint_end(mark: u8) -> &'static [u8]
    ensures { result.now ≡ spec.paint_end mark }
{
    match mark {
        b'E' | b'T' | b'!' | b'W' | b'N' => b"\x1b[0m",
        _ => b"",
    }
}

/// Appends the character of a column, in its colour where colours are wanted.
pub(crate) fn put_mark(out: &mut Vec<u8>, colours: bool, mark: u8) -> Result<(), NoMemory>
    ensures { OnOk result (out.new.items ≡ out.old.items ++ mark_text colours mark) }
{
    if !colours {
        return put_bytes(out, &[mark]);
    }
    put_bytes(out, paint_of(mark))?;
    put_bytes(out, &[mark])?;
    put_bytes(out, paint_end(mark))
}
