ghost use Rattle.std.specs.Prelude.{◌≡◌, ◌<◌, ◌++◌, ◌∷◌, All, length, map, IfOk, OnOk};
ghost use Rattle.csv.specs.Writing.{default_writer, row_text};
ghost use Rattle.conc_repeat.specs.Kept.{line_by, line_kept, words_in};
ghost use Rattle.conc_repeat.specs.Script.{script_header, text_of};
ghost use Rattle.conc_repeat.specs.Written.{bytes_of, IsReady};

use crate::dues::Due;
use crate::lines::Lines;
use crate::series::Series;
use conc_time::put_moment;
use conc_types::{Moment, NoMemory};
use std::alloc::Global;

// Writes the header of a script.
fn put_header(lines: &mut Lines) -> Result<(), NoMemory>
    requires { IsReady lines.old }
    ensures ready { OnOk result (IsReady lines.new) }
    ensures bytes { OnOk result (bytes_of lines.new
        ≡ bytes_of lines.old ++ row_text default_writer script_header) }
{
    lines.push(&[
        b"at".as_slice(),
        b"do".as_slice(),
        b"what".as_slice(),
        b"user".as_slice(),
        b"priority".as_slice(),
        b"start".as_slice(),
        b"domain".as_slice(),
        b"argument".as_slice(),
    ])
}

// Writes the submission of a series at a moment.
fn put_submission(
    alloc: Global,
    lines: &mut Lines,
    at: Moment,
    series: &Series,
) -> Result<(), NoMemory>
    requires { IsReady lines.old }
    ensures ready { OnOk result (IsReady lines.new) }
    ensures bytes { OnOk result (bytes_of lines.new
        ≡ bytes_of lines.old ++ row_text default_writer (line_by at (words_in series.now))) }
{
    let mut moment = Vec::new(alloc);
    put_moment(&mut moment, at)?;
    lines.push(&[
        moment.as_slice(),
        b"submit".as_slice(),
        series.what.as_slice(),
        series.user.as_slice(),
        series.priority.as_slice(),
        b"".as_slice(),
        series.domain.as_slice(),
        series.argument.as_slice(),
    ])
}

/// The text of a script with these submissions, each of one of the series.
pub(crate) fn script_bytes(alloc: Global, all: &[Series], dues: &[Due]) -> Result<Vec<u8>, NoMemory>
    requires { All (λ due. due.series < length all.now) dues.now }
    ensures { IfOk result (λ script. script.items
        ≡ text_of (script_header ∷ map (line_kept all.now) dues.now)) }
{
    let mut lines = Lines::new(alloc);
    put_header(&mut lines)?;
    for due in dues {
        put_submission(alloc, &mut lines, due.at, &all[due.series])?;
    }
    lines.into_bytes()
}
