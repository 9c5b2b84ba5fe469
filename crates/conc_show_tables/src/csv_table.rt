ghost use Rattle.std.specs.Prelude.{◌≡◌, ◌==◌, ◌||◌, ◌++◌, List, OnOk, decimal, flat_map, ℕ};
ghost use Rattle.std.specs.List.{list_any};
ghost use Rattle.conc_base_law.specs.Moments.{moment_text};
ghost use Rattle.conc_show_model.specs.Words.{place_text};
ghost use Rattle.conc_show_tables.specs.Csv.{csv_extent, csv_facts, csv_field, csv_names, csv_text, csv_value, csv_with, doubled};

use crate::facts::{Facts, seconds_between};
use crate::rows::{RowFormat, put_rows};
use conc_history_lines::{phase_bytes, status_bytes};
use conc_show_model::{Chart, Place, Row, put_bytes, put_place};
use conc_time::put_moment;
use conc_types::{Extent, Moment, NoMemory, RequestId, put_decimal};
use std::alloc::Global;

const HEAD: &[u8] =
    b"request,program,set,phase,status,place,do,let,start,end,waited,ran,offset,length\n";

// The format of the table.
struct Csv;

// Whether a field has to stand in quotes.
fn needs_quotes(text: &[u8]) -> bool
    ensures { result ≡ list_any (λ byte. byte == 44 || byte == 34) text.now }
{
    text.iter().any(|byte| *byte == b',' || *byte == b'"')
}

fn put_byte(out: &mut Vec<u8>, byte: u8) -> Result<(), NoMemory>
    ensures { OnOk result (out.new.items ≡ out.old.items ++ doubled byte) }
{
    if byte == b'"' {
        put_bytes(out, b"\"\"")
    } else {
        put_bytes(out, &[byte])
    }
}

// The bytes of a field in quotes.
fn put_doubled(out: &mut Vec<u8>, text: &[u8]) -> Result<(), NoMemory>
    ensures { OnOk result (out.new.items ≡ out.old.items ++ flat_map doubled text.now) }
{
    for byte in text {
        put_byte(out, *byte)?;
    }
    Ok(())
}

#[tactic(auto, unfolding(crate::specs::Csv::csv_field))]
fn put_field(out: &mut Vec<u8>, text: &[u8]) -> Result<(), NoMemory>
    ensures { OnOk result (out.new.items ≡ out.old.items ++ csv_field text.now) }
{
    if !needs_quotes(text) {
        return put_bytes(out, text);
    }
    put_bytes(out, b"\"")?;
    put_doubled(out, text)?;
    put_bytes(out, b"\"")
}

// What may stand in a field without quotes.
trait Plain: Copy {
    ghost text: { Self → List ℕ };

    // Appends its text.
    fn put(self, out: &mut Vec<u8>) -> Result<(), NoMemory>
        ensures { OnOk result (out.new.items ≡ out.old.items ++ text self) };
}

impl Plain for u64 {
    ghost text = { decimal };

    fn put(self, out: &mut Vec<u8>) -> Result<(), NoMemory> {
        put_decimal(out, self)
    }
}

impl Plain for RequestId {
    ghost text = { λ request. decimal request.number };

    fn put(self, out: &mut Vec<u8>) -> Result<(), NoMemory> {
        put_decimal(out, u64::from(self.number))
    }
}

impl Plain for Moment {
    ghost text = { moment_text };

    fn put(self, out: &mut Vec<u8>) -> Result<(), NoMemory> {
        put_moment(out, self)
    }
}

impl Plain for Place {
    ghost text = { place_text };

    fn put(self, out: &mut Vec<u8>) -> Result<(), NoMemory> {
        put_place(out, self)
    }
}

// A comma, and the value if it is known.
fn put_value<T: Plain>(out: &mut Vec<u8>, value: Option<T>) -> Result<(), NoMemory>
    ensures { OnOk result (out.new.items ≡ out.old.items ++ csv_value T.text value) }
{
    put_bytes(out, b",")?;
    match value {
        Some(value) => value.put(out),
        None => Ok(()),
    }
}

fn put_extent(out: &mut Vec<u8>, extent: Option<Extent>) -> Result<(), NoMemory>
    ensures { OnOk result (out.new.items ≡ out.old.items ++ csv_extent extent) }
{
    put_bytes(out, b",")?;
    match extent {
        Some(extent) => {
            put_decimal(out, extent.offset)?;
            put_bytes(out, b",")?;
            put_decimal(out, u64::from(extent.length))
        }
        None => put_bytes(out, b","),
    }
}

// The first five fields of a line.
fn put_names(out: &mut Vec<u8>, row: &Row, facts: Facts) -> Result<(), NoMemory>
    ensures { OnOk result (out.new.items ≡ out.old.items ++ csv_names row.now facts) }
{
    put_decimal(out, u64::from(row.request.number))?;
    put_bytes(out, b",")?;
    put_field(out, row.name.as_bytes())?;
    put_value(out, facts.set)?;
    put_bytes(out, b",")?;
    put_bytes(out, phase_bytes(row.phase))?;
    put_bytes(out, b",")?;
    put_bytes(out, status_bytes(row.status))
}

// The others.
fn put_facts(out: &mut Vec<u8>, facts: Facts) -> Result<(), NoMemory>
    ensures { OnOk result (out.new.items ≡ out.old.items ++ csv_facts facts) }
{
    put_value(out, facts.place)?;
    put_value(out, facts.done_at)?;
    put_value(out, facts.let_at)?;
    put_value(out, facts.start_at)?;
    put_value(out, facts.end_at)?;
    put_value(out, seconds_between(facts.let_at, facts.start_at))?;
    put_value(out, seconds_between(facts.start_at, facts.end_at))?;
    put_extent(out, facts.extent)
}

impl RowFormat for Csv {
    ghost line = { csv_with };

    fn put_line(out: &mut Vec<u8>, row: &Row, facts: Facts) -> Result<(), NoMemory> {
        put_names(out, row, facts)?;
        put_facts(out, facts)?;
        put_bytes(out, b"\n")
    }
}

/// Appends the table of a chart as comma-separated fields: a head, and a line for each row.
pub fn put_csv(alloc: Global, out: &mut Vec<u8>, chart: &Chart) -> Result<(), NoMemory>
    ensures { OnOk result (out.new.items ≡ out.old.items ++ csv_text chart.now) }
{
    put_bytes(out, HEAD)?;
    put_rows::<Csv>(alloc, out, chart)
}
