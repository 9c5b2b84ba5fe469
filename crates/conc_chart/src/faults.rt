ghost use Rattle.std.specs.Prelude.{◌≡◌, ◌++◌, OnOk};
ghost use Rattle.conc_chart.specs.Faults as spec;
ghost use Rattle.conc_chart.specs.Faults.{fault_line};

use conc_show_model::put_bytes;
use conc_types::{NoMemory, put_decimal};

fn put_line_part(out: &mut Vec<u8>, line: Option<u64>) -> Result<(), NoMemory>
    ensures { OnOk result (out.new.items ≡ out.old.items ++ spec.line_part line) }
{
    match line {
        Some(line) => {
            put_bytes(out, b" line ")?;
            put_decimal(out, line)?;
            put_bytes(out, b":")
        }
        None => Ok(()),
    }
}

/// Appends the line that tells why a file is refused.
pub(crate) fn put_fault(
    out: &mut Vec<u8>,
    file: &[u8],
    line: Option<u64>,
    cause: &[u8],
) -> Result<(), NoMemory>
    ensures { OnOk result (out.new.items ≡ out.old.items ++ fault_line file.now line cause.now) }
{
    put_bytes(out, b"conc_chart: ")?;
    put_bytes(out, file)?;
    put_bytes(out, b":")?;
    put_line_part(out, line)?;
    put_bytes(out, b" ")?;
    put_bytes(out, cause)?;
    put_bytes(out, b"\n")
}
