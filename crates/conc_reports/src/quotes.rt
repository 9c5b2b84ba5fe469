ghost use Rattle.std.specs.Prelude.{◌≡◌, ◌++◌, ◌==◌, ◌||◌, ◌∷◌, [], OnOk};
ghost use Rattle.conc_base_law.specs.Report as spec;

use conc_types::NoMemory;

fn calls_for_quotes(byte: u8) -> bool
    ensures { result ≡ (byte == 44 || (byte == 34 || (byte == 13 || byte == 10))) }
{
    byte == b',' || byte == b'"' || byte == b'\r' || byte == b'\n'
}

fn needs_quotes(key: &[u8]) -> bool
    ensures { result ≡ spec.needs_quotes key.now }
{
    key.iter().any(|byte| calls_for_quotes(*byte))
}

// A quote is written twice.
fn put_doubled_byte(out: &mut Vec<u8>, byte: u8) -> Result<(), NoMemory>
    ensures { OnOk result (out.new.items ≡ out.old.items ++ spec.doubled (byte ∷ [])) }
{
    if byte == b'"' {
        out.extend_from_slice(b"\"\"")?;
        Ok(())
    } else {
        out.push(byte)?;
        Ok(())
    }
}

fn put_doubled(out: &mut Vec<u8>, key: &[u8]) -> Result<(), NoMemory>
    ensures { OnOk result (out.new.items ≡ out.old.items ++ spec.doubled key.now) }
{
    for byte in key {
        put_doubled_byte(out, *byte)?;
    }
    Ok(())
}

/// Appends a key, in quotes with its quotes doubled if it holds a comma, a quote or an end of line.
#[tactic(auto, unfolding(conc_base_law::specs::Report::quoted))]
pub fn put_quoted(out: &mut Vec<u8>, key: &[u8]) -> Result<(), NoMemory>
    ensures { OnOk result (out.new.items ≡ out.old.items ++ spec.quoted key.now) }
{
    if needs_quotes(key) {
        out.push(b'"')?;
        put_doubled(out, key)?;
        out.push(b'"')?;
        Ok(())
    } else {
        out.extend_from_slice(key)?;
        Ok(())
    }
}
