ghost use Rattle.std.specs.Prelude.{◌≡◌, ◌++◌, OnOk};
ghost use Rattle.conc_show_model.specs.Words.{place_text, state_text};

use crate::Place;
use conc_history_lines::{phase_bytes, status_bytes};
use conc_types::{NoMemory, Phase, Status, put_decimal};

/// Appends bytes.
pub fn put_bytes(out: &mut Vec<u8>, bytes: &[u8]) -> Result<(), NoMemory>
    ensures { OnOk result (out.new.items ≡ out.old.items ++ bytes.now) }
{
    out.extend_from_slice(bytes)?;
    Ok(())
}

/// Appends a place, as `2.1`.
pub fn put_place(out: &mut Vec<u8>, place: Place) -> Result<(), NoMemory>
    ensures { OnOk result (out.new.items ≡ out.old.items ++ place_text place) }
{
    put_decimal(out, u64::from(place.manager))?;
    put_bytes(out, b".")?;
    put_decimal(out, u64::from(place.number))
}

/// Appends a phase, a blank and a status.
pub fn put_state(out: &mut Vec<u8>, phase: Phase, status: Status) -> Result<(), NoMemory>
    ensures { OnOk result (out.new.items ≡ out.old.items ++ state_text phase status) }
{
    put_bytes(out, phase_bytes(phase))?;
    put_bytes(out, b" ")?;
    put_bytes(out, status_bytes(status))
}
