ghost use Rattle.std.specs.Prelude.{◌≡◌, ◌∷◌, [], codes, IfErr, IfOk};
ghost use Rattle.conc_outside.specs.Files.{IsLater};
ghost use Rattle.conc_top_inputs.specs.Given as spec;
ghost use Rattle.conc_top_inputs.specs.Given.{IsShown, ReadsFrom, sources, exposed_by};
ghost use Rattle.conc_top_inputs.specs.FileFails.{FailsAtClock, FailsUnshown};

use crate::InputFail;
use crate::error::named;
use crate::given::judge_clock;
use conc_edge_clock::Clock;
use conc_outside::Shelf;
use conc_types::{Moment, Name, NoMemory, Reading, Readings, Seq};
use std::alloc::Global;

// Whether this name asks the clock of the system.
fn is_system(name: &Name) -> bool
    ensures { result ≡ spec.is_system name.now }
{
    name.as_bytes() == b"system".as_slice()
}

// The one reading of this moment.
fn reading_at(alloc: Global, moment: Moment) -> Result<Readings, NoMemory>
    ensures { IfOk result (λ readings. readings.list ≡ spec.reading_at moment ∷ []) }
{
    let mut list = Vec::new(alloc);
    list.push(Reading {
        moment,
        early: false,
    })?;
    Ok(Readings {
        list: Seq::from_vec(list),
    })
}

// The one reading that the clock gives now.
fn show<C: Clock>(alloc: Global, clock: &mut C) -> Result<Readings, InputFail>
    ensures ok { IfOk result (IsShown (C.state clock.old) (C.state clock.new)) }
    ensures err { IfErr result (FailsUnshown (C.state clock.old) (C.state clock.new)) }
{
    let Ok(moment) = clock.now() else {
        return Err(InputFail::ClockFault);
    };
    Ok(reading_at(alloc, moment)?)
}

// The readings of the clock with this name: that of the system, or that of a file.
pub(crate) fn read_readings<F: Shelf, C: Clock>(
    alloc: Global,
    shelf: &mut F,
    clock: &mut C,
    name: &Name,
) -> Result<Readings, InputFail>
    ensures later { IsLater (F.state shelf.old) (F.state shelf.new) }
    ensures ok { IfOk result (λ readings. ReadsFrom
        (exposed_by (sources (F.state shelf.old) (C.state clock.old))
        (sources (F.state shelf.new) (C.state clock.new))) name.now readings
        (spec.is_system name.now)) }
    ensures err { IfErr result (FailsAtClock (sources (F.state shelf.old) (C.state clock.old))
        (sources (F.state shelf.new) (C.state clock.new)) name.now) }
{
    if is_system(name) {
        return show(alloc, clock);
    }
    named(alloc, name, judge_clock(alloc, shelf, name))
}
