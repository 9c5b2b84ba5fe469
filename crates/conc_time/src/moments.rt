ghost use Rattle.std.specs.Prelude.{◌≡◌, ◌<◌, ◌++◌, IsTrue, OnErr, OnOk, pos, ◌-ℤ◌};
ghost use Rattle.jiff.specs.Words.{epoch_day};
ghost use Rattle.conc_base_law.specs.Calendar.{is_civil, seconds_of};
ghost use Rattle.conc_base_law.specs.Moments.{moment_text};
ghost use Rattle.conc_time.specs.Fields.{civil};

use crate::SECONDS_PER_DAY;
use crate::civil::Civil;
use conc_types::{Moment, NoMemory};
use jiff::ToSpan;
use jiff::civil::{Date, date};

/// The date of a day that is counted from 0 for 0001-01-01, up to 9999-12-31.
pub fn date_of(day: u64) -> Date
    requires { day < 3652059 }
    ensures { epoch_day result ≡ pos day -ℤ pos 719162 }
{
    date(1, 1, 1).checked_add((day as i64).days()).unwrap()
}

// The date and the time of a moment.
fn civil_at(moment: Moment) -> Civil
    ensures valid { IsTrue (is_civil (civil result)) }
    ensures at { moment.seconds ≡ seconds_of (civil result) }
{
    let date = date_of(moment.seconds / SECONDS_PER_DAY);
    let time = moment.seconds % SECONDS_PER_DAY;
    Civil {
        year: date.year().unsigned_abs(),
        month: date.month().unsigned_abs(),
        day: date.day().unsigned_abs(),
        hour: (time / 3600) as u8,
        minute: (time / 60 % 60) as u8,
        second: (time % 60) as u8,
    }
}

/// Appends a moment as `YYYY-MM-DDTHH:MM:SS`. Without memory for it the bytes stay as they were.
#[tactic(auto, using(crate::proofs::Dates::text_at))]
pub fn put_moment(out: &mut Vec<u8>, moment: Moment) -> Result<(), NoMemory>
    ensures ok { OnOk result (out.new.items ≡ out.old.items ++ moment_text moment) }
    ensures err { OnErr result (out.new.items ≡ out.old.items) }
{
    out.extend_from_slice(&civil_at(moment).text())?;
    Ok(())
}
