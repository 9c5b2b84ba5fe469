ghost use Rattle.std.specs.Prelude.{◌≡◌, List, Option, ℕ};
ghost use Rattle.conc_data_fields.specs.Fields as fields_spec;
ghost use Rattle.conc_data_fields.specs.Reads.{judged_read};
ghost use Rattle.conc_data_entries.specs.Shifts as spec;
ghost use Rattle.conc_types.specs.Fields as types_fields_spec;
ghost use Rattle.conc_types.specs.Words.{none_or};
ghost use Rattle.toml.specs.View.{table_view};

use crate::shift_values::{DateForm, DaysForm, PlacesForm, TimeForm};
use crate::table::{FromTable, TableForm};
use conc_data_fields::{FieldFail, Judged, beside, both, default, keys_kind, optional, required};
use conc_types::{RefusalKind, Shift};
use std::alloc::Global;
use toml::Table;

// One past the last day of the year 9999.
const DAYS: u32 = 3652059;

fn shift_keys(table: &Table) -> Option<RefusalKind>
    ensures { result ≡ fields_spec.keys_kind spec.shift_keys (table_view table.now) }
{
    keys_kind(&["date", "days", "from", "to", "places"], table)
}

fn times_of(from: Option<u32>, to: Option<u32>) -> Judged<Option<(u32, u32)>>
    ensures { result ≡ spec.times_of from to }
{
    match (from, to) {
        (None, None) => Ok(None),
        (Some(from), Some(to)) => Ok(Some((from, to))),
        (None, Some(_)) | (Some(_), None) => Err(RefusalKind::BadShift),
    }
}

fn are_times(times: (u32, u32)) -> bool
    ensures { result ≡ types_fields_spec.are_times times }
{
    let (from, to) = times;
    from < to && (to <= 86400 && (from % 60 == 0 && to % 60 == 0))
}

fn is_shift(date: Option<u32>, days: u8, times: Option<(u32, u32)>, places: u32) -> bool
    ensures { result ≡ types_fields_spec.is_shift date days times places }
{
    date.is_none_or(|date| date < DAYS)
        && ((date.is_none() || days == 0)
            && (days < 128 && (times.is_none_or(are_times) && places <= 64)))
}

fn shift_of_parts(
    date: Option<u32>,
    days: u8,
    places: u32,
    times: Option<(u32, u32)>,
) -> Judged<Shift>
    ensures { result ≡ spec.shift_of_parts date days places times }
{
    if is_shift(date, days, times, places) {
        Ok(Shift {
            date,
            days,
            times,
            places,
        })
    } else {
        Err(RefusalKind::BadShift)
    }
}

type ShiftParts = (Option<u32>, (u8, (Option<u32>, (Option<u32>, u32))));

fn to_shift(parts: Result<ShiftParts, FieldFail>) -> Result<Shift, FieldFail>
    ensures { result ≡ judged_read spec.to_shift parts }
{
    let (date, (days, (from, (to, places)))) = parts?;
    let times = times_of(from, to)?;
    Ok(shift_of_parts(date, days, places, times)?)
}

impl FromTable for Shift {
    ghost fields = { spec.shift_of };

    fn from_table(alloc: Global, table: &Table) -> Result<Self, FieldFail> {
        let date = optional::<DateForm>(alloc, table, "date");
        let days = default::<DaysForm>(alloc, 0, table, "days");
        let from = optional::<TimeForm>(alloc, table, "from");
        let to = optional::<TimeForm>(alloc, table, "to");
        let places = required::<PlacesForm>(alloc, table, "places");
        let shift = to_shift(both(date, both(days, both(from, both(to, places)))));
        beside(shift_keys(table), shift)
    }
}

/// A work shift of a manager. A date beside days is `BadShift`, as is a first time without a last
/// one or not before it.
pub(crate) type ShiftForm = TableForm<Shift>;
