ghost use Rattle.std.specs.Prelude.{◌≡◌, ◌+◌, ◌≤◌, Some, IfOk, IfSome, IsTrue, is_some};
ghost use Rattle.std.specs.Result.{result_err};
ghost use Rattle.csv.specs.Records.{fields_of};
ghost use Rattle.conc_types.specs.Faults.{first_broken};
ghost use Rattle.conc_types.specs.Words.{is_between};
ghost use Rattle.conc_base_law.specs.Calendar.{moment_of};
ghost use Rattle.conc_repeat.specs.Kept.{list_of};
ghost use Rattle.conc_repeat.specs.Refusing.{has_form, record_rules, submission_form};
ghost use Rattle.conc_repeat.specs.Series as series_spec;
ghost use Rattle.conc_repeat.specs.Series.{course_of, times_of};

use crate::courses::{Course, TimeUnit};
use crate::fields::{Fields, fields_in};
use conc_data_records::ByteRecord;
use conc_time::read_moment;
use conc_types::{Moment, RefusalKind, is_name, is_text, read_decimal};

// How many commands a script can have.
const MOST_COMMANDS: usize = 4096;

const MOST_ARGUMENT_BYTES: usize = 200;

// The number that a decimal from 1 to a number spells.
fn number_up_to(most: u16, bytes: &[u8]) -> Option<u16>
    ensures value { result ≡ series_spec.number_up_to most bytes.now }
    ensures within { IfSome result (λ n. IsTrue (is_between 1 most n)) }
{
    let number = read_decimal(bytes)?;
    if 1 <= number && number <= u64::from(most) {
        Some(number as u16)
    } else {
        None
    }
}

// Whether the fields that a submission has are of their form.
fn is_submission(fields: &Fields) -> bool
    ensures { result ≡ submission_form (list_of fields.now) }
{
    is_name(fields.what)
        && is_name(fields.user)
        && (fields.priority.is_empty() || number_up_to(99, fields.priority).is_some())
        && (fields.domain.is_empty() || is_name(fields.domain))
        && is_text(MOST_ARGUMENT_BYTES, fields.argument)
}

// The first moment of a series, its distance in units, and how many moments there are, where each
// field but the unit is of its form.
#[tactic(auto, unfolding(crate::specs::Refusing::has_form))]
fn form(fields: &Fields) -> Option<(Moment, u16, u16)>
    ensures form { is_some result ≡ has_form (list_of fields.now) }
    ensures said { IfSome result (λ p. (moment_of fields.now.from.now ≡ Some p.0)
        × (series_spec.number_up_to 1000 fields.now.every.now ≡ Some p.1)
        × (series_spec.number_up_to 4096 fields.now.times.now ≡ Some p.2)) }
    ensures some { IfSome result (λ p. IsTrue (is_between 1 4096 p.2)) }
{
    let from = read_moment(fields.from)?;
    let every = number_up_to(1000, fields.every)?;
    let times = number_up_to(4096, fields.times)?;
    if is_submission(fields) {
        Some((from, every, times))
    } else {
        None
    }
}

/// The course of the series that a record says, and its fields, behind records of so many commands;
/// or the kind of the first rule that it breaks.
pub(crate) fn judge(commands: usize, row: &ByteRecord) -> Result<(Course, Fields<'_>), RefusalKind>
    requires { commands ≤ 4096 }
    ensures rules { first_broken (record_rules commands (fields_of row.now)) ≡ result_err result }
    ensures fields { IfOk result (λ p. fields_of row.now ≡ list_of p.1) }
    ensures course { IfOk result (λ p. course_of (fields_of row.now) ≡ Some p.0) }
    ensures times { IfOk result (λ p. times_of (fields_of row.now) ≡ p.0.times) }
    ensures some { IfOk result (λ p. 1 ≤ p.0.times) }
    ensures few { IfOk result (λ p. commands + p.0.times ≤ 4096) }
{
    let fields = fields_in(row).ok_or(RefusalKind::NotRepeats)?;
    let (from, every, times) = form(&fields).ok_or(RefusalKind::BadRepeat)?;
    let unit = TimeUnit::named(fields.unit).ok_or(RefusalKind::UnknownUnit)?;
    let course = Course {
        from,
        every,
        unit,
        times,
    };
    if !course.is_within_calendar() {
        return Err(RefusalKind::PastEnd);
    }
    if commands + usize::from(times) > MOST_COMMANDS {
        return Err(RefusalKind::TooManyCommands);
    }
    Ok((course, fields))
}
