ghost use Rattle.std.specs.Prelude.{◌≡◌, ◌%◌, ◌<◌, ◌==◌, map, pos, ◌-ℤ◌};
ghost use Rattle.std.specs.List.{filter};
ghost use Rattle.conc_types.specs.Stages.{has_bit};
ghost use Rattle.conc_types.specs.Words.{greatest};
ghost use Rattle.jiff.specs.Words as words_spec;
ghost use Rattle.jiff.specs.Words.{epoch_day};
ghost use Rattle.jiff_core.specs.declared.civil.date.Date.{Date};
ghost use Rattle.conc_base_law.specs.Managers as managers_spec;
ghost use Rattle.conc_base_law.specs.Managers.{shift_covers};

use crate::SECONDS_PER_DAY;
use conc_types::{Manager, Moment, Shift};

// The weekday of a day that is counted from 0 for 0001-01-01, from 0 for Monday.
#[tactic(auto, using(crate::proofs::Calendars::weekday_same))]
fn weekday_of(day: u64) -> u64
    ensures cycle { result ≡ day % 7 }
    ensures calendar { (d : Date) → epoch_day d ≡ pos day -ℤ pos 719162
        → words_spec.weekday_of d ≡ result }
{
    day % 7
}

fn has_weekday(days: u8, weekday: u64) -> bool
    requires { weekday < 7 }
    ensures { result ≡ has_bit days weekday }
{
    u64::from(days) / (1 << weekday) % 2 == 1
}

// Whether the date, days and times of a shift, where given, have the moment.
#[tactic(auto, unfolding(conc_base_law::specs::Managers::shift_covers))]
fn covers(t: Moment, shift: &Shift) -> bool
    ensures { result ≡ shift_covers t shift.now }
{
    let day = t.seconds / SECONDS_PER_DAY;
    if let Some(date) = shift.date {
        if day != u64::from(date) {
            return false;
        }
    }
    if shift.days != 0 && !has_weekday(shift.days, weekday_of(day)) {
        return false;
    }
    let time = t.seconds % SECONDS_PER_DAY;
    match shift.times {
        Some((from, to)) => u64::from(from) <= time && time < u64::from(to),
        None => true,
    }
}

// The level of a shift; the strongest is the greatest.
#[tactic(auto, unfolding(conc_base_law::specs::Managers::level))]
fn level(shift: &Shift) -> u32
    ensures { result ≡ managers_spec.level shift.now }
{
    let day = if shift.date.is_some() {
        4
    } else if shift.days == 0 {
        0
    } else {
        2
    };
    if shift.times.is_some() { day + 1 } else { day }
}

// The strongest level among the shifts that cover the moment, or 0.
fn top_level(shifts: &[Shift], t: Moment) -> u32
    ensures { result ≡ greatest (map managers_spec.level (filter (shift_covers t) shifts.now)) }
{
    match shifts.split_first() {
        None => 0,
        Some((shift, rest)) if covers(t, shift) => level(shift).max(top_level(rest, t)),
        Some((_, rest)) => top_level(rest, t),
    }
}

// The most places among the shifts of this level that cover the moment, or 0.
fn most_at_level(shifts: &[Shift], t: Moment, top: u32) -> u32
    ensures { result ≡ greatest (map (λ shift. shift.places)
        (filter (λ shift. managers_spec.level shift == top) (filter (shift_covers t) shifts.now))) }
{
    match shifts.split_first() {
        None => 0,
        Some((shift, rest)) if covers(t, shift) && level(shift) == top => shift
            .places
            .max(most_at_level(rest, t, top)),
        Some((_, rest)) => most_at_level(rest, t, top),
    }
}

/// The places of a manager at a moment. Without a shift it is 1. Else, of the shifts that cover the
/// moment, those of the strongest level count, and of these the greatest number; it is 0 where no
/// shift covers the moment. The levels are, from the strongest: date and times; date; days and
/// times; days; times; neither. It takes no memory.
#[tactic(auto, unfolding(conc_base_law::specs::Managers::places, conc_base_law::specs::Managers::covering, conc_base_law::specs::Managers::strongest))]
pub fn places(manager: &Manager, t: Moment) -> u32
    ensures { result ≡ managers_spec.places manager.now t }
{
    if manager.shifts.is_empty() {
        return 1;
    }
    let shifts = manager.shifts.as_slice();
    most_at_level(shifts, t, top_level(shifts, t))
}
