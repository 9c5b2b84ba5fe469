ghost use Rattle.std.specs.Prelude.{◌≡◌, ◌≤◌, ◌++◌, IfOk, OnOk, [], codes, length, map};
ghost use Rattle.std.specs.Fmt.{decimal, signed_decimal};
ghost use Rattle.std.specs.Option.{option_map_or};
ghost use Rattle.conc_types.specs.declared.limits.TheConstants.{MOST_REPORT_BYTES};
ghost use Rattle.conc_base_law.specs.Report as report_spec;
ghost use Rattle.conc_base_law.specs.Report.{quoted};
ghost use Rattle.conc_reports.specs.Figures.{shown};
ghost use Rattle.conc_reports.specs.Reports.{HasItsOutcome, HasItsText};
ghost use Rattle.conc_reports.specs.Tallies.{AreOrdered};
ghost use Rattle.conc_reports.specs.Texts as texts_spec;
ghost use Rattle.conc_reports.specs.Texts.{figures_line, group_of, groups_text, tally_report};

use crate::figures::Figures;
use crate::groups::Groups;
use crate::listing::tally_table;
use crate::quotes::put_quoted;
use crate::tally::{Tallied, Tally};
use conc_base_law::report_is_short;
use conc_types::{Bytes, Job, MOST_REPORT_BYTES, NoMemory, Outcome, Table, put_decimal};
use itoa::Buffer;
use std::alloc::Global;

// About what the header and the total take, and what the line of a key takes.
const HEAD_BYTES: usize = 64;

const LINE_BYTES: usize = 32;

/// A report: the outcome of the run that made it, and its text.
#[derive(Drop)]
pub struct Made {
    pub outcome: Outcome,
    pub text: Bytes,
}

// ---- lines

fn put_sum(out: &mut Vec<u8>, sum: i128) -> Result<(), NoMemory>
    ensures { OnOk result (out.new.items ≡ out.old.items ++ (codes "," ++ signed_decimal sum)) }
{
    let mut buffer = Buffer::new();
    out.push(b',')?;
    out.extend_from_slice(buffer.format(sum).as_bytes())?;
    Ok(())
}

// Appends a sum, where the job asks for one.
fn put_sum_of(out: &mut Vec<u8>, job: &Job, sum: i128) -> Result<(), NoMemory>
    ensures { OnOk result (out.new.items ≡ out.old.items
        ++ option_map_or (λ _. codes "," ++ signed_decimal sum) job.now.sum []) }
{
    match &job.sum {
        Some(_) => put_sum(out, sum),
        None => Ok(()),
    }
}

// Makes a line of its head: what stands there already.
fn put_figures(out: &mut Vec<u8>, job: &Job, figures: Figures) -> Result<(), NoMemory>
    ensures { OnOk result (out.new.items ≡ figures_line job.now.sum out.old.items (shown figures)) }
{
    out.push(b',')?;
    put_decimal(out, figures.count)?;
    put_sum_of(out, job, figures.sum)?;
    out.push(b'\n')?;
    Ok(())
}

// Appends the line of a key.
fn put_group(out: &mut Vec<u8>, job: &Job, key: &[u8], figures: Figures) -> Result<(), NoMemory>
    ensures { OnOk result (out.new.items ≡ out.old.items
        ++ figures_line job.now.sum (quoted key.now) (shown figures)) }
{
    put_quoted(out, key)?;
    put_figures(out, job, figures)?;
    Ok(())
}

// Appends the lines of all keys.
fn put_groups(out: &mut Vec<u8>, job: &Job, groups: &Groups<'_>) -> Result<(), NoMemory>
    ensures text { OnOk result (out.new.items ≡ out.old.items
        ++ groups_text job.now.sum (map group_of groups.now.entries)) }
    ensures ordered { OnOk result (AreOrdered groups.now) }
{
    for (key, figures) in groups {
        put_group(out, job, key, *figures)?;
    }
    Ok(())
}

#[tactic(auto, unfolding(conc_base_law::specs::Report::header))]
fn header(job: &Job) -> &'static [u8]
    ensures { result.now ≡ report_spec.header job.now }
{
    match &job.sum {
        Some(_) => b"key,count,sum\n",
        None => b"key,count\n",
    }
}

// About how many bytes the text of so many keys has, at most as many as a report may have. A text that is
// longer grows.
fn room_for(keys: usize) -> usize {
    keys.saturating_mul(LINE_BYTES)
        .saturating_add(HEAD_BYTES)
        .min(MOST_REPORT_BYTES)
}

#[tactic(auto, unfolding(crate::specs::Texts::tally_text))]
fn tally_text(alloc: Global, job: &Job, tally: &Tally<'_>) -> Result<Vec<u8>, NoMemory>
    ensures text { IfOk result (λ text. text.items
        ≡ texts_spec.tally_text job.now (shown tally.now.total)
        (map group_of tally.now.groups.entries)) }
    ensures ordered { OnOk result (AreOrdered tally.now.groups) }
{
    let mut text = Vec::with_capacity(alloc, room_for(tally.groups.len()))?;
    text.extend_from_slice(header(job))?;
    put_groups(&mut text, job, &tally.groups)?;
    text.extend_from_slice(b"total")?;
    put_figures(&mut text, job, tally.total)?;
    Ok(text)
}

// ---- outcomes

fn exceeds(count: u64, limit: Option<u64>) -> bool
    ensures { result ≡ report_spec.exceeds count limit }
{
    match limit {
        Some(most) => count > most,
        None => false,
    }
}

#[tactic(auto, unfolding(crate::specs::Texts::outcome_by_count))]
fn outcome_by_count(job: &Job, count: u64) -> Outcome
    ensures { result ≡ texts_spec.outcome_by_count job.now count }
{
    if exceeds(count, job.error_over) {
        Outcome::Error
    } else if exceeds(count, job.warn_over) {
        Outcome::Warning
    } else {
        Outcome::Normal
    }
}

// ---- the report

fn too_long(alloc: Global) -> Result<Made, NoMemory>
    ensures outcome { IfOk result (λ made. made.outcome ≡ Outcome.Error) }
    ensures text { IfOk result (λ made. made.text ≡ codes "too long\n") }
{
    let text = b"too long\n".to_vec(alloc)?;
    Ok(Made {
        outcome: Outcome::Error,
        text: Bytes::from_vec(text),
    })
}

fn bad_row(alloc: Global, number: u64) -> Result<Made, NoMemory>
    ensures outcome { IfOk result (λ made. made.outcome ≡ Outcome.Error) }
    ensures text { IfOk result (λ made. made.text ≡ codes "row " ++ decimal number
        ++ codes ": not a whole number\n") }
{
    let mut text = b"row ".to_vec(alloc)?;
    put_decimal(&mut text, number)?;
    text.extend_from_slice(b": not a whole number\n")?;
    Ok(Made {
        outcome: Outcome::Error,
        text: Bytes::from_vec(text),
    })
}

// The report where each cell to be added is a whole number.
#[tactic(auto, unfolding(crate::specs::Texts::tally_report))]
fn report_of_tally(alloc: Global, job: &Job, tally: &Tally<'_>) -> Result<Made, NoMemory>
    ensures outcome { IfOk result (λ made. made.outcome
        ≡ (tally_report job.now (shown tally.now.total)
        (map group_of tally.now.groups.entries)).outcome) }
    ensures text { IfOk result (λ made. made.text
        ≡ (tally_report job.now (shown tally.now.total)
        (map group_of tally.now.groups.entries)).text) }
    ensures ordered { OnOk result (AreOrdered tally.now.groups) }
{
    let text = tally_text(alloc, job, tally)?;
    if text.len() > MOST_REPORT_BYTES {
        return too_long(alloc);
    }
    Ok(Made {
        outcome: outcome_by_count(job, tally.total.count),
        text: Bytes::from_vec(text),
    })
}

fn report_by_rows(
    alloc: Global,
    job: &Job,
    argument: &[u8],
    table: &Table,
) -> Result<Made, NoMemory>
    ensures outcome { IfOk result (λ made. HasItsOutcome job.now argument.now table.now made) }
    ensures text { IfOk result (λ made. HasItsText job.now argument.now table.now made) }
{
    match tally_table(alloc, job, argument, table)? {
        Tallied::Bad(number) => bad_row(alloc, number),
        Tallied::Whole(tally) => report_of_tally(alloc, job, &tally),
    }
}

/// The report of a job on a table. A filter value `$` stands for the argument. The text is 1 to
/// 1,048,576 bytes.
pub fn report(alloc: Global, job: &Job, argument: &[u8], table: &Table) -> Result<Made, NoMemory>
    ensures outcome { IfOk result (λ made. HasItsOutcome job.now argument.now table.now made) }
    ensures short { IfOk result (λ made. length made.text ≤ MOST_REPORT_BYTES) }
    ensures text { IfOk result (λ made. HasItsText job.now argument.now table.now made) }
{
    report_is_short();
    report_by_rows(alloc, job, argument, table)
}
