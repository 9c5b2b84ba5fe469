mod bytes;
mod call;
mod examples;
mod exits;
mod faults;
mod files;
mod grown;
mod journals;
mod kinds;
mod threads;
mod versions;
mod watching;
mod worked;

use examples::check_examples;
use exits::EXITS;
use faults::{
    check_crashes_of_journal, check_crashes_of_migration, check_crashes_of_spool, check_cuts,
    check_faults, check_faults_of_migration,
};
use files::FILES;
use grown::{GROWN, OTHER};
use journals::{AFTER_A_FAULT, JOURNALS};
use kinds::KINDS;
use std::test::Fail;
use threads::{ANY_THREADS, THREADS, check_two_at_once};
use versions::VERSIONS;
use watching::WATCHED;
use worked::{check_histories, check_runs, check_runs_on_threads};

#[test]
fn worked_files_print_their_histories(rt: HostRuntime) -> Result<(), Fail> {
    check_runs(&rt, rt.alloc())
}

#[test]
fn worked_files_run_on_threads(rt: HostRuntime) -> Result<(), Fail> {
    check_runs_on_threads(&rt, rt.alloc())
}

#[test]
fn workers_may_take_turns_in_any_order(rt: HostRuntime) -> Result<(), Fail> {
    let alloc = rt.alloc();
    for _ in 0..ROUNDS {
        check_examples(&rt, alloc, THREADS)?;
        for count in ["0", "1", "2", "4"] {
            check_examples(&rt, alloc, &ANY_THREADS.replace(alloc, "COUNT", count)?)?;
        }
    }
    Ok(())
}

#[test]
fn two_reports_are_made_at_once(rt: HostRuntime) -> Result<(), Fail> {
    check_two_at_once(&rt, rt.alloc())
}

#[test]
fn worked_histories_and_changed_ones_are_judged(rt: HostRuntime) -> Result<(), Fail> {
    check_histories(&rt, rt.alloc())
}

#[test]
fn calls_end_as_the_examples_say(rt: HostRuntime) -> Result<(), Fail> {
    for examples in [FILES, KINDS, EXITS, WATCHED] {
        check_examples(&rt, rt.alloc(), examples)?;
    }
    Ok(())
}

#[test]
fn what_stands_on_disks_is_continued_or_refused(rt: HostRuntime) -> Result<(), Fail> {
    check_examples(&rt, rt.alloc(), JOURNALS)
}

#[test]
fn a_script_may_grow_and_may_not_change(rt: HostRuntime) -> Result<(), Fail> {
    for examples in [GROWN, OTHER] {
        check_examples(&rt, rt.alloc(), examples)?;
    }
    Ok(())
}

#[test]
fn a_journal_of_version_1_is_read_and_brought_to_version_2(rt: HostRuntime) -> Result<(), Fail> {
    check_examples(&rt, rt.alloc(), VERSIONS)
}

// So often the runs on threads are done: each may come to another order.
const ROUNDS: u64 = 8;

// A run of the example calls the journal's disk at least so often.
const CALLS: u64 = 40;

#[test]
fn after_a_fault_of_a_disk_the_next_run_goes_on(rt: HostRuntime) -> Result<(), Fail> {
    let alloc = rt.alloc();
    for call in 0..CALLS {
        let number = format!(in alloc; "{call}")?;
        check_examples(&rt, alloc, &AFTER_A_FAULT.replace(alloc, "CALL", &number)?)?;
    }
    Ok(())
}

#[test]
fn after_a_crash_in_each_call_of_the_journal_the_next_run_goes_on(
    rt: HostRuntime,
) -> Result<(), Fail> {
    check_crashes_of_journal(&rt, rt.alloc())
}

#[test]
fn after_a_crash_in_each_call_of_a_run_that_migrates_the_next_run_goes_on(
    rt: HostRuntime,
) -> Result<(), Fail> {
    check_crashes_of_migration(&rt, rt.alloc())
}

#[test]
fn after_a_crash_in_each_call_of_the_spool_the_next_run_goes_on(
    rt: HostRuntime,
) -> Result<(), Fail> {
    check_crashes_of_spool(&rt, rt.alloc())
}

#[test]
fn after_each_single_fault_the_next_run_goes_on(rt: HostRuntime) -> Result<(), Fail> {
    check_faults(&rt, rt.alloc())
}

#[test]
fn after_each_single_fault_of_a_run_that_migrates_the_next_run_goes_on(
    rt: HostRuntime,
) -> Result<(), Fail> {
    check_faults_of_migration(&rt, rt.alloc())
}

#[test]
fn a_journal_cut_anywhere_is_told(rt: HostRuntime) -> Result<(), Fail> {
    check_cuts(&rt, rt.alloc())
}
