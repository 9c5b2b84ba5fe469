ghost use Rattle.std.specs.Prelude.{◌≡◌, ◌≤◌, ◌+◌, IfOk, IfSome, IsFalse, IsTrue, None};
ghost use Rattle.conc_base_law.specs.Places.{count_of_places};
ghost use Rattle.conc_board.specs.Claims.{HasPermit};
ghost use Rattle.conc_board.specs.Seats.{HasAllPlaces, IsLeadOf, lead_state_of, places_of_lead, plan_of as board_plan, SameLeadStates, Stays};
ghost use Rattle.conc_pool_seats.specs.Places.{has};
ghost use Rattle.conc_pool_seats.specs.declared.views.LeadState.TheVariants as lead_state;
ghost use Rattle.conc_run_desk.specs.Desks.{IsAt};
ghost use Rattle.conc_types.specs.declared.event.RequestId.{RequestId};
ghost use Rattle.conc_pool_seats.specs.Words.{count_of_requests, IsPlace};
ghost use Rattle.conc_edge_devices.specs.Calls.{state_of};
ghost use Rattle.conc_journal.specs.Journals.{IsOn as JournalIsOn, room_of};
ghost use Rattle.conc_run_steps.specs.Steps.{any_disk, IsTied, plan_in};
ghost use Rattle.conc_journal_spool.specs.Spools.{IsOn as SpoolIsOn};
ghost use Rattle.conc_test_board.specs.Rounds.{IsFree};
ghost use Rattle.conc_test_desk.specs.Driven.{IsDriven, room_at};

use super::driving::{end, log, release, see_claim, start, withdraw};
use super::hands::{claim_at, permit_of, sees_it_withdrawn, serve};
use crate::Disks;
use conc_board::{Board, Hand, Lead, Permit};
use conc_data_digests::LazyDigests;
use conc_edge_devices::MemDisk;
use conc_plan::make_plan;
use conc_run_desk::{Desk, KeepFail};
use conc_run_open::open;
use conc_run_state::{Input, Stores, Work};
use conc_script::{read_clock, read_script};
use conc_setup::read_setup;
use conc_tables::read_table;
use conc_time::place_count;
use conc_types::{
    Digests, Event, Extent, NoMemory, Outcome, Phase, PlaceId, Plan, ReadFail, Readings, RequestId,
    Seq, Status,
};
use std::alloc::Global;
use std::fmt::Debug;
use std::process::Abort;
use std::test::Fail;

// Two places of a manager that runs P.
const SETUP: &[u8] = b"tables = [\"t.csv\"]
program = [{ name = \"P\", table = \"t.csv\" }]
[[manager]]
name = \"M\"
shift = [{ places = 2 }]
";

// The second reading need not wait until nothing runs.
const CLOCK: &[u8] = b"2025-03-03T09:00:00
2025-03-03T09:05:00 !
";

// Request 1, which is terminated at the second reading.
const TERMINATES: &[u8] = b"at,do,what,user,priority,start,domain,argument
2025-03-03T09:00:00,submit,P,ann,,,,
2025-03-03T09:05:00,terminate,1,,,,,
";

// Request 1, which is held at the second reading.
const HOLDS: &[u8] = b"at,do,what,user,priority,start,domain,argument
2025-03-03T09:00:00,submit,P,ann,,,,
2025-03-03T09:05:00,hold,1,,,,,
";

const ONE: RequestId = RequestId { number: 1 };

const HERE: PlaceId = PlaceId { index: 0 };

const TERMINATED: Event = Event::Ended {
    request: ONE,
    outcome: Outcome::Terminated,
    extent: None,
};

// The report, `key,count` and `total,1` in lines of their own, has 18 bytes.
const REPORTED: Event = Event::Ended {
    request: ONE,
    outcome: Outcome::Normal,
    extent: Some(Extent {
        offset: 0,
        length: 18,
    }),
};

fn same<Rt: Abort, T: PartialEq + Debug + Copy>(rt: &Rt, found: T, want: T) {
    assert_eq!(rt; found, want);
}

// ---- what a trial begins with

// The plan of a script with one request.
fn plan_of(rt: &impl Abort, alloc: Global, script: &[u8]) -> Result<Plan, ReadFail>
    ensures { IfOk result (λ plan. (count_of_requests plan ≡ 1) × (count_of_places plan ≡ 2)) }
{
    let plan = plan_from(rt, alloc, SETUP, script, b"k,v\na,1\n")?;
    assert!(rt; plan.requests.len() == 1);
    assert!(rt; place_count(&plan) == 2);
    Ok(plan)
}

// The plan of these files. They are not constants here, whose bytes a proof would go through.
fn plan_from(
    rt: &impl Abort,
    alloc: Global,
    setup: &[u8],
    script: &[u8],
    table: &[u8],
) -> Result<Plan, ReadFail> {
    let setup = read_setup(alloc, setup)?;
    let script = read_script(alloc, script, &setup)?;
    let mut tables = Vec::new(alloc);
    tables.push(read_table(alloc, table, 0)?)?;
    assert!(rt; tables.len() == setup.tables.len());
    Ok(make_plan(alloc, setup, script, Seq::from_vec(tables))?)
}

// Some digests.
fn digests() -> Digests {
    Digests {
        full: [0; 32],
        base: [0; 32],
    }
}

// Two empty disks, whose calls with these numbers fail.
fn disks_of(alloc: Global, journal: &[u64], spool: &[u64]) -> Result<Disks, NoMemory> {
    Ok(Disks {
        journal: MemDisk::new(alloc, Vec::new(alloc), journal.to_vec(alloc)?),
        spool: MemDisk::new(alloc, Vec::new(alloc), spool.to_vec(alloc)?),
    })
}

// The work of a run of this input that begins on empty disks. None where a disk failed.
fn begin<'p, Rt: Abort>(
    rt: &Rt,
    alloc: Global,
    input: &Input<'p>,
    disks: &mut Disks,
) -> Option<Work<'p>>
    ensures plan { IfSome result (λ work. plan_in work ≡ input.now.plan.now) }
    ensures parts { IfSome result (λ work. IsTied None work any_disk any_disk) }
    ensures journal { IfSome result (λ work. JournalIsOn work.journal
        (state_of disks.new.journal)) }
    ensures spool { IfSome result (λ work. SpoolIsOn work.spool (state_of disks.new.spool)) }
    ensures room { IfSome result (λ work. 16 ≤ room_of work.journal) }
{
    let Disks { journal, spool } = disks;
    let mut stores = Stores { journal, spool };
    match open(alloc, input, &mut stores) {
        Ok(work) => {
            if work.journal.room() < 16 {
                panic!(rt; "the journal has little room");
            }
            Some(work)
        }
        Err(_) => None,
    }
}

// A hand with this place.
fn hand_at(board: &Board, lead: &mut Lead, place: PlaceId) -> Hand
    requires lead { IsLeadOf board.now lead.old }
    requires place { IsPlace (board_plan board.now) place }
    requires own { IsTrue (has (places_of_lead lead.old) place) }
    ensures lead { IsLeadOf board.now lead.new }
    ensures lead_states { SameLeadStates lead.old lead.new }
    ensures hand { IsFree board.now place result }
{
    board.split(lead, &[place])
}

// A hand with the first place.
fn one_hand(board: &Board, lead: &mut Lead) -> Hand
    requires lead { IsLeadOf board.now lead.old }
    requires places { HasAllPlaces board.now lead.old }
    requires two { count_of_places (board_plan board.now) ≡ 2 }
    ensures lead { IsLeadOf board.now lead.new }
    ensures lead_states { SameLeadStates lead.old lead.new }
    ensures hand { IsFree board.now (record { index = 0 }) result }
{
    hand_at(board, lead, HERE)
}

// A desk of a lead that let nothing out, at a board with the first place open.
fn desk_at<'a>(board: &Board, plan: &'a Plan, lead: Lead, work: Work<'a>) -> Desk<'a>
    requires plan { plan.now ≡ board_plan board.now }
    requires two { count_of_places plan.now ≡ 2 }
    requires lead { IsLeadOf board.now lead }
    requires none_let { (r : RequestId) → lead_state_of lead r ≡ lead_state.NotLet }
    requires own { plan_in work ≡ plan.now }
    requires parts { IsTied None work any_disk any_disk }
    ensures at { IsAt board.now result }
    ensures nothing_kept { result.kept ≡ None }
    ensures sound { IsFalse result.failed }
    ensures work { result.work ≡ work.entry }
{
    let mut desk = Desk::new(plan, lead, work);
    desk.open_place(board, HERE);
    desk
}

// ---- steps

// Takes the next reading.
fn tick<Rt: Abort>(rt: &Rt, board: &Board, desk: &mut Desk<'_>, disks: &mut Disks) -> bool
    requires driven { IsDriven (record { number = 1 }) board.now desk.old disks.old }
    requires room { 1 ≤ room_at desk.old }
    ensures driven { IsDriven (record { number = 1 }) board.now desk.new disks.new }
    ensures room { IsTrue result → room_at desk.new + 1 ≡ room_at desk.old }
{
    let Some(reading) = desk.machine().next_reading() else {
        panic!(rt; "no reading is left");
    };
    log(
        rt,
        board,
        desk,
        disks,
        ONE,
        Event::Tick {
            moment: reading.moment,
        },
    )
}

// Enters the request, lets it, and lets it out on the board. False where the journal's disk failed.
fn let_out_one<Rt: Abort>(rt: &Rt, board: &Board, desk: &mut Desk<'_>, disks: &mut Disks) -> bool
    requires driven { IsDriven (record { number = 1 }) board.now desk.old disks.old }
    requires room { 3 ≤ room_at desk.old }
    ensures driven { IsDriven (record { number = 1 }) board.now desk.new disks.new }
    ensures room { IsTrue result → room_at desk.new + 3 ≡ room_at desk.old }
{
    if !tick(rt, board, desk, disks) {
        return false;
    }
    if !log(rt, board, desk, disks, ONE, Event::Command { number: 1 }) {
        return false;
    }
    if !log(rt, board, desk, disks, ONE, Event::LetOut { request: ONE }) {
        return false;
    }
    release(rt, board, desk, disks, ONE);
    true
}

// Takes the second reading, and does the second command.
fn second_command<Rt: Abort>(rt: &Rt, board: &Board, desk: &mut Desk<'_>, disks: &mut Disks)
    requires driven { IsDriven (record { number = 1 }) board.now desk.old disks.old }
    requires room { 2 ≤ room_at desk.old }
    ensures driven { IsDriven (record { number = 1 }) board.now desk.new disks.new }
    ensures room { room_at desk.new + 2 ≡ room_at desk.old }
{
    assert!(rt; tick(rt, board, desk, disks));
    assert!(rt; log(rt, board, desk, disks, ONE, Event::Command { number: 2 }));
}

// The request is claimed at the first place, and started there.
fn go_here<Rt: Abort>(
    rt: &Rt,
    board: &Board,
    plan: &Plan,
    desk: &mut Desk<'_>,
    disks: &mut Disks,
    hand: &mut Hand,
) -> Permit
    requires plan { plan.now ≡ board_plan board.now }
    requires driven { IsDriven (record { number = 1 }) board.now desk.old disks.old }
    requires room { 4 ≤ room_at desk.old }
    requires free { IsFree board.now (record { index = 0 }) hand.old }
    ensures driven { IsDriven (record { number = 1 }) board.now desk.new disks.new }
    ensures room { room_at desk.new + 4 ≡ room_at desk.old }
    ensures hand { Stays board.now hand.old hand.new }
    ensures permit { HasPermit hand.new result }
{
    assert!(rt; let_out_one(rt, board, desk, disks));
    let claim = claim_at(rt, board, plan, hand, HERE);
    assert!(rt; start(rt, board, desk, disks, ONE));
    permit_of(rt, board, hand, claim)
}

// ---- trials

// What is tried.
#[derive(Clone, Copy, Debug, PartialEq, Eq)]
enum Trial {
    // A start, which meets a failure of the journal's disk.
    FailedStart,
    // The request is terminated before its report is left.
    EarlyTerminate,
    // It is terminated after that.
    LateTerminate,
    // It is held while it is claimed.
    Hold,
    // Its place is closed while it is claimed.
    Close,
    // It is served to its end.
    Service,
}

// What was kept of the request, if the trial came so far.
type Seen = Option<Result<Option<Event>, KeepFail>>;

// None where the journal's disk did not fail at the start. Where it did, the claim stands.
fn try_failed_start<Rt: Abort>(
    rt: &Rt,
    board: &Board,
    plan: &Plan,
    desk: &mut Desk<'_>,
    disks: &mut Disks,
    hand: &mut Hand,
) -> Seen
    requires plan { plan.now ≡ board_plan board.now }
    requires driven { IsDriven (record { number = 1 }) board.now desk.old disks.old }
    requires room { 16 ≤ room_at desk.old }
    requires free { IsFree board.now (record { index = 0 }) hand.old }
{
    if !let_out_one(rt, board, desk, disks) {
        return None;
    }
    same(rt, claim_at(rt, board, plan, hand, HERE).request(), ONE);
    if start(rt, board, desk, disks, ONE) {
        return None;
    }
    same(rt, see_claim(rt, board, desk, disks, ONE), HERE);
    Some(Ok(None))
}

// The request is terminated, before or after what it comes to is left.
fn try_terminate<Rt: Abort>(
    rt: &Rt,
    alloc: Global,
    board: &Board,
    plan: &Plan,
    desk: &mut Desk<'_>,
    disks: &mut Disks,
    hand: &mut Hand,
    late: bool,
) -> Result<Seen, NoMemory>
    requires plan { plan.now ≡ board_plan board.now }
    requires driven { IsDriven (record { number = 1 }) board.now desk.old disks.old }
    requires room { 16 ≤ room_at desk.old }
    requires free { IsFree board.now (record { index = 0 }) hand.old }
{
    let permit = go_here(rt, board, plan, desk, disks, hand);
    if late {
        serve(rt, alloc, board, plan, hand, permit)?;
        second_command(rt, board, desk, disks);
    } else {
        second_command(rt, board, desk, disks);
        serve(rt, alloc, board, plan, hand, permit)?;
    }
    Ok(Some(end(rt, board, desk, disks, ONE)))
}

// The request is held while it is claimed, and withdrawn.
fn try_hold<Rt: Abort>(
    rt: &Rt,
    board: &Board,
    plan: &Plan,
    desk: &mut Desk<'_>,
    disks: &mut Disks,
    hand: &mut Hand,
)
    requires plan { plan.now ≡ board_plan board.now }
    requires driven { IsDriven (record { number = 1 }) board.now desk.old disks.old }
    requires room { 16 ≤ room_at desk.old }
    requires free { IsFree board.now (record { index = 0 }) hand.old }
{
    assert!(rt; let_out_one(rt, board, desk, disks));
    let claim = claim_at(rt, board, plan, hand, HERE);
    second_command(rt, board, desk, disks);
    sees_it_withdrawn(rt, board, hand, claim);
    same(
        rt,
        desk.machine().status(ONE),
        Some((Phase::Inactive, Status::OnHold)),
    );
}

// The place is closed while the request is claimed for it. The claim stands until it is withdrawn.
fn try_close<Rt: Abort>(
    rt: &Rt,
    board: &Board,
    plan: &Plan,
    desk: &mut Desk<'_>,
    disks: &mut Disks,
    hand: &mut Hand,
)
    requires plan { plan.now ≡ board_plan board.now }
    requires two { count_of_places plan.now ≡ 2 }
    requires driven { IsDriven (record { number = 1 }) board.now desk.old disks.old }
    requires room { 16 ≤ room_at desk.old }
    requires free { IsFree board.now (record { index = 0 }) hand.old }
{
    assert!(rt; let_out_one(rt, board, desk, disks));
    let claim = claim_at(rt, board, plan, hand, HERE);
    desk.close_place(board, HERE);
    same(rt, see_claim(rt, board, desk, disks, ONE), HERE);
    withdraw(rt, board, desk, disks, ONE);
    sees_it_withdrawn(rt, board, hand, claim);
    release(rt, board, desk, disks, ONE);
    assert!(rt; board.claim(hand, HERE, plan, None).is_none());
}

// The request is served: nothing is kept before, and its end after.
fn try_service<Rt: Abort>(
    rt: &Rt,
    alloc: Global,
    board: &Board,
    plan: &Plan,
    desk: &mut Desk<'_>,
    disks: &mut Disks,
    hand: &mut Hand,
) -> Result<Seen, NoMemory>
    requires plan { plan.now ≡ board_plan board.now }
    requires driven { IsDriven (record { number = 1 }) board.now desk.old disks.old }
    requires room { 16 ≤ room_at desk.old }
    requires free { IsFree board.now (record { index = 0 }) hand.old }
{
    let permit = go_here(rt, board, plan, desk, disks, hand);
    match end(rt, board, desk, disks, ONE) {
        Ok(None) => {}
        _ => panic!(rt; "something was left"),
    }
    serve(rt, alloc, board, plan, hand, permit)?;
    Ok(Some(end(rt, board, desk, disks, ONE)))
}

fn carry_out<Rt: Abort>(
    rt: &Rt,
    alloc: Global,
    board: &Board,
    plan: &Plan,
    desk: &mut Desk<'_>,
    disks: &mut Disks,
    hand: &mut Hand,
    trial: Trial,
) -> Result<Seen, NoMemory>
    requires plan { plan.now ≡ board_plan board.now }
    requires two { count_of_places plan.now ≡ 2 }
    requires driven { IsDriven (record { number = 1 }) board.now desk.old disks.old }
    requires room { 16 ≤ room_at desk.old }
    requires free { IsFree board.now (record { index = 0 }) hand.old }
{
    match trial {
        Trial::FailedStart => Ok(try_failed_start(rt, board, plan, desk, disks, hand)),
        Trial::EarlyTerminate => try_terminate(rt, alloc, board, plan, desk, disks, hand, false),
        Trial::LateTerminate => try_terminate(rt, alloc, board, plan, desk, disks, hand, true),
        Trial::Hold => {
            try_hold(rt, board, plan, desk, disks, hand);
            Ok(None)
        }
        Trial::Close => {
            try_close(rt, board, plan, desk, disks, hand);
            Ok(None)
        }
        Trial::Service => try_service(rt, alloc, board, plan, desk, disks, hand),
    }
}

// Carries out a trial at a board of its own.
fn at_board<Rt: Abort>(
    rt: &Rt,
    alloc: Global,
    plan: &Plan,
    work: Work<'_>,
    disks: &mut Disks,
    trial: Trial,
) -> Result<Seen, NoMemory>
    requires one { count_of_requests plan.now ≡ 1 }
    requires two { count_of_places plan.now ≡ 2 }
    requires own { plan_in work ≡ plan.now }
    requires parts { IsTied None work any_disk any_disk }
    requires journal { JournalIsOn work.journal (state_of disks.old.journal) }
    requires spool { SpoolIsOn work.spool (state_of disks.old.spool) }
    requires room { 16 ≤ room_of work.journal }
{
    let (board, mut lead) = Board::new(alloc, plan)?;
    let mut hand = one_hand(&board, &mut lead);
    let mut desk = desk_at(&board, plan, lead, work);
    carry_out(rt, alloc, &board, plan, &mut desk, disks, &mut hand, trial)
}

// Carries out a trial over disks of which these calls fail.
fn over_disks<Rt: Abort>(
    rt: &Rt,
    alloc: Global,
    plan: &Plan,
    readings: &Readings,
    trial: Trial,
    journal_fails: &[u64],
    spool_fails: &[u64],
) -> Result<Seen, NoMemory>
    requires one { count_of_requests plan.now ≡ 1 }
    requires two { count_of_places plan.now ≡ 2 }
{
    let digests = LazyDigests::from(digests());
    let input = Input {
        plan,
        readings,
        digests: &digests,
    };
    let mut disks = disks_of(alloc, journal_fails, spool_fails)?;
    match begin(rt, alloc, &input, &mut disks) {
        Some(work) => at_board(rt, alloc, plan, work, &mut disks, trial),
        None => Ok(None),
    }
}

fn attempt<Rt: Abort>(
    rt: &Rt,
    alloc: Global,
    script: &[u8],
    trial: Trial,
    journal_fails: &[u64],
    spool_fails: &[u64],
) -> Result<Seen, Fail> {
    let readings = read_clock(alloc, CLOCK)?;
    let plan = plan_of(rt, alloc, script)?;
    let seen = over_disks(
        rt,
        alloc,
        &plan,
        &readings,
        trial,
        journal_fails,
        spool_fails,
    );
    Ok(seen?)
}

#[test]
fn a_start_that_is_not_durable_gives_no_go(rt: HostRuntime) -> Result<(), Fail> {
    let mut failed: u32 = 0;
    for call in 0..32 {
        let seen = attempt(
            &rt,
            rt.alloc(),
            TERMINATES,
            Trial::FailedStart,
            &[call],
            &[],
        )?;
        if seen.is_some() {
            failed = failed.saturating_add(1);
        }
    }
    // An append writes and syncs the record, and then its gate.
    same(&rt, failed, 4);
    Ok(())
}

#[test]
fn a_terminate_wins_over_what_was_left(rt: HostRuntime) -> Result<(), Fail> {
    // The opening syncs the spool and asks its length; no other call is made, or it would fail.
    let early = attempt(
        &rt,
        rt.alloc(),
        TERMINATES,
        Trial::EarlyTerminate,
        &[],
        &[2],
    )?;
    assert!(rt; early == Some(Ok(Some(TERMINATED))));
    let late = attempt(&rt, rt.alloc(), TERMINATES, Trial::LateTerminate, &[], &[2])?;
    assert!(rt; late == Some(Ok(Some(TERMINATED))));
    Ok(())
}

#[test]
fn a_claim_is_withdrawn_after_a_hold_and_at_a_closed_place(rt: HostRuntime) -> Result<(), Fail> {
    attempt(&rt, rt.alloc(), HOLDS, Trial::Hold, &[], &[])?;
    attempt(&rt, rt.alloc(), HOLDS, Trial::Close, &[], &[])?;
    Ok(())
}

#[test]
fn an_end_is_kept_once_its_text_is_stored(rt: HostRuntime) -> Result<(), Fail> {
    let ended = attempt(&rt, rt.alloc(), TERMINATES, Trial::Service, &[], &[])?;
    assert!(rt; ended == Some(Ok(Some(REPORTED))));
    // An append to the spool writes and syncs.
    for call in 2..4 {
        let failed = attempt(&rt, rt.alloc(), TERMINATES, Trial::Service, &[], &[call])?;
        assert!(rt; failed == Some(Err(KeepFail::SpoolFault)));
    }
    Ok(())
}
