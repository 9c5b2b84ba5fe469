ghost use Rattle.std.specs.Prelude.{◌≡◌, ◌⊎◌, ◌<◌, ◌≤◌, [], Err, IfOk, IfSome, IsErrOf, IsSome, IsTrue, length, None, OnOk, replicate, Result};
ghost use Rattle.conc_types.specs.declared.event.RequestId.{RequestId};
ghost use Rattle.conc_pool_seats.specs.declared.views.LeadState.TheVariants as lead_state;
ghost use Rattle.std.specs.Thread.{IsSync};
ghost use Rattle.conc_board.specs.Seats.{IsLeadOf, lead_state_of, plan_of};
ghost use Rattle.conc_journal.specs.Journals.{state_of};
ghost use Rattle.conc_base_law.specs.Law.{Finished};
ghost use Rattle.conc_base_law.specs.Places.{count_of_places};
ghost use Rattle.conc_outside.specs.Counts.{Rose};
ghost use Rattle.conc_run_state.specs.Disks.{disks};
ghost use Rattle.conc_run_state.specs.Works.{list_in};
ghost use Rattle.conc_run_state.specs.declared.error.RunFail.{RunFail};
ghost use Rattle.conc_run_state.specs.declared.error.RunFail.TheVariants as run_fail;
ghost use Rattle.conc_run_steps.specs.Going.{WentOn};
ghost use Rattle.conc_run_steps.specs.Steps.{IsReady, plan_in, readings_in};
ghost use Rattle.conc_pool_lanes.specs.Lanes.{IsLeadPassOf, puts_of};
ghost use Rattle.conc_run_workers.specs.Crews.{Covers, HasOnePlan, HaveServed, IsCrewFor, MayServe};
ghost use Rattle.conc_run_workers.specs.Filling.{AreFilled, Fills, HasPuts};
ghost use Rattle.conc_run_workers.specs.Resolvers.{HasWaited, IfEnded, IfTooFew, standing};
ghost use Rattle.conc_run_workers.specs.declared.running.Directed.{Directed};
ghost use Rattle.conc_run_workers.specs.Resolving.{Concludes, IsAtWork};
ghost use Rattle.conc_run_steps.specs.Told.{IsTold, IsUntold};
ghost use Rattle.conc_run_workers.specs.Pools.{HasLackedReport, HasOpened, IsShutDown};

use crate::arrivals::Arrivals;
use crate::boarding::{dismiss, put_waiting};
use crate::crew::{CrewMember, Shared, give_hands, hire, run_crew, take_in};
use crate::resolving::{Hints, Resolver};
use conc_board::{Board, Lead};
use conc_disk::Disk;
use conc_edge_gate::Gate;
use conc_journal::Teller;
use conc_pool_lanes::{Lanes, LeadPass};
use conc_run_desk::Desk;
use conc_run_state::{RunFail, Work};
use conc_time::place_count;
use conc_types::{NoMemory, Plan, RequestId};
use std::alloc::Global;
use std::sync::Wait;
use std::thread::{Threads, join_mut};

/// The workers of a run, and the board between them and the one that lets requests out.
#[derive(Drop)]
pub struct Pool {
    /// The board.
    pub board: Board,
    /// Its lead, which was handed what the workers made.
    pub lead: Lead,
    /// The workers.
    pub crew: Vec<CrewMember>,
}

/// What a run with workers gives back, however it ended.
#[derive(Drop)]
pub struct Ran<'p> {
    /// The work, whose parts stand for the list that was acknowledged.
    pub work: Work<'p>,
    /// The pass that filled the lanes of the run. None only where the run found no memory.
    pub puts: Option<LeadPass>,
    /// The pool of the run, shut down. None only where the run found no memory.
    pub pool: Option<Pool>,
    /// Whether the history is finished, or why it is not.
    pub answer: Result<(), RunFail>,
}

impl<'p> Ran<'p> {
    // What a run gives back that found no memory before it began.
    fn out_of_memory(work: Work<'p>) -> Ran<'p>
        ensures work { result.work ≡ work.entry }
        ensures puts { result.puts ≡ None }
        ensures pool { result.pool ≡ None }
        ensures answer { result.answer ≡ Err run_fail.NoMemory }
    {
        Ran {
            work,
            puts: None,
            pool: None,
            answer: Err(RunFail::NoMemory),
        }
    }
}

/// What comes of a run beside its workers.
#[derive(Drop)]
pub(crate) enum Directed {
    /// It ended, with this answer.
    Ended(Result<(), RunFail>),
    /// It did not begin, since no more than these workers came.
    TooFew(u32),
}

/// What goes on beside the workers of a run, in the thread that started them.
pub(crate) trait Director {
    ghost may_direct: { Self → Type 0 };

    ghost directs: { Directed → Self → Self → Type 0 };

    /// Goes on to the end, if all workers come, and then dismisses them, however it ended.
    fn direct<R: Wait>(&mut self, rt: &R) -> Directed
        requires { may_direct self.old }
        ensures { directs result self.old self.new };
}

impl<D: Disk, E: Disk, T: Teller> Director for Resolver<'_, '_, '_, D, E, T> {
    ghost use Rattle.conc_run_workers.specs.Resolvers.{Directs, MayBegin};

    ghost may_direct = { λ resolver. MayBegin D.Disk E.Disk T.Teller resolver };

    ghost directs = { λ answer old new. Directs D.Disk E.Disk T.Teller answer old new };

    // It begins once all workers are here. Where they do not come in time it leaves the work as it is.
    fn direct<R: Wait>(&mut self, rt: &R) -> Directed {
        if let Some(here) = self.shared.arrivals.wait_for_all(rt) {
            dismiss(&self.shared.board, self.desk);
            return Directed::TooFew(here);
        }
        let answer = self.resolve(rt);
        dismiss(&self.shared.board, self.desk);
        Directed::Ended(answer)
    }
}

// The workers beside the director, until all is finished.
fn direct_crew<R: Threads + Wait + Sync, G: Gate + Sync, L: Director>(
    rt: &R,
    shared: &Shared<'_>,
    crew: &mut [CrewMember],
    gate: &G,
    director: &mut L,
) -> Directed
    requires crew { MayServe shared.now crew.old }
    requires director { L.may_direct director.old }
    ensures crew { HaveServed shared.now crew.old crew.new }
    ensures director { L.directs result director.old director.new }
{
    let mut directed = Directed::Ended(Ok(()));
    join_mut(
        rt,
        &mut ||
            requires { IsSync R.row × MayServe shared.now crew.now }
            ensures { HaveServed shared.entry.now crew.entry.now crew.exit.now }
        { run_crew(rt, shared, crew, gate) },
        &mut ||
            requires { L.may_direct director.now }
            ensures { L.directs directed.exit director.entry.now director.exit.now }
        {
            directed = director.direct(rt);
        },
    );
    directed
}

// The workers, the host that has their threads, and the gate that they come through.
#[derive(Drop)]
struct Crew<'h, 'g, R: Threads + Wait + Sync, G: Gate + Sync> {
    rt: &'h R,
    members: Vec<CrewMember>,
    gate: &'g G,
}

impl Shared<'_> {
    // Runs the crew, and beside it a resolver that works on these.
    fn resolve_beside<
        'a,
        R: Threads + Wait + Sync,
        D: Disk + Send,
        E: Disk + Send,
        T: Teller + Send,
        G: Gate + Sync,
    >(
        &'a self,
        crew: &mut Crew<'_, '_, R, G>,
        desk: &'a mut Desk<'_>,
        journal: &'a mut D,
        spool: &'a mut E,
        teller: &'a mut T,
        hints: &'a mut Hints,
    ) -> Directed
        requires crew { MayServe self.now crew.old.members.items }
        requires at_work { IsAtWork self.now.board (standing D.Disk E.Disk T.Teller desk.old
            journal.old spool.old teller.old) }
        requires filled { AreFilled self.now.lanes desk.old hints.old.pass }
        ensures crew { HaveServed self.now crew.old.members.items crew.new.members.items }
        ensures concludes { IfEnded result (λ answer. Concludes self.now.board answer
            (standing D.Disk E.Disk T.Teller desk.old journal.old spool.old teller.old)
            (standing D.Disk E.Disk T.Teller desk.new journal.new spool.new teller.new)) }
        ensures fills { IfEnded result (λ answer. Fills self.now.lanes answer desk.old desk.new
            hints.new.pass) }
        ensures waited { IfTooFew result (λ here. HasWaited self.now here desk.old desk.new
            × (journal.new ≡ journal.old) × (spool.new ≡ spool.old) × (teller.new ≡ teller.old)) }
    {
        let mut resolver = Resolver {
            shared: self,
            desk,
            journal,
            spool,
            teller,
            hints,
        };
        direct_crew(
            crew.rt,
            self,
            crew.members.as_mut_slice(),
            crew.gate,
            &mut resolver,
        )
    }
}

// What a run with workers needs beside its work: what the threads share, the board's lead, the workers, and what the resolver keeps
// beside its desk.
struct Means<'p> {
    shared: Shared<'p>,
    lead: Lead,
    crew: Vec<CrewMember>,
    hints: Hints,
}

// How many workers a run has: no more than places, since one without a place has nothing to do.
fn crew_size(plan: &Plan, threads: u32) -> u32
    requires { 0 < threads }
    ensures some { 0 < result }
    ensures few { result ≤ threads }
    ensures spare { 0 < count_of_places plan.now → result ≤ count_of_places plan.now }
{
    let places = place_count(plan);
    if 0 < places && places < threads {
        places
    } else {
        threads
    }
}

// Takes all memory that the run needs but for reports.
fn prepare<'p>(alloc: Global, plan: &'p Plan, threads: u32) -> Result<Means<'p>, NoMemory>
    requires threads { 0 < threads }
    ensures plan { IfOk result (λ means. means.shared.plan.now ≡ plan.now) }
    ensures one_plan { IfOk result (λ means. HasOnePlan means.shared) }
    ensures lead { IfOk result (λ means. IsLeadOf means.shared.board means.lead) }
    ensures lead_states { IfOk result (λ means. (r : RequestId)
        → lead_state_of means.lead r ≡ lead_state.NotLet) }
    ensures pass { IfOk result (λ means. IsLeadPassOf means.shared.lanes means.hints.pass) }
    ensures empty { IfOk result (λ means. puts_of means.hints.pass
        ≡ replicate (length plan.now.setup.managers) []) }
    ensures crew { IfOk result (λ means. MayServe means.shared means.crew.items) }
    ensures covers { IfOk result (λ means. Covers plan.now means.lead means.crew.items) }
    ensures crew_for { IfOk result (λ means. IsCrewFor plan.now threads means.crew.items) }
    ensures expected { IfOk result (λ means. means.shared.arrivals.expected ≤ threads) }
{
    let size = crew_size(plan, threads);
    let started = vec![in alloc; None; place_count(plan) as usize]?;
    let (lanes, pass, passes) = Lanes::new(alloc, plan, size)?;
    let mut crew = hire(alloc, plan, size, passes)?;
    let (board, mut lead) = Board::new(alloc, plan)?;
    give_hands(&board, &mut lead, crew.as_mut_slice());
    let arrivals = Arrivals::new(size);
    Ok(Means {
        shared: Shared {
            alloc,
            plan,
            board,
            lanes,
            arrivals,
        },
        lead,
        crew,
        hints: Hints { pass, started },
    })
}

/// Goes on from the journal's list to the end of the history, with so many workers in threads of their own, but no more than
/// there are places: the place with index `i` is served by the worker `i` modulo their number. It takes the memory for the board,
/// the lanes and the workers before it writes anything, and begins once all workers have. Where some have not after ten seconds, as
/// where the system is busy or refuses a thread, it begins anew with as many workers as had come; where none has after a minute, it
/// returns `NoMemory`. Where it returns that before it has begun, nothing was added to the list. After that a report may find no
/// memory, which leaves its request without an end. However it ends, no worker is left running. The text of a report is on the
/// spool's disk before its end is journaled, and an event is journaled before the machine takes it in, before it means anything to a
/// worker, and before it is told.
pub fn run_with_workers<
    'p,
    R: Threads + Wait + Sync,
    D: Disk + Send,
    E: Disk + Send,
    T: Teller + Send,
    G: Gate + Sync,
>(
    rt: &R,
    alloc: Global,
    work: Work<'p>,
    journal: &mut D,
    spool: &mut E,
    teller: &mut T,
    gate: &G,
    threads: u32,
) -> Ran<'p>
    requires threads { 0 < threads }
    requires ready { IsReady work (D.state journal.old) (E.state spool.old) }
    requires told { IsTold (T.list teller.old) (T.takes teller.old) (plan_in work) (list_in work) }

    // What it makes, however it ends.
    ensures went_on { WentOn (plan_in work.entry) (readings_in work.entry)
        (disks (D.state journal.old) (D.state journal.new) (E.state spool.old) (E.state spool.new))
        work.entry result.work }
    ensures finished { OnOk result.answer (Finished (plan_in work.entry) (readings_in work.entry)
        (list_in result.work)) }
    ensures told { OnOk result.answer (IsTold (T.list teller.new) (T.takes teller.new)
        (plan_in work.entry) (list_in result.work)) }

    // What it put into the lanes.
    ensures puts { HasPuts (plan_in work.entry) (list_in work.entry) (list_in result.work)
        result.answer result.puts }

    // Who served, and where; and that no one is left at work.
    ensures crew { IfSome result.pool (λ pool. IsCrewFor (plan_in work.entry) threads
        pool.crew.items) }
    ensures shut_down { IfSome result.pool (λ pool. IsShutDown (plan_in work.entry) pool) }
    ensures opened { IfSome result.pool (λ pool. OnOk result.answer (HasOpened result.work pool)) }
    ensures served { IsSome result.puts → IsSome result.pool }

    // Why it ends before.
    ensures journal_fault { IsErrOf result.answer run_fail.JournalFault
        → Rose (D.state journal.old).faults (D.state journal.new).faults }
    ensures spool_fault { IsErrOf result.answer run_fail.SpoolFault
        → Rose (E.state spool.old).faults (E.state spool.new).faults }
    ensures memory { IsErrOf result.answer run_fail.NoMemory
        → (list_in result.work ≡ list_in work.entry)
        ⊎ (HasLackedReport (plan_in work.entry) (list_in result.work) result.pool
        ⊎ (IsTrue (T.may_lack teller.new) × IsUntold (T.list teller.new) (list_in result.work))) }
    ensures sound { (IsErrOf result.answer run_fail.JournalFault → ⊥)
        → state_of result.work.journal ≡ state_of work.entry.journal }
{
    let plan = work.machine.plan();
    let Ok(means) = prepare(alloc, plan, threads) else {
        return Ran::out_of_memory(work);
    };
    let Means {
        shared,
        lead,
        crew: members,
        mut hints,
    } = means;
    let mut desk = Desk::new(plan, lead, work);
    put_waiting(rt, &shared.lanes, &desk, &mut hints.pass);
    let mut crew = Crew { rt, members, gate };
    let directed = shared.resolve_beside(&mut crew, &mut desk, journal, spool, teller, &mut hints);
    let (mut lead, work) = desk.into_parts();
    take_in(&shared.board, &mut lead, crew.members.as_mut_slice());
    let Shared { board, .. } = shared;
    let Hints { pass, .. } = hints;
    match directed {
        Directed::Ended(answer) => Ran {
            work,
            puts: Some(pass),
            pool: Some(Pool {
                board,
                lead,
                crew: crew.members,
            }),
            answer,
        },
        Directed::TooFew(here) if here > 0 => {
            board.close(lead);
            run_with_workers(rt, alloc, work, journal, spool, teller, gate, here)
        }
        Directed::TooFew(_) => Ran::out_of_memory(work),
    }
}
