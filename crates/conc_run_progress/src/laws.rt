//! Laws on what can be done next in a run with workers, and on what has the go in it. Each function here has an empty
//! body; its contract is the law.
ghost use Rattle.conc_run_progress.specs.EachStep.{ClosingLeavesIt, FindingNothingLeavesIt, HandMovesMakeItLess, LeadMovesMakeItLess, LoggingMakesItLess, NoMeasureFallsForEver, StoppingLeavesIt, WritingDoneMakesItLess};
ghost use Rattle.conc_run_progress.specs.Made.{HandMovesCanBeMade, LeadMovesCanBeMade};
ghost use Rattle.conc_run_progress.specs.Progress.{NoDeskIsDead, NoStateIsDead};
ghost use Rattle.conc_run_progress.specs.Runs.{WhatRunsHasTheGoAfterACall, WhatRunsHasTheGoAfterEachEvent, WhatRunsHasTheGoAtTheBeginning, WhatRunsHasTheGoOnceAnEndIsKept, WhatRunsHasTheGoWithTheSameLeadStates};

/// No state of a run with workers is dead. Between two calls of the lead, while the workers are at work, the history is
/// finished, or somebody can go on: the resolver can log an event for which no worker has to do anything, the lead can make
/// a move on the board, or a worker can. It does not say that they do, which is up to the threads.
pub fn no_state_is_dead()
    ensures { NoStateIsDead }
{}

/// So it is between two calls of a desk. The desk's own invariant says that the list is lawful and that what the lead
/// knows goes with it.
pub fn no_desk_is_dead()
    ensures { NoDeskIsDead }
{}

/// Each move that `no_state_is_dead` speaks of can be made, the lead's and a hand's: the rule of the board allows the step
/// that makes it, and holds after it. Of a collect this is said of the first of its two steps. An answer by which a request
/// starts is an event of the list here: the law does not speak of the go that follows it on the board.
pub fn each_move_can_be_made()
    ensures lead { LeadMovesCanBeMade }
    ensures hand { HandMovesCanBeMade }
{}

/// A moment of a run has a measure, and each step that `no_state_is_dead` speaks of makes it less: an event that the resolver
/// logs, a move of the lead, and a move of a hand while no place is open that may not be used. It has three numbers, of
/// which the first counts most: how many events the life can still have; how many places may be used but are closed,
/// together with the requests that are claimed by places that may not be used; and how far the requests and the hands are from
/// the last thing that they do. A step that finds nothing new leaves the measure as it is, and so do a stop and the close of a
/// place that may not be used. No measure can become less for ever, so a run makes only finitely many steps that make it
/// less, whatever other steps come between them.
///
/// A move is given by the step on the board that makes it, as the rule of the board has it. What an event means for the
/// board belongs to the event, also where that withdraws a request. A claim counts as a move only while its place is open: the law
/// does not count one whose place was closed after the hand looked at it. It says nothing about time: not that a thread gets
/// the processor, nor that a bell wakes whoever waits for it, which is trusted.
pub fn each_step_makes_the_measure_less()
    ensures log { LoggingMakesItLess }
    ensures lead { LeadMovesMakeItLess }
    ensures done { WritingDoneMakesItLess }
    ensures hand { HandMovesMakeItLess }
    ensures still { FindingNothingLeavesIt }
    ensures stop { StoppingLeavesIt }
    ensures close { ClosingLeavesIt }
    ensures ends { NoMeasureFallsForEver }
{}

/// Each request that runs since a start of this life has the go on the board, at the place where it runs. It is so
/// after one more event, once what that event means for the board is done. A request ends only by an end that was kept for it.
pub fn what_runs_has_the_go_after_each_event()
    ensures { WhatRunsHasTheGoAfterEachEvent }
{}

/// It is so at the beginning of a life, and stays so between two events. A request whose end is kept runs on in the list
/// until that end is logged; every other request that runs has the go.
pub fn what_runs_has_the_go_between_events()
    ensures beginning { WhatRunsHasTheGoAtTheBeginning }

    // After a call on one request that takes no go, a call that changes no lead state, and one that keeps an end.
    ensures call { WhatRunsHasTheGoAfterACall }
    ensures same { WhatRunsHasTheGoWithTheSameLeadStates }
    ensures kept { WhatRunsHasTheGoOnceAnEndIsKept }
{}
