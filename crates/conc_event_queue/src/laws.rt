//! Laws by which a search through the requests of a plan is the least key of a queue. Each function
//! here has an empty body; its contract is the law.
ghost use Rattle.conc_event_queue.specs.Laws.{FirstByNumber, FirstInPrecedence};

/// The first request in precedence that passes is the one with the least turn among those that pass.
pub fn first_in_precedence()
    ensures { FirstInPrecedence }
{}

/// The first request in order that passes is the one with the least number among those that pass.
pub fn first_by_number()
    ensures { FirstByNumber }
{}
