ghost use Rattle.conc_history_check.specs.Positions.{LawfulAtEachPosition};

/// A history is lawful exactly where the event at each of its positions is. The body is empty; the
/// contract is the law.
pub fn lawful_at_each_position()
    ensures { LawfulAtEachPosition }
{}
