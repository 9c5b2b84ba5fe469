ghost use Rattle.conc_machine.specs.Indexes.{AreIndexes};

use crate::LifeReadings;
use crate::indexes::Indexes;
use conc_types::Plan;

/// Stands for a list of events of a plan, of any length, and answers for it what the rules read from
/// the list. It keeps no list: of each request it keeps its facts, and of the facts what the next event
/// is found by. `new` and `take_readings` take all the memory; no other call takes memory.
#[derive(Drop)]
pub struct Machine<'p> {
    pub(crate) plan: &'p Plan,
    pub(crate) indexes: Indexes,
    pub(crate) life: Option<LifeReadings>,
    ghost are: { AreIndexes plan.now indexes },
}
