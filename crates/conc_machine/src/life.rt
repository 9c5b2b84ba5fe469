ghost use Rattle.std.specs.Prelude.{◌≡◌, ◌≤◌, [], ◌∷◌, drop, length, IfOk, List};
ghost use Rattle.std.specs.List.{filter};
ghost use Rattle.conc_types.specs.declared.event.Event.{Event};
ghost use Rattle.conc_base_law.specs.Before.{last_life};
ghost use Rattle.conc_base_law.specs.Readings.{next_reading};
ghost use Rattle.conc_base_law.specs.State.{is_not_earlier, now};
ghost use Rattle.conc_machine.specs.LifeReadings.{AreLifeReadings};

use conc_types::{Event, Moment, NoMemory, Reading, Readings, Seq};
use std::alloc::Global;

/// The readings of a clock, and the next one of this life.
#[derive(Drop)]
pub struct LifeReadings {
    readings: Readings,
    // How many of the readings come before the next one.
    next: usize,
}

impl LifeReadings {
    /// A life that begins, where the last tick before it came at this moment. It takes all the memory that
    /// the other calls need.
    pub fn new(
        alloc: Global,
        readings: &Readings,
        time: Option<Moment>,
    ) -> Result<LifeReadings, NoMemory>
        ensures readings { IfOk result (λ life. life.readings ≡ readings.now) }
        ensures begins { IfOk result (λ life. (past : List Event) → time ≡ now past
            → last_life past ≡ [] → AreLifeReadings life past) }
    {
        let list = Seq::from_vec(readings.list.as_slice().to_vec(alloc)?);
        Ok(LifeReadings {
            readings: Readings { list },
            next: count_earlier(readings, time),
        })
    }

    /// The next reading, if one is left.
    pub fn next_reading(&self) -> Option<Reading>
        ensures { (past : List Event) → AreLifeReadings self.now past
            → result ≡ next_reading self.now.readings.list past }
    {
        self.readings.list.as_slice().get(self.next).copied()
    }

    /// Takes in one more event, before which the last tick came at this moment. It takes no memory.
    #[tactic(auto, using(crate::proofs::Lives::life_ticked, crate::proofs::Lives::life_same))]
    pub fn take_in(&mut self, e: Event, time: Option<Moment>)
        ensures readings { self.new.readings ≡ self.old.readings }
        ensures life { (past : List Event) → time ≡ now past → AreLifeReadings self.old past
            → AreLifeReadings self.new (e ∷ past) }
    {
        match e {
            Event::Tick { .. } => {
                if self.next < self.readings.list.len() {
                    self.next += 1;
                }
            }
            Event::Resume => self.next = count_earlier(&self.readings, time),
            _ => {}
        }
    }
}

// How many readings are earlier than the moment, all of which come first.
fn count_earlier(readings: &Readings, time: Option<Moment>) -> usize
    ensures few { result ≤ length readings.now.list }
    ensures rest { filter (λ q. is_not_earlier time q.moment) readings.now.list
        ≡ drop result readings.now.list }
{
    match time {
        Some(last) => readings
            .list
            .as_slice()
            .partition_point(|q| q.moment.seconds < last.seconds),
        None => 0,
    }
}
