ghost use Rattle.std.specs.Prelude.{◌≡◌, false, true};
ghost use Rattle.crossbeam_queue.specs.Passes.{view};

use crate::rule::{InOrder, Log, PassesOn, Puts, Takes};
use conc_types::{NoMemory, RequestId};
use crossbeam_queue::{Pass, RuledArrayQueue};
use std::alloc::Global;
use std::sync::Wait;

/// A lane.
#[derive(Drop)]
pub(crate) struct Lane {
    queue: RuledArrayQueue<RequestId, Log, InOrder>,
}

/// The pass that puts requests into a lane.
#[derive(Drop)]
pub(crate) struct Putter {
    pass: Pass<RequestId, Log>,
    ghost puts: { (view pass).puts ≡ true },
}

/// A pass that takes requests from a lane.
#[derive(Drop)]
pub(crate) struct Taker {
    pass: Pass<RequestId, Log>,
    ghost takes: { (view pass).puts ≡ false },
}

impl Lane {
    ghost use Rattle.std.specs.Prelude.{◌<◌, ◌++◌, ◌∷◌, [], List, length, IfNone, IfOk, IfSome, ⊤};
    ghost use Rattle.crossbeam_queue.specs.Fifo.{Held};
    ghost use Rattle.conc_types.specs.declared.event.RequestId.{RequestId};
    ghost use Rattle.conc_pool_lanes.specs.Lane.{IsPutterOf, IsTakerOf, put_by, room_of, taken_with};

    /// An empty lane for so many requests, and the pass that puts.
    pub(crate) fn new(alloc: Global, room: usize) -> Result<(Lane, Putter), NoMemory>
        requires { 0 < room }
        ensures room { IfOk result (λ made. room_of made.0 ≡ room) }
        ensures putter { IfOk result (λ made. IsPutterOf made.0 made.1) }
        ensures empty { IfOk result (λ made. put_by made.1 ≡ []) }
    {
        let (queue, pass) = RuledArrayQueue::ruled(alloc, room)?;
        Ok((Lane { queue }, Putter { pass }))
    }

    /// One more pass that takes. It takes no memory.
    pub(crate) fn another(&self, putter: &mut Putter) -> Taker
        requires putter { IsPutterOf self.now putter.old }
        ensures putter { IsPutterOf self.now putter.new }
        ensures same { put_by putter.new ≡ put_by putter.old }
        ensures taker { IsTakerOf self.now result }
        ensures nothing { taken_with result ≡ [] }
    {
        Taker {
            pass: self.queue.another::<PassesOn>(&mut putter.pass),
        }
    }

    /// Puts a request in. It never finds the lane full, and takes no memory.
    pub(crate) fn put<R: Wait>(&self, rt: &R, putter: &mut Putter, r: RequestId)
        requires putter { IsPutterOf self.now putter.old }
        requires room { length (put_by putter.old) < room_of self.now }
        ensures putter { IsPutterOf self.now putter.new }
        ensures put { put_by putter.new ≡ put_by putter.old ++ r ∷ [] }
    {
        match self.queue.push_as::<Puts, R>(rt, &mut putter.pass, r) {
            Ok(()) => {}
            Err(_) => unreachable!(),
        }
    }

    /// Takes a request out. `None` only where the lane was empty at some moment of the call. It takes no
    /// memory.
    pub(crate) fn take<R: Wait>(&self, rt: &R, taker: &mut Taker) -> Option<RequestId>
        requires taker { IsTakerOf self.now taker.old }
        ensures taker { IsTakerOf self.now taker.new }
        ensures taken { IfSome result
            (λ r. taken_with taker.new ≡ taken_with taker.old ++ r ∷ []) }
        ensures none { IfNone result (taken_with taker.new ≡ taken_with taker.old) }
        ensures empty { IfNone result (Held 0 (λ (items : List RequestId). ⊤)) }
    {
        self.queue.pop_as::<Takes, R>(rt, &mut taker.pass)
    }
}
