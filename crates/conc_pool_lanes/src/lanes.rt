ghost use Rattle.std.specs.Prelude.{◌≡◌, length, vec_len, IsTrue};
ghost use Rattle.conc_pool_lanes.specs.Rooms.{have_room, room_for};

use crate::each::{add_takers, make_lanes, put_each};
use crate::lane::{Lane, Putter, Taker};
use conc_types::{NoMemory, Plan, RequestId};
use std::alloc::Global;
use std::sync::Wait;

/// A lane for each manager of a plan.
#[derive(Drop)]
pub struct Lanes<'p> {
    plan: &'p Plan,
    lanes: Vec<Lane>,
    ghost room: { IsTrue (have_room (room_for plan.now) lanes.items) },
    ghost each: { vec_len lanes ≡ length plan.now.setup.managers },
}

/// The pass that puts requests into the lanes. There is one, and it cannot be copied.
#[derive(Drop)]
pub struct LeadPass {
    putters: Vec<Putter>,
}

/// A pass that takes requests from the lanes.
#[derive(Drop)]
pub struct HandPass {
    takers: Vec<Taker>,
}

impl<'p> Lanes<'p> {
    ghost use Rattle.std.specs.Prelude.{◌<◌, [], ℕ, List, replicate, IfNone, IfOk, ⊤};
    ghost use Rattle.crossbeam_queue.specs.Fifo.{Held};
    ghost use Rattle.conc_types.specs.declared.event.RequestId.{RequestId};
    ghost use Rattle.conc_types.specs.Plans.{request};
    ghost use Rattle.conc_pool_lanes.specs.Lanes.{AreHandPasses, are_shorter, IsHandPassOf, IsLeadPassOf, joined_by, plan_of, puts_of, takes_of, with_take};

    /// Empty lanes for a plan, the pass that puts, and as many passes that take as there are hands. Each
    /// lane has room for more than a run puts: the requests, the commands and one more.
    pub fn new(
        alloc: Global,
        plan: &'p Plan,
        hands: u32,
    ) -> Result<(Lanes<'p>, LeadPass, Vec<HandPass>), NoMemory>
        ensures plan { IfOk result (λ made. plan_of made.0 ≡ plan.now) }
        ensures lead { IfOk result (λ made. IsLeadPassOf made.0 made.1) }
        ensures empty { IfOk result
            (λ made. puts_of made.1 ≡ replicate (length plan.now.setup.managers) []) }
        ensures room { IfOk result (λ made. (n : ℕ) → 0 < n
            → IsTrue (are_shorter n (puts_of made.1))) }
        ensures hands { IfOk result (λ made. length made.2.items ≡ hands) }
        ensures passes { IfOk result (λ made. AreHandPasses made.0 made.2.items) }
    {
        let room = plan.requests.len() + plan.script.commands.len() + 1;
        let (lanes, putters) = make_lanes(alloc, plan.setup.managers.len(), room)?;
        let lanes = Lanes { plan, lanes };
        let mut lead = LeadPass { putters };
        let passes = lanes.hand_passes(alloc, &mut lead, hands)?;
        Ok((lanes, lead, passes))
    }

    // As many passes that take as there are hands.
    fn hand_passes(
        &self,
        alloc: Global,
        lead: &mut LeadPass,
        hands: u32,
    ) -> Result<Vec<HandPass>, NoMemory>
        requires lead { IsLeadPassOf self.now lead.old }
        ensures lead { IsLeadPassOf self.now lead.new }
        ensures same { puts_of lead.new ≡ puts_of lead.old }
        ensures count { IfOk result (λ passes. length passes.items ≡ hands) }
        ensures passes { IfOk result (λ passes. AreHandPasses self.now passes.items) }
    {
        let mut passes = Vec::with_capacity(alloc, hands as usize)?;
        for _hand in 0..hands {
            passes.push(self.another(alloc, lead)?)?;
        }
        Ok(passes)
    }

    // One more pass that takes.
    fn another(&self, alloc: Global, lead: &mut LeadPass) -> Result<HandPass, NoMemory>
        requires lead { IsLeadPassOf self.now lead.old }
        ensures lead { IsLeadPassOf self.now lead.new }
        ensures same { puts_of lead.new ≡ puts_of lead.old }
        ensures pass { IfOk result (IsHandPassOf self.now) }
    {
        let mut takers = Vec::with_capacity(alloc, self.lanes.len())?;
        add_takers(&self.lanes, &mut lead.putters, &mut takers)?;
        Ok(HandPass { takers })
    }

    /// Puts a request into the lane of each manager that admits it. A lane is never found full, as long as
    /// less was put into each than it has room for (`lists_grow_by_one`). It takes no memory.
    pub fn put<R: Wait>(&self, rt: &R, pass: &mut LeadPass, r: RequestId)
        requires pass { IsLeadPassOf self.now pass.old }
        requires room { IsTrue (are_shorter (room_for (plan_of self.now)) (puts_of pass.old)) }
        ensures pass { IsLeadPassOf self.now pass.new }
        ensures put { puts_of pass.new
            ≡ joined_by (plan_of self.now) (request (plan_of self.now) r) (puts_of pass.old) }
    {
        if let Some(request) = self.plan.request(r) {
            let managers = self.plan.setup.managers.as_slice();
            put_each(rt, &self.lanes, &mut pass.putters, managers, request);
        }
    }

    /// Takes a request from the lane of the manager with this place in the setup, from 0. `None` only where
    /// the lane was empty at some moment of the call. It takes no memory.
    pub fn take<R: Wait>(&self, rt: &R, pass: &mut HandPass, manager: u32) -> Option<RequestId>
        requires pass { IsHandPassOf self.now pass.old }
        requires manager { manager < length (plan_of self.now).setup.managers }
        ensures pass { IsHandPassOf self.now pass.new }
        ensures taken { takes_of pass.new
            ≡ with_take manager result (takes_of pass.old) }
        ensures none { IfNone result (Held 0 (λ (items : List RequestId). ⊤)) }
    {
        let index = manager as usize;
        self.lanes[index].take(rt, &mut pass.takers[index])
    }
}
