// What is done with each of the lanes.
ghost use Rattle.std.specs.Prelude.{◌≡◌, ◌<◌, ◌++◌, [], ℕ, List, length, map, replicate, vec_len, IfOk, IsTrue, OnOk};
ghost use Rattle.conc_pool_lanes.specs.Lane.{IsPutterOf, put_by, room_of};
ghost use Rattle.conc_pool_lanes.specs.Lanes.{ArePutters, are_shorter, AreTakers, joined, joined_one};
ghost use Rattle.conc_pool_lanes.specs.Rooms.{have_room};
ghost use Rattle.conc_pool_lanes.specs.declared.lane.Taker.{Taker};

use crate::lane::{Lane, Putter, Taker};
use conc_rules::admits;
use conc_types::{Manager, NoMemory, Req};
use std::alloc::Global;
use std::sync::Wait;

/// Empty lanes, so many and each with this room, and the passes that put into them.
pub(crate) fn make_lanes(
    alloc: Global,
    count: usize,
    room: usize,
) -> Result<(Vec<Lane>, Vec<Putter>), NoMemory>
    requires { 0 < room }
    ensures count { IfOk result (λ made. vec_len made.0 ≡ count) }
    ensures room { IfOk result (λ made. IsTrue (have_room room made.0.items)) }
    ensures putters { IfOk result (λ made. ArePutters made.0.items made.1.items) }
    ensures empty { IfOk result (λ made. map put_by made.1.items ≡ replicate count []) }
{
    let mut lanes = Vec::with_capacity(alloc, count)?;
    let mut putters = Vec::with_capacity(alloc, count)?;
    for _index in 0..count {
        let (lane, putter) = Lane::new(alloc, room)?;
        lanes.push(lane)?;
        putters.push(putter)?;
    }
    Ok((lanes, putters))
}

// Puts a request into the lane of this manager, if it admits the request.
fn put_if_admitted<R: Wait>(rt: &R, lane: &Lane, putter: &mut Putter, manager: &Manager, r: &Req)
    requires putter { IsPutterOf lane.now putter.old }
    requires room { length (put_by putter.old) < room_of lane.now }
    ensures putter { IsPutterOf lane.now putter.new }
    ensures put { put_by putter.new ≡ joined_one manager.now r.now (put_by putter.old) }
{
    if admits(manager, r) {
        lane.put(rt, putter, r.number);
    }
}

/// Puts a request into the lane of each manager that admits it.
#[tactic(auto, unfolding(crate::specs::Lanes::ArePutters, crate::specs::Lanes::joined))]
pub(crate) fn put_each<R: Wait>(
    rt: &R,
    lanes: &[Lane],
    putters: &mut [Putter],
    managers: &[Manager],
    r: &Req,
)
    requires putters { ArePutters lanes.now putters.old }
    requires room { (room : ℕ) × IsTrue (have_room room lanes.now)
        × IsTrue (are_shorter room (map put_by putters.old)) }
    ensures putters { ArePutters lanes.now putters.new }
    ensures put { map put_by putters.new ≡ joined managers.now r.now (map put_by putters.old) }
{
    let Some((manager, managers)) = managers.split_first() else {
        return;
    };
    let Some((lane, lanes)) = lanes.split_first() else {
        return;
    };
    let Some((putter, putters)) = putters.split_first_mut() else {
        return;
    };
    put_if_admitted(rt, lane, putter, manager, r);
    put_each(rt, lanes, putters, managers, r);
}

/// Adds a pass that takes for each of the lanes.
#[tactic(auto, unfolding(crate::specs::Lanes::ArePutters, crate::specs::Lanes::AreTakers))]
pub(crate) fn add_takers(
    lanes: &[Lane],
    putters: &mut [Putter],
    takers: &mut Vec<Taker>,
) -> Result<(), NoMemory>
    requires putters { ArePutters lanes.now putters.old }
    ensures putters { ArePutters lanes.now putters.new }
    ensures same { map put_by putters.new ≡ map put_by putters.old }
    ensures takers { OnOk result ((made : List Taker)
        × (takers.new.items ≡ takers.old.items ++ made) × AreTakers lanes.now made) }
{
    let Some((lane, lanes)) = lanes.split_first() else {
        return Ok(());
    };
    let Some((putter, putters)) = putters.split_first_mut() else {
        return Ok(());
    };
    takers.push(lane.another(putter))?;
    add_takers(lanes, putters, takers)
}
