use conc_edge_gate::{FreeGate, Gate, PairGate};
use conc_types::RequestId;
use std::process::Abort;
use std::sync::Wait;
use std::thread::{Threads, join};

const ONE: RequestId = RequestId { number: 1 };

const TWO: RequestId = RequestId { number: 2 };

const OTHER: RequestId = RequestId { number: 3 };

#[test]
fn a_free_gate_holds_nobody(_rt: HostRuntime) {
    FreeGate.before(ONE);
}

#[test]
fn a_gate_gives_up_where_the_other_does_not_come(rt: HostRuntime) {
    let gate = PairGate::new(ONE, TWO, 3);
    gate.before(OTHER);
    assert!(rt; !gate.gave_up());
    gate.before(ONE);
    assert!(rt; gate.gave_up());
    gate.before(TWO);
    assert!(rt; !gate.held_both());
}

#[test]
fn a_gate_lets_go_once_the_other_came(rt: HostRuntime) {
    let gate = PairGate::new(ONE, TWO, 0);
    gate.before(TWO);
    assert!(rt; gate.gave_up());
    let gate = PairGate::new(ONE, TWO, 20_000_000);
    assert!(rt; !gate.held_both());
    join(&rt, || gate.before(ONE), || gate.before(TWO));
    assert!(rt; gate.held_both());
}
