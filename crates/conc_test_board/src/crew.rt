use conc_board::Hand;
use conc_pool_lanes::HandPass;

/// One that serves a place: with a hand while it does nothing, and a pass for the lanes.
#[derive(Drop)]
pub struct Worker {
    pub hand: Option<Hand>,
    pub pass: HandPass,
}

/// Three workers.
#[derive(Drop)]
pub struct Three {
    pub first: Worker,
    pub second: Worker,
    pub third: Worker,
}
