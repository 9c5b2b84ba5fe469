use conc_edge_gate::Gate;

/// The workers of a run: the gate before their reports, and in how many threads they work.
#[derive(Drop)]
pub struct Workers<'g, G: Gate> {
    pub gate: &'g G,
    pub threads: u32,
}
