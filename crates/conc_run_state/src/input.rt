use conc_data_digests::LazyDigests;
use conc_types::{Plan, Readings};

/// What a run is of: a plan, the readings of its clock, and the digests of the files that gave them.
#[derive(Clone, Copy)]
pub struct Input<'i> {
    pub plan: &'i Plan,
    pub readings: &'i Readings,
    pub digests: &'i LazyDigests,
}
