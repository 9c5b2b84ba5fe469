use conc_show_model::{Place, Row};
use conc_types::{Event, Moment};

/// What the elements of the picture are made of.
#[derive(Drop)]
pub(crate) struct Scene<'a> {
    pub events: &'a [Event],
    pub rows: &'a [Row],
    /// The places of the lanes.
    pub places: Vec<Place>,
    /// The moment of each event.
    pub moments: Vec<Option<Moment>>,
}
