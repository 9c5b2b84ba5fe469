use conc_reports::Made;

/// What a worker leaves for a request.
#[derive(Drop)]
pub enum Posted {
    /// The report of the request.
    Text(Made),
    /// The request was told to stop.
    Stopped,
    /// There was no memory for the report.
    NoMemory,
}
