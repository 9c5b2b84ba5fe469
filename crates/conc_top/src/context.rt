use conc_outside::{Shelf, Sink};
use std::alloc::Global;

/// What every command works on. It only borrows.
#[derive(Drop)]
pub(crate) struct Context<'c, F: Shelf, O: Sink> {
    pub(crate) alloc: Global,
    /// The files that it reads.
    pub(crate) shelf: &'c mut F,
    /// Where it writes its text.
    pub(crate) out: &'c mut O,
}
