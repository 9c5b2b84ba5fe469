//! What the rows tell of a request.
ghost use Rattle.std.specs.Prelude.{◌≡◌};
ghost use Rattle.conc_show_svg.specs.Labels as spec;

use conc_show_model::{Planned, Row};
use conc_types::{RequestId, numbered};

/// The index of the row of a request, or how many rows there are.
pub(crate) fn row_of(rows: &[Row], request: RequestId) -> usize
    ensures { result ≡ spec.row_of rows.now request }
{
    for i in 0..rows.len() {
        if rows[i].request.number == request.number {
            return i;
        }
    }
    rows.len()
}

/// The bytes of the name of a request.
pub(crate) fn name_of(rows: &[Row], request: RequestId) -> &[u8]
    ensures { result.now ≡ spec.name_of rows.now request }
{
    for row in rows {
        if row.request.number == request.number {
            return row.name.as_bytes();
        }
    }
    b""
}

/// Whether a request is a member of a set.
pub(crate) fn is_member(planned: &[Planned], request: RequestId) -> bool
    ensures { result ≡ spec.is_member planned.now request }
{
    match numbered(planned, request.number) {
        Some(plan) => plan.set.is_some(),
        None => false,
    }
}
