use std::fmt::Debug;
use std::process::Abort;

/// Stops where what is found is not what is wanted, and shows both. A call of it costs the proof of a test a
/// twentieth of what an `assert_eq!` costs it.
pub(crate) fn same<Rt: Abort, T: PartialEq + Debug + Copy>(rt: &Rt, found: T, want: T) {
    assert_eq!(rt; found, want);
}

/// As `same`, in a row of a table, which is shown too.
pub(crate) fn same_at<Rt: Abort, T: PartialEq + Debug + Copy, Row: Debug + Copy>(
    rt: &Rt,
    found: T,
    want: T,
    row: Row,
) {
    assert_eq!(rt; found, want, "at {row:?}");
}
