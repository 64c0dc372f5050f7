//! Assertions that name their row. An assertion with a message is dear to prove, so there is one of each kind.
use std::fmt::Debug;
use std::process::Abort;

/// Asserts that what a row says is so.
pub(crate) fn assert_row<N: Debug>(rt: &impl Abort, holds: bool, row: &N) {
    assert!(rt; holds, "{row:?}");
}

/// Asserts that what came is what the row wants.
pub(crate) fn assert_same<T: PartialEq + Debug, N: Debug>(
    rt: &impl Abort,
    found: &T,
    wanted: &T,
    row: &N,
) {
    assert_eq!(rt; found, wanted, "{row:?}");
}
