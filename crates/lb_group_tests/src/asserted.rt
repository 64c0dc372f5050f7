//! An assertion that names its row: one with a message is dear to prove, so there is one.
use std::fmt::Debug;
use std::process::Abort;

/// Asserts that what came is what the row wants.
pub(crate) fn assert_same<T: PartialEq + Debug, N: Debug>(
    rt: &impl Abort,
    found: &T,
    wanted: &T,
    row: &N,
) {
    assert_eq!(rt; found, wanted, "{row:?}");
}
