//! Assertions whose failures show what they were about, proved once for all types.
use std::fmt::{Debug, Display};
use std::process::Abort;

// Asserts that a value is the wanted one.
pub(crate) fn assert_same<H: Abort, W: Display + Drop, T: PartialEq + Debug>(
    rt: &H,
    what: W,
    got: &T,
    want: &T,
) {
    assert_eq!(rt; got, want, "{what}");
}
