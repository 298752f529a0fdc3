//! Assertions whose failures show what they were about, proved once: on bytes that were written, and on values of any
//! type.
use std::fmt::{Debug, Display};
use std::process::Abort;

// Asserts that a value is the wanted one.
pub(crate) fn assert_same<H: Abort, W: Display + Drop, T: PartialEq + Debug>(
    rt: &H,
    what: W,
    got: &T,
    want: &T,
) {
    assert_eq!(rt; got, want, "{what}");
}

// Asserts that bytes are the wanted ones. A failure shows what they were written for.
pub(crate) fn assert_bytes<H: Abort, W: Display + Drop>(rt: &H, what: W, got: &[u8], want: &[u8]) {
    assert_eq!(rt; got, want, "{what}");
}
