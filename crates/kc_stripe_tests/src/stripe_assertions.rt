//! Assertions whose failures show what they were about, proved once for all types of values.
use std::alloc::AllocError;
use std::fmt::{Debug, Display};
use std::process::Abort;

// Asserts that a value is the wanted one.
pub(crate) fn assert_same<H: Abort, T: PartialEq + Debug>(rt: &H, what: &str, got: &T, want: &T) {
    assert_eq!(rt; got, want, "{what}");
}

// Asserts that items are the wanted ones.
pub(crate) fn assert_items<H: Abort, T: PartialEq + Debug>(
    rt: &H,
    what: &str,
    got: &[T],
    want: &[T],
) {
    assert_eq!(rt; got, want, "{what}");
}

// Asserts that a value is displayed as this text.
pub(crate) fn assert_displayed<H: Abort + AllocGlobal, T: Display>(
    rt: &H,
    value: &T,
    text: &str,
) -> Result<(), AllocError> {
    let displayed = value.to_string(rt.alloc())?;
    assert_eq!(rt; displayed.as_str(), text);
    Ok(())
}
