//! Assertions whose failures show what they were about, by its name or its number.
use std::alloc::AllocError;
use std::fmt::{Debug, Display};
use std::process::Abort;

/// Asserts that a value is the wanted one.
pub fn assert_same<H: Abort, W: Display + Drop, T: PartialEq + Debug>(
    rt: &H,
    what: W,
    got: &T,
    want: &T,
) {
    assert_eq!(rt; got, want, "{what}");
}

/// Asserts that items are the wanted ones.
pub fn assert_items<H: Abort, W: Display + Drop, T: PartialEq + Debug>(
    rt: &H,
    what: W,
    got: &[T],
    want: &[T],
) {
    assert_eq!(rt; got, want, "{what}");
}

/// Asserts that a value is displayed as this text.
pub fn assert_displayed<H: Abort + AllocGlobal, T: Display>(
    rt: &H,
    value: &T,
    text: &str,
) -> Result<(), AllocError> {
    let displayed = value.to_string(rt.alloc())?;
    assert_eq!(rt; displayed.as_str(), text);
    Ok(())
}
