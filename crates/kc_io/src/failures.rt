//! The failure of a single read or write.
use thiserror::Error;

/// A read or a write failed. The reason is not kept.
#[derive(Clone, Copy, Debug, PartialEq, Eq, Error)]
#[error("a read or a write failed")]
pub struct Failed;
