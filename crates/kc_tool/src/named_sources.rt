//! Sources with the names of the files that they read.
use kc_io::Source;

/// A source, and the name of the file that it reads; an empty name if it reads none.
#[derive(Drop)]
pub(crate) struct NamedSource<'a, R: Source> {
    /// The name of the file.
    pub name: &'a str,
    /// The source that reads it.
    pub source: R,
}
