//! A fact about the files that commands write. It is the contract of a function that does nothing.
ghost use Rattle.kc_tool.specs.FileSystem.{LeavesInPlace, PutsInPlace};

/// Over a file system that keeps names and bytes: after a command succeeded, the file that is named for its text has
/// that text, whole. After an error it is unchanged, or empty if there was none. Apart from the new file that a text is
/// written to, no other file changes.
pub fn texts_in_place()
    ensures put { PutsInPlace }
    ensures left { LeavesInPlace }
{}
