//! Requests to files.

/// A request to the files, and whether it succeeded.
#[derive(Clone, Copy, Debug, PartialEq, Eq)]
pub enum FileAct {
    /// A file was opened for reading.
    Opened,
    /// A file could not be opened.
    NotOpened,
    /// A file that was opened for reading was closed.
    Read,
    /// A regular file was opened for writing, with its contents, or was made, empty, if there was none.
    Created,
    /// A device, a pipe or a terminal was opened for writing.
    Reached,
    /// A file could not be opened for writing, or could not be made.
    NotCreated,
    /// The links of a path were followed, to the path of the file itself.
    Followed,
    /// The links of a path could not be followed.
    NotFollowed,
    /// A new file was made, empty.
    Made,
    /// No new file was made, since one with its name exists.
    Taken,
    /// A new file could not be made.
    NotMade,
    /// A file that was opened for writing, or was made, was closed.
    Wrote,
    /// A file was renamed to another path, where it replaced the file.
    Renamed,
    /// A file could not be renamed.
    NotRenamed,
    /// A file was removed.
    Removed,
    /// A file could not be removed.
    NotRemoved,
}
