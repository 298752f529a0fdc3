//! Why the system refuses a file, or what is written.
use std::io::ErrorKind;

/// Why a file can't be opened, made or renamed, or a text can't be written, as far as that helps a person.
#[derive(Clone, Copy, Debug, PartialEq, Eq)]
pub enum Refusal {
    /// There is no such file, or no such folder.
    Missing,
    /// The permissions forbid it.
    Denied,
    /// It is a folder.
    IsFolder,
    /// A part of the path is no folder.
    NoFolder,
    /// The name is too long, or has bytes that no name can have.
    BadName,
    /// The disk, or a quota on it, is full.
    Full,
    /// The file system is read-only.
    ReadOnly,
    /// The program that read a pipe has ended.
    Gone,
    /// Any other reason.
    Other,
}

/// The reason for an error of std of this kind.
pub(crate) fn refusal_of(error: ErrorKind) -> Refusal {
    match error {
        ErrorKind::NotFound => Refusal::Missing,
        ErrorKind::PermissionDenied => Refusal::Denied,
        ErrorKind::IsADirectory => Refusal::IsFolder,
        ErrorKind::NotADirectory => Refusal::NoFolder,
        ErrorKind::InvalidFilename | ErrorKind::InvalidInput => Refusal::BadName,
        ErrorKind::StorageFull | ErrorKind::QuotaExceeded => Refusal::Full,
        ErrorKind::ReadOnlyFilesystem => Refusal::ReadOnly,
        ErrorKind::BrokenPipe => Refusal::Gone,
        _ => Refusal::Other,
    }
}

impl Refusal {
    /// What is wrong, as the end of a sentence.
    pub fn text(self) -> &'static str {
        match self {
            Refusal::Missing => "there is no such file or folder",
            Refusal::Denied => "permission is denied",
            Refusal::IsFolder => "it is a folder",
            Refusal::NoFolder => "a part of its path is no folder",
            Refusal::BadName => "the name is too long, or is no name of a file",
            Refusal::Full => "the disk or the quota is full",
            Refusal::ReadOnly => "the file system is read-only",
            Refusal::Gone => "the program that reads it has ended",
            Refusal::Other => "the system refuses it",
        }
    }
}
