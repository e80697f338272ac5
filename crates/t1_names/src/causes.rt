//! Why a system can't read or write a file.

ghost use Rattle.std.specs.Prelude.{◌≡◌, ◌≤◌, length};
ghost use Rattle.std.specs.IoError.{error_kind};
ghost use Rattle.t1_names.specs.Causes.{cause_of, cause_text};

use std::io::{Error, ErrorKind};

/// Why a system can't read or write a file.
#[derive(Clone, Copy, Debug, PartialEq, Eq)]
pub enum Cause {
    NoFile,
    NoPermission,
    IsFolder,
    /// A part of its name leads to what is no folder.
    NotInFolder,
    /// It is no regular file, and so isn't opened.
    NotRegular,
    ReadOnly,
    NoSpace,
    NoMemory,
    /// Its kind says no more.
    Unknown,
}

impl Cause {
    /// The cause of an error.
    pub fn of(error: &Error) -> Cause
        ensures { result ≡ cause_of (error_kind error.now) }
    {
        match error.kind() {
            ErrorKind::NotFound => Cause::NoFile,
            ErrorKind::PermissionDenied => Cause::NoPermission,
            ErrorKind::IsADirectory => Cause::IsFolder,
            ErrorKind::NotADirectory => Cause::NotInFolder,
            ErrorKind::InvalidInput => Cause::NotRegular,
            ErrorKind::ReadOnlyFilesystem => Cause::ReadOnly,
            ErrorKind::StorageFull => Cause::NoSpace,
            ErrorKind::OutOfMemory => Cause::NoMemory,
            _ => Cause::Unknown,
        }
    }

    /// What is said of it behind a message.
    pub fn text(self) -> &'static str
        ensures text { result.now ≡ cause_text self }
        ensures few { length result.now ≤ 40 }
    {
        match self {
            Cause::NoFile => ": no such file or folder",
            Cause::NoPermission => ": permission is denied",
            Cause::IsFolder => ": it is a folder",
            Cause::NotInFolder => ": a part of its name is no folder",
            Cause::NotRegular => ": it is no regular file",
            Cause::ReadOnly => ": the file system is read-only",
            Cause::NoSpace => ": the disk is full",
            Cause::NoMemory => ": out of memory",
            Cause::Unknown => "",
        }
    }
}
