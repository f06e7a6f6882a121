//! The reasons for which a file does not read or an output takes no more, by the kind of the system's error.
ghost use Rattle.std.specs.Prelude.{◌≡◌, ◌≤◌, length};
ghost use Rattle.bs_note_calls.specs.Reasons.{cause_words, file_words, kind_words, output_reason, unread_reason};

use std::io::ErrorKind;

/// The words for a kind of error, as the system's library has them.
fn kind_words(kind: ErrorKind) -> &'static str
    ensures words { result.now ≡ kind_words kind }
    ensures short { length result.now ≤ 64 }
{
    match kind {
        ErrorKind::NotFound => "entity not found",
        ErrorKind::PermissionDenied => "permission denied",
        ErrorKind::ConnectionRefused => "connection refused",
        ErrorKind::ConnectionReset => "connection reset",
        ErrorKind::HostUnreachable => "host unreachable",
        ErrorKind::NetworkUnreachable => "network unreachable",
        ErrorKind::ConnectionAborted => "connection aborted",
        ErrorKind::NotConnected => "not connected",
        ErrorKind::AddrInUse => "address in use",
        ErrorKind::AddrNotAvailable => "address not available",
        ErrorKind::NetworkDown => "network down",
        ErrorKind::BrokenPipe => "broken pipe",
        ErrorKind::AlreadyExists => "entity already exists",
        ErrorKind::WouldBlock => "operation would block",
        ErrorKind::NotADirectory => "not a directory",
        ErrorKind::IsADirectory => "is a directory",
        ErrorKind::DirectoryNotEmpty => "directory not empty",
        ErrorKind::ReadOnlyFilesystem => "read-only filesystem or storage medium",
        ErrorKind::FilesystemLoop => "filesystem loop or indirection limit (e.g. symlink loop)",
        ErrorKind::StaleNetworkFileHandle => "stale network file handle",
        ErrorKind::InvalidInput => "invalid input parameter",
        ErrorKind::InvalidData => "invalid data",
        ErrorKind::TimedOut => "timed out",
        ErrorKind::WriteZero => "write zero",
        ErrorKind::StorageFull => "no storage space",
        ErrorKind::NotSeekable => "seek on unseekable file",
        ErrorKind::QuotaExceeded => "quota exceeded",
        ErrorKind::FileTooLarge => "file too large",
        ErrorKind::ResourceBusy => "resource busy",
        ErrorKind::ExecutableFileBusy => "executable file busy",
        ErrorKind::Deadlock => "deadlock",
        ErrorKind::CrossesDevices => "cross-device link or rename",
        ErrorKind::TooManyLinks => "too many links",
        ErrorKind::InvalidFilename => "invalid filename",
        ErrorKind::ArgumentListTooLong => "argument list too long",
        ErrorKind::Interrupted => "operation interrupted",
        ErrorKind::Unsupported => "unsupported",
        ErrorKind::UnexpectedEof => "unexpected end of file",
        ErrorKind::OutOfMemory => "out of memory",
        ErrorKind::InProgress => "in progress",
        ErrorKind::Other => "other error",
        ErrorKind::Uncategorized => "uncategorized error",
    }
}

/// The words for a kind of error of a file.
fn file_words(kind: ErrorKind) -> &'static str
    ensures words { result.now ≡ file_words kind }
    ensures short { length result.now ≤ 64 }
{
    match kind {
        ErrorKind::NotFound => "No such file or directory (os error 2)",
        ErrorKind::IsADirectory => "Is a directory (os error 21)",
        ErrorKind::PermissionDenied => "Permission denied (os error 13)",
        _ => kind_words(kind),
    }
}

/// The same, or what is said where no kind is known.
fn cause_words(kind: Option<ErrorKind>) -> &'static str
    ensures words { result.now ≡ cause_words kind }
    ensures short { length result.now ≤ 64 }
{
    match kind {
        Some(kind) => file_words(kind),
        None => "this file could not be read",
    }
}

/// The reason for which a file of this name does not read: the word `-` is the name of a file as any other.
pub fn unread_reason(path: &str, kind: Option<ErrorKind>) -> &'static str
    ensures words { result.now ≡ unread_reason path.now kind }
    ensures short { length result.now ≤ 80 }
{
    if path == "-" {
        return "there is no such file, and standard input is read as /dev/stdin alone";
    }
    cause_words(kind)
}

/// The reason for which an output takes no more.
pub fn output_reason(kind: Option<ErrorKind>) -> &'static str
    ensures words { result.now ≡ output_reason kind }
    ensures short { length result.now ≤ 64 }
{
    match kind {
        Some(kind) => kind_words(kind),
        None => "no reason is known",
    }
}
