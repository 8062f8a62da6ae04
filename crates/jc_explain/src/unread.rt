//! Why a file can't be read.
ghost use Rattle.std.specs.Prelude.{◌≡◌, IfOk, string_bytes};
ghost use Rattle.jc_explain.specs.Unread.{path_line, reason_of, unread_line};

use std::alloc::{AllocError, Global};
use std::io::ErrorKind;

/// What the system answered, in words.
fn reason_of(kind: Option<ErrorKind>) -> &'static str
    ensures { result.now ≡ reason_of kind }
{
    match kind {
        Some(ErrorKind::NotFound) => "no such file",
        Some(ErrorKind::PermissionDenied) => "permission denied",
        Some(ErrorKind::IsADirectory) => "is a directory",
        Some(ErrorKind::NotADirectory) => "a part of its path is no directory",
        _ => "the system gives another reason",
    }
}

/// The line of the path in which a fault is.
pub fn explain_path(alloc: Global, path: &str) -> Result<String, AllocError>
    ensures { IfOk result (λ s. string_bytes s ≡ path_line path.now) }
{
    format!(in alloc; "  in {path}\n")
}

/// The line of a path that can't be read, by what the system answered.
pub fn explain_unread(
    alloc: Global,
    path: &str,
    kind: Option<ErrorKind>,
) -> Result<String, AllocError>
    ensures { IfOk result (λ s. string_bytes s ≡ unread_line path.now kind) }
{
    let reason = reason_of(kind);
    format!(in alloc; "  {path}: {reason}\n")
}
