//! Paths that name one file.

ghost use Rattle.std.specs.Prelude.{◌≡◌, IsTrue};

use std::path::Path;

/// A path without the `.` that it begins with, if it does.
fn without_dot(path: &str) -> Path<'_> {
    let path = Path::new(path);
    path.strip_prefix(".").unwrap_or(path)
}

/// Whether two paths are the same once `.` and empty parts are left out: `a/b` is `./a//b`. What `..` and links
/// lead to words don't tell.
pub(crate) fn is_same_path(one: &str, other: &str) -> bool
    ensures { one.now ≡ other.now → IsTrue result }
{
    one == other || without_dot(one) == without_dot(other)
}
