//! Reading a log: JSON, stripping, and the form of the log and of its runs.
ghost use Rattle.std.specs.Prelude.{◌≡◌};
ghost use Rattle.json_parts.specs.Mark as said;

/// The bytes after one leading byte order mark, if there is one.
pub fn without_mark(bytes: &[u8]) -> &[u8]
    ensures { result.now ≡ said.without_mark bytes.now }
{
    match bytes {
        [0xef, 0xbb, 0xbf, rest @ ..] => rest,
        _ => bytes,
    }
}
