//! Whether a suppression file has version 5, whose entries may name snippets.
ghost use Rattle.std.specs.Prelude.{◌≡◌};
ghost use Rattle.json_parts.specs.Indexed.{data_of};
ghost use Rattle.sarif_entries.specs.File as said;

use json_parts::Node;

/// Returns whether the value is that of a file of version 5.
pub fn is_fifth(file: &Node<'_, '_>) -> bool
    ensures { result ≡ said.is_fifth (data_of file.now) }
{
    match file.get("version") {
        None => false,
        Some(version) => match version.as_u64() {
            None => false,
            Some(number) => number == 5,
        },
    }
}
