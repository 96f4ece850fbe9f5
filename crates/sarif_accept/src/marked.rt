//! Marks by number.
ghost use Rattle.std.specs.Prelude.{◌≡◌};
ghost use Rattle.sarif_accept.specs.Internal.Flags.{mark_at};

/// Whether that number is marked; one past the end isn't.
pub(crate) fn is_marked(marks: &[bool], number: usize) -> bool
    ensures { result ≡ mark_at marks.now number }
{
    match marks.get(number) {
        Some(mark) => *mark,
        None => false,
    }
}
