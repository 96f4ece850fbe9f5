//! White space in a string.
ghost use Rattle.std.specs.Prelude.{◌≡◌};
ghost use Rattle.sarif_model.specs.WhiteSpace as said;

/// Whether this is the byte of a space, a tab, a line feed, a form feed or a carriage return.
pub fn is_white_space(byte: u8) -> bool
    ensures { result ≡ said.is_white_space byte }
{
    matches!(byte, b' ' | b'\t' | b'\n' | 0x0c | b'\r')
}
