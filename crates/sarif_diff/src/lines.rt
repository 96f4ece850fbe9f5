//! The lines of a diff.
ghost use Rattle.std.specs.Prelude.{◌≡◌, ◌∷◌, ◌+◌, ◌<◌, ◌≤◌, length};
ghost use Rattle.std.specs.Bool.{OnTrue};
ghost use Rattle.sarif_diff.specs.Lines as said;

use crate::pieces::cut_piece;

/// The bytes of a byte order mark.
const ORDER_MARK: [u8; 3] = [0xef, 0xbb, 0xbf];

/// Returns whether `line` begins with `word`.
pub(crate) fn begins(line: &[u8], word: &[u8]) -> bool
    ensures is { result ≡ said.begins line.now word.now }
    ensures within { OnTrue result (length word.now ≤ length line.now) }
{
    line.starts_with(word)
}

/// Returns whether `line` ends with `word`.
pub(crate) fn ends(line: &[u8], word: &[u8]) -> bool
    ensures { result ≡ said.ends line.now word.now }
{
    line.ends_with(word)
}

/// Returns a diff without the byte order mark that it may begin with.
pub(crate) fn without_mark(bytes: &[u8]) -> &[u8]
    ensures is { result.now ≡ said.without_mark bytes.now }
    ensures short { length result.now ≤ length bytes.now }
{
    if bytes.starts_with(&ORDER_MARK) {
        return &bytes[3..];
    }
    bytes
}

/// Returns a line without the carriage return that it may end with.
pub(crate) fn trim_return(line: &[u8]) -> &[u8]
    ensures { result.now ≡ said.trimmed line.now }
{
    if line.ends_with(b"\r") {
        return &line[..line.len() - 1];
    }
    line
}

/// Returns the first line, and what follows its line feed.
pub(crate) fn cut_line(bytes: &[u8]) -> (&[u8], &[u8])
    requires { 0 < length bytes.now }
    ensures cut { said.lines_of bytes.now ≡ result.0.now ∷ said.lines_of result.1.now }
    ensures less { length result.1.now + 1 ≤ length bytes.now }
{
    cut_piece(bytes, b'\n')
}

/// Returns the first line, or the empty one if there is none.
#[tactic(auto, using(crate::proofs::LinesMore::no_line))]
pub(crate) fn first_line(bytes: &[u8]) -> &[u8]
    ensures { result.now ≡ said.first_line (said.lines_of bytes.now) }
{
    if bytes.is_empty() {
        return bytes;
    }
    cut_line(bytes).0
}
