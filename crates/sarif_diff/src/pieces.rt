//! Bytes that are cut at each separator, as lines are at line feeds.
ghost use Rattle.std.specs.Prelude.{◌≡◌, ◌∷◌, ◌+◌, ◌<◌, ◌≤◌, ◌==◌, length, position};
ghost use Rattle.std.specs.List.{position_or_len};
ghost use Rattle.sarif_diff.specs.Pieces.{pieces_at};

/// Returns where the first separator is.
fn separator_at(bytes: &[u8], separator: u8) -> Option<usize>
    ensures { result ≡ position (λ b. b == separator) bytes.now }
{
    bytes.iter().position(|b| *b == separator)
}

/// Returns how many bytes come before the first separator, or the length if there is none.
#[tactic(auto, using(crate::proofs::PiecesMore::place_is, crate::proofs::PiecesMore::place_within))]
pub(crate) fn piece_length(bytes: &[u8], separator: u8) -> usize
    ensures is { result ≡ position_or_len (λ b. b == separator) bytes.now }
    ensures within { result ≤ length bytes.now }
{
    separator_at(bytes, separator).unwrap_or(bytes.len())
}

/// Returns the first piece, and what follows its separator.
#[tactic(auto, using(crate::proofs::PiecesMore::cut, crate::proofs::PiecesMore::uncut))]
pub fn cut_piece(bytes: &[u8], separator: u8) -> (&[u8], &[u8])
    requires { 0 < length bytes.now }
    ensures cut { pieces_at separator bytes.now
        ≡ result.0.now ∷ pieces_at separator result.1.now }
    ensures less { length result.1.now + 1 ≤ length bytes.now }
{
    let at = piece_length(bytes, separator);
    if at < bytes.len() {
        (&bytes[..at], &bytes[at + 1..])
    } else {
        (bytes, &bytes[bytes.len()..])
    }
}
