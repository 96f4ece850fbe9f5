//! Pieces between separators.
use sarif_diff::cut_piece;
use std::test::Fail;

#[test]
fn a_piece_ends_before_its_separator(rt: HostRuntime) -> Result<(), Fail> {
    let (piece, rest) = cut_piece(b"ab/c/d".as_slice(), b'/');
    assert!(rt; piece == b"ab".as_slice());
    assert!(rt; rest == b"c/d".as_slice());
    let (piece, rest) = cut_piece(b"/c".as_slice(), b'/');
    assert!(rt; piece.is_empty());
    assert!(rt; rest == b"c".as_slice());
    let (piece, rest) = cut_piece(b"c".as_slice(), b'/');
    assert!(rt; piece == b"c".as_slice());
    assert!(rt; rest.is_empty());
    Ok(())
}
