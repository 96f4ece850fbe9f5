//! The places of all results.
ghost use Rattle.std.specs.Prelude.{◌≡◌, take, drop};

use sarif_runs::Spot;

/// At most `size` places, from place `start` on.
pub(crate) fn chunk_of(spots: &[Spot], start: usize, size: usize) -> &[Spot]
    ensures { result.now ≡ take size (drop start spots.now) }
{
    let (_, rest) = spots.split_at(start.min(spots.len()));
    let (chunk, _) = rest.split_at(size.min(rest.len()));
    chunk
}
