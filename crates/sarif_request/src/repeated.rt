//! Names that are passed twice.
ghost use Rattle.std.specs.Prelude.{◌≡◌, IfOk, option_map};
ghost use Rattle.sarif_request.specs.Names as said;

use sarif_model::Text;
use std::alloc::{AllocError, Global};
use std::collections::HashSet;
use std::hash::RandomState;

/// Returns the first of these names that a later one repeats, or `None` if they all differ. Names are compared byte for
/// byte. The table of names hashes with `seed`, on which the result does not depend. Returns `AllocError` if memory
/// runs out.
pub(crate) fn first_repeated<'a>(
    alloc: Global,
    seed: RandomState,
    names: &'a [Text],
) -> Result<Option<&'a Text>, AllocError>
    ensures { IfOk result
        (λ name. option_map (λ name. name.now) name ≡ said.first_repeated names.now) }
{
    let mut later: HashSet<&'a Text, RandomState> = HashSet::with_hasher(alloc, seed);
    let mut repeated = None;
    for at in (0..names.len()).rev() {
        let name = &names[at];
        if !later.insert(name)? {
            repeated = Some(name);
        }
    }
    Ok(repeated)
}
