//! The drafts of findings and of copies in one list.
ghost use Rattle.std.specs.Prelude.{◌≡◌, IfOk};
ghost use Rattle.sarif_once.specs.Once.{woven};

use sarif_results::Draft;
use std::alloc::{AllocError, Global};

/// The drafts of all results in order: one of `rest` for each that isn't marked, one of `marked` for each that is.
/// Returns `AllocError` if memory runs out.
pub fn weave_drafts(
    alloc: Global,
    rest: Vec<Draft>,
    marked: Vec<Draft>,
    marks: &[bool],
) -> Result<Vec<Draft>, AllocError>
    ensures { IfOk result (λ all. all.items ≡ woven marks.now rest.items marked.items) }
{
    let mut all = Vec::with_capacity(alloc, marks.len())?;
    let mut rest = rest.into_iter();
    let mut marked = marked.into_iter();
    for is_marked in marks {
        let next = if *is_marked {
            marked.next()
        } else {
            rest.next()
        };
        if let Some(draft) = next {
            all.push(draft)?;
        }
    }
    Ok(all)
}
