//! What is left of findings and of their copies when some of them are matched.
ghost use Rattle.std.specs.Prelude.{◌≡◌, ◌++◌, ◌∷◌, [], List, IfOk, OnOk, length};
ghost use Rattle.sarif_read.specs.Unmarked.{unmarked};
ghost use Rattle.sarif_results.specs.declared.draft.Draft.{Draft as AnyDraft};
ghost use Rattle.sarif_once.specs.Once.{marked, woven};

use crate::weaving::weave_drafts;
use sarif_results::Draft;
use std::alloc::{AllocError, Global};

/// The unmatched ones of some results.
#[derive(Drop)]
pub struct LeftDrafts {
    /// Their drafts, in order.
    pub drafts: Vec<Draft>,
    /// Whether each of them is a copy.
    pub copies: Vec<bool>,
}

/// Adds a mark, unless its result is matched.
fn push_unless(left: &mut Vec<bool>, is_taken: bool, mark: bool) -> Result<(), AllocError>
    ensures { OnOk result
        (left.new.items ≡ left.old.items ++ unmarked (is_taken ∷ []) (mark ∷ [])) }
{
    if !is_taken {
        left.push(mark)?;
    }
    Ok(())
}

/// The marks of the results that aren't matched.
fn left_marks(alloc: Global, taken: &[bool], marks: &[bool]) -> Result<Vec<bool>, AllocError>
    requires { length marks.now ≡ length taken.now }
    ensures { IfOk result (λ left. left.items ≡ unmarked taken.now marks.now) }
{
    let mut left = Vec::new(alloc);
    for (number, mark) in marks.iter().enumerate() {
        push_unless(&mut left, taken[number], *mark)?;
    }
    Ok(left)
}

/// Adds whether a result is matched, if it is marked.
fn push_if(found: &mut Vec<bool>, mark: bool, is_taken: bool) -> Result<(), AllocError>
    ensures { OnOk result
        (found.new.items ≡ found.old.items ++ marked (mark ∷ []) (is_taken ∷ [])) }
{
    if mark {
        found.push(is_taken)?;
    }
    Ok(())
}

/// Whether each marked result is matched.
fn taken_copies(alloc: Global, marks: &[bool], taken: &[bool]) -> Result<Vec<bool>, AllocError>
    requires { length taken.now ≡ length marks.now }
    ensures { IfOk result (λ found. found.items ≡ marked marks.now taken.now) }
{
    let mut found = Vec::new(alloc);
    for (number, mark) in marks.iter().enumerate() {
        push_if(&mut found, *mark, taken[number])?;
    }
    Ok(found)
}

/// Adds a draft, unless its result is matched.
fn push_left(left: &mut Vec<Draft>, is_taken: bool, draft: Draft) -> Result<(), AllocError>
    ensures { OnOk result
        (left.new.items ≡ left.old.items ++ unmarked (is_taken ∷ []) (draft ∷ [])) }
{
    if !is_taken {
        left.push(draft)?;
    }
    Ok(())
}

/// The drafts of the results that aren't matched.
fn drop_taken(alloc: Global, drafts: Vec<Draft>, taken: &[bool]) -> Result<Vec<Draft>, AllocError>
    requires { length taken.now ≡ length drafts.items }
    ensures { IfOk result (λ left. left.items ≡ unmarked taken.now drafts.items) }
{
    let mut left = Vec::new(alloc);
    let mut number = 0;
    for draft in drafts {
        push_left(&mut left, taken[number], draft)?;
        number += 1;
    }
    Ok(left)
}

/// The drafts of the unmatched ones of some results, in order, and which of them are copies. `found` has the drafts of
/// the unmatched findings, `copied` those of all copies. `marks` says for each result whether it is a copy, and `taken`
/// whether it is matched. Returns `AllocError` if memory runs out.
pub fn weave_left(
    alloc: Global,
    found: Vec<Draft>,
    copied: Vec<Draft>,
    marks: &[bool],
    taken: &[bool],
) -> Result<LeftDrafts, AllocError>
    requires taken { length taken.now ≡ length marks.now }
    requires copied { length copied.items ≡ length (marked marks.now taken.now) }
    ensures drafts { IfOk result (λ left. (all : List AnyDraft) → length all ≡ length marks.now
        → found.items ≡ unmarked (unmarked marks.now taken.now) (unmarked marks.now all)
        → copied.items ≡ marked marks.now all
        → left.drafts.items ≡ unmarked taken.now all) }
    ensures copies { IfOk result (λ left. left.copies.items ≡ unmarked taken.now marks.now) }
{
    let taken_copies = taken_copies(alloc, marks, taken)?;
    let copied = drop_taken(alloc, copied, &taken_copies)?;
    let copies = left_marks(alloc, taken, marks)?;
    let drafts = weave_drafts(alloc, found, copied, &copies)?;
    Ok(LeftDrafts { drafts, copies })
}
