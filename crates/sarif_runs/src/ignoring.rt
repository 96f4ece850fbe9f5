//! Fingerprints without those of some names.
ghost use Rattle.std.specs.Prelude.{◌≡◌, IfOk};
ghost use Rattle.sarif_runs.specs.Ignoring.{is_among, without_names};

use sarif_model::{Pairs, Sequence, Text};
use std::alloc::{AllocError, Global};

/// The members that have none of these names. Returns `AllocError` if memory runs out.
pub(crate) fn without_names(
    alloc: Global,
    names: &[Text],
    members: Pairs,
) -> Result<Pairs, AllocError>
    ensures { IfOk result (λ kept. kept ≡ without_names names.now members) }
{
    if names.is_empty() {
        return Ok(members);
    }
    keep_unnamed(alloc, names, members.as_slice())
}

/// Copies the members that have none of these names.
fn keep_unnamed(
    alloc: Global,
    names: &[Text],
    members: &[(Text, Text)],
) -> Result<Pairs, AllocError>
    ensures { IfOk result (λ kept. kept ≡ without_names names.now members.now) }
{
    let mut kept = Sequence::new(alloc);
    for member in members {
        if !is_among(names, &member.0) {
            kept.push((member.0.clone()?, member.1.clone()?))?;
        }
    }
    Ok(kept)
}

/// Whether the name is one of these.
fn is_among(names: &[Text], name: &Text) -> bool
    ensures { result ≡ is_among names.now name.now }
{
    names.iter().any(|own| own == name)
}
