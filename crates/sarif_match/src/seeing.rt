//! The results of a list as version 3 sees them, in reverse order.
ghost use Rattle.std.specs.Prelude.{◌≡◌, IfOk, map};
ghost use Rattle.sarif_match.specs.Partners.{seen_from_end};
ghost use Rattle.sarif_evidence.specs.Seen.{seen};

use sarif_evidence::seen;
use sarif_model::{Pairs, Record, Sequence, Text};
use std::alloc::{AllocError, Global};

/// The results of a list as version 3 sees them, in reverse order.
pub(crate) fn seen_from_end(alloc: Global, findings: &[Record]) -> Result<Vec<Record>, AllocError>
    ensures { IfOk result (λ seen. seen.items ≡ seen_from_end findings.now) }
{
    let mut seen_findings = seen_in_order(alloc, findings)?;
    seen_findings.reverse();
    Ok(seen_findings)
}

/// The results of a list as version 3 sees them.
fn seen_in_order(alloc: Global, findings: &[Record]) -> Result<Vec<Record>, AllocError>
    ensures { IfOk result (λ seen_findings. seen_findings.items ≡ map seen findings.now) }
{
    let mut seen_findings = Vec::with_capacity(alloc, findings.len())?;
    for finding in findings {
        seen_findings.push(seen(alloc, finding)?)?;
    }
    Ok(seen_findings)
}

/// The same members, whose strings are shared.
pub(crate) fn shared_members(alloc: Global, members: &[(Text, Text)]) -> Result<Pairs, AllocError>
    ensures { IfOk result (λ shared. shared ≡ members.now) }
{
    let mut shared = Sequence::new(alloc);
    for member in members {
        shared.push((member.0.clone()?, member.1.clone()?))?;
    }
    Ok(shared)
}
