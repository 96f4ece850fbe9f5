//! What a version of matching reads from a result, unchanged.
ghost use Rattle.std.specs.Prelude.{◌≡◌, IfOk};
ghost use Rattle.sarif_evidence.specs.Seen as said;
ghost use Rattle.sarif_evidence.specs.declared.version.MatchingVersion.TheVariants.{Two};

use crate::seeing::{seen, shared_if_there, shared_message, shared_place};
use crate::version::MatchingVersion;
use sarif_model::{Pairs, Record, Sequence, Status, Text};
use std::alloc::{AllocError, Global};

/// The same members, whose strings are shared.
fn shared_pairs(alloc: Global, members: &[(Text, Text)]) -> Result<Pairs, AllocError>
    ensures { IfOk result (λ shared. shared ≡ members.now) }
{
    let mut shared = Sequence::new(alloc);
    for (name, value) in members {
        shared.push((name.clone()?, value.clone()?))?;
    }
    Ok(shared)
}

/// The same statuses.
fn same_statuses(alloc: Global, statuses: &[Status]) -> Result<Sequence<Status>, AllocError>
    ensures { IfOk result (λ same. same ≡ statuses.now) }
{
    let mut same = Sequence::new(alloc);
    for status in statuses {
        same.push(*status)?;
    }
    Ok(same)
}

/// The same numbers.
fn same_numbers(alloc: Global, numbers: &[u32]) -> Result<Sequence<u32>, AllocError>
    ensures { IfOk result (λ same. same ≡ numbers.now) }
{
    let mut same = Sequence::new(alloc);
    for number in numbers {
        same.push(*number)?;
    }
    Ok(same)
}

/// The result without its snippet.
fn without_snippet(alloc: Global, finding: &Record) -> Result<Record, AllocError>
    ensures { IfOk result (λ shown. shown ≡ said.as_matched Two finding.now) }
{
    Ok(Record {
        tool: finding.tool.clone()?,
        rule_id: finding.rule_id.clone()?,
        kind: finding.kind,
        level: finding.level,
        message: shared_message(alloc, &finding.message)?,
        place: shared_place(&finding.place)?,
        guid: finding.guid,
        full: shared_pairs(alloc, finding.full.as_slice())?,
        partial: shared_pairs(alloc, finding.partial.as_slice())?,
        held: same_statuses(alloc, finding.held.as_slice())?,
        region: finding.region,
        snippet: None,
        admitted: same_numbers(alloc, finding.admitted.as_slice())?,
    })
}

/// Returns what a version of matching reads from a result, unchanged. For version 2 it is the result without its
/// snippet, for version 3 without fingerprints whose value is the empty string and without its own suppressions. Returns
/// `AllocError` if memory runs out.
pub fn as_matched(
    alloc: Global,
    version: MatchingVersion,
    finding: &Record,
) -> Result<Record, AllocError>
    ensures { IfOk result (λ shown. shown ≡ said.as_matched version finding.now) }
{
    match version {
        MatchingVersion::Two => without_snippet(alloc, finding),
        MatchingVersion::Three => {
            let mut shown = seen(alloc, finding)?;
            shown.snippet = shared_if_there(&finding.snippet)?;
            shown.admitted = same_numbers(alloc, finding.admitted.as_slice())?;
            Ok(shown)
        }
    }
}
