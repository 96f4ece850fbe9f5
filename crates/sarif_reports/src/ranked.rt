//! A result, and the number of equal ones before it.
ghost use Rattle.std.specs.Prelude.{◌≡◌};
ghost use Rattle.sarif_reports.specs.GitlabParts.{identity_with};

use crate::identities::Identity;
use sarif_findings::Finding;

/// A result, and the number of equal ones before it.
#[derive(Clone, Copy)]
pub(crate) struct Ranked<'f> {
    pub(crate) finding: &'f Finding,
    pub(crate) identity: &'f Identity,
    pub(crate) rank: u64,
    ghost is: { identity.now ≡ identity_with finding.now },
}
