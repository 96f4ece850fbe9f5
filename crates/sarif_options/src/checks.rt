//! What a merge requires of runs, and how it matches their results.
ghost use Rattle.std.specs.Prelude.{◌≡◌, [], false};
ghost use Rattle.sarif_change.specs.declared.spots.Scope.TheVariants.{Lines};
ghost use Rattle.sarif_evidence.specs.declared.version.MatchingVersion.TheVariants.{Two};

use sarif_change::Scope;
use sarif_evidence::MatchingVersion;
use sarif_model::{Sequence, Text};
use std::alloc::Global;

/// What a merge requires of runs beyond the form of a log, what it compares of their results,
/// and how it treats a change.
#[derive(Debug, Drop, PartialEq, Eq)]
pub struct Checks {
    /// Whether an input run whose analysis failed is rejected (SARIF 2.1.0, "executionSuccessful property").
    pub require_success: bool,
    /// Whether a run may name external property files if none of them holds what a merge reads (SARIF 2.1.0,
    /// "externalPropertyFileReferences property").
    pub allow_external: bool,
    /// By which version results are matched. Version 3 reads regions and snippets.
    pub matching: MatchingVersion,
    /// Whether copies aren't counted, so that regions and snippets are read. A copy is a result with a URI and a region
    /// that is equal to an earlier one (SARIF 2.1.0, "region object").
    pub once: bool,
    /// The names of fingerprints that are ignored: results are taken as if they had none with these names (SARIF
    /// 2.1.0, "fingerprints property", "partialFingerprints property").
    pub ignored: Sequence<Text>,
    /// What of a changed file is treated as changed, if the gate checks the change of a diff.
    pub scope: Scope,
    /// What URIs may begin with, if the gate checks the change of a diff (`--root`).
    pub roots: Sequence<Text>,
}

impl Checks {
    /// Accepts runs whose analysis failed, rejects each run that names external property files, matches by version 2,
    /// counts copies and ignores no fingerprint. Does not allocate.
    pub fn new(alloc: Global) -> Checks
        ensures { result ≡ record {
          require_success = false;
          allow_external = false;
          matching = Two;
          once = false;
          ignored = [];
          scope = Lines;
          roots = [];
        } }
    {
        Checks {
            require_success: false,
            allow_external: false,
            matching: MatchingVersion::Two,
            once: false,
            ignored: Sequence::new(alloc),
            scope: Scope::Lines,
            roots: Sequence::new(alloc),
        }
    }
}
