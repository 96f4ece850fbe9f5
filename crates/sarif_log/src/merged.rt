//! What a merge gives.
use sarif_conditions::PolicyFacts;
use sarif_counts::{Counts, Life, Verdict};
use sarif_findings::Finding;
use sarif_model::Text;
use sarif_scope::ChangeFacts;

/// A merged log, and what its gate says.
#[derive(Debug, Drop)]
pub struct Merged {
    /// The text of the merged log.
    pub log: Text,
    /// Its results, counted.
    pub counts: Counts,
    /// What the policy makes of the counts, and of the change if the gate checks one, or what its conditions decide.
    pub verdict: Verdict,
    /// What its gate says about the change that it checks, if it checks one.
    pub change: Option<ChangeFacts>,
    /// What the conditions of the gate's policy decide, if it has one.
    pub ruling: Option<PolicyFacts>,
    /// How many input runs have no results.
    pub without: u32,
    /// How many entries of the suppression file match no current result.
    pub unused: u32,
    /// How many of these are expired.
    pub expired: u32,
    /// The findings of its results, in the order of the log; empty if none were requested.
    pub findings: Vec<Finding>,
    /// How many copies its gate names, if copies aren't counted.
    pub copies: Option<u64>,
    /// What is for later merges.
    pub life: Life,
}
