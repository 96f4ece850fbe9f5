//! The input of reports.
use sarif_conditions::PolicyFacts;
use sarif_counts::{Counts, Life};
use sarif_findings::{Finding, Show};
use sarif_links::Template;
use sarif_options::Policy;
use sarif_scope::ChangeFacts;
use std::hash::RandomState;

/// What reports are made from: the results of the merged log, counted, the policy of the gate, and the findings.
#[derive(Clone, Copy, Drop)]
pub struct ReportInput<'a> {
    /// How many results the merged log has, by baseline state, level and suppression.
    pub counts: &'a Counts,
    /// The policy of the gate, which decides the hits and the verdict if there is no `ruling`.
    pub policy: &'a Policy,
    /// Which of the reported results are shown.
    pub show: Show,
    /// How places are linked, if they are.
    pub link: Option<&'a Template>,
    /// The findings of the shown results, in the order of the merged log.
    pub findings: &'a [Finding],
    /// How many input runs have no results.
    pub without: u32,
    /// How many entries of the suppression file match no current result.
    pub unused: u32,
    /// What is for later merges, if anything is.
    pub life: Option<&'a Life>,
    /// What the gate says about the change, if it checks one. Then the findings are of results inside of it, and the
    /// hits and the verdict are too; the counts are of all results.
    pub change: Option<ChangeFacts>,
    /// What the conditions of the gate's policy decide, if it has one. Then the findings are of the results that a
    /// condition reports, and each says what it does to the gate; the hits and the verdict are those of the conditions.
    pub ruling: Option<&'a PolicyFacts>,
    /// The seed of hash tables whose keys come from logs. No report depends on it.
    pub seed: RandomState,
}
