//! What outputs besides the log are made of.
use sarif_conditions::PolicyFacts;
use sarif_counts::{Counts, Life};
use sarif_findings::Finding;
use sarif_scope::ChangeFacts;

/// What is known about a merge before the text of its log is made. Its other outputs are made from it.
#[derive(Clone, Copy)]
pub struct Facts<'m> {
    /// The results of the log, counted.
    pub counts: &'m Counts,
    /// How many input runs have no results.
    pub without: u32,
    /// How many entries of the suppression file match no current result.
    pub unused: u32,
    /// How many of these are expired.
    pub expired: u32,
    /// The findings of the results, in the order of the log; empty if none were requested.
    pub findings: &'m Vec<Finding>,
    /// What the gate says about the change that it checks, if it checks one.
    pub change: Option<ChangeFacts>,
    /// What the conditions of the gate's policy decide, if it has one.
    pub ruling: Option<&'m PolicyFacts>,
    /// How many copies the gate names, if copies aren't counted.
    pub copies: Option<u64>,
    /// What is for later merges.
    pub life: &'m Life,
}
