//! What a merged log is made of.
ghost use Rattle.std.specs.Prelude.{◌≡◌, ◌≤◌, ◌+◌, ◌*◌, length, option_map};
ghost use Rattle.std.proofs.Props.{props};
ghost use Rattle.sarif_log.specs.Internal.Side.{IsSide};
ghost use Rattle.sarif_model.specs.Limits.{most_results};

use crate::merged_text::Side;
use sarif_conditions::PolicyFacts;
use sarif_counts::Life;
use sarif_findings::Finding;
use sarif_model::Record;
use sarif_scope::ChangeFacts;

/// The records of results that were matched. Nothing is made of them any more.
#[derive(Drop)]
pub struct Spent {
    /// The records of the results of logs.
    pub current: Vec<Record>,
    /// The records of the results of baselines.
    pub baseline: Vec<Record>,
}

/// Which of the results that are written are copies.
#[derive(Drop)]
pub struct CopyFlags {
    /// Whether each result of logs is a copy.
    pub current: Vec<bool>,
    /// Whether each written result of baselines is a copy.
    pub baseline: Vec<bool>,
}

/// Everything that a merged log contains. Its sources are no longer needed.
#[derive(Drop)]
pub struct Prepared {
    /// The runs of logs, with all their results.
    pub current: Side,
    /// The runs of baselines, with the results that no current result matches.
    pub baseline: Side,
    /// How many input runs have no results.
    pub without: u32,
    /// How many entries of the suppression file match no current result.
    pub unused: u32,
    /// How many of these are expired.
    pub expired: u32,
    /// The findings of its results, in order.
    pub findings: Vec<Finding>,
    /// What the gate says about the change that it checks, if it checks one.
    pub change: Option<ChangeFacts>,
    /// What the conditions of the gate's policy decide, if it has one.
    pub ruling: Option<PolicyFacts>,
    /// What is for later merges.
    pub life: Life,
    /// Which results are copies, where copies aren't counted.
    pub copies: Option<CopyFlags>,
    /// What only has to be released.
    pub spent: Spent,
    pub ghost current_is: { IsSide current } by { Prim.hlevel props },
    pub ghost baseline_is: { IsSide baseline } by { Prim.hlevel props },
    pub ghost few: { length current.drafts.items + length baseline.drafts.items
        ≤ 2 * most_results },
    pub ghost flags_of_current: { option_map (λ flags. length flags.current.items) copies
        ≡ option_map (λ _. length current.drafts.items) copies },
    pub ghost flags_of_baseline: { option_map (λ flags. length flags.baseline.items) copies
        ≡ option_map (λ _. length baseline.drafts.items) copies },
}
