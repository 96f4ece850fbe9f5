//! Matching the results of logs with those of baselines.
ghost use Rattle.std.specs.Prelude.{◌≡◌, ◌≤◌, List, IfOk, length, option_map};
ghost use Rattle.std.specs.List.{flat_map};
ghost use Rattle.sarif_entries.specs.File.{File};
ghost use Rattle.sarif_model.specs.Limits.{most_results};
ghost use Rattle.sarif_model.specs.Run.{results_of};
ghost use Rattle.sarif_prepare.specs.Internal.Baselines.{AreBaselines};
ghost use Rattle.sarif_prepare.specs.Internal.Limiting.{AreChanges};
ghost use Rattle.sarif_prepare.specs.Internal.Outside.{states_by};
ghost use Rattle.sarif_prepare.specs.Internal.Together.{AreFound, ArePaired, AreTogether, IsPaired};
ghost use Rattle.sarif_runs.specs.Judging.{records_of, run_values};
ghost use Rattle.sarif_runs.specs.Placed.{Placed};
ghost use Rattle.sarif_suppress.specs.Limited.{all_admitted};

use crate::baselines::Baselines;
use crate::changes::Changes;
use crate::halves::{Half, change_half};
use crate::left::left_drafts;
use crate::matched::{MatchedStates, match_records};
use crate::outside::Narrowed;
use crate::ruled::RuledSides;
use sarif_conditions::Decided;
use sarif_known::Standing;
use sarif_model::{Record, State};
use sarif_options::Options;
use sarif_results::Draft;
use std::alloc::{AllocError, Global};
use std::thread::Threads;

/// How the results of logs and of baselines were matched.
#[derive(Drop)]
pub(crate) struct Paired {
    /// What matching says about each current result.
    pub(crate) standings: Vec<Standing>,
    /// The baseline state of each current result.
    pub(crate) states: Vec<Option<State>>,
    /// Whether each baseline result is the match of a current result.
    pub(crate) taken: Vec<bool>,
    /// The drafts of those that aren't.
    pub(crate) left: Vec<Draft>,
}

/// Matches the results of logs, which have these records, with those of baselines.
fn pair_results<R: Threads + Sync>(
    rt: &R,
    alloc: Global,
    records: &[Record],
    baselines: &Baselines<'_, '_>,
    options: &Options,
) -> Result<Paired, AllocError>
    requires few { length records.now ≤ most_results }
    requires before { (baseline_runs : List Placed) × AreBaselines baseline_runs baselines.now
        × (length (records_of baseline_runs) ≤ most_results) }
    ensures { IfOk result
        (ArePaired options.now.checks.matching records.now baselines.now) }
{
    let MatchedStates {
        standings,
        states,
        taken,
    } = match_records(rt, alloc, options, records, &baselines.records)?;
    let left = left_drafts(rt, alloc, baselines, &taken, options.workers + 1)?;
    Ok(Paired {
        standings,
        states,
        taken,
        left,
    })
}

/// The runs of logs and of baselines, and how their results were matched.
#[derive(Drop)]
pub(crate) struct PairedSides<'t, 'a> {
    pub(crate) current: Half<'t, 'a>,
    pub(crate) baselines: Baselines<'t, 'a>,
    pub(crate) paired: Paired,
}

/// References to the runs of logs and of baselines, and to how their results were matched.
#[derive(Clone, Copy)]
pub(crate) struct Sides<'s, 't: 's, 'a: 't> {
    pub(crate) current: &'s Half<'t, 'a>,
    pub(crate) baselines: &'s Baselines<'t, 'a>,
    pub(crate) paired: &'s Paired,
    /// What the change makes of the results of logs, if there is one.
    pub(crate) narrowed: Option<&'s Narrowed>,
    /// What the conditions of the policy decide, and what that makes of matched results, if there is a policy.
    pub(crate) decided: Option<&'s Decided>,
    pub(crate) ruled: Option<&'s RuledSides>,
}

/// Returns the states of the results of logs that are shown.
pub(crate) fn states_shown<'s>(sides: &Sides<'s, '_, '_>) -> &'s [Option<State>]
    ensures { result.now
        ≡ states_by (option_map (λ n. n.now) sides.now.narrowed) sides.now.paired.now }
{
    match sides.narrowed {
        Some(narrowed) => &narrowed.states,
        None => &sides.paired.states,
    }
}

impl<'t, 'a> PairedSides<'t, 'a> {
    /// Returns the sides, lent, with what the change and the policy make of them.
    pub(crate) fn lend<'s>(
        &'s self,
        narrowed: &'s Option<Narrowed>,
        decided: &'s Option<Decided>,
        ruled: &'s Option<RuledSides>,
    ) -> Sides<'s, 't, 'a>
        ensures narrowed { option_map (λ n. n.now) result.narrowed ≡ narrowed.now }
        ensures decided { option_map (λ d. d.now) result.decided ≡ decided.now }
        ensures ruled { option_map (λ r. r.now) result.ruled ≡ ruled.now }
        ensures current { result.current.now ≡ self.now.current }
        ensures baselines { result.baselines.now ≡ self.now.baselines }
        ensures paired { result.paired.now ≡ self.now.paired }
    {
        Sides {
            current: &self.current,
            baselines: &self.baselines,
            paired: &self.paired,
            narrowed: narrowed.as_ref(),
            decided: decided.as_ref(),
            ruled: ruled.as_ref(),
        }
    }
}

/// Matches the results of logs with those of baselines. After that, results of logs get the entries that admit them.
pub(crate) fn pair_sides<'t, 'a, R: Threads + Sync>(
    rt: &R,
    alloc: Global,
    current: Half<'t, 'a>,
    changes: Changes,
    baselines: Baselines<'t, 'a>,
    options: &Options,
) -> Result<PairedSides<'t, 'a>, AllocError>
    requires found { (file : File) × (current_runs : List Placed) × (baseline_runs : List Placed)
        × AreFound file current_runs baseline_runs current baselines
        × AreChanges file (records_of current_runs) (all_admitted file (records_of current_runs))
        (flat_map results_of (run_values current_runs)) changes }
    ensures together { IfOk result (λ sides. (file : File)
        (current_runs baseline_runs : List Placed)
        → AreFound file current_runs baseline_runs current.entry baselines.entry
        → AreChanges file (records_of current_runs) (all_admitted file (records_of current_runs))
        (flat_map results_of (run_values current_runs)) changes
        → AreTogether file current_runs baseline_runs sides.current sides.baselines) }
    ensures paired { IfOk result (λ sides.
        IsPaired options.now.checks.matching sides.current sides.baselines sides.paired) }
{
    let paired = pair_results(rt, alloc, &current.records, &baselines, options)?;
    let current = change_half(alloc, current, changes)?;
    Ok(PairedSides {
        current,
        baselines,
        paired,
    })
}
