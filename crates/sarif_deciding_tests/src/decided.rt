//! What a policy decides about the results of a log.
ghost use Rattle.std.specs.Prelude.{◌≤◌, ℕ, List, length};
ghost use Rattle.sarif_inputs.specs.Internal.Indexes.{AreIndexesOf};
ghost use Rattle.sarif_model.specs.Limits.{most_runs};

use json::Scratch;
use json_parts::{Around, Index, IndexFault};
use sarif_change::Scope;
use sarif_conditions::Decided;
use sarif_deciding::{CurrentResults, Deciding, LeftResults, MatchedMerge, decide_merge};
use sarif_inputs::{Opening, index_sources, open_sources};
use sarif_model::{Level, Record, Sequence, State};
use sarif_options::Checks;
use sarif_policy::{GatePolicy, read_policy};
use sarif_results::Draft;
use sarif_runs::{OpenedRun, list_spots};
use sarif_scope::{GatedChange, read_change};
use sarif_suppress::{Applied, Suppressions};
use std::alloc::{AllocError, AllocGlobal, Global};
use std::hash::RandomState;
use std::random::RandomSource;
use std::test::Fail;
use std::thread::Threads;
use test_suppress::result_at;

/// A log of two runs. The first has a result at line 2 of a.c and one at line 3, the second one in b.c. Their security
/// severities are 1, that of the rule, which is 9.1, and 7.0.
const LOG: &str = r#"{"version":"2.1.0","runs":[{"results":[
    {"ruleId":"A","properties":{"security-severity":"1"},
    "locations":[{"physicalLocation":{"artifactLocation":{"uri":"a.c"},"region":{"startLine":2}}}]},
    {"ruleId":"A",
    "locations":[{"physicalLocation":{"artifactLocation":{"uri":"a.c"},"region":{"startLine":3}}}]}
    ],"tool":{"driver":{"name":"lint","rules":[{"id":"A","properties":{"security-severity":"9.1"}}]}}},
    {"results":[{"ruleId":"B","properties":{"security-severity":"7.0"},
    "locations":[{"physicalLocation":{"artifactLocation":{"uri":"b.c"}}}]}
    ],"tool":{"driver":{"name":"lint"}}}]}"#;

/// The rules of the results of the log.
const RULES: [&str; 3] = ["A", "A", "B"];

/// A diff that adds line 2 of a.c.
const DIFF: &str =
    "diff --git a/a.c b/a.c\n--- a/a.c\n+++ b/a.c\n@@ -1,3 +1,4 @@\n x\n+y\n z\n z\n";

/// What a merge says about results.
#[derive(Drop)]
struct Listed {
    records: Vec<Record>,
    drafts: Vec<Draft>,
    states: Vec<Option<State>>,
}

/// An error that isn't suppressed.
fn error_draft(alloc: Global) -> Draft {
    Draft {
        level: Level::Error,
        suppressed: false,
        applied: Applied {
            entries: Sequence::new(alloc),
            suppressed: false,
        },
        text: Around::new(String::new(alloc), String::new(alloc)),
    }
}

/// The results of the log, as new errors.
fn list_new(alloc: Global) -> Result<Listed, AllocError> {
    let mut listed = Listed {
        records: Vec::new(alloc),
        drafts: Vec::new(alloc),
        states: Vec::new(alloc),
    };
    for rule in RULES {
        let record = result_at(alloc, rule, None)?;
        listed.records.push(record)?;
        listed.drafts.push(error_draft(alloc))?;
        listed.states.push(Some(State::New))?;
    }
    Ok(listed)
}

/// What the gate checks, and by which seed tables hash.
#[derive(Clone, Copy)]
struct Gated<'q> {
    policy: &'q GatePolicy,
    change: &'q GatedChange,
    seed: RandomState,
}

/// The change of the diff.
fn read_diff(alloc: Global, seed: RandomState) -> Result<GatedChange, Fail> {
    let roots = Sequence::new(alloc);
    match read_change(alloc, seed, DIFF.as_bytes(), Scope::Lines, roots) {
        Ok(change) => Ok(change),
        Err(_) => Err(Fail::new("not read")),
    }
}

/// What the policy decides about the results of these runs, without a baseline.
fn decide_opened<R: Threads + Sync>(
    rt: &R,
    alloc: Global,
    gated: &Gated<'_>,
    runs: &[OpenedRun<'_, '_>],
) -> Result<Decided, Fail>
    requires { length runs.now ≤ most_runs }
{
    let spots = list_spots(alloc, runs)?;
    let listed = list_new(alloc)?;
    let count = spots.len();
    if listed.drafts.len() != count || 1000 < count {
        return Err(Fail::new("the log has other results"));
    }
    if listed.records.len() != count || listed.states.len() != count {
        return Err(Fail::new("not listed"));
    }
    let file = Suppressions::none(alloc, gated.seed, None)?;
    let merge = MatchedMerge {
        current: CurrentResults {
            runs,
            records: &listed.records,
            drafts: &listed.drafts,
            states: &listed.states,
        },
        before: LeftResults {
            runs: &[],
            spots: &[],
            records: &[],
            taken: &[],
            left: &[],
        },
        file: &file,
        change: Some(gated.change),
    };
    let deciding = Deciding {
        seed: gated.seed,
        threads: 2,
    };
    let decided = decide_merge(rt, alloc, &merge, gated.policy, deciding)?;
    Ok(decided)
}

/// What the policy decides about the results of the log with this index.
fn decide_indexed<R: Threads + Sync>(
    rt: &R,
    alloc: Global,
    gated: &Gated<'_>,
    indexes: &[Result<Index<'_>, IndexFault>],
) -> Result<Decided, Fail>
    requires { (logs : List (List ℕ)) × (baselines : List (List ℕ))
        × AreIndexesOf logs baselines indexes.now 1 }
{
    let checks = Checks::new(alloc);
    let opening = Opening {
        checks: &checks,
        seed: gated.seed,
    };
    match open_sources(rt, alloc, opening, indexes, 1, 1) {
        Ok(runs) => decide_opened(rt, alloc, gated, &runs.current),
        Err(_) => Err(Fail::new("not opened")),
    }
}

/// What a policy with these conditions decides about the results of the log, as new errors.
pub fn decided_of<R: Threads + Sync + AllocGlobal + RandomSource>(
    rt: &R,
    conditions: &str,
) -> Result<Decided, Fail> {
    let alloc = rt.alloc();
    let seed = RandomState::new(rt)?;
    let file = format!(in alloc; "{{\"version\":1,\"conditions\":[{conditions}]}}")?;
    let policy = read_policy(alloc, file.as_bytes(), true)?;
    let change = read_diff(alloc, seed)?;
    let gated = Gated {
        policy: &policy,
        change: &change,
        seed,
    };
    let logs = vec![in alloc; LOG.as_bytes().to_vec(alloc)?]?;
    let mut scratches = vec![in alloc; Scratch::new(alloc)]?;
    let indexes = index_sources(rt, alloc, &logs, &[], &mut scratches, 1)?;
    decide_indexed(rt, alloc, &gated, &indexes)
}
