//! The log of nothing, worked by hand.
ghost use Rattle.std.specs.Prelude.{◌≡◌, []};

use sarif_counts::Verdict;
use sarif_log::{Merged, Prepared, assemble};
use sarif_model::{Level, MergeFault, State};
use sarif_options::{Checks, Options, Policy};
use sarif_prepare::{Asked, FileRead, prepare, prepare_by, prepare_once};
use sarif_results::Judged;
use sarif_suppress::Suppressions;
use std::alloc::Global;
use std::hash::RandomState;
use std::test::Fail;
use std::thread::Threads;

const LOG: &str = "{\"properties\":{\"gate\":{\"counts\":{\
\"absent\":{\"active\":[0,0,0,0],\"suppressed\":[0,0,0,0]},\
\"new\":{\"active\":[0,0,0,0],\"suppressed\":[0,0,0,0]},\
\"unchanged\":{\"active\":[0,0,0,0],\"suppressed\":[0,0,0,0]},\
\"updated\":{\"active\":[0,0,0,0],\"suppressed\":[0,0,0,0]}},\
\"failOn\":\"error\",\"hits\":0,\"max\":0,\"runsWithoutResults\":0,\
\"states\":[\"new\",\"updated\"],\"unusedSuppressions\":0,\"verdict\":\"pass\"}},\
\"runs\":[],\"version\":\"2.1.0\"}";

const LOG_WITHOUT_COPIES: &str = "{\"properties\":{\"gate\":{\"copies\":[],\"counts\":{\
\"absent\":{\"active\":[0,0,0,0],\"suppressed\":[0,0,0,0]},\
\"new\":{\"active\":[0,0,0,0],\"suppressed\":[0,0,0,0]},\
\"unchanged\":{\"active\":[0,0,0,0],\"suppressed\":[0,0,0,0]},\
\"updated\":{\"active\":[0,0,0,0],\"suppressed\":[0,0,0,0]}},\
\"failOn\":\"error\",\"hits\":0,\"max\":0,\"runsWithoutResults\":0,\
\"states\":[\"new\",\"updated\"],\"unusedSuppressions\":0,\"verdict\":\"pass\"}},\
\"runs\":[],\"version\":\"2.1.0\"}";

/// Which function prepares a merge.
#[derive(Clone, Copy)]
enum Way {
    Counted,
    Once,
    AsAsked,
}

fn no_runs<'t, 'a>(alloc: Global) -> Judged<'t, 'a>
    ensures runs { result.runs.items ≡ [] }
    ensures outcomes { result.outcomes.items ≡ [] }
{
    Judged {
        runs: Vec::new(alloc),
        outcomes: Vec::new(alloc),
    }
}

fn prepare_nothing<R: Threads + Sync>(
    rt: &R,
    alloc: Global,
    file: &Suppressions,
    options: &Options,
    way: Way,
) -> Result<Prepared, MergeFault>
    requires { file.now.entries ≡ [] }
{
    let rules = FileRead {
        file,
        bytes: None,
        policy: None,
        change: None,
    };
    let asked = Asked {
        options,
        reporting: None,
        upkeep: None,
        choice: None,
    };
    let now = no_runs(alloc);
    let before = no_runs(alloc);
    match way {
        Way::Counted => prepare(rt, alloc, now, before, &rules, &asked),
        Way::Once => prepare_once(rt, alloc, now, before, &rules, &asked),
        Way::AsAsked => prepare_by(rt, alloc, now, before, &rules, &asked),
    }
}

fn merge_nothing<R: Threads + Sync>(
    rt: &R,
    alloc: Global,
    options: &Options,
    way: Way,
) -> Result<Merged, MergeFault> {
    let file = Suppressions::none(alloc, options.seed, None)?;
    let prepared = prepare_nothing(rt, alloc, &file, options, way)?;
    let (merged, ()) = assemble(rt, alloc, prepared, options, (), |_| Ok(()))?;
    Ok(merged)
}

#[test]
fn without_runs_the_log_holds_its_gate(rt: HostRuntime) -> Result<(), Fail> {
    let options = Options {
        policy: Policy::default(),
        checks: Checks::new(rt.alloc()),
        today: None,
        workers: 1,
        seed: RandomState::new(&rt)?,
    };
    for way in [Way::Counted, Way::AsAsked] {
        let merged = merge_nothing(&rt, rt.alloc(), &options, way)?;
        assert_eq!(rt; merged.log.as_str(), LOG);
        assert!(rt; merged.verdict == Verdict::Pass);
        assert_eq!(rt; merged.counts.get(State::New, Level::Error, false), 0);
        assert_eq!(rt; merged.without, 0);
        assert_eq!(rt; merged.unused, 0);
        assert_eq!(rt; merged.expired, 0);
        assert_eq!(rt; merged.copies, None);
    }
    Ok(())
}

#[test]
fn without_runs_the_gate_names_no_copies(rt: HostRuntime) -> Result<(), Fail> {
    let mut checks = Checks::new(rt.alloc());
    checks.once = true;
    let options = Options {
        policy: Policy::default(),
        checks,
        today: None,
        workers: 1,
        seed: RandomState::new(&rt)?,
    };
    for way in [Way::Once, Way::AsAsked] {
        let merged = merge_nothing(&rt, rt.alloc(), &options, way)?;
        assert_eq!(rt; merged.log.as_str(), LOG_WITHOUT_COPIES);
        assert_eq!(rt; merged.copies, Some(0));
    }
    Ok(())
}
