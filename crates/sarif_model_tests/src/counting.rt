//! Counts, the gate and the summary.
use sarif_counts::{Counts, Verdict, hits, summary, verdict};
use sarif_model::{Level, State};
use sarif_options::{Policy, States};
use std::test::Fail;

const STATES: [State; 4] = [State::New, State::Unchanged, State::Updated, State::Absent];

const LEVELS: [Level; 4] = [Level::NoLevel, Level::Note, Level::Warning, Level::Error];

fn warned() -> Counts {
    let mut counts = Counts::new();
    counts.add(State::New, Level::Warning, false);
    counts
}

#[test]
fn each_count_is_apart_from_the_others(rt: HostRuntime) {
    for state in STATES {
        for level in LEVELS {
            for side in [false, true] {
                let mut counts = Counts::new();
                counts.add(state, level, side);
                let mut sum = 0u64;
                for s in STATES {
                    for l in LEVELS {
                        sum = sum.saturating_add(u64::from(counts.get(s, l, false)));
                        sum = sum.saturating_add(u64::from(counts.get(s, l, true)));
                    }
                }
                assert_eq!(rt; counts.get(state, level, side), 1);
                assert_eq!(rt; sum, 1);
            }
        }
    }
}

#[test]
fn counts_are_added_each_by_itself(rt: HostRuntime) {
    let mut one = Counts::new();
    one.add(State::New, Level::Warning, false);
    let mut other = Counts::new();
    other.add(State::New, Level::Warning, false);
    other.add(State::Absent, Level::Error, true);
    let both = one.plus(other);
    assert_eq!(rt; both.get(State::New, Level::Warning, false), 2);
    assert_eq!(rt; both.get(State::Absent, Level::Error, true), 1);
    assert_eq!(rt; both.get(State::Absent, Level::Error, false), 0);
}

#[test]
fn a_warning_fails_at_the_level_warning(rt: HostRuntime) {
    let counts = warned();
    let policy = Policy::default();
    assert_eq!(rt; hits(&counts, &policy), 0);
    assert_eq!(rt; verdict(&counts, &policy).name(), "pass");
    let strict = Policy {
        fail_on: Level::Warning,
        states: policy.states,
        max: 0,
    };
    assert_eq!(rt; hits(&counts, &strict), 1);
    assert_eq!(rt; verdict(&counts, &strict).name(), "fail");
    let lenient = Policy {
        fail_on: Level::Warning,
        states: policy.states,
        max: 1,
    };
    assert_eq!(rt; verdict(&counts, &lenient), Verdict::Pass);
}

#[test]
fn suppressed_and_unlisted_results_are_no_hits(rt: HostRuntime) {
    let mut counts = Counts::new();
    counts.add(State::New, Level::Error, true);
    counts.add(State::Unchanged, Level::Error, false);
    counts.add(State::Absent, Level::Error, false);
    let policy = Policy::default();
    assert_eq!(rt; hits(&counts, &policy), 0);
    let all = Policy {
        fail_on: Level::NoLevel,
        states: States {
            absent: true,
            fresh: true,
            unchanged: true,
            updated: true,
        },
        max: 0,
    };
    assert_eq!(rt; hits(&counts, &all), 2);
}

#[test]
fn summary_of_one_new_warning(rt: HostRuntime) -> Result<(), Fail> {
    let policy = Policy::default();
    let text = summary(rt.alloc(), &warned(), &policy)?;
    assert_eq!(rt;
        text.as_str(),
        "\
state           error    warning       note       none suppressed
new                 0          1          0          0          0
unchanged           0          0          0          0          0
updated             0          0          0          0          0
absent              0          0          0          0          0
gate: pass, hits 0, max 0
"
    );
    let strict = Policy {
        fail_on: Level::Warning,
        states: policy.states,
        max: 0,
    };
    let failed = summary(rt.alloc(), &warned(), &strict)?;
    assert!(rt; failed.as_str().ends_with("\ngate: fail, hits 1, max 0\n"));
    Ok(())
}

#[test]
fn levels_rise_from_none_to_error(rt: HostRuntime) {
    for (number, level) in LEVELS.iter().enumerate() {
        for (least_number, least) in LEVELS.iter().enumerate() {
            assert_eq!(rt; level.is_at_least(*least), least_number <= number);
        }
    }
}
