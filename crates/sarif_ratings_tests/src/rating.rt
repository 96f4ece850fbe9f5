//! The security severities of the results of a log with two runs.
ghost use Rattle.std.specs.Prelude.{◌≤◌, ℕ, List, length};
ghost use Rattle.sarif_inputs.specs.Internal.Indexes.{AreIndexesOf};
ghost use Rattle.sarif_model.specs.Limits.{most_runs};

use json::Scratch;
use json_parts::{Index, IndexFault};
use sarif_inputs::{Opening, index_sources, open_sources};
use sarif_options::Checks;
use sarif_policy::{Decimal, Rating};
use sarif_ratings::{RatedRun, own_ratings, rate_runs};
use sarif_runs::{OpenedRun, list_spots};
use std::alloc::{AllocError, Global};
use std::hash::RandomState;
use std::test::Fail;
use std::thread::Threads;

/// A log of two runs. The tool of the first has two rules with the id `A` and an extension; that of the second has no
/// rules.
const LOG: &str = r#"{"version":"2.1.0","runs":[{"results":[
    {"message":{"text":"m"},"ruleId":"B","properties":{"security-severity":"1"}},
    {"message":{"text":"m"},"ruleId":"A"},
    {"message":{"text":"m"},"ruleIndex":1},
    {"message":{"text":"m"},"rule":{"index":0,"toolComponent":{"index":0}}},
    {"message":{"text":"m"},"ruleId":"C"},
    {"message":{"text":"m"},"ruleId":"A","properties":{"security-severity":"high"}},
    {"message":{"text":"m"},"ruleId":"B","properties":{"security-severity":null}},
    {"message":{"text":"m"},"rule":{"index":0,"toolComponent":{"index":1}}}
    ],"tool":{"driver":{"name":"one","rules":[
    {"id":"A","properties":{"security-severity":"6"}},{"id":"B","properties":{"security-severity":"9.1"}},
    {"id":"A","properties":{"security-severity":"9"}}]},
    "extensions":[{"name":"x","rules":[{"id":"A","properties":{"security-severity":"8"}}]}]}},
    {"results":[{"message":{"text":"m"},"ruleId":"A"}],"tool":{"driver":{"name":"two"}}}]}"#;

/// `m` if a rating is missing, `u` if it is unknown, `h` if it is 7 or higher, and otherwise `l`.
fn letter_of(rating: &Rating, seven: &Decimal) -> char {
    match rating {
        Rating::Missing => 'm',
        Rating::Unknown => 'u',
        Rating::Number(number) => { if number.is_at_least(seven) { 'h' } else { 'l' } }
    }
}

/// The letters of what results say themselves, and then those of their ratings.
fn letters_by(
    alloc: Global,
    runs: &[OpenedRun<'_, '_>],
    rated: &[RatedRun<'_>],
    own: &[Rating],
    seven: &Decimal,
) -> Result<String, AllocError> {
    let mut letters = String::new(alloc);
    for rating in own {
        letters.push(letter_of(rating, seven))?;
    }
    letters.push(' ')?;
    let mut own = own.iter();
    for (opened, rules) in runs.iter().zip(rated) {
        for seq in 0..opened.len() {
            if let Some(own) = own.next() {
                let rating = rules.rating(own, &opened.rule_reference(seq));
                letters.push(letter_of(rating, seven))?;
            }
        }
    }
    Ok(letters)
}

/// Those letters for the results of these runs.
fn letters_of<R: Threads + Sync>(
    rt: &R,
    alloc: Global,
    runs: &[OpenedRun<'_, '_>],
) -> Result<String, Fail>
    requires { length runs.now ≤ most_runs }
{
    let Some(seven) = Decimal::read(alloc, "7.0")? else {
        return Err(Fail::new("7.0 is no decimal"));
    };
    let spots = list_spots(alloc, runs)?;
    let own = own_ratings(rt, alloc, runs, &spots, 2)?;
    let rated = rate_runs(alloc, runs)?;
    let letters = letters_by(alloc, runs, &rated, &own, &seven)?;
    Ok(letters)
}

/// Those letters for the results of the log with this index.
fn letters_indexed<R: Threads + Sync>(
    rt: &R,
    alloc: Global,
    seed: RandomState,
    indexes: &[Result<Index<'_>, IndexFault>],
) -> Result<String, Fail>
    requires { (logs : List (List ℕ)) × (baselines : List (List ℕ))
        × AreIndexesOf logs baselines indexes.now 1 }
{
    let checks = Checks::new(alloc);
    let opening = Opening {
        checks: &checks,
        seed,
    };
    match open_sources(rt, alloc, opening, indexes, 1, 1) {
        Ok(runs) => letters_of(rt, alloc, &runs.current),
        Err(_) => Err(Fail::new("not opened")),
    }
}

/// Those letters for the results of the log.
fn letters_read<R: Threads + Sync>(
    rt: &R,
    alloc: Global,
    seed: RandomState,
) -> Result<String, Fail> {
    let logs = vec![in alloc; LOG.as_bytes().to_vec(alloc)?]?;
    let mut scratches = vec![in alloc; Scratch::new(alloc)]?;
    let indexes = index_sources(rt, alloc, &logs, &[], &mut scratches, 1)?;
    letters_indexed(rt, alloc, seed, &indexes)
}

#[test]
fn a_result_has_its_own_rating_or_that_of_its_rule(rt: HostRuntime) -> Result<(), Fail> {
    let seed = RandomState::new(&rt)?;
    let letters = letters_read(&rt, rt.alloc(), seed)?;
    assert_eq!(rt; letters.as_str(), "lmmmmummm llhhmuhmm");
    Ok(())
}
