//! What matching makes of the results.
ghost use Rattle.std.specs.Prelude.{◌≡◌, ◌+◌, ◌≤◌, length, map, Some, IfOk};
ghost use Rattle.std.specs.List.{range_with_len};
ghost use Rattle.sarif_match.specs.Partners.{is_taken};
ghost use Rattle.sarif_known.specs.Standing.{standing_of};
ghost use Rattle.sarif_log.specs.LogBy.{partner_in, states_of, taken_of};
ghost use Rattle.sarif_prepare.specs.Kept.{standings_from, standings_of};
ghost use Rattle.sarif_model.specs.Limits.{most_results};

use sarif_evidence::MatchingVersion;
use sarif_known::{Standing, standing_of};
use sarif_match::{Matching, match_all_in};
use sarif_model::{Record, State};
use sarif_options::Options;
use sarif_share::{Sharing, join_lists, share_parts};
use std::alloc::{AllocError, Global};
use std::thread::Threads;

/// For fewer results it is not worth starting another thread.
const LEAST_SHARED: usize = 8192;

/// What matching says about each current result, and whether each baseline result is the match of a current result.
#[derive(Drop)]
pub(crate) struct MatchedStates {
    pub(crate) standings: Vec<Standing>,
    /// The states of these, each as one that is there.
    pub(crate) states: Vec<Option<State>>,
    pub(crate) taken: Vec<bool>,
}

/// What matching says about a current result with this match.
fn standing_beside(
    version: MatchingVersion,
    record: &Record,
    baseline: &[Record],
    partner: Option<u32>,
) -> Standing
    ensures { result ≡ standing_of version «record».now (partner_in baseline.now partner) }
{
    match partner {
        Some(number) => standing_of(version, record, baseline.get(number as usize)),
        None => standing_of(version, record, None),
    }
}

/// The matches of current results in a version, and the baseline results that they name.
#[derive(Clone, Copy)]
struct Matches<'m> {
    version: MatchingVersion,
    baseline: &'m [Record],
    matching: &'m Matching,
}

/// What matching says about some current results, the first of them with number `first`.
fn standings_in_turn(
    alloc: Global,
    matches: Matches<'_>,
    first: usize,
    current: &[Record],
) -> Result<Vec<Standing>, AllocError>
    requires { first + length current.now ≤ most_results }
    ensures { IfOk result (λ standings. standings.items ≡ standings_from matches.entry.version
        matches.entry.baseline.now matches.entry.matching.now first current.now) }
{
    let mut standings = Vec::with_capacity(alloc, current.len())?;
    let mut number = first as u32;
    for record in current {
        let partner = matches.matching.partner(number);
        standings.push(standing_beside(matches.version, record, matches.baseline, partner))?;
        number += 1;
    }
    Ok(standings)
}

/// What matching says about each current result, in at most `threads` threads, this one among them.
fn list_standings<R: Threads + Sync>(
    rt: &R,
    alloc: Global,
    matches: Matches<'_>,
    current: &[Record],
    threads: u32,
) -> Result<Vec<Standing>, AllocError>
    requires { length current.now ≤ most_results }
    ensures { IfOk result (λ standings. standings.items ≡ standings_from matches.entry.version
        matches.entry.baseline.now matches.entry.matching.now 0 current.now) }
{
    let sharing = Sharing {
        rt,
        alloc,
        threads,
        least: LEAST_SHARED,
    };
    let part = move |start: usize, some: &[Record]| -> Result<Vec<Standing>, AllocError>
        requires { start + length some.now ≤ most_results }
        ensures { IfOk result (λ standings. standings.items ≡ standings_from matches.entry.version
            matches.entry.baseline.now matches.entry.matching.now start some.now) }
    { standings_in_turn(alloc, matches, start, some) };
    let lists = share_parts(&sharing, current, &part)?;
    let standings = join_lists(alloc, current.len(), lists)?;
    Ok(standings)
}

/// Returns, for each of the given number of baseline results, whether it is matched.
fn list_taken(alloc: Global, count: u32, matching: &Matching) -> Result<Vec<bool>, AllocError>
    ensures { IfOk result
        (λ taken. taken.items ≡ map (is_taken matching.now) (range_with_len 0 count)) }
{
    let mut taken = Vec::with_capacity(alloc, count as usize)?;
    for number in 0..count {
        taken.push(matching.taken(number))?;
    }
    Ok(taken)
}

/// The states of these standings, each as one that is there.
fn list_states(alloc: Global, standings: &[Standing]) -> Result<Vec<Option<State>>, AllocError>
    ensures { IfOk result
        (λ states. states.items ≡ map (λ standing. Some standing.state) standings.now) }
{
    let mut states = Vec::with_capacity(alloc, standings.len())?;
    for standing in standings {
        states.push(Some(standing.state))?;
    }
    Ok(states)
}

/// Matches the results of all logs with those of all baselines by the version of the options, with tables that hash
/// with their seed. States are found in as many threads as there are workers, and this one.
pub(crate) fn match_records<R: Threads + Sync>(
    rt: &R,
    alloc: Global,
    options: &Options,
    current: &[Record],
    baseline: &[Record],
) -> Result<MatchedStates, AllocError>
    requires current { length current.now ≤ most_results }
    requires baseline { length baseline.now ≤ most_results }
    ensures standings { IfOk result (λ matched. matched.standings.items
        ≡ standings_of options.now.checks.matching current.now baseline.now) }
    ensures states { IfOk result (λ matched. matched.states.items
        ≡ map Some (states_of options.now.checks.matching current.now baseline.now)) }
    ensures taken { IfOk result (λ matched. matched.taken.items
        ≡ taken_of options.now.checks.matching current.now baseline.now) }
{
    let version = options.checks.matching;
    let matching = match_all_in(alloc, options.seed, current, baseline, version)?;
    let matches = Matches {
        version,
        baseline,
        matching: &matching,
    };
    let standings = list_standings(rt, alloc, matches, current, options.workers + 1)?;
    let states = list_states(alloc, &standings)?;
    let taken = list_taken(alloc, baseline.len() as u32, &matching)?;
    Ok(MatchedStates {
        standings,
        states,
        taken,
    })
}
