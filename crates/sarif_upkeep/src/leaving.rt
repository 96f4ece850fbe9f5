//! How many hits are alike, and how many stay.
ghost use Rattle.std.specs.Prelude.{◌≡◌, ◌≤◌, ◌+◌, Some, None, length, map, option_map, IfOk};
ghost use Rattle.sarif_model.specs.Limits.{most_entries};
ghost use Rattle.sarif_counts.specs.Hits.{count_if};
ghost use Rattle.sarif_accept.specs.Adding.{may_hit};
ghost use Rattle.sarif_upkeep.specs.Internal.IsMatched.{IsMatched};
ghost use Rattle.sarif_upkeep.specs.Merge.{records_shown, shown_by, states_shown, Merge};
ghost use Rattle.sarif_upkeep.specs.Renewed as said;

use crate::matched::{Current, Matched};
use crate::others::{Counting, Others, count_others};
use crate::staying::{absent_hits, staying_among};
use sarif_accept::rules_added;
use sarif_model::Record;
use sarif_options::Renewal;
use std::alloc::{AllocError, Global};
use std::hash::RandomState;

/// How many hits are alike, if not all hits are chosen, and how many stay.
#[derive(Clone, Copy)]
pub(crate) struct Left {
    pub(crate) alike: Option<u32>,
    pub(crate) stay: u32,
}

/// Where no hits are to be accepted.
fn none_left(chosen: Option<&[bool]>) -> Left
    ensures alike { result.alike ≡ option_map (λ _. 0) chosen.entry }
    ensures stay { result.stay ≡ 0 }
{
    let alike = match chosen {
        None => None,
        Some(_) => Some(0),
    };
    Left { alike, stay: 0 }
}

/// How many hits are alike and how many current hits stay, if only the marked ones are chosen.
fn left_of_marked(
    alloc: Global,
    seed: RandomState,
    matched: &Matched<'_, '_, '_>,
    marks: &[bool],
    added: &[&Record],
    renewal: &Renewal,
) -> Result<Others, AllocError>
    requires matched { (m : Merge) × IsMatched m matched.now }
    requires marks { length marks.now ≡ length matched.now.current.records.now }
    requires added { length added.now ≤ most_entries }
    ensures alike { (m : Merge) → IsMatched m matched.now
        → map (λ r. r.now) added.now ≡ said.added_in m renewal.now
        → IfOk result
        (λ others. others.alike ≡ said.alike_in m renewal.now (shown_by m.hidden marks.now)) }
    ensures left { (m : Merge) → IsMatched m matched.now
        → map (λ r. r.now) added.now ≡ said.added_in m renewal.now
        → IfOk result (λ others. others.left
        ≡ said.current_stay m renewal.now (Some (shown_by m.hidden marks.now))) }
    ensures few { IfOk result
        (λ others. others.alike + others.left ≤ length matched.now.current.records.now) }
{
    let rules = rules_added(alloc, seed, added, renewal, matched.file.today())?;
    let counting = Counting {
        policy: matched.policy,
        hidden: matched.hidden,
        added: &rules,
    };
    let Current {
        records,
        drafts,
        states,
        ..
    } = matched.current;
    count_others(alloc, &counting, records, drafts, states, marks)
}

/// How many current hits stay, if all hits are chosen.
fn left_of_all(matched: &Matched<'_, '_, '_>) -> usize
    requires { (m : Merge) × IsMatched m matched.now }
    ensures count { (m : Merge) → IsMatched m matched.now
        → result ≡ said.staying_among (may_hit m.policy) m.file
        (records_shown m) (states_shown m) }
    ensures few { result ≤ length matched.now.current.records.now }
{
    let Current {
        records,
        drafts,
        states,
        ..
    } = matched.current;
    staying_among(matched.policy, records, drafts, states, matched.hidden)
}

/// Returns how many results of the baselines are hits by the options: none with a change.
fn absent_by_options(matched: &Matched<'_, '_, '_>) -> usize
    requires { (m : Merge) × IsMatched m matched.now }
    ensures count { (m : Merge) → IsMatched m matched.now → result ≡ said.absent_by m.hidden
        (said.absent_hits (may_hit m.policy) m.file m.known m.taken) }
    ensures few { result ≤ length matched.now.before.records.now }
{
    match matched.hidden {
        None => absent_hits(matched.policy, matched.before.records, matched.before.taken),
        Some(_) => 0,
    }
}

/// Returns how many hits among results of the baselines stay.
fn absent_stay(matched: &Matched<'_, '_, '_>) -> usize
    requires { (m : Merge) × IsMatched m matched.now }
    ensures count { (m : Merge) → IsMatched m matched.now → result ≡ said.absent_stay m }
    ensures few { result ≤ length matched.now.before.records.now }
{
    match matched.absent {
        None => absent_by_options(matched),
        Some(hits) => hits as usize,
    }
}

/// Returns how many hits are alike, and how many stay, with the entries of these results.
pub(crate) fn left_by(
    alloc: Global,
    seed: RandomState,
    matched: &Matched<'_, '_, '_>,
    added: &[&Record],
    renewal: &Renewal,
) -> Result<Left, AllocError>
    requires matched { (m : Merge) × IsMatched m matched.now }
    requires added { length added.now ≤ most_entries }
    ensures alike { (m : Merge) → IsMatched m matched.now
        → map (λ r. r.now) added.now ≡ said.added_in m renewal.now
        → IfOk result (λ left. left.alike ≡ said.alike_told m renewal.now) }
    ensures stay { (m : Merge) → IsMatched m matched.now
        → map (λ r. r.now) added.now ≡ said.added_in m renewal.now
        → IfOk result
        (λ left. left.stay ≡ count_if renewal.now.accept (said.stay_in m renewal.now)) }
{
    if !renewal.accept {
        return Ok(none_left(matched.chosen));
    }
    let absent = absent_stay(matched);
    match matched.chosen {
        None => Ok(Left {
            alike: None,
            stay: (left_of_all(matched) + absent) as u32,
        }),
        Some(marks) => {
            let others = left_of_marked(alloc, seed, matched, marks, added, renewal)?;
            Ok(Left {
                alike: Some(others.alike as u32),
                stay: (others.left + absent) as u32,
            })
        }
    }
}
