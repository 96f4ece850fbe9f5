//! The new suppression file.
ghost use Rattle.std.specs.Prelude.{◌≡◌, ◌≤◌, ◌<◌, ◌⊎◌, [], None, Some, count_by, if◌then◌else◌, length, map, IfOk, IfErr};
ghost use Rattle.std.specs.Option.{option_map_or};
ghost use Rattle.json_parts.specs.Indexed.{json_of};
ghost use Rattle.json_parts.specs.Mark.{without_mark};
ghost use Rattle.sarif_model.specs.declared.merge_fault.At.TheVariants.{Whole};
ghost use Rattle.sarif_model.specs.declared.merge_fault.Source.TheVariants.{Suppress};
ghost use Rattle.sarif_model.specs.FirstFault.{first};
ghost use Rattle.sarif_model.specs.declared.fault.Fault.TheVariants.{TooMany};
ghost use Rattle.sarif_model.specs.Limits.{most_entries, most_results};
ghost use Rattle.sarif_model.specs.MergeFault.{cause_of, fault_at, out_of_memory};
ghost use Rattle.sarif_accept.specs.Adding.{once_each};
ghost use Rattle.sarif_accept.specs.NewFile.{file_text};
ghost use Rattle.sarif_upkeep.specs.Internal.Making.{entries_of, file_of, rejected};
ghost use Rattle.sarif_upkeep.specs.Renewed.{text_faults};
ghost use Rattle.sarif_counts.specs.Hits.{count_if};
ghost use Rattle.sarif_upkeep.specs.Internal.IsMatched.{IsMatched};
ghost use Rattle.sarif_upkeep.specs.Merge.{Merge};
ghost use Rattle.sarif_upkeep.specs.ReadBack.{IsNewFile};
ghost use Rattle.sarif_upkeep.specs.Renewed as said;

use crate::accepting::{accepted_among, accepted_marked};
use crate::hiding::mark_looked_at;
use crate::leaving::left_by;
use crate::matched::{Current, Matched};
use crate::showing::{references, shown_if_less};
use crate::used::used_by;
use sarif_accept::{each_once, kept_entries, new_file};
use sarif_counts::NewFile;
use sarif_heard::heard_in;
use sarif_model::{At, Cause, MergeFault, Record, Refusal, Source, Text};
use sarif_options::Renewal;
use std::alloc::{AllocError, Global};
use std::hash::RandomState;

/// The rejection for a new suppression file that cannot be made.
fn rejection_of(refusal: Refusal<Cause>) -> MergeFault
    ensures { result ≡ rejected refusal }
{
    match refusal {
        Refusal::Fault(cause) => MergeFault::with_place(At::Whole(Source::Suppress), cause),
        Refusal::OutOfMemory => MergeFault::from(AllocError),
    }
}

/// Which entries of the suppression file are kept.
fn kept_in(
    alloc: Global,
    seed: RandomState,
    matched: &Matched<'_, '_, '_>,
    renewal: &Renewal,
) -> Result<Vec<bool>, AllocError>
    requires { (m : Merge) × IsMatched m matched.now }
    ensures kept { (m : Merge) → IsMatched m matched.now
        → IfOk result (λ kept. kept.items ≡ said.kept_in m renewal.now) }
    ensures count { IfOk result (λ kept. length kept.items ≡ length matched.now.file.now.entries) }
{
    let heard = heard_in(alloc, seed, matched.current.runs)?;
    let marks = used_by(alloc, matched.file, matched.current.drafts)?;
    kept_entries(alloc, matched.file, &marks, &heard, renewal.prune)
}

/// Returns the chosen hits that are accepted, if the gate checks only a change: those that aren't hidden.
fn accepted_shown<'m>(
    alloc: Global,
    matched: &Matched<'m, '_, '_>,
    hidden: &[bool],
) -> Result<Vec<&'m Record>, AllocError>
    requires { (m : Merge) × IsMatched m matched.now × (m.hidden ≡ Some hidden.now) }
    ensures accepted { (m : Merge) → IsMatched m matched.now → m.hidden ≡ Some hidden.now
        → IfOk result (λ accepted. map (λ r. r.now) accepted.items ≡ said.accepted_in m) }
    ensures few { IfOk result (λ accepted. length accepted.items ≤ most_results) }
{
    let marks = mark_looked_at(alloc, hidden, matched.chosen)?;
    let Current {
        records,
        drafts,
        states,
        ..
    } = matched.current;
    accepted_marked(alloc, matched.policy, records, drafts, states, &marks)
}

/// Returns the chosen hits that are accepted, if the gate checks all results.
fn accepted_all<'m>(
    alloc: Global,
    matched: &Matched<'m, '_, '_>,
) -> Result<Vec<&'m Record>, AllocError>
    requires { (m : Merge) × IsMatched m matched.now }
    ensures accepted { (m : Merge) → IsMatched m matched.now → m.hidden ≡ None
        → IfOk result (λ accepted. map (λ r. r.now) accepted.items ≡ said.accepted_in m) }
    ensures few { IfOk result (λ accepted. length accepted.items ≤ most_results) }
{
    let Current {
        records,
        drafts,
        states,
        ..
    } = matched.current;
    let policy = matched.policy;
    match matched.chosen {
        None => accepted_among(alloc, policy, records, drafts, states),
        Some(marks) => accepted_marked(alloc, policy, records, drafts, states, marks),
    }
}

/// Returns the chosen hits that are accepted, if hits are to be accepted.
fn accepted_if<'m>(
    alloc: Global,
    matched: &Matched<'m, '_, '_>,
    accept: bool,
) -> Result<Vec<&'m Record>, AllocError>
    requires { (m : Merge) × IsMatched m matched.now }
    ensures accepted { (m : Merge) → IsMatched m matched.now → IfOk result (λ accepted.
        map (λ r. r.now) accepted.items ≡ (if accept then said.accepted_in m else [])) }
    ensures few { IfOk result (λ accepted. length accepted.items ≤ most_results) }
{
    if !accept {
        return Ok(Vec::new(alloc));
    }
    match matched.hidden {
        None => accepted_all(alloc, matched),
        Some(hidden) => accepted_shown(alloc, matched, hidden),
    }
}

/// The results for which entries are added, of those that are accepted.
fn added_of<'m>(
    alloc: Global,
    seed: RandomState,
    accepted: &[&'m Record],
) -> Result<Vec<&'m Record>, MergeFault>
    ensures ok { IfOk result (λ added. map (λ r. r.now) added.items
        ≡ once_each [] (map (λ r. r.now) accepted.now)) }
    ensures few { IfOk result (λ added. length added.items ≤ most_entries) }
    ensures err { IfErr result (λ fault. (fault ≡ out_of_memory)
        ⊎ ((fault ≡ fault_at (Whole Suppress) (cause_of TooMany))
        × (most_entries < length (once_each [] (map (λ r. r.now) accepted.now))))) }
{
    match each_once(alloc, seed, accepted) {
        Ok(added) => Ok(added),
        Err(refusal) => Err(rejection_of(refusal)),
    }
}

/// The results for which entries are added: those that are shown, if some are shown, otherwise those that are accepted.
fn added_shown<'m>(
    alloc: Global,
    seed: RandomState,
    accepted: &[&'m Record],
    shown: &'m Option<Vec<Record>>,
) -> Result<Vec<&'m Record>, MergeFault>
    ensures ok { IfOk result (λ added. map (λ r. r.now) added.items ≡ once_each []
        (option_map_or (λ v. v.items) shown.now (map (λ r. r.now) accepted.now))) }
    ensures few { IfOk result (λ added. length added.items ≤ most_entries) }
    ensures err { IfErr result (λ fault. (fault ≡ out_of_memory)
        ⊎ ((fault ≡ fault_at (Whole Suppress) (cause_of TooMany))
        × (most_entries < length (once_each []
        (option_map_or (λ v. v.items) shown.now (map (λ r. r.now) accepted.now)))))) }
{
    match shown {
        None => added_of(alloc, seed, accepted),
        Some(records) => added_of(alloc, seed, &references(alloc, records)?),
    }
}

/// The text of the new suppression file with these entries.
#[tactic(auto, using(crate::proofs::Causes::no_faults, crate::proofs::Causes::some_fault))]
fn text_of(
    alloc: Global,
    bytes: Option<&[u8]>,
    kept: &[bool],
    added: &[&Record],
    renewal: &Renewal,
) -> Result<Text, MergeFault>
    ensures text { IfOk result
        (λ t. t ≡ file_text (file_of bytes.entry kept.now added.now renewal.now)) }
    ensures sound { IfOk result (λ _.
        text_faults (entries_of bytes.entry kept.now added.now renewal.now)
        (file_of bytes.entry kept.now added.now renewal.now) ≡ []) }
    ensures reads { IfOk result (λ t. json_of (without_mark t)
        ≡ Some (file_of bytes.entry kept.now added.now renewal.now)) }
    ensures err { IfErr result (λ fault. (fault ≡ out_of_memory)
        ⊎ (first (text_faults (entries_of bytes.entry kept.now added.now renewal.now)
        (file_of bytes.entry kept.now added.now renewal.now)) ≡ Some fault)) }
{
    match new_file(alloc, bytes, kept, added, renewal) {
        Ok(text) => Ok(Text::from_string(text)?),
        Err(refusal) => Err(rejection_of(refusal)),
    }
}

/// How many of these are true.
fn count_kept(kept: &[bool]) -> usize
    ensures count { result ≡ count_by (λ one. one) kept.now }
    ensures few { result ≤ length kept.now }
{
    kept.iter().filter(|one| **one).count()
}

/// Returns the new suppression file of a merge, which is read as it is defined. It is rejected if it has more entries
/// or bytes than a suppression file may have.
pub(crate) fn renew(
    alloc: Global,
    seed: RandomState,
    matched: &Matched<'_, '_, '_>,
    renewal: &Renewal,
) -> Result<NewFile, MergeFault>
    requires { (m : Merge) × IsMatched m matched.now }
    ensures made { (m : Merge) → IsMatched m matched.now
        → IfOk result (λ file. file ≡ said.renewed m renewal.now) }
    ensures reads { (m : Merge) → IsMatched m matched.now
        → IfOk result (λ file. IsNewFile m renewal.now file.text) }
    ensures sound { (m : Merge) → IsMatched m matched.now
        → IfOk result (λ _. said.renewal_faults m renewal.now ≡ []) }
    ensures refused { (m : Merge) → IsMatched m matched.now → IfErr result (λ fault.
        (fault ≡ out_of_memory) ⊎ (first (said.renewal_faults m renewal.now) ≡ Some fault)) }
{
    let kept = kept_in(alloc, seed, matched, renewal)?;
    let accepted = accepted_if(alloc, matched, renewal.accept)?;
    let shown = shown_if_less(alloc, matched.matching, &accepted)?;
    let added = added_shown(alloc, seed, &accepted, &shown)?;
    let text = text_of(alloc, matched.bytes, &kept, &added, renewal)?;
    let left = left_by(alloc, seed, matched, &added, renewal)?;
    let all = matched.file.len();
    let count = count_kept(&kept) as u32;
    Ok(NewFile {
        text,
        accepted: accepted.len() as u32,
        alike: left.alike,
        stay: left.stay,
        pruned: all - count,
        entries: count + added.len() as u32,
    })
}
