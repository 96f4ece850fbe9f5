//! Which hits are chosen.
ghost use Rattle.std.specs.Prelude.{◌≡◌, None, Some, IfOk, map};
ghost use Rattle.sarif_model.specs.Internal.Refusal.{IfFault};
ghost use Rattle.sarif_choice.specs.Choice as said;
ghost use Rattle.sarif_choice.specs.Internal.Tables.{names_by, HasTexts};

use crate::choice::{Choice, Unfit};
use crate::names::{Naming, all_names, names_of};
use crate::tables::{Table, first_missing, has_one, table_of};
use sarif_findings::Finding;
use sarif_model::{Refusal, Text};
use std::alloc::{AllocError, Global};
use std::hash::RandomState;

/// Whether no string is given, or one of them fits the hit. The table has the strings.
fn fits_one(
    alloc: Global,
    naming: Naming,
    texts: &[Text],
    table: &Table,
    hit: &Finding,
) -> Result<bool, AllocError>
    requires { HasTexts table.now texts.now }
    ensures { IfOk result (λ fits. fits ≡ said.fits_one (names_by naming) texts.now hit.now) }
{
    if texts.is_empty() {
        return Ok(true);
    }
    let names = names_of(alloc, naming, hit)?;
    Ok(has_one(table, &names))
}

/// Whether a hit is chosen. The tables have the places and the rules.
fn is_chosen(
    alloc: Global,
    choice: &Choice,
    places: &Table,
    rules: &Table,
    hit: &Finding,
) -> Result<bool, AllocError>
    requires places { HasTexts places.now choice.now.places }
    requires rules { HasTexts rules.now choice.now.rules }
    ensures { IfOk result (λ chosen. chosen ≡ said.is_chosen choice.now hit.now) }
{
    if !fits_one(alloc, Naming::Places, choice.places.as_slice(), places, hit)? {
        return Ok(false);
    }
    fits_one(alloc, Naming::Rules, choice.rules.as_slice(), rules, hit)
}

/// Which hits are chosen.
#[derive(Drop)]
struct Picked<'h> {
    /// For each hit whether it is chosen.
    marks: Vec<bool>,
    /// The chosen hits.
    hits: Vec<&'h Finding>,
}

/// Returns which hits are chosen. The tables have the places and the rules.
fn pick<'h>(
    alloc: Global,
    choice: &Choice,
    places: &Table,
    rules: &Table,
    hits: &'h [Finding],
) -> Result<Picked<'h>, AllocError>
    requires places { HasTexts places.now choice.now.places }
    requires rules { HasTexts rules.now choice.now.rules }
    ensures marks { IfOk result
        (λ picked. picked.marks.items ≡ map (said.is_chosen choice.now) hits.now) }
    ensures hits { IfOk result
        (λ picked. map (λ hit. hit.now) picked.hits.items ≡ said.chosen_of choice.now hits.now) }
{
    let mut marks = Vec::with_capacity(alloc, hits.len())?;
    let mut chosen = Vec::new(alloc);
    for hit in hits {
        let mark = is_chosen(alloc, choice, places, rules, hit)?;
        marks.push(mark)?;
        if mark {
            chosen.push(hit)?;
        }
    }
    Ok(Picked {
        marks,
        hits: chosen,
    })
}

/// Returns which hits are chosen, by tables of the places and the rules.
fn picked_of<'h>(
    alloc: Global,
    seed: RandomState,
    choice: &Choice,
    hits: &'h [Finding],
) -> Result<Picked<'h>, AllocError>
    ensures marks { IfOk result
        (λ picked. picked.marks.items ≡ map (said.is_chosen choice.now) hits.now) }
    ensures hits { IfOk result
        (λ picked. map (λ hit. hit.now) picked.hits.items ≡ said.chosen_of choice.now hits.now) }
{
    let places = table_of(alloc, seed, choice.places.as_slice())?;
    let rules = table_of(alloc, seed, choice.rules.as_slice())?;
    pick(alloc, choice, &places, &rules, hits)
}

/// The number of the first string that fits none of these hits.
fn first_unfit(
    alloc: Global,
    seed: RandomState,
    naming: Naming,
    texts: &[Text],
    hits: &[&Finding],
) -> Result<Option<usize>, AllocError>
    ensures { IfOk result (λ number. number
        ≡ said.unfit_among (names_by naming) texts.now (map (λ hit. hit.now) hits.now)) }
{
    let names = all_names(alloc, naming, hits)?;
    let table = table_of(alloc, seed, &names)?;
    Ok(first_missing(&table, texts))
}

/// The first place that fits none of these chosen hits, otherwise the first such rule.
fn unfit_of(
    alloc: Global,
    seed: RandomState,
    choice: &Choice,
    chosen: &[&Finding],
) -> Result<Option<Unfit>, AllocError>
    ensures { IfOk result (λ unfit. unfit
        ≡ said.unfit_in choice.now (map (λ hit. hit.now) chosen.now)) }
{
    let places = choice.places.as_slice();
    if let Some(number) = first_unfit(alloc, seed, Naming::Places, places, chosen)? {
        return Ok(Some(Unfit::Place(number)));
    }
    let rules = choice.rules.as_slice();
    match first_unfit(alloc, seed, Naming::Rules, rules, chosen)? {
        Some(number) => Ok(Some(Unfit::Rule(number))),
        None => Ok(None),
    }
}

/// The first place that fits no chosen hit, otherwise the first such rule. These hits were picked.
fn unfit_by(
    alloc: Global,
    seed: RandomState,
    choice: &Choice,
    hits: &[Finding],
    picked: &Picked<'_>,
) -> Result<Option<Unfit>, AllocError>
    requires { map (λ hit. hit.now) picked.now.hits.items ≡ said.chosen_of choice.now hits.now }
    ensures { IfOk result (λ unfit. unfit ≡ said.unfit_of choice.now hits.now) }
{
    let unfit = unfit_of(alloc, seed, choice, &picked.hits)?;
    Ok(unfit)
}

/// Returns for each hit whether it is chosen: whether one of the places fits it, if any is given, and one of the rules.
/// Tables of names hash with `seed`, on which the result doesn't depend. Returns the first place that fits no chosen
/// hit, otherwise the first such rule, and `OutOfMemory` if memory runs out.
pub fn choose(
    alloc: Global,
    seed: RandomState,
    choice: &Choice,
    hits: &[Finding],
) -> Result<Vec<bool>, Refusal<Unfit>>
    ensures ok { IfOk result
        (λ marks. marks.items ≡ map (said.is_chosen choice.now) hits.now) }
    ensures all_fit { IfOk result (λ _. said.unfit_of choice.now hits.now ≡ None) }
    ensures err { IfFault result (λ unfit. said.unfit_of choice.now hits.now ≡ Some unfit) }
{
    let picked = picked_of(alloc, seed, choice, hits)?;
    let unfit = unfit_by(alloc, seed, choice, hits, &picked)?;
    match unfit {
        Some(unfit) => Err(Refusal::Fault(unfit)),
        None => Ok(picked.marks),
    }
}
