//! The rules of a tool component, rated.
ghost use Rattle.std.specs.Prelude.{◌≡◌, ℕ, List, Some, None, codes, map, option_map, option_and_then, slice_get, IfOk, OnOk, if◌then◌else◌};
ghost use Rattle.std.specs.Option.{option_or};
ghost use Rattle.serde_json.specs.View.{view};
ghost use Rattle.sarif_findings.specs.Located.{own_id_at};
ghost use Rattle.sarif_findings.specs.Lookup as lookup;
ghost use Rattle.sarif_model.specs.Members.{text_in};
ghost use Rattle.sarif_ratings.specs.Internal.Tables.{first_number, number_at};
ghost use Rattle.sarif_ratings.specs.Ratings as said;

use sarif_model::RuleReference;
use sarif_policy::{Rating, rating_of};
use serde_json::Value;
use std::alloc::{AllocError, Global};
use std::collections::BTreeMap;
use std::marker::Model;

/// The rules of a tool component with their ratings, and the number of the first with each id (SARIF 2.1.0,
/// "toolComponent object"). Contracts see their list.
#[derive(Drop)]
pub(crate) struct RatedRules<'r> {
    rules: &'r [Value],
    ratings: Vec<Rating>,
    first: BTreeMap<&'r str, usize>,
    /// The rating if there is no rule.
    missing: Rating,
}

impl<'r> Model for RatedRules<'r> {
    ghost use Rattle.std.specs.Prelude.{◌≡◌, ℕ, List, map};
    ghost use Rattle.std.specs.Coded.{codes};
    ghost use Rattle.serde_json.specs.contracts.value.Value as json;
    ghost use Rattle.serde_json.specs.declared.value.Value.{Value as Json};
    ghost use Rattle.serde_json.specs.View.{view as seen};
    ghost use Rattle.sarif_policy.specs.declared.rating.Rating.TheVariants.{Missing};
    ghost use Rattle.sarif_ratings.specs.Internal.Tables.{first_number, number_at};
    ghost use Rattle.sarif_ratings.specs.Ratings.{own_rating};

    ghost Value = { List Json };

    ghost coded = { Prim.hlevel (codes, json.the_row.coded) };

    ghost view = { λ rated. rated.rules.now };

    ghost invariant = { λ rated. (rated.ratings.items
        ≡ map own_rating (map seen rated.rules.now))
        × ((id : List ℕ) → number_at rated.first id
        ≡ first_number id 0 (map seen rated.rules.now))
        × (rated.missing ≡ Missing) };
}

/// What each of these rules says.
fn rate_each(alloc: Global, rules: &[Value]) -> Result<Vec<Rating>, AllocError>
    ensures { IfOk result (λ ratings. ratings.items ≡ map said.own_rating (map view rules.now)) }
{
    let mut ratings = Vec::with_capacity(alloc, rules.len())?;
    for rule in rules {
        ratings.push(rating_of(alloc, rule, None)?)?;
    }
    Ok(ratings)
}

/// The string `id` of a rule.
fn id_of(rule: &Value) -> Option<&str>
    ensures { option_map (λ id. id.now) result ≡ text_in (codes "id") (view rule.now) }
{
    rule.get("id")?.as_str()
}

/// Puts the number of a rule at its id, where none is there yet.
fn add_first<'r>(
    first: &mut BTreeMap<&'r str, usize>,
    rule: &'r Value,
    number: usize,
) -> Result<(), AllocError>
    ensures { OnOk result ((id : List ℕ) → number_at first.new id
        ≡ option_or (number_at first.old id)
        (if lookup.has_id id (view rule.now) then Some number else None)) }
{
    let Some(id) = id_of(rule) else {
        return Ok(());
    };
    if !first.contains_key(id) {
        first.insert(id, number)?;
    }
    Ok(())
}

/// The number of the first rule with each id.
fn first_numbers<'r>(
    alloc: Global,
    rules: &'r [Value],
) -> Result<BTreeMap<&'r str, usize>, AllocError>
    ensures { IfOk result (λ first. (id : List ℕ)
        → number_at first id ≡ first_number id 0 (map view rules.now)) }
{
    let mut first = BTreeMap::new(alloc);
    for (number, rule) in rules.iter().enumerate() {
        add_first(&mut first, rule, number)?;
    }
    Ok(first)
}

impl<'r> RatedRules<'r> {
    pub(crate) fn new(alloc: Global, rules: &'r [Value]) -> Result<RatedRules<'r>, AllocError>
        ensures { IfOk result (λ rated. rated ≡ rules.now) }
    {
        let ratings = rate_each(alloc, rules)?;
        let first = first_numbers(alloc, rules)?;
        Ok(RatedRules {
            rules,
            ratings,
            first,
            missing: Rating::Missing,
        })
    }

    /// The number of the rule that a result refers to; it may be past the end.
    fn number_of(&self, reference: &RuleReference<'_>) -> Option<usize>
        ensures { option_and_then (slice_get (map view self.now)) result
            ≡ lookup.rule_by reference.now.index (own_id_at reference.now) (map view self.now) }
    {
        match reference.index {
            Some(index) => Some(index as usize),
            None => self.first.get(reference.id?).copied(),
        }
    }

    /// The rating of the rule of that number.
    fn rating_at(&self, number: usize) -> &Rating
        ensures { result.now ≡ said.rule_rating (slice_get (map view self.now) number) }
    {
        match self.ratings.get(number) {
            Some(rating) => rating,
            None => &self.missing,
        }
    }

    /// The rating of the rule that a result refers to. Takes no search through the rules.
    pub(crate) fn named_by(&self, reference: &RuleReference<'_>) -> &Rating
        ensures { result.now ≡ said.rule_rating (lookup.rule_by reference.now.index
            (own_id_at reference.now) (map view self.now)) }
    {
        match self.number_of(reference) {
            Some(number) => self.rating_at(number),
            None => &self.missing,
        }
    }
}
