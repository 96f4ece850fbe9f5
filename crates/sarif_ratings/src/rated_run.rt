//! A run whose rules are rated.
ghost use Rattle.std.specs.Prelude.{◌≡◌, codes, map, option_map, slice_get, IfOk};
ghost use Rattle.serde_json.specs.Data.{Data};
ghost use Rattle.serde_json.specs.Find.{get};
ghost use Rattle.serde_json.specs.View.{view};
ghost use Rattle.sarif_findings.specs.Internal.RulesOf.{extensions_of, rules_in, rules_of};
ghost use Rattle.sarif_findings.specs.Located.{descriptor_at};
ghost use Rattle.sarif_findings.specs.Lookup as lookup;
ghost use Rattle.sarif_model.specs.Internal.References.{IsRuleReference};
ghost use Rattle.sarif_read.specs.Internal.Bare.{bare};
ghost use Rattle.sarif_runs.specs.Internal.Opened.{placed_of};
ghost use Rattle.sarif_ratings.specs.Ratings as said;

use crate::rules::RatedRules;
use sarif_findings::{driver_of, elements_in};
use sarif_model::RuleReference;
use sarif_policy::Rating;
use sarif_runs::OpenedRun;
use serde_json::Value;
use std::alloc::{AllocError, Global};
use std::marker::Model;

/// A run whose rules are rated, each of them once (SARIF 2.1.0, "run object"). Contracts see the run.
#[derive(Drop)]
pub struct RatedRun<'r> {
    run: &'r Value,
    driver: RatedRules<'r>,
    extensions: Vec<RatedRules<'r>>,
    /// The rating if there is no such extension.
    missing: Rating,
}

impl<'r> Model for RatedRun<'r> {
    ghost use Rattle.std.specs.Prelude.{◌≡◌, codes, map};
    ghost use Rattle.std.specs.Coded.{codes as coded_by};
    ghost use Rattle.serde_json.specs.Find.{get};
    ghost use Rattle.serde_json.specs.contracts.value.Value as json;
    ghost use Rattle.serde_json.specs.declared.value.Value.{Value as Json};
    ghost use Rattle.serde_json.specs.View.{view as seen};
    ghost use Rattle.sarif_findings.specs.Lookup.{driver_of};
    ghost use Rattle.sarif_findings.specs.Internal.RulesOf.{extensions_of, rules_in, rules_of};
    ghost use Rattle.sarif_policy.specs.declared.rating.Rating.TheVariants.{Missing};

    ghost Value = { Json };

    ghost coded = { Prim.hlevel (coded_by, json.the_row.coded) };

    ghost view = { λ rated. rated.run.now };

    ghost invariant = { λ rated. (map seen rated.driver
        ≡ rules_of (driver_of (seen rated.run.now)))
        × (map (map seen) rated.extensions.items
        ≡ map rules_in (extensions_of (get (codes "tool") (seen rated.run.now))))
        × (rated.missing ≡ Missing) };
}

/// The rules of the driver of a run's tool.
fn driver_rules<'r>(run: &'r Value) -> &'r [Value]
    ensures { map view result.now ≡ rules_of (lookup.driver_of (view run.now)) }
{
    match driver_of(run) {
        Some(driver) => elements_in(driver, "rules"),
        None => &[],
    }
}

/// The extensions of a run's tool.
fn extensions_in<'r>(run: &'r Value) -> &'r [Value]
    ensures { map view result.now ≡ extensions_of (get (codes "tool") (view run.now)) }
{
    match run.get("tool") {
        Some(tool) => elements_in(tool, "extensions"),
        None => &[],
    }
}

/// The rated rules of each of these components.
fn rate_components<'r>(
    alloc: Global,
    components: &'r [Value],
) -> Result<Vec<RatedRules<'r>>, AllocError>
    ensures { IfOk result
        (λ made. map (map view) made.items ≡ map rules_in (map view components.now)) }
{
    let mut made = Vec::with_capacity(alloc, components.len())?;
    for component in components {
        made.push(RatedRules::new(alloc, elements_in(component, "rules"))?)?;
    }
    Ok(made)
}

/// The rated rules of the component of that number.
fn rules_at<'s, 'r>(components: &'s [RatedRules<'r>], index: u64) -> Option<&'s RatedRules<'r>>
    ensures { option_map (λ rules. rules.now) result ≡ slice_get components.now index }
{
    components.get(index as usize)
}

impl<'r> RatedRun<'r> {
    /// Rates the rules of a run. Returns `AllocError` if memory runs out.
    pub fn new(alloc: Global, run: &'r Value) -> Result<RatedRun<'r>, AllocError>
        ensures { IfOk result (λ rated. rated ≡ run.now) }
    {
        let driver = RatedRules::new(alloc, driver_rules(run))?;
        let extensions = rate_components(alloc, extensions_in(run))?;
        Ok(RatedRun {
            run,
            driver,
            extensions,
            missing: Rating::Missing,
        })
    }

    /// The rating of the rule that a result refers to. Takes no search through the rules.
    fn rule_rating(&self, rule: &RuleReference<'_>) -> &Rating
        ensures { result.now ≡ said.rule_rating (descriptor_at (view self.now) rule.now) }
    {
        match rule.extension {
            None => self.driver.named_by(rule),
            Some(index) => match rules_at(self.extensions.as_slice(), index) {
                Some(rules) => rules.named_by(rule),
                None => &self.missing,
            },
        }
    }

    /// Returns the rating of a result of the run: its own, if it isn't missing, otherwise that of its rule. `own` is what
    /// the result says itself, and `rule` how it refers to its rule.
    pub fn rating<'s>(&'s self, own: &'s Rating, rule: &RuleReference<'_>) -> &'s Rating
        ensures { (found : Data) → own.now ≡ said.own_rating found
            → IsRuleReference rule.now found
            → result.now ≡ said.rating_in (view self.now) found }
    {
        match own {
            Rating::Missing => self.rule_rating(rule),
            _ => own,
        }
    }
}

/// These runs with their rules rated; contracts see them without their results.
fn rate_bare<'w>(
    alloc: Global,
    runs: &'w [OpenedRun<'_, '_>],
) -> Result<Vec<RatedRun<'w>>, AllocError>
    ensures { IfOk result
        (λ rated. map view rated.items ≡ map (λ run. bare (placed_of run).run) runs.now) }
{
    let mut rated = Vec::with_capacity(alloc, runs.len())?;
    for opened in runs {
        rated.push(RatedRun::new(alloc, opened.bare())?)?;
    }
    Ok(rated)
}

/// Returns these runs with their rules rated. Returns `AllocError` if memory runs out.
pub fn rate_runs<'w>(
    alloc: Global,
    runs: &'w [OpenedRun<'_, '_>],
) -> Result<Vec<RatedRun<'w>>, AllocError>
    ensures { IfOk result
        (λ rated. (found : Data) → map (λ run. said.rating_in (view run) found) rated.items
        ≡ map (λ run. said.rating_in (placed_of run).run found) runs.now) }
{
    let rated = rate_bare(alloc, runs)?;
    Ok(rated)
}
