//! The rules of a list's results, with the number of results of each.
ghost use Rattle.std.specs.Prelude.{◌≡◌, ◌<◌, ◌≤◌, ◌+◌, ◌^◌, ◌++◌, ◌∷◌, [], List, IfOk, OnOk, take, map, length, if◌then◌else◌};
ghost use Rattle.std.specs.List.{filter, insert};
ghost use Rattle.sarif_findings.specs.declared.finding.Finding.{Finding as Told};
ghost use Rattle.sarif_page.specs.declared.rules.RuleKey.{RuleKey as Key};
ghost use Rattle.sarif_page.specs.HtmlRules as said;
ghost use Rattle.sarif_page.specs.Internal.ByFile.{findings_in};
ghost use Rattle.sarif_page.specs.Internal.Rules.{AreCounted, IsTally, counted, rule_in, rules_in, same_rule};

use indexmap::IndexMap;
use sarif_findings::Finding;
use sarif_model::Text;
use std::alloc::{AllocError, Global};
use std::hash::RandomState;

/// The maximum number of rules that the index shows.
const MOST_RULES: usize = 100;

/// A rule of a tool.
#[derive(Clone, Copy, PartialEq, Eq, Hash)]
struct RuleKey<'f> {
    rule: &'f Text,
    tool: &'f Text,
}

/// The number of results of each rule.
type Counts<'f> = IndexMap<RuleKey<'f>, usize, RandomState>;

/// The first result of each rule, and the number of its results.
#[derive(Drop)]
struct Rules<'f> {
    firsts: Vec<&'f Finding>,
    counts: Counts<'f>,
}

/// A rule of a tool, by its first result.
#[derive(Clone, Copy)]
pub(crate) struct Rule<'f> {
    /// Its first result.
    pub(crate) first: &'f Finding,
    /// How many results it has.
    pub(crate) number: usize,
}

/// Whether a result has a rule.
fn has_rule(finding: &Finding) -> bool
    ensures { result ≡ said.has_rule finding.now }
{
    match finding.rule.as_str().as_bytes() {
        [] => false,
        [_, ..] => true,
    }
}

/// The rule and the tool of a result.
fn key_of(finding: &Finding) -> RuleKey<'_>
    ensures rule { result.rule.now ≡ finding.now.rule }
    ensures tool { result.tool.now ≡ finding.now.tool }
{
    RuleKey {
        rule: &finding.rule,
        tool: &finding.tool,
    }
}

/// How many results of a rule were counted.
fn number_at(counts: &Counts<'_>, key: RuleKey<'_>) -> usize
    ensures { result ≡ counted counts.now key.entry }
{
    match counts.get(&key) {
        Some(number) => *number,
        None => 0,
    }
}

/// Counts a result of this rule. Returns how many were counted before it.
fn count<'f>(counts: &mut Counts<'f>, key: RuleKey<'f>) -> Result<usize, AllocError>
    ensures before { IfOk result (λ before. before ≡ counted counts.old key.entry) }
    ensures counted { counted counts.old key.entry < 2 ^ 63 → OnOk result ((other : Key) →
        counted counts.new other
        ≡ counted counts.old other + (if same_rule key.entry other then 1 else 0)) }
{
    let before = number_at(counts, key);
    counts.insert(key, before.saturating_add(1))?;
    Ok(before)
}

impl<'f> Rules<'f> {
    /// Counts the next result, if it has a rule.
    fn add(&mut self, finding: &'f Finding) -> Result<(), AllocError>
        ensures { OnOk result ((results : List Told) → length results < 2 ^ 63
            → IsTally results self.old
            → IsTally (results ++ filter said.has_rule (finding.now ∷ [])) self.new) }
    {
        if !has_rule(finding) {
            return Ok(());
        }
        let before = count(&mut self.counts, key_of(finding))?;
        if before == 0 {
            self.firsts.push(finding)?;
        }
        Ok(())
    }

    /// Counts those of these results that have a rule.
    fn of(
        alloc: Global,
        seed: RandomState,
        findings: &[&'f Finding],
    ) -> Result<Rules<'f>, AllocError>
        ensures { IfOk result (IsTally (filter said.has_rule (findings_in findings.now))) }
    {
        let mut rules = Rules {
            firsts: Vec::new(alloc),
            counts: IndexMap::with_hasher(alloc, seed),
        };
        for finding in findings {
            rules.add(finding)?;
        }
        Ok(rules)
    }
}

/// The position of the first of these rules that has fewer results.
fn place_of(ranked: &[Rule<'_>], number: usize) -> usize
    ensures within { result ≤ length ranked.now }
    ensures place { (r : said.Rule) → r.number ≡ number
        → said.placed r (rules_in ranked.now) ≡ insert (rules_in ranked.now) result r }
{
    let mut place = 0;
    for rule in ranked {
        if rule.number < number {
            return place;
        }
        place += 1;
    }
    place
}

/// Adds a rule after those with as many results or more, and keeps as many as the index shows.
fn place<'f>(ranked: &mut Vec<Rule<'f>>, rule: Rule<'f>) -> Result<(), AllocError>
    ensures { OnOk result (rules_in ranked.new.items
        ≡ take said.most_rules (said.placed (rule_in rule.entry) (rules_in ranked.old.items))) }
{
    let place = place_of(ranked, rule.number);
    ranked.insert(place, rule)?;
    ranked.truncate(MOST_RULES);
    Ok(())
}

/// The first of the rules with these first results, those with the most results first.
fn ranked_rules<'f>(
    alloc: Global,
    firsts: &[&'f Finding],
    counts: &Counts<'f>,
) -> Result<Vec<Rule<'f>>, AllocError>
    ensures { IfOk result (λ ranked. (results : List Told) → AreCounted results counts.now
        → rules_in ranked.items ≡ take said.most_rules
        (said.most_first (map (said.rule_among results) (findings_in firsts.now)))) }
{
    let mut ranked = Vec::new(alloc);
    for first in firsts {
        let number = number_at(counts, key_of(first));
        place(&mut ranked, Rule { first, number })?;
    }
    Ok(ranked)
}

/// The rules of a list.
#[derive(Drop)]
pub(crate) struct Index<'f> {
    /// The rules that the index shows.
    pub(crate) shown: Vec<Rule<'f>>,
    /// The number of rules, shown or not.
    pub(crate) all: usize,
}

impl<'f> Index<'f> {
    /// An index that shows no rule, although there is this number of rules.
    pub(crate) fn empty(alloc: Global, all: usize) -> Index<'f>
        ensures shown { rules_in result.shown.items ≡ [] }
        ensures all { result.all ≡ all }
    {
        Index {
            shown: Vec::new(alloc),
            all,
        }
    }
}

/// Returns the rules of these results. Returns `AllocError` if memory for them runs out.
#[tactic(auto, unfolding(crate::specs::HtmlRules::shown_rules))]
pub(crate) fn index_of<'f>(
    alloc: Global,
    seed: RandomState,
    findings: &[&'f Finding],
) -> Result<Index<'f>, AllocError>
    ensures shown { IfOk result (λ index. rules_in index.shown.items
        ≡ said.shown_rules (findings_in findings.now)) }
    ensures all { IfOk result
        (λ index. index.all ≡ length (said.rules_of (findings_in findings.now))) }
{
    let rules = Rules::of(alloc, seed, findings)?;
    let shown = ranked_rules(alloc, &rules.firsts, &rules.counts)?;
    Ok(Index {
        shown,
        all: rules.firsts.len(),
    })
}
