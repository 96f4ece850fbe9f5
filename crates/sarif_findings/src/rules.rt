//! The rules of a tool component, found by their ids.
ghost use Rattle.std.specs.Prelude.{◌≡◌, ℕ, List, Some, None, map, find, option_map, IfOk, OnOk, if◌then◌else◌};
ghost use Rattle.std.specs.Option.{option_or};
ghost use Rattle.serde_json.specs.View.{view};
ghost use Rattle.sarif_findings.specs.Located.{own_id_at};
ghost use Rattle.sarif_findings.specs.Lookup as said;
ghost use Rattle.sarif_findings.specs.Internal.RulesOf.{rule_at};

use crate::lookup::text_in;
use sarif_model::RuleReference;
use serde_json::Value;
use std::alloc::{AllocError, Global};
use std::collections::BTreeMap;
use std::marker::Model;

/// The rules of a tool component, in order, and the first with each id (SARIF 2.1.0, "toolComponent object").
/// Contracts see their list.
#[derive(Drop)]
pub(crate) struct Rules<'r> {
    list: &'r [Value],
    first: BTreeMap<&'r str, &'r Value>,
}

impl<'r> Model for Rules<'r> {
    ghost use Rattle.std.specs.Prelude.{◌≡◌, ℕ, List, map, find};
    ghost use Rattle.std.specs.Coded.{codes};
    ghost use Rattle.serde_json.specs.contracts.value.Value as json;
    ghost use Rattle.serde_json.specs.declared.value.Value.{Value as Json};
    ghost use Rattle.serde_json.specs.View.{view as seen};
    ghost use Rattle.sarif_findings.specs.Lookup.{has_id};
    ghost use Rattle.sarif_findings.specs.Internal.RulesOf.{rule_at};

    ghost Value = { List Json };

    ghost coded = { Prim.hlevel (codes, json.the_row.coded) };

    ghost view = { λ rules. rules.list.now };

    ghost invariant = { λ rules. (id : List ℕ)
        → rule_at rules.first id ≡ find (has_id id) (map seen rules.list.now) };
}

/// Puts a rule at its id, where none is there yet.
fn add_first<'r>(
    first: &mut BTreeMap<&'r str, &'r Value>,
    rule: &'r Value,
) -> Result<(), AllocError>
    ensures { OnOk result ((id : List ℕ) → rule_at first.new id ≡ option_or (rule_at first.old id)
        (if said.has_id id (view rule.now) then Some (view rule.now) else None)) }
{
    let Some(id) = text_in(rule, "id") else {
        return Ok(());
    };
    if !first.contains_key(id) {
        first.insert(id, rule)?;
    }
    Ok(())
}

/// The first rule with each id.
fn first_rules<'r>(
    alloc: Global,
    list: &'r [Value],
) -> Result<BTreeMap<&'r str, &'r Value>, AllocError>
    ensures { IfOk result (λ first. (id : List ℕ)
        → rule_at first id ≡ find (said.has_id id) (map view list.now)) }
{
    let mut first = BTreeMap::new(alloc);
    for rule in list {
        add_first(&mut first, rule)?;
    }
    Ok(first)
}

impl<'r> Rules<'r> {
    pub(crate) fn new(alloc: Global, list: &'r [Value]) -> Result<Rules<'r>, AllocError>
        ensures { IfOk result (λ rules. rules ≡ list.now) }
    {
        let first = first_rules(alloc, list)?;
        Ok(Rules { list, first })
    }

    /// The rule that a result refers to. Takes no search through the rules.
    pub(crate) fn named_by(&self, reference: &RuleReference<'_>) -> Option<&'r Value>
        ensures { option_map (λ rule. view rule.now) result ≡ said.rule_by reference.now.index
            (own_id_at reference.now) (map view self.now) }
    {
        match reference.index {
            Some(index) => self.list.get(index as usize),
            None => self.first.get(reference.id?).copied(),
        }
    }
}
