//! The rules of a tool component, with a table of their ids.
ghost use Rattle.std.specs.Prelude.{◌≡◌, ℕ, List, OnOk, IfOk, bytes_eq};
ghost use Rattle.std.specs.HashMap.{get_by_text};
ghost use Rattle.sarif_runs.specs.Reading.{first_or};
ghost use Rattle.sarif_runs.specs.Rules.{first_with_id};

use indexmap::IndexMap;
use sarif_model::{Level, Text};
use std::alloc::{AllocError, Global};
use std::hash::RandomState;
use std::marker::Model;

/// A rule (SARIF 2.1.0, "reportingDescriptor object").
#[derive(Debug, Drop)]
pub struct Rule {
    /// `id`.
    pub id: Text,
    /// `defaultConfiguration.level`.
    pub level: Option<Level>,
}

/// The place of a rule in a tool (SARIF 2.1.0, "reportingDescriptorReference object").
#[derive(Clone, Copy, Debug, PartialEq, Eq, Hash)]
pub struct Descriptor {
    /// The component: 0 is the driver, `k + 1` the extension `k`.
    pub component: usize,
    /// The index of the rule in that component.
    pub rule: usize,
}

/// The rules of a tool component, in order (SARIF 2.1.0, "toolComponent object"). Contracts see
/// their list.
#[derive(Drop)]
pub struct Component {
    rules: Vec<Rule>,
    /// The first place of each id.
    first: IndexMap<String, usize, RandomState>,
}

impl Model for Component {
    ghost use Rattle.std.specs.Prelude.{◌≡◌, ℕ, List};
    ghost use Rattle.std.specs.HashMap.{get_by_text};
    ghost use Rattle.sarif_runs.specs.declared.component.Rule.{Rule};
    ghost use Rattle.sarif_runs.specs.Rules.{first_with_id};

    ghost Value = { List Rule };

    ghost view = { λ c. c.rules.items };

    ghost invariant = { λ c. (id : List ℕ)
        → get_by_text c.first id ≡ first_with_id id c.rules.items };
}

impl Component {
    /// The component with these rules, whose table hashes with `seed`.
    pub(crate) fn new(
        alloc: Global,
        seed: RandomState,
        rules: Vec<Rule>,
    ) -> Result<Component, AllocError>
        ensures { IfOk result (λ component. component ≡ rules.items) }
    {
        let first = first_places(alloc, seed, rules.as_slice())?;
        Ok(Component { rules, first })
    }

    /// The rules, in order.
    pub(crate) fn rules(&self) -> &[Rule]
        ensures { result.now ≡ self.now }
    {
        self.rules.as_slice()
    }

    /// The place of the first rule with that id. Takes no search through the rules.
    pub(crate) fn first_with_id(&self, id: &str) -> Option<usize>
        ensures { result ≡ first_with_id id.now self.now }
    {
        self.first.get(id).copied()
    }
}

/// Puts the place at an id that has none yet.
fn add_first(
    alloc: Global,
    table: &mut IndexMap<String, usize, RandomState>,
    id: &str,
    place: usize,
) -> Result<(), AllocError>
    ensures { OnOk result ((q : List ℕ) → get_by_text table.new q
        ≡ first_or (get_by_text table.old q) (bytes_eq q id.now) place) }
{
    if !table.contains_key(id) {
        let key = String::from_str(alloc, id)?;
        table.insert(key, place)?;
    }
    Ok(())
}

/// The table of the first place of each id.
fn first_places(
    alloc: Global,
    seed: RandomState,
    rules: &[Rule],
) -> Result<IndexMap<String, usize, RandomState>, AllocError>
    ensures { IfOk result (λ table. (q : List ℕ)
        → get_by_text table q ≡ first_with_id q rules.now) }
{
    let mut table: IndexMap<String, usize, RandomState> = IndexMap::with_hasher(alloc, seed);
    for (place, rule) in rules.iter().enumerate() {
        add_first(alloc, &mut table, rule.id.as_str(), place)?;
    }
    Ok(table)
}
