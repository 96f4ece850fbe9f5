//! The overrides of an invocation, with a table of the descriptors that they specify.
ghost use Rattle.std.specs.Prelude.{◌≡◌, ℕ, List, OnOk, IfOk};
ghost use Rattle.std.specs.HashMap.{get};
ghost use Rattle.sarif_model.specs.declared.kinds.Level.{Level};
ghost use Rattle.sarif_runs.specs.declared.component.Descriptor.{Descriptor};
ghost use Rattle.sarif_runs.specs.Reading.{first_or};
ghost use Rattle.sarif_runs.specs.Overrides.{is_same_descriptor, is_descriptor, first_for};
ghost use Rattle.sarif_runs.specs.Level.{overriding_level};

use crate::component::Descriptor;
use indexmap::IndexMap;
use sarif_model::Level;
use std::alloc::{AllocError, Global};
use std::hash::RandomState;
use std::marker::Model;

/// An override of a rule's configuration (SARIF 2.1.0, "configurationOverride object").
#[derive(Clone, Copy, Debug)]
pub struct Override {
    /// The place of the rule that it specifies, if it specifies one.
    pub descriptor: Option<Descriptor>,
    /// `configuration.level`.
    pub level: Option<Level>,
}

/// The overrides of an invocation, in order (SARIF 2.1.0, "invocation object"). Contracts see their
/// list.
#[derive(Drop)]
pub struct Invocation {
    overrides: Vec<Override>,
    /// The first place of each descriptor.
    first: IndexMap<Descriptor, usize, RandomState>,
}

impl Model for Invocation {
    ghost use Rattle.std.specs.Prelude.{◌≡◌, ℕ, List};
    ghost use Rattle.std.specs.HashMap.{get};
    ghost use Rattle.sarif_runs.specs.declared.component.Descriptor.{Descriptor};
    ghost use Rattle.sarif_runs.specs.declared.invocation.Override.{Override};
    ghost use Rattle.sarif_runs.specs.Overrides.{is_same_descriptor, first_for};

    ghost Value = { List Override };

    ghost view = { λ i. i.overrides.items };

    ghost invariant = { λ i. (d : Descriptor)
        → get is_same_descriptor i.first d ≡ first_for d i.overrides.items };
}

impl Invocation {
    /// The invocation with these overrides, whose table hashes with `seed`.
    pub(crate) fn new(
        alloc: Global,
        seed: RandomState,
        overrides: Vec<Override>,
    ) -> Result<Invocation, AllocError>
        ensures { IfOk result (λ invocation. invocation ≡ overrides.items) }
    {
        let first = first_places(alloc, seed, overrides.as_slice())?;
        Ok(Invocation { overrides, first })
    }

    /// The level of the first override that specifies the descriptor. Takes no search through the
    /// overrides.
    pub(crate) fn level_of(&self, descriptor: Descriptor) -> Option<Level>
        ensures { result ≡ overriding_level self.now (Some descriptor) }
    {
        match self.first.get(&descriptor) {
            Some(place) => self.overrides[*place].level,
            None => None,
        }
    }
}

/// Puts the place at a descriptor that has none yet.
fn add_first(
    table: &mut IndexMap<Descriptor, usize, RandomState>,
    descriptor: Descriptor,
    place: usize,
) -> Result<(), AllocError>
    ensures { OnOk result ((q : Descriptor) → get is_same_descriptor table.new q
        ≡ first_or (get is_same_descriptor table.old q) (is_same_descriptor q descriptor) place) }
{
    if !table.contains_key(&descriptor) {
        table.insert(descriptor, place)?;
    }
    Ok(())
}

/// The table of the first place of each descriptor.
fn first_places(
    alloc: Global,
    seed: RandomState,
    overrides: &[Override],
) -> Result<IndexMap<Descriptor, usize, RandomState>, AllocError>
    ensures { IfOk result (λ table. (q : Descriptor)
        → get is_same_descriptor table q ≡ first_for q overrides.now) }
{
    let mut table: IndexMap<Descriptor, usize, RandomState> = IndexMap::with_hasher(alloc, seed);
    for (place, entry) in overrides.iter().enumerate() {
        if let Some(descriptor) = entry.descriptor {
            add_first(&mut table, descriptor, place)?;
        }
    }
    Ok(table)
}
