//! What of a run its results need, and what it gives a result.
ghost use Rattle.std.specs.Prelude.{◌≡◌, IfOk, option_map, option_and_then};
ghost use Rattle.std.specs.Option.{option_copied};
ghost use Rattle.sarif_model.specs.Internal.Refusal.{IfFault};
ghost use Rattle.sarif_runs.specs.Reading.{Gives};
ghost use Rattle.sarif_runs.specs.Descriptor.{Reference, reference_of, descriptor_of, rule_number};
ghost use Rattle.sarif_runs.specs.Level as effective;
ghost use Rattle.sarif_runs.specs.Record.{rule_id_of};
ghost use Rattle.sarif_runs.specs.Place.{place_of, place_by};

use crate::component::{Component, Descriptor, Rule};
use crate::invocation::Invocation;
use sarif_members::Parts;
use sarif_model::{Fault, Kind, Level, Place, Refusal, Sequence, Text};
use std::alloc::{AllocError, Global};

/// The rules, overrides and artifacts of a run.
#[derive(Drop)]
pub struct RunHead {
    pub(crate) components: Sequence<Component>,
    pub(crate) invocations: Sequence<Invocation>,
    pub(crate) artifacts: Sequence<Place>,
}

impl RunHead {
    /// The place of the result's rule, if it has one (SARIF 2.1.0, "rule property"). Does not allocate. Returns
    /// `BadIndex` if the component or the rule is past the end of its table.
    pub fn descriptor(&self, parts: &Parts) -> Result<Option<Descriptor>, Fault>
        ensures { result ≡ descriptor_of self.now.components (reference_of parts.now) }
    {
        let id = parts.rule_id.as_ref().map(Text::as_str);
        find_descriptor(
            self.components.as_slice(),
            parts.component,
            parts.rule_index,
            id,
        )
    }

    /// The effective level of the result (SARIF 2.1.0, "level property"). Does not allocate. Returns `BadIndex` if
    /// the descriptor or the invocation is past the end of its table, even if it is not needed.
    pub fn level(&self, parts: &Parts) -> Result<Level, Fault>
        ensures { result ≡ effective.level_of self.now parts.now }
    {
        let descriptor = self.descriptor(parts)?;
        self.level_with(parts, descriptor)
    }

    /// The effective level of a result with that descriptor.
    pub(crate) fn level_with(
        &self,
        parts: &Parts,
        descriptor: Option<Descriptor>,
    ) -> Result<Level, Fault>
        ensures { result ≡ effective.level_with self.now parts.now descriptor }
    {
        let overriding = self.overriding_level(parts.invocation, descriptor)?;
        let default = self.default_level(descriptor);
        Ok(first_level(parts.kind, parts.level, overriding, default))
    }

    /// The level of the first override of the invocation that specifies the descriptor.
    fn overriding_level(
        &self,
        invocation: Option<u32>,
        descriptor: Option<Descriptor>,
    ) -> Result<Option<Level>, Fault>
        ensures { result
            ≡ effective.overriding_level_at self.now.invocations invocation descriptor }
    {
        let Some(number) = invocation else {
            return Ok(None);
        };
        let Some(chosen) = self.invocations.as_slice().get(number as usize) else {
            return Err(Fault::BadIndex);
        };
        match descriptor {
            Some(descriptor) => Ok(chosen.level_of(descriptor)),
            None => Ok(None),
        }
    }

    /// The rule id of a result: its own, otherwise its rule's, otherwise the empty string (SARIF 2.1.0, "ruleId
    /// property").
    pub(crate) fn rule_id(
        &self,
        alloc: Global,
        own: Option<Text>,
        descriptor: Option<Descriptor>,
    ) -> Result<Text, AllocError>
        ensures { IfOk result (λ id. id ≡ rule_id_of self.now.components own descriptor) }
    {
        match (own, self.rule(descriptor)) {
            (Some(id), Some(rule)) => share(id, &rule.id),
            (Some(id), None) => Ok(id),
            (None, Some(rule)) => rule.id.clone(),
            (None, None) => Text::copy_of(alloc, ""),
        }
    }

    /// The rule of a descriptor.
    fn rule(&self, descriptor: Option<Descriptor>) -> Option<&Rule>
        ensures { option_copied result
            ≡ option_and_then (effective.rule_at self.now.components) descriptor }
    {
        let descriptor = descriptor?;
        self.components
            .as_slice()
            .get(descriptor.component)?
            .rules()
            .get(descriptor.rule)
    }

    /// The default level of the descriptor's rule.
    fn default_level(&self, descriptor: Option<Descriptor>) -> Option<Level>
        ensures { result ≡ effective.default_level self.now.components descriptor }
    {
        self.rule(descriptor)?.level
    }

    /// The artifact of the result's first location (SARIF 2.1.0, "artifactLocation object"). Returns `BadIndex` if
    /// there is no `uri` and the artifact is past the end of its table; `OutOfMemory` if memory runs out.
    pub fn place(&self, parts: &Parts) -> Result<Place, Refusal<Fault>>
        ensures ok { IfOk result (λ place. place_of self.now.artifacts parts.now ≡ Ok place) }
        ensures err { IfFault result (λ fault. place_of self.now.artifacts parts.now ≡ Err fault) }
    {
        let uri = clone_text(&parts.uri)?;
        let base = clone_text(&parts.base)?;
        self.place_with(uri, base, parts.artifact)
    }

    /// The place of a result whose location has this `uri`, `uriBaseId` and `index`.
    pub(crate) fn place_with(
        &self,
        uri: Option<Text>,
        base: Option<Text>,
        artifact: Option<u32>,
    ) -> Result<Place, Refusal<Fault>>
        ensures { Gives result (place_by self.now.artifacts uri base artifact) }
    {
        if uri.is_some() {
            return Ok(self.share_place(Place { uri, base }, artifact)?);
        }
        let Some(index) = artifact else {
            return Ok(Place {
                uri: None,
                base: None,
            });
        };
        let Some(named) = self.artifacts.as_slice().get(index as usize) else {
            return Err(Refusal::Fault(Fault::BadIndex));
        };
        let uri = clone_text(&named.uri)?;
        let base = clone_text(&named.base)?;
        Ok(Place { uri, base })
    }

    /// The place `own`, sharing the artifact's strings that are equal.
    fn share_place(&self, own: Place, artifact: Option<u32>) -> Result<Place, AllocError>
        ensures { IfOk result (λ place. place ≡ own) }
    {
        let held = match artifact {
            Some(index) => self.artifacts.as_slice().get(index as usize),
            None => None,
        };
        match held {
            Some(held) => Ok(Place {
                uri: share_if_there(own.uri, &held.uri)?,
                base: share_if_there(own.base, &held.base)?,
            }),
            None => Ok(own),
        }
    }
}

/// The first level that applies to a result of that kind.
fn first_level(
    kind: Kind,
    own: Option<Level>,
    overriding: Option<Level>,
    default: Option<Level>,
) -> Level
    ensures { result ≡ effective.first_level (effective.is_fail kind) own overriding default }
{
    match kind {
        Kind::Fail => own.or(overriding).or(default).unwrap_or(Level::Warning),
        _ => Level::NoLevel,
    }
}

/// The string `own`, as `held` if both are equal, so that it is stored once.
fn share(own: Text, held: &Text) -> Result<Text, AllocError>
    ensures { IfOk result (λ text. text ≡ own) }
{
    if own == *held { held.clone() } else { Ok(own) }
}

/// The string `own`, if there is one, as `held` if that is there and both are equal.
fn share_if_there(own: Option<Text>, held: &Option<Text>) -> Result<Option<Text>, AllocError>
    ensures { IfOk result (λ text. text ≡ own) }
{
    match (own, held) {
        (Some(own), Some(held)) => Ok(Some(share(own, held)?)),
        (own, _) => Ok(own),
    }
}

/// A string, if there is one; it is not copied.
fn clone_text(text: &Option<Text>) -> Result<Option<Text>, AllocError>
    ensures { IfOk result (λ copy. copy ≡ text.now) }
{
    match text {
        Some(text) => Ok(Some(text.clone()?)),
        None => Ok(None),
    }
}

/// The place of the rule that is named by its extension, its index and its id. Returns `BadIndex` if the component
/// or the index is past the end of its table.
pub(crate) fn find_descriptor(
    components: &[Component],
    component: Option<u32>,
    index: Option<u32>,
    id: Option<&str>,
) -> Result<Option<Descriptor>, Fault>
    ensures { result ≡ descriptor_of components.now
        (record { component = component; index = index; id = option_map (λ s. s.now) id.entry }) }
{
    let number = match component {
        Some(extension) => extension as usize + 1,
        None => 0,
    };
    let Some(chosen) = components.get(number) else {
        return Err(Fault::BadIndex);
    };
    match find_rule(chosen, index, id)? {
        Some(rule) => Ok(Some(Descriptor {
            component: number,
            rule,
        })),
        None => Ok(None),
    }
}

/// The index of the rule with that index, otherwise of the first rule with that id.
fn find_rule(
    component: &Component,
    index: Option<u32>,
    id: Option<&str>,
) -> Result<Option<usize>, Fault>
    ensures { result ≡ rule_number component.now index (option_map (λ s. s.now) id.entry) }
{
    match index {
        Some(index) => {
            let place = index as usize;
            if place < component.rules().len() {
                Ok(Some(place))
            } else {
                Err(Fault::BadIndex)
            }
        }
        None => match id {
            Some(id) => Ok(component.first_with_id(id)),
            None => Ok(None),
        },
    }
}
