//! The places of a result.
use sarif_model::{Region, Sequence, Text};

/// The part of a changed file that is treated as changed.
#[derive(Clone, Copy, Debug, PartialEq, Eq)]
pub enum Scope {
    /// The changed lines.
    Lines,
    /// All of it.
    Files,
}

/// A place of a result (SARIF 2.1.0, "location object").
#[derive(Debug, Drop)]
pub struct Spot {
    /// The URI of its artifact, if it has one: that of the place, or of the artifact to which its `index` points.
    pub uri: Option<Text>,
    /// Its region, if that has lines: `startLine` from 1, and no `endLine` or one from there on.
    pub region: Option<Region>,
}

/// The places of a result that decide whether it is outside of a change.
#[derive(Debug, Drop)]
pub struct Spots {
    /// Its `locations`; empty if that member is not an array.
    pub locations: Sequence<Spot>,
    /// Its related locations, and the steps of its code flows.
    pub others: Sequence<Spot>,
    /// Whether a step of a code flow has an `index` and no location: it is kept elsewhere in the run.
    pub elsewhere: bool,
}

/// How a location names its artifact (SARIF 2.1.0, "artifactLocation object").
#[derive(Clone, Copy)]
pub enum ArtifactName<'a> {
    /// Not at all, or by a `uri` that is not a string.
    Unnamed,
    /// By this `uri`.
    Uri(&'a str),
    /// By this `index` of an artifact of the run.
    Index(u64),
}

/// A place of a result as its log says it.
#[derive(Clone, Copy)]
pub struct NamedPlace<'a> {
    /// How it names its artifact.
    pub artifact: ArtifactName<'a>,
    /// Its region, if that has lines, as in [`Spot`].
    pub region: Option<Region>,
}

/// The places of a result as its log says them, as in [`Spots`].
#[derive(Drop)]
pub struct NamedPlaces<'a> {
    /// Its `locations`; empty if that member is not an array.
    pub locations: Vec<NamedPlace<'a>>,
    /// Its related locations, and the steps of its code flows.
    pub others: Vec<NamedPlace<'a>>,
    /// Whether a step of a code flow has an `index` and no location: it is kept elsewhere in the run.
    pub elsewhere: bool,
}
