//! Reading the places of a result from the index of its log. No value is made of them.
ghost use Rattle.std.specs.Prelude.{◌≡◌, ◌++◌, List, Option, Some, None, IfOk, OnOk, map, option_map, option_and_then};
ghost use Rattle.std.specs.List.{flat_map, list_any};
ghost use Rattle.sarif_change.specs.Named.{named_spot, named_spots, named_uri};
ghost use Rattle.sarif_change.specs.Places as said;
ghost use Rattle.sarif_model.specs.declared.place.Place.{Place};
ghost use Rattle.sarif_read.specs.Internal.Listed.{value_at};
ghost use Rattle.serde_json.specs.Data.{Data};

use json_parts::Node;
use sarif_change::{ArtifactName, NamedPlace, NamedPlaces};
use sarif_members::node_members::{
    elements_if_there, is_object, member_at, member_within, text_of, unsigned_of,
};
use sarif_model::Region;
use std::alloc::{AllocError, Global};

/// A line: an integer from 1 to 4,294,967,295.
fn line_of(node: &Node<'_, '_>) -> Option<u32>
    ensures { result ≡ said.line_of (value_at node.now) }
{
    match u32::try_from(unsigned_of(node)?) {
        Ok(0) | Err(_) => None,
        Ok(line) => Some(line),
    }
}

/// The lines from the first to this last one, if that is a line from the first on.
fn lines_to(first: u32, end: &Node<'_, '_>) -> Option<Region>
    ensures { result ≡ said.lines_to first (value_at end.now) }
{
    let last = line_of(end)?;
    if first <= last {
        return Some(Region {
            start_line: first,
            start_column: None,
            end_line: Some(last),
            end_column: None,
        });
    }
    None
}

/// The lines of a region, if it has lines.
fn region_of(region: &Option<Node<'_, '_>>) -> Option<Region>
    ensures { result ≡ said.region_of (option_map value_at region.now) }
{
    let first = line_of(&member_within(region, "startLine")?)?;
    match member_within(region, "endLine") {
        Some(end) => lines_to(first, &end),
        None => Some(Region {
            start_line: first,
            start_column: None,
            end_line: None,
            end_column: None,
        }),
    }
}

/// The artifact that a `uri` names.
fn by_uri<'a>(uri: &Node<'_, 'a>) -> ArtifactName<'a>
    ensures { (artifacts : List Place) (index : Option Data) → named_uri artifacts result
        ≡ said.uri_by artifacts (Some (value_at uri.now)) index }
{
    match text_of(uri) {
        Some(text) => ArtifactName::Uri(text),
        None => ArtifactName::Unnamed,
    }
}

/// The artifact that an `index` names.
fn by_index<'a>(index: &Option<Node<'_, 'a>>) -> ArtifactName<'a>
    ensures { (artifacts : List Place) → named_uri artifacts result
        ≡ said.uri_by artifacts None (option_map value_at index.now) }
{
    let Some(index) = index else {
        return ArtifactName::Unnamed;
    };
    match unsigned_of(index) {
        Some(number) => ArtifactName::Index(number),
        None => ArtifactName::Unnamed,
    }
}

/// How an artifact location names its artifact.
fn artifact_of<'a>(artifact: &Option<Node<'_, 'a>>) -> ArtifactName<'a>
    ensures { (artifacts : List Place) → named_uri artifacts result
        ≡ said.uri_of artifacts (option_map value_at artifact.now) }
{
    match member_within(artifact, "uri") {
        Some(uri) => by_uri(&uri),
        None => by_index(&member_within(artifact, "index")),
    }
}

/// The place of a location.
fn place_of<'a>(location: &Option<Node<'_, 'a>>) -> NamedPlace<'a>
    ensures { (artifacts : List Place) → named_spot artifacts result
        ≡ said.spot_of artifacts (option_map value_at location.now) }
{
    let physical = member_within(location, "physicalLocation");
    NamedPlace {
        artifact: artifact_of(&member_within(&physical, "artifactLocation")),
        region: region_of(&member_within(&physical, "region")),
    }
}

/// The location of a step.
fn location_of<'t, 'a>(step: &Node<'t, 'a>) -> Option<Node<'t, 'a>>
    ensures { option_map value_at result ≡ said.location_of (value_at step.now) }
{
    let location = member_at(step, "location")?;
    if is_object(&location) {
        return Some(location);
    }
    None
}

/// Whether a step is kept elsewhere in the run: it has an index, and no location.
fn is_elsewhere(step: &Node<'_, '_>) -> bool
    ensures { result ≡ said.is_elsewhere (value_at step.now) }
{
    if location_of(step).is_some() {
        return false;
    }
    match member_at(step, "index") {
        Some(index) => unsigned_of(&index).is_some(),
        None => false,
    }
}

/// Whether one of these steps is kept elsewhere in the run.
fn is_any_elsewhere(steps: &[Node<'_, '_>]) -> bool
    ensures { result ≡ list_any said.is_elsewhere (map value_at steps.now) }
{
    for step in steps {
        if is_elsewhere(step) {
            return true;
        }
    }
    false
}

/// The elements of the array of that name.
fn elements_in<'t, 'a>(
    alloc: Global,
    node: &Node<'t, 'a>,
    name: &str,
) -> Result<Vec<Node<'t, 'a>>, AllocError>
    ensures { IfOk result (λ nodes. map value_at nodes.items
        ≡ said.elements_in name.now (value_at node.now)) }
{
    let nodes = elements_if_there(alloc, node, name)?;
    Ok(nodes)
}

/// Adds each of these nodes.
fn push_each<'t, 'a>(
    found: &mut Vec<Node<'t, 'a>>,
    nodes: Vec<Node<'t, 'a>>,
) -> Result<(), AllocError>
    ensures { OnOk result (found.new.items ≡ found.old.items ++ nodes.entry.items) }
{
    for node in nodes {
        found.push(node)?;
    }
    Ok(())
}

/// The elements of the arrays of that name in these values.
fn elements_of<'t, 'a>(
    alloc: Global,
    nodes: &[Node<'t, 'a>],
    name: &str,
) -> Result<Vec<Node<'t, 'a>>, AllocError>
    ensures { IfOk result (λ found. map value_at found.items
        ≡ flat_map (said.elements_in name.now) (map value_at nodes.now)) }
{
    let mut found = Vec::new(alloc);
    for node in nodes {
        push_each(&mut found, elements_in(alloc, node, name)?)?;
    }
    Ok(found)
}

/// The steps of the code flows of a result.
fn steps_of<'t, 'a>(alloc: Global, found: &Node<'t, 'a>) -> Result<Vec<Node<'t, 'a>>, AllocError>
    ensures { IfOk result
        (λ steps. map value_at steps.items ≡ said.steps_of (value_at found.now)) }
{
    let flows = elements_in(alloc, found, "codeFlows")?;
    let threads = elements_of(alloc, &flows, "threadFlows")?;
    let steps = elements_of(alloc, &threads, "locations")?;
    Ok(steps)
}

/// Adds the places of these locations.
fn push_locations<'a>(
    places: &mut Vec<NamedPlace<'a>>,
    locations: Vec<Node<'_, 'a>>,
) -> Result<(), AllocError>
    ensures { OnOk result ((artifacts : List Place)
        → map (named_spot artifacts) places.new.items
        ≡ map (named_spot artifacts) places.old.items
        ++ map (λ d. said.spot_of artifacts (Some d)) (map value_at locations.entry.items)) }
{
    for location in locations {
        places.push(place_of(&Some(location)))?;
    }
    Ok(())
}

/// Adds the places of these steps.
fn push_steps<'a>(
    places: &mut Vec<NamedPlace<'a>>,
    steps: &[Node<'_, 'a>],
) -> Result<(), AllocError>
    ensures { OnOk result ((artifacts : List Place)
        → map (named_spot artifacts) places.new.items
        ≡ map (named_spot artifacts) places.old.items
        ++ map (λ d. said.spot_of artifacts (said.location_of d)) (map value_at steps.now)) }
{
    for step in steps {
        places.push(place_of(&location_of(step)))?;
    }
    Ok(())
}

/// The places of the locations in the array of that name.
fn places_in<'a>(
    alloc: Global,
    found: &Node<'_, 'a>,
    name: &str,
) -> Result<Vec<NamedPlace<'a>>, AllocError>
    ensures { IfOk result (λ places. (artifacts : List Place)
        → map (named_spot artifacts) places.items
        ≡ map (λ d. said.spot_of artifacts (Some d))
        (said.elements_in name.now (value_at found.now))) }
{
    let mut places = Vec::new(alloc);
    push_locations(&mut places, elements_in(alloc, found, name)?)?;
    Ok(places)
}

/// Returns the places of a result: its locations, its related locations and the steps of its code flows (SARIF 2.1.0,
/// "location object", "threadFlowLocation object"). A place without a `uri` has that of the artifact that its `index`
/// points to. Null, and a member of the wrong type, are treated as missing; an `endLine` that isn't a line from
/// `startLine` on makes a region without lines. Returns `AllocError` if memory runs out.
pub(crate) fn places_of<'a>(
    alloc: Global,
    found: &Node<'_, 'a>,
) -> Result<NamedPlaces<'a>, AllocError>
    ensures { IfOk result (λ places. (artifacts : List Place)
        → named_spots artifacts places ≡ said.places_of artifacts (value_at found.now)) }
{
    let locations = places_in(alloc, found, "locations")?;
    let mut others = places_in(alloc, found, "relatedLocations")?;
    let steps = steps_of(alloc, found)?;
    push_steps(&mut others, &steps)?;
    Ok(NamedPlaces {
        locations,
        others,
        elsewhere: is_any_elsewhere(&steps),
    })
}
