//! The names of hits: their places and their rules.
ghost use Rattle.std.specs.Prelude.{◌≡◌, ◌++◌, IfOk, flat_map, map, option_map, string_bytes};
ghost use Rattle.sarif_findings.specs.Finding.{place};
ghost use Rattle.sarif_choice.specs.Choice as said;
ghost use Rattle.sarif_choice.specs.Internal.Tables.{names_by};

use sarif_findings::Finding;
use sarif_model::Text;
use sarif_shown::{push_numbered, push_path};
use std::alloc::{AllocError, Global};

/// What hits are named by.
#[derive(Clone, Copy)]
pub(crate) enum Naming {
    Places,
    Rules,
}

/// A place with this path, if there is one, and with this line and column, as far as there are.
fn place_text(
    alloc: Global,
    path: Option<&Text>,
    line: Option<u32>,
    column: Option<u32>,
) -> Result<Text, AllocError>
    ensures { IfOk result
        (λ text. text ≡ place (option_map (λ p. p.now) path.entry) line column) }
{
    let Some(path) = path else {
        return Text::copy_of(alloc, "-");
    };
    let mut text = String::new(alloc);
    push_path(&mut text, path.as_str())?;
    push_numbered(&mut text, line)?;
    push_numbered(&mut text, column)?;
    Text::from_string(text)
}

/// The places that name a hit.
fn places_of(alloc: Global, hit: &Finding) -> Result<Vec<Text>, AllocError>
    ensures { IfOk result (λ names. names.items ≡ said.places_of hit.now) }
{
    let path = hit.path.as_ref();
    let mut names = Vec::with_capacity(alloc, 3)?;
    names.push(place_text(alloc, path, hit.line, hit.column)?)?;
    names.push(place_text(alloc, path, hit.line, None)?)?;
    names.push(place_text(alloc, path, None, None)?)?;
    Ok(names)
}

/// The rule of a hit.
fn rules_of(alloc: Global, hit: &Finding) -> Result<Vec<Text>, AllocError>
    ensures { IfOk result (λ names. names.items ≡ said.rules_of hit.now) }
{
    let mut names = Vec::with_capacity(alloc, 1)?;
    names.push(hit.rule.clone()?)?;
    Ok(names)
}

/// The names of a hit of that kind.
pub(crate) fn names_of(
    alloc: Global,
    naming: Naming,
    hit: &Finding,
) -> Result<Vec<Text>, AllocError>
    ensures { IfOk result (λ names. names.items ≡ names_by naming hit.now) }
{
    match naming {
        Naming::Places => places_of(alloc, hit),
        Naming::Rules => rules_of(alloc, hit),
    }
}

/// The names of these hits of that kind.
pub(crate) fn all_names(
    alloc: Global,
    naming: Naming,
    hits: &[&Finding],
) -> Result<Vec<Text>, AllocError>
    ensures { IfOk result
        (λ names. names.items ≡ flat_map (names_by naming) (map (λ hit. hit.now) hits.now)) }
{
    let mut names = Vec::new(alloc);
    for hit in hits {
        let mut more = names_of(alloc, naming, *hit)?;
        names.append(&mut more)?;
    }
    Ok(names)
}
