//! Where a reported result is.
ghost use Rattle.std.specs.Prelude.{◌≡◌, ◌&&◌, ◌==◌, bytes_eq, option_map, option_and_then, chars, false, length, not, IfOk};
ghost use Rattle.std.specs.Option.{option_map_or};
ghost use Rattle.serde_json.specs.View.{view};
ghost use Rattle.sarif_findings.specs.Located as located;
ghost use Rattle.sarif_findings.specs.Lookup.{artifact_uri, position_number};
ghost use Rattle.sarif_findings.specs.PathOf as path_of;
ghost use Rattle.sarif_findings.specs.PathOf.{without_here, without_root};
ghost use Rattle.sarif_findings.specs.Reported as said;
ghost use Rattle.sarif_findings.specs.Shown.{shown as text_shown};
ghost use Rattle.sarif_model.specs.Members.{none_if_empty};

use crate::named_run::NamedRun;
use crate::path::{bare_path, decode_or_keep};
use crate::reporting::Reporting;
use crate::shown_text::show_text;
use sarif_model::{FirstLocation, Text};
use std::alloc::{AllocError, Global};

/// What a report says about the place of a result.
#[derive(Drop)]
pub(crate) struct ShownPlace {
    pub(crate) path: Option<Text>,
    pub(crate) exact: bool,
    pub(crate) line: Option<u32>,
    pub(crate) column: Option<u32>,
}

/// A path that is shown.
#[derive(Drop)]
struct ShownPath {
    /// The path as it is shown, which isn't empty.
    text: Text,
    /// Whether it is shown unchanged.
    exact: bool,
}

/// Whether this isn't empty, and is the path.
fn is_same(shown: &str, path: &str) -> bool
    ensures { result ≡ (not (length shown.now == 0) && bytes_eq shown.now path.now) }
{
    !shown.is_empty() && shown == path
}

/// Whether this is how a path that isn't empty is shown, unchanged.
fn is_exact(shown: &str, path: &str) -> bool
    requires { shown.now ≡ text_shown (chars path.now) }
    ensures { result ≡ said.is_exact (chars path.now) }
{
    is_same(shown, path)
}

/// How a path without its root is shown.
fn shown_bare(alloc: Global, path: &str) -> Result<Option<ShownPath>, AllocError>
    ensures path { IfOk result (λ o. option_map (λ shown. shown.text) o
        ≡ none_if_empty (text_shown (chars path.now))) }
    ensures exact { IfOk result (λ o. option_map_or (λ shown. shown.exact) o false
        ≡ said.is_exact (chars path.now)) }
{
    let shown = show_text(alloc, path)?;
    if shown.is_empty() {
        return Ok(None);
    }
    let exact = is_exact(shown.as_str(), path);
    let text = Text::from_string(shown)?;
    Ok(Some(ShownPath { text, exact }))
}

/// How a path is shown.
fn shown_path(alloc: Global, roots: &[Text], path: &str) -> Result<Option<ShownPath>, AllocError>
    ensures path { IfOk result (λ o. option_map (λ shown. shown.text) o ≡ none_if_empty
        (text_shown (without_here (chars (without_root roots.now path.now))))) }
    ensures exact { IfOk result (λ o. option_map_or (λ shown. shown.exact) o false
        ≡ said.is_exact (without_here (chars (without_root roots.now path.now)))) }
{
    shown_bare(alloc, bare_path(roots, path))
}

/// A URI as it is shown as a path.
fn shown_uri(alloc: Global, roots: &[Text], uri: &str) -> Result<Option<ShownPath>, AllocError>
    ensures path { IfOk result
        (λ o. option_map (λ shown. shown.text) o ≡ said.shown_path roots.now uri.now) }
    ensures exact { IfOk result (λ o. option_map_or (λ shown. shown.exact) o false
        ≡ said.is_exact_path roots.now uri.now) }
{
    let path = decode_or_keep(alloc, uri)?;
    shown_path(alloc, roots, path.as_str())
}

/// The path of the artifact with that index.
fn artifact_path<'r>(run: &'r NamedRun<'_>, index: Option<u64>) -> Option<&'r Text>
    ensures { option_map (λ path. path.now) result
        ≡ option_map path_of.decoded (option_and_then (artifact_uri (view run.now)) index) }
{
    run.artifact_path(index?)
}

/// What is shown as a path of that artifact.
fn shown_artifact(
    alloc: Global,
    roots: &[Text],
    run: &NamedRun<'_>,
    index: Option<u64>,
) -> Result<Option<ShownPath>, AllocError>
    ensures path { IfOk result (λ o. option_map (λ shown. shown.text) o
        ≡ option_and_then (said.shown_path roots.now)
        (option_and_then (artifact_uri (view run.now)) index)) }
    ensures exact { IfOk result (λ o. option_map_or (λ shown. shown.exact) o false
        ≡ option_map_or (said.is_exact_path roots.now)
        (option_and_then (artifact_uri (view run.now)) index) false) }
{
    match artifact_path(run, index) {
        None => Ok(None),
        Some(path) => shown_path(alloc, roots, path.as_str()),
    }
}

/// The shown path of the URI of a location, otherwise of the URI of the artifact whose index it has.
fn path_of_location(
    alloc: Global,
    roots: &[Text],
    run: &NamedRun<'_>,
    location: &FirstLocation<'_>,
) -> Result<Option<ShownPath>, AllocError>
    ensures path { IfOk result (λ o. option_map (λ shown. shown.text) o
        ≡ option_and_then (said.shown_path roots.now)
        (located.uri_at (view run.now) location.now)) }
    ensures exact { IfOk result (λ o. option_map_or (λ shown. shown.exact) o false
        ≡ option_map_or (said.is_exact_path roots.now)
        (located.uri_at (view run.now) location.now) false) }
{
    match location.uri {
        Some(uri) => shown_uri(alloc, roots, uri),
        None => shown_artifact(alloc, roots, run, location.artifact),
    }
}

/// A line or a column: an integer from 1 to 2^32 - 1.
pub(crate) fn position(number: u64) -> Option<u32>
    ensures { result ≡ position_number number }
{
    if 1 <= number && number <= u32::MAX as u64 {
        Some(number as u32)
    } else {
        None
    }
}

/// A line or a column, if the value that it is reported with is there.
fn position_with<T>(beside: &Option<T>, number: Option<u64>) -> Option<u32>
    ensures { result
        ≡ said.only_with beside.now (option_and_then position_number number) }
{
    match beside {
        None => None,
        Some(_) => position(number?),
    }
}

/// The path, and whether it is shown unchanged.
fn parts_of(shown: Option<ShownPath>) -> (Option<Text>, bool)
    ensures path { result.0 ≡ option_map (λ known. known.text) shown }
    ensures exact { result.1 ≡ option_map_or (λ known. known.exact) shown false }
{
    match shown {
        None => (None, false),
        Some(ShownPath { text, exact }) => (Some(text), exact),
    }
}

/// What a finding says about the place of a result of a run.
pub(crate) fn spot_of(
    alloc: Global,
    reporting: &Reporting,
    run: &NamedRun<'_>,
    location: &FirstLocation<'_>,
) -> Result<ShownPlace, AllocError>
    ensures path { IfOk result (λ spot. spot.path
        ≡ located.path_at reporting.now (view run.now) location.now) }
    ensures exact { IfOk result (λ spot. spot.exact
        ≡ located.is_exact_at reporting.now (view run.now) location.now) }
    ensures line { IfOk result (λ spot. spot.line
        ≡ located.line_at reporting.now (view run.now) location.now) }
    ensures column { IfOk result (λ spot. spot.column
        ≡ located.column_at reporting.now (view run.now) location.now) }
{
    let shown = path_of_location(alloc, reporting.roots.as_slice(), run, location)?;
    let (path, exact) = parts_of(shown);
    let line = position_with(&path, location.line);
    let column = position_with(&line, location.column);
    Ok(ShownPlace {
        path,
        exact,
        line,
        column,
    })
}
