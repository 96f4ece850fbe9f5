//! Which results have a row on a page.
ghost use Rattle.std.specs.Prelude.{◌≡◌, ◌<◌, ◌+◌, ◌^◌, ◌==◌, length, IfOk, option_map, if◌then◌else◌};
ghost use Rattle.std.specs.List.{count_by};
ghost use Rattle.sarif_page.specs.Internal.ByFile.{findings_in};
ghost use Rattle.sarif_page.specs.Internal.Lists.{tables_in};
ghost use Rattle.sarif_page.specs.HtmlRows.{tables_of};
ghost use Rattle.sarif_shown.specs.Listed.{hits_among as hits_in, others_among as others_in};
ghost use Rattle.sarif_shown.specs.Stopping.{stops};
ghost use Rattle.sarif_shown.specs.declared.stopping.Stopping.TheVariants.{MarkedHit};

use crate::by_file::by_file;
use crate::rules::{Index, index_of};
use sarif_findings::Finding;
use sarif_links::Template;
use sarif_shown::{Stopping, push_hits, push_others};
use std::alloc::{AllocError, Global};
use std::hash::RandomState;

/// The maximum number of rows.
const MOST_ROWS: usize = 10_000;

/// The rows of the two lists.
#[derive(Drop)]
pub(crate) struct Rows<'f> {
    /// Hits, by file.
    pub(crate) hits: Vec<&'f Finding>,
    /// Other results, by file.
    pub(crate) others: Vec<&'f Finding>,
    /// The number of hits, with a row or not.
    pub(crate) all_hits: usize,
    /// The number of other results, with a row or not.
    pub(crate) all_others: usize,
    /// The number of hits of conditions that fail, with a row or not.
    pub(crate) marked: usize,
    /// The rules of the first list that there is.
    pub(crate) index: Index<'f>,
    /// The template by which places are linked, if they are.
    pub(crate) link: Option<&'f Template>,
    /// The seed of the tables by file.
    pub(crate) seed: RandomState,
}

fn hits_among(alloc: Global, findings: &[Finding]) -> Result<Vec<&Finding>, AllocError>
    ensures { IfOk result (λ hits. findings_in hits.items ≡ hits_in findings.now) }
{
    let mut hits = Vec::new(alloc);
    push_hits(&mut hits, findings)?;
    Ok(hits)
}

fn others_among(alloc: Global, findings: &[Finding]) -> Result<Vec<&Finding>, AllocError>
    ensures { IfOk result (λ others. findings_in others.items ≡ others_in findings.now) }
{
    let mut others = Vec::new(alloc);
    push_others(&mut others, findings)?;
    Ok(others)
}

/// How many of these results are hits of conditions that fail.
fn count_marked(findings: &[Finding]) -> usize
    ensures { result ≡ count_by (λ f. stops MarkedHit f.impact) findings.now }
{
    let mut marked = 0;
    for finding in findings {
        if Stopping::MarkedHit.stops(finding.impact) {
            marked += 1;
        }
    }
    marked
}

/// The results of the first list that there is.
fn first_list<'a, 'f>(hits: &'a [&'f Finding], others: &'a [&'f Finding]) -> &'a [&'f Finding]
    ensures { result.now ≡ (if length hits.now == 0 then others.now else hits.now) }
{
    if hits.is_empty() { others } else { hits }
}

/// Chooses the rows of these findings: the first `MOST_ROWS` of the hits by file, then of the others by file.
#[tactic(auto, unfolding(crate::specs::HtmlRows::hit_rows, crate::specs::HtmlRows::other_rows))]
pub(crate) fn rows_of<'f>(
    alloc: Global,
    seed: RandomState,
    link: Option<&'f Template>,
    findings: &'f [Finding],
) -> Result<Rows<'f>, AllocError>
    ensures tables { IfOk result (λ rows. tables_in rows
        ≡ tables_of (option_map (λ link. link.now) link.entry) findings.now) }
    ensures room { IfOk result (λ rows. rows.all_hits + rows.all_others < 2 ^ 64) }
{
    let hits = hits_among(alloc, findings)?;
    let others = others_among(alloc, findings)?;
    let hit_rows = by_file(alloc, seed, &hits, MOST_ROWS)?;
    let other_rows = by_file(alloc, seed, &others, MOST_ROWS - hit_rows.len())?;
    let index = index_of(alloc, seed, first_list(&hits, &others))?;
    Ok(Rows {
        hits: hit_rows,
        others: other_rows,
        all_hits: hits.len(),
        all_others: others.len(),
        marked: count_marked(findings),
        index,
        link,
        seed,
    })
}
