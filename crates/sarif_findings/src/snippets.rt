//! The snippets of a result, and the code that is made from them.
ghost use Rattle.std.specs.Prelude.{◌≡◌, IfOk, option_map, option_and_then};
ghost use Rattle.sarif_findings.specs.Code.{code_by};
ghost use Rattle.sarif_findings.specs.Lookup.{position_number};

use crate::code::Code;
use crate::code_excerpt::excerpt_in;
use crate::code_lines::code_from;
use crate::spot::position;
use std::alloc::{AllocError, Global};

/// What a finding reads of the snippets of a result's first location (SARIF 2.1.0, "physicalLocation object", "region
/// object", "artifactContent object"). A member of the wrong type is treated as missing.
#[derive(Clone, Copy)]
pub struct Snippets<'a> {
    /// `physicalLocation.region.snippet.text`.
    pub region: Option<&'a str>,
    /// `physicalLocation.contextRegion.snippet.text`.
    pub context: Option<&'a str>,
    /// `physicalLocation.contextRegion.startLine`, as it is in the log.
    pub context_line: Option<u64>,
}

/// Returns a line of a log, if it is one.
fn line_if_valid(line: Option<u64>) -> Option<u32>
    ensures { result ≡ option_and_then position_number line }
{
    position(line?)
}

/// Returns the code of a result on this line with these snippets: up to five lines of the context that has the line,
/// otherwise of the region, otherwise of the context. Each line is read once, up to the last that is shown, and no more
/// is made than is shown. Returns `AllocError` if memory runs out.
#[tactic(auto, unfolding(crate::specs::Code::code_by))]
pub(crate) fn code_of(
    alloc: Global,
    snippets: &Snippets<'_>,
    line: Option<u32>,
) -> Result<Option<Code>, AllocError>
    ensures { IfOk result (λ code. code ≡ code_by
        (option_map (λ s. s.now) snippets.now.region) (option_map (λ s. s.now) snippets.now.context)
        (option_and_then position_number snippets.now.context_line) line) }
{
    let first = line_if_valid(snippets.context_line);
    let excerpt = excerpt_in(alloc, snippets.region, snippets.context, first, line)?;
    match excerpt {
        Some(excerpt) => code_from(alloc, excerpt),
        None => Ok(None),
    }
}
