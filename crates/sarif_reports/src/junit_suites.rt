//! The results of each tool.
ghost use Rattle.std.specs.Prelude.{◌≡◌, map, IfOk, OnOk};
ghost use Rattle.sarif_reports.specs.Internal.Suites.{pointed, seen_suites, suites_of, with_result};

use indexmap::IndexMap;
use sarif_findings::Finding;
use sarif_model::Text;
use std::alloc::{AllocError, Global};
use std::hash::RandomState;

/// The tools in the order of first appearance, each with its results.
pub(crate) type Suites<'f> = IndexMap<&'f Text, Vec<&'f Finding>, RandomState>;

/// Puts a result at the end of its tool's.
fn add_result<'f>(
    alloc: Global,
    suites: &mut Suites<'f>,
    tool: &'f Text,
    finding: &'f Finding,
) -> Result<(), AllocError>
    requires { tool.now ≡ finding.now.tool }
    ensures { OnOk result (seen_suites suites.new
        ≡ with_result finding.now (seen_suites suites.old)) }
{
    if let Some(results) = suites.get_mut(&tool) {
        results.push(finding)?;
        return Ok(());
    }
    let results = vec![in alloc; finding]?;
    suites.insert(tool, results)?;
    Ok(())
}

/// The results of each tool, in a table that hashes with `seed`.
pub(crate) fn suites_of<'f>(
    alloc: Global,
    seed: RandomState,
    findings: &[&'f Finding],
) -> Result<Suites<'f>, AllocError>
    ensures { IfOk result (λ suites. seen_suites suites ≡ suites_of (pointed findings.now)) }
{
    let mut suites: Suites<'f> = IndexMap::with_hasher(alloc, seed);
    for finding in findings {
        add_result(alloc, &mut suites, &finding.tool, finding)?;
    }
    Ok(suites)
}
