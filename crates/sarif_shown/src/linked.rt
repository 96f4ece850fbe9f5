//! The address of the place of a result.
ghost use Rattle.std.specs.Prelude.{◌≡◌, IfOk, option_map, string_bytes};
ghost use Rattle.sarif_shown.specs.Linked as said;

use sarif_findings::Finding;
use sarif_links::{Template, place_address};
use std::alloc::{AllocError, Global};

/// The address of the place by this template, if the path is shown unchanged and may be linked.
fn address_by(
    alloc: Global,
    template: &Template,
    finding: &Finding,
) -> Result<Option<String>, AllocError>
    ensures { IfOk result (λ address. option_map string_bytes address
        ≡ said.address_by template.now finding.now) }
{
    match &finding.path {
        Some(path) if finding.exact => {
            place_address(alloc, template, path.as_str(), finding.line)
        }
        _ => Ok(None),
    }
}

/// Returns the address of the place of a result, or `None` if there is no template, if there is no path, if the path
/// isn't shown unchanged, or if it may not be linked (see `place_address`). Returns `AllocError` if memory runs out.
pub fn place_link(
    alloc: Global,
    link: Option<&Template>,
    finding: &Finding,
) -> Result<Option<String>, AllocError>
    ensures { IfOk result (λ address. option_map string_bytes address
        ≡ said.place_link (option_map (λ template. template.now) link.entry) finding.now) }
{
    match link {
        None => Ok(None),
        Some(template) => address_by(alloc, template, finding),
    }
}
