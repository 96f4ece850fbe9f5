//! The parts of elements in the report in JUnit XML.
ghost use Rattle.std.specs.Prelude.{◌≡◌, ◌++◌, OnOk, string_bytes};
ghost use Rattle.sarif_reports.specs.JunitReport as said;

use sarif_shown::Escaping;
use std::alloc::{AllocError, Global};

/// Adds a string after the beginning of an attribute, or of an element's text.
#[tactic(auto, unfolding(crate::specs::JunitReport::attribute))]
pub(crate) fn push_attribute(
    alloc: Global,
    text: &mut String,
    begin: &str,
    value: &str,
) -> Result<(), AllocError>
    ensures { OnOk result (string_bytes text.new
        ≡ string_bytes text.old ++ said.attribute begin.now value.now) }
{
    text.push_str(begin)?;
    Escaping::Page.push_str(alloc, text, value)?;
    Ok(())
}

/// Adds a number after the beginning of an attribute.
#[tactic(auto, unfolding(crate::specs::JunitReport::counted))]
pub(crate) fn push_counted(
    alloc: Global,
    text: &mut String,
    begin: &str,
    n: usize,
) -> Result<(), AllocError>
    ensures { OnOk result
        (string_bytes text.new ≡ string_bytes text.old ++ said.counted begin.now n) }
{
    let written = format!(in alloc; "{begin}{n}")?;
    text.push_str(written.as_str())?;
    Ok(())
}

#[tactic(auto, unfolding(crate::specs::JunitReport::failure_end))]
pub(crate) fn failure_end() -> &'static str
    ensures { result.now ≡ said.failure_end }
{
    "</failure></testcase>\n"
}

#[tactic(auto, unfolding(crate::specs::JunitReport::skipped_end))]
pub(crate) fn skipped_end() -> &'static str
    ensures { result.now ≡ said.skipped_end }
{
    "\"/></testcase>\n"
}

#[tactic(auto, unfolding(crate::specs::JunitReport::suite_end))]
pub(crate) fn suite_end() -> &'static str
    ensures { result.now ≡ said.suite_end }
{
    "</testsuite>\n"
}

#[tactic(auto, unfolding(crate::specs::JunitReport::document_head))]
pub(crate) fn document_head() -> &'static str
    ensures { result.now ≡ said.document_head }
{
    "<?xml version=\"1.0\" encoding=\"UTF-8\"?>\n<testsuites name=\"sarif_gate"
}

#[tactic(auto, unfolding(crate::specs::JunitReport::document_end))]
pub(crate) fn document_end() -> &'static str
    ensures { result.now ≡ said.document_end }
{
    "</testsuites>\n"
}

/// The document where nothing is reported.
#[tactic(auto, unfolding(crate::specs::JunitReport::passed_document))]
pub(crate) fn passed_document() -> &'static str
    ensures { result.now ≡ said.passed_document }
{
    "\
<?xml version=\"1.0\" encoding=\"UTF-8\"?>
<testsuites name=\"sarif_gate\" tests=\"1\" failures=\"0\">
<testsuite name=\"sarif_gate\" tests=\"1\" failures=\"0\" skipped=\"0\">
<testcase name=\"gate\" classname=\"sarif_gate\"/>
</testsuite>
</testsuites>
"
}
