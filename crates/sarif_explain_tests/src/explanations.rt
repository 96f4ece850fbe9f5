//! The smallest source of each cause, with the complete expected explanation.
mod arguments;
mod diffs;
mod files;
mod forms;
mod logs;
mod outputs;
mod policies;
mod results;
mod runs;

use sarif_explain::{FaultSource, explanation};
use sarif_model::{At, Cause, MergeFault};
use std::alloc::Global;
use std::process::Abort;
use std::test::Fail;

/// The explanation of that error of a file `found.sarif` with this content.
fn told(alloc: Global, at: At, cause: Cause, text: &str) -> Result<String, Fail> {
    let source = FaultSource {
        file: "found.sarif",
        bytes: text.as_bytes(),
        system: None,
        is_folder: false,
    };
    Ok(explanation(alloc, &MergeFault { at, cause }, &source)?)
}

/// That this is its explanation.
fn check(
    rt: &impl Abort,
    alloc: Global,
    at: At,
    cause: Cause,
    text: &str,
    wanted: &str,
) -> Result<(), Fail> {
    assert_eq!(rt; told(alloc, at, cause, text)?.as_str(), wanted, "{text}");
    Ok(())
}
