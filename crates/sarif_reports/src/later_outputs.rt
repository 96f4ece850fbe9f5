//! The outputs for later merges, which are made with the merged log.
ghost use Rattle.std.specs.Prelude.{◌≡◌, IfOk, option_map, string_bytes};
ghost use Rattle.sarif_reports.specs.LaterOutputs as said;

use sarif_counts::Life;
use sarif_model::Text;
use std::alloc::{AllocError, Global};

/// Returns the new suppression file, or an empty string if there is none.
pub(crate) fn suppressions_text(alloc: Global, life: Option<&Life>) -> Result<String, AllocError>
    ensures { IfOk result (λ s. string_bytes s
        ≡ said.suppressions_text (option_map (λ all. all.now) life.entry)) }
{
    match life {
        Some(
            Life {
                suppressions: Some(file),
                ..
            },
        ) => copy_of(alloc, &file.text),
        _ => Ok(String::new(alloc)),
    }
}

/// Returns the known log, or an empty string if there is none.
pub(crate) fn known_text(alloc: Global, life: Option<&Life>) -> Result<String, AllocError>
    ensures { IfOk result
        (λ s. string_bytes s ≡ said.known_text (option_map (λ all. all.now) life.entry)) }
{
    match life {
        Some(
            Life {
                known: Some(log),
                ..
            },
        ) => copy_of(alloc, &log.text),
        _ => Ok(String::new(alloc)),
    }
}

/// Returns the list of unused entries, or an empty string if there is none.
pub(crate) fn unused_text(alloc: Global, life: Option<&Life>) -> Result<String, AllocError>
    ensures { IfOk result
        (λ s. string_bytes s ≡ said.unused_text (option_map (λ all. all.now) life.entry)) }
{
    match life {
        Some(
            Life {
                unused: Some(text),
                ..
            },
        ) => copy_of(alloc, text),
        _ => Ok(String::new(alloc)),
    }
}

/// Returns a copy of a string.
fn copy_of(alloc: Global, text: &Text) -> Result<String, AllocError>
    ensures { IfOk result (λ s. string_bytes s ≡ text.now) }
{
    String::from_str(alloc, text.as_str())
}
