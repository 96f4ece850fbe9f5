//! The explanation of an argument that fits no hit.
ghost use Rattle.std.specs.Prelude.{◌≡◌, ◌++◌, ℕ, List, IfOk, chars, codes, string_bytes};
ghost use Rattle.sarif_explain.specs.Internal.Lines.{line_of, most_of_a_value, shortened};

use crate::advice::advice_on;
use crate::explaining::push_sentence;
use crate::hint::Hint;
use crate::lines::{push_line, shorten};
use crate::whole::wanted_by;
use sarif_model::MergeFault;
use std::alloc::{AllocError, Global};

/// Returns the explanation of an error in this value of an option: the lines `found`, `wanted` and `advice` of
/// [`explanation`](crate::explanation). Returns `AllocError` if memory runs out.
pub fn argument_explanation(
    alloc: Global,
    fault: &MergeFault,
    value: &str,
) -> Result<String, AllocError>
    ensures { IfOk result (λ s. (wanted : List ℕ) × (advice : List ℕ)
        × (string_bytes s
        ≡ line_of (codes "found") (shortened most_of_a_value (chars value.now))
        ++ (line_of (codes "wanted") wanted ++ line_of (codes "advice") advice))) }
{
    let mut lines = String::new(alloc);
    let found = shorten(alloc, value)?;
    push_line(alloc, &mut lines, "found", found.as_str())?;
    push_sentence(alloc, &mut lines, wanted_by(fault))?;
    push_line(alloc, &mut lines, "advice", advice_on(fault, Hint::None))?;
    Ok(lines)
}
