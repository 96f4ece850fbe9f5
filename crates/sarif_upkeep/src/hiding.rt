//! Which results the gate doesn't check.
ghost use Rattle.std.specs.Prelude.{◌≡◌, ◌<◌, ◌&&◌, not, length, IfOk, IfSome};
ghost use Rattle.sarif_accept.specs.Choosing.{is_chosen_at};
ghost use Rattle.sarif_upkeep.specs.Hiding.{looked_at};
ghost use Rattle.sarif_upkeep.specs.Internal.Hiding.{is_hidden_at, lent};

use std::alloc::{AllocError, Global};

/// Returns whether the result of this number is hidden.
pub(crate) fn is_hidden(hidden: Option<&[bool]>, number: usize) -> bool
    requires { IfSome (lent hidden) (λ marks. number < length marks) }
    ensures { result ≡ is_hidden_at (lent hidden.entry) number }
{
    match hidden {
        None => false,
        Some(marks) => marks[number],
    }
}

/// Returns whether the result of this number is chosen.
fn is_chosen(chosen: Option<&[bool]>, number: usize) -> bool
    requires { IfSome (lent chosen) (λ marks. number < length marks) }
    ensures { result ≡ is_chosen_at (lent chosen.entry) number }
{
    match chosen {
        None => true,
        Some(marks) => marks[number],
    }
}

/// Returns whether the result of this number is chosen and not hidden.
fn is_looked_at(is_hidden: bool, chosen: Option<&[bool]>, number: usize) -> bool
    requires { IfSome (lent chosen) (λ marks. number < length marks) }
    ensures { result ≡ (not is_hidden && is_chosen_at (lent chosen.entry) number) }
{
    !is_hidden && is_chosen(chosen, number)
}

/// Returns which results are chosen and not hidden.
pub(crate) fn mark_looked_at(
    alloc: Global,
    hidden: &[bool],
    chosen: Option<&[bool]>,
) -> Result<Vec<bool>, AllocError>
    requires { IfSome (lent chosen) (λ marks. length marks ≡ length hidden.now) }
    ensures { IfOk result
        (λ marks. marks.items ≡ looked_at hidden.now (lent chosen.entry)) }
{
    let mut marks = Vec::with_capacity(alloc, hidden.len())?;
    for (number, is_hidden) in hidden.iter().enumerate() {
        marks.push(is_looked_at(*is_hidden, chosen, number))?;
    }
    Ok(marks)
}
