//! Giving each copy what its finding has.
ghost use Rattle.std.specs.Prelude.{◌≡◌, false, map, IfOk, Some, slice_index_or};
ghost use Rattle.sarif_model.specs.declared.kinds.State.TheVariants.{New};
ghost use Rattle.sarif_copies.specs.Copies.{spread};

use sarif_model::State;
use std::alloc::{AllocError, Global};

/// The state with this number, or `New` past the end.
fn state_at(states: &[State], number: u32) -> State
    ensures { result ≡ slice_index_or states.now number New }
{
    match states.get(number as usize) {
        Some(state) => *state,
        None => State::New,
    }
}

/// For each result the state of its finding, which has this number among the findings, as one that is there. Returns
/// `AllocError` if memory runs out.
pub fn spread_states(
    alloc: Global,
    numbers: &[u32],
    states: &[State],
) -> Result<Vec<Option<State>>, AllocError>
    ensures { IfOk result (λ all. all.items ≡ map Some (spread New numbers.now states.now)) }
{
    let mut all = Vec::with_capacity(alloc, numbers.len())?;
    for number in numbers {
        all.push(Some(state_at(states, *number)))?;
    }
    Ok(all)
}

/// The mark with this number, or false past the end.
fn mark_at(marks: &[bool], number: u32) -> bool
    ensures { result ≡ slice_index_or marks.now number false }
{
    match marks.get(number as usize) {
        Some(mark) => *mark,
        None => false,
    }
}

/// For each result the mark of its finding, which has this number among the findings. Returns `AllocError` if memory
/// runs out.
pub fn spread_marks(alloc: Global, numbers: &[u32], marks: &[bool]) -> Result<Vec<bool>, AllocError>
    ensures { IfOk result (λ all. all.items ≡ spread false numbers.now marks.now) }
{
    let mut all = Vec::with_capacity(alloc, numbers.len())?;
    for number in numbers {
        all.push(mark_at(marks, *number))?;
    }
    Ok(all)
}
