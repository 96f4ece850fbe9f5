//! Reading a list of baseline states.
ghost use Rattle.std.specs.Prelude.{◌≡◌, IfOk, map};
ghost use Rattle.sarif_request.specs.Listing.{no_states, parts_of, states_listed, with_state};

use sarif_model::State;
use sarif_options::States;
use std::alloc::{AllocError, Global};

/// Returns no state.
fn no_states() -> States
    ensures { result ≡ no_states }
{
    States {
        absent: false,
        fresh: false,
        unchanged: false,
        updated: false,
    }
}

/// Returns these states and this one.
fn with_state(states: States, state: State) -> States
    ensures { result ≡ with_state states state }
{
    match state {
        State::New => States {
            fresh: true,
            ..states
        },
        State::Unchanged => States {
            unchanged: true,
            ..states
        },
        State::Updated => States {
            updated: true,
            ..states
        },
        State::Absent => States {
            absent: true,
            ..states
        },
    }
}

/// Returns the parts of a list, as its commas separate them.
fn parts<'a>(alloc: Global, text: &'a str) -> Result<Vec<&'a str>, AllocError>
    ensures { IfOk result (λ parts. map (λ part. part.now) parts.items ≡ parts_of text.now) }
{
    text.split(',').collect(alloc)
}

/// Returns the states of a list: the names of one or more baseline states (SARIF 2.1.0, "baselineState property"),
/// joined by commas, in any order and without repetition. Returns `None` if the text is not such a list, and
/// `AllocError` if memory runs out.
pub(crate) fn states_of(alloc: Global, text: &str) -> Result<Option<States>, AllocError>
    ensures { IfOk result (λ states. states ≡ states_listed text.now) }
{
    let names = parts(alloc, text)?;
    let mut states = no_states();
    for name in &names {
        match State::from_name(name) {
            Some(state) if !states.lists(state) => states = with_state(states, state),
            _ => return Ok(None),
        }
    }
    Ok(Some(states))
}
