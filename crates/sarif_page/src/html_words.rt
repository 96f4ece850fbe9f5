//! The sentences and the headings of a page.
ghost use Rattle.std.specs.Prelude.{◌≡◌, ◌++◌, IfOk, OnOk, option_map, string_bytes};
ghost use Rattle.sarif_page.specs.HtmlWords as said;

use sarif_change::Scope;
use sarif_conditions::PolicyFacts;
use sarif_model::{Level, State};
use sarif_options::{Policy, States};
use sarif_scope::ChangeFacts;
use sarif_shown::{Stopping, count_text, hits_text};
use std::alloc::{AllocError, Global};

/// Adds a state, if it counts.
fn push_listed(listed: &mut Vec<State>, states: States, state: State) -> Result<(), AllocError>
    ensures { OnOk result (listed.new.items ≡ listed.old.items ++ said.listed_if states state) }
{
    if states.lists(state) {
        listed.push(state)?;
    }
    Ok(())
}

/// The states that count.
fn listed_states(alloc: Global, states: States) -> Result<Vec<State>, AllocError>
    ensures { IfOk result (λ listed. listed.items ≡ said.listed_states states) }
{
    let mut listed = Vec::new(alloc);
    push_listed(&mut listed, states, State::New)?;
    push_listed(&mut listed, states, State::Unchanged)?;
    push_listed(&mut listed, states, State::Updated)?;
    push_listed(&mut listed, states, State::Absent)?;
    Ok(listed)
}

/// What is between a state and these states after it.
fn joint(states: &[State]) -> &'static str
    ensures { result.now ≡ said.joint states.now }
{
    match states {
        [] => "",
        [_] => " or ",
        _ => ", ",
    }
}

/// The names of these states as one phrase, for example `new, updated or absent`.
fn join_states(alloc: Global, states: &[State]) -> Result<String, AllocError>
    ensures { IfOk result (λ s. string_bytes s ≡ said.joined states.now) }
{
    let mut text = String::new(alloc);
    for (number, state) in states.iter().enumerate() {
        text.push_str(state.name())?;
        text.push_str(joint(&states[number + 1..]))?;
    }
    Ok(text)
}

/// The levels that count, from this one on.
fn levels_from(least: Level) -> &'static str
    ensures { result.now ≡ said.levels_from least }
{
    match least {
        Level::NoLevel => "any level",
        Level::Note => "level note, warning or error",
        Level::Warning => "level warning or error",
        Level::Error => "level error",
    }
}

fn in_scope(scope: Scope) -> &'static str
    ensures { result.now ≡ said.in_scope scope }
{
    match scope {
        Scope::Lines => ", on a line of the change",
        Scope::Files => ", in a file of the change",
    }
}

/// Returns the phrase for the places in which the gate looks for hits, if it checks only a change.
fn in_change(change: &Option<ChangeFacts>) -> &'static str
    ensures { result.now ≡ said.in_change change.now }
{
    match change {
        None => "",
        Some(facts) => in_scope(facts.scope),
    }
}

/// Returns the sentence that says what a hit is under this policy, and with a change if there is one.
#[tactic(auto, unfolding(crate::specs::HtmlWords::reason))]
pub(crate) fn reason(
    alloc: Global,
    policy: &Policy,
    change: &Option<ChangeFacts>,
) -> Result<String, AllocError>
    ensures { IfOk result (λ s. string_bytes s ≡ said.reason policy.now change.now) }
{
    let listed = listed_states(alloc, policy.states)?;
    if listed.is_empty() {
        return String::from_str(alloc, "No state counts, so no result is a hit.");
    }
    let states = join_states(alloc, &listed)?;
    let levels = levels_from(policy.fail_on);
    let within = in_change(change);
    format!(in alloc;
        "A hit is a result that is {states}, of {levels}{within}, and not suppressed."
    )
}

/// Returns the sentence that says what a hit is: with a policy, under these options, and with a change if there is one.
pub(crate) fn reason_by(
    alloc: Global,
    ruling: Option<&PolicyFacts>,
    policy: &Policy,
    change: &Option<ChangeFacts>,
) -> Result<String, AllocError>
    ensures { IfOk result (λ s. string_bytes s ≡ said.reason_by
        (option_map (λ ruling. ruling.now) ruling.entry) policy.now change.now) }
{
    match ruling {
        None => reason(alloc, policy, change),
        Some(_) => String::from_str(
            alloc,
            "A hit is a result that meets a condition of the policy and is not suppressed.",
        ),
    }
}

/// The heading of hits that all stop the change.
fn all_stop(alloc: Global, hits: usize) -> Result<String, AllocError>
    ensures { IfOk result (λ s. string_bytes s ≡ said.all_stop hits) }
{
    count_text(
        alloc,
        hits,
        " hit stops this change",
        " hits stop this change",
    )
}

/// The heading of hits if some of them stop the change.
fn some_stop(alloc: Global, marked: usize, hits: usize) -> Result<String, AllocError>
    ensures { IfOk result (λ s. string_bytes s ≡ said.some_stop marked hits) }
{
    let all = hits_text(alloc, hits)?;
    let stop = count_text(
        alloc,
        marked,
        " of them stops this change",
        " of them stop this change",
    )?;
    format!(in alloc; "{all}, {stop}")
}

/// The heading of the hits of a policy.
fn marked_heading(alloc: Global, marked: usize, hits: usize) -> Result<String, AllocError>
    ensures { IfOk result (λ s. string_bytes s ≡ said.marked_heading marked hits) }
{
    if marked == 0 {
        let all = hits_text(alloc, hits)?;
        return format!(in alloc; "{all}, within the limits");
    }
    if marked == hits {
        return all_stop(alloc, hits);
    }
    some_stop(alloc, marked, hits)
}

/// Returns the heading of the hits, which says whether they stop the change; `marked` are those that stop it with a policy.
pub(crate) fn hits_heading(
    alloc: Global,
    stopping: Stopping,
    marked: usize,
    hits: usize,
    max: u32,
) -> Result<String, AllocError>
    ensures { IfOk result (λ s. string_bytes s ≡ said.hits_heading stopping marked hits max) }
{
    match stopping {
        Stopping::EachHit => all_stop(alloc, hits),
        Stopping::NoHit => {
            let hits = hits_text(alloc, hits)?;
            format!(in alloc; "{hits}, within the {max} allowed")
        }
        Stopping::MarkedHit => marked_heading(alloc, marked, hits),
    }
}

/// Returns the text on a number of results that are not hits.
pub(crate) fn others_text(alloc: Global, others: usize) -> Result<String, AllocError>
    ensures { IfOk result (λ s. string_bytes s ≡ said.others_text others) }
{
    count_text(alloc, others, " other result", " other results")
}
