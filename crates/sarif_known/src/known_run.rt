//! A run of the known log.
ghost use Rattle.std.specs.Prelude.{◌≡◌, ◌≤◌, ◌<◌, ◌+◌, ◌-◌, ◌^◌, ◌++◌, ◌==◌, Some, is_some, length, map, option_map, IfErr, OnOk, codes};
ghost use Rattle.json.specs.Layout.{pretty};
ghost use Rattle.serde_json.specs.Data.{member, no_members, object, string};
ghost use Rattle.sarif_model.specs.Limits.{most_bytes, most_results};
ghost use Rattle.sarif_known.specs.Chosen.{chosen_of, known_as, run_as};
ghost use Rattle.sarif_known.specs.KnownLog.{too_long, IsLost};
ghost use Rattle.sarif_model.specs.Written.{list_if_any};
ghost use Rattle.sarif_known.specs.KnownRun as said;
ghost use Rattle.sarif_known.specs.KnownRun.{artifact_at, bases_alone, known_run, results_from, tool_named};
ghost use Rattle.sarif_known.specs.Internal.Tokens.{data_tokens, each_tokens, least_bytes, run_closing, run_opening, value_tokens};

use crate::chosen::KnownRun;
use crate::known_result::push_result;
use crate::lines::Lines;
use crate::members::push_text;
use json::Token;
use sarif_model::{At, Cause, MergeFault, Record, Source, Text};
use std::alloc::AllocError;

/// The rejection if the known log is too long to be read again.
pub(crate) fn too_long() -> MergeFault
    ensures { result ≡ too_long }
{
    MergeFault::with_place(At::Whole(Source::Known), Cause::TooLong)
}

/// The base of a place without a URI.
fn base_alone<'a>(found: &'a Record) -> Option<&'a Text>
    ensures { option_map (λ base. base.now) result ≡ said.base_alone found.now }
{
    match &found.place.uri {
        Some(_) => None,
        None => match &found.place.base {
            Some(base) => Some(base),
            None => None,
        },
    }
}

/// Returns whether the result's place has a base and no URI.
fn is_base_alone(found: &Record) -> bool
    ensures { result ≡ is_some (said.base_alone found.now) }
{
    match base_alone(found) {
        Some(_) => true,
        None => false,
    }
}

/// The number of the result's artifact, if it needs one.
fn artifact_number(found: &Record, next: u32) -> Option<u32>
    ensures { result ≡ option_map (λ _. next) (said.base_alone found.now) }
{
    match base_alone(found) {
        Some(_) => Some(next),
        None => None,
    }
}

/// The number of the next artifact after this result.
fn next_number(found: &Record, next: u32) -> u32
    requires { next < 2 ^ 32 - 1 }
    ensures value { result ≡ said.next_number next (said.base_alone found.now) }
    ensures bound { result ≤ next + 1 }
{
    match base_alone(found) {
        Some(_) => next + 1,
        None => next,
    }
}

/// Adds an object with one member, a string.
fn push_object_of(out: &mut Lines, name: &str, text: &Text) -> Result<(), AllocError>
    ensures { OnOk result (out.new ≡ out.old
        ++ data_tokens (object (member name.now (string text.now) no_members))) }
{
    out.token(Token::BeginObject)?;
    push_text(out, name, text.as_str())?;
    out.token(Token::EndObject)?;
    Ok(())
}

/// Adds an artifact with this base (SARIF 2.1.0, "artifact object").
fn push_artifact_at(out: &mut Lines, base: &Text) -> Result<(), AllocError>
    ensures { OnOk result (out.new ≡ out.old ++ data_tokens (artifact_at base.now)) }
{
    out.token(Token::BeginObject)?;
    out.token(Token::Key("location"))?;
    push_object_of(out, "uriBaseId", base)?;
    out.token(Token::EndObject)?;
    Ok(())
}

/// Adds an artifact with this base, unless the text gets too long.
fn push_artifact(out: &mut Lines, base: &Text) -> Result<(), MergeFault>
    ensures added { OnOk result (out.new ≡ out.old ++ data_tokens (artifact_at base.now)) }
    ensures short { OnOk result (least_bytes out.new ≤ most_bytes) }
    ensures lost { IfErr result (IsLost (pretty (out.old ++ data_tokens (artifact_at base.now)))) }
{
    push_artifact_at(out, base)?;
    if out.is_long() {
        return Err(too_long());
    }
    Ok(())
}

/// Adds an artifact for each of these results that has a base alone, until the text is too long.
fn push_artifacts(out: &mut Lines, records: &[&Record]) -> Result<(), MergeFault>
    ensures added { OnOk result (out.new ≡ out.old
        ++ each_tokens (map artifact_at (bases_alone (map (λ r. r.now) records.now)))) }
    ensures short { OnOk result
        (least_bytes out.old ≤ most_bytes → least_bytes out.new ≤ most_bytes) }
    ensures lost { IfErr result (IsLost (pretty (out.old
        ++ each_tokens (map artifact_at (bases_alone (map (λ r. r.now) records.now)))))) }
{
    for found in records {
        if let Some(base) = base_alone(found) {
            if let Err(fault) = push_artifact(out, base) {
                return Err(fault);
            }
        }
    }
    Ok(())
}

/// Whether none of these results has a base alone.
fn none_alone(records: &[&Record]) -> bool
    ensures { result ≡ (length (bases_alone (map (λ r. r.now) records.now)) == 0) }
{
    for found in records {
        if is_base_alone(found) {
            return false;
        }
    }
    true
}

/// Adds the artifacts of these results, unless there are none (SARIF 2.1.0, "artifacts property"), until the text is too
/// long.
fn push_artifacts_if(out: &mut Lines, records: &[&Record]) -> Result<(), MergeFault>
    ensures added { OnOk result (out.new ≡ out.old ++ value_tokens (codes "artifacts")
        (list_if_any (map artifact_at (bases_alone (map (λ r. r.now) records.now))))) }
    ensures lost { IfErr result (IsLost (pretty (out.old ++ value_tokens (codes "artifacts")
        (list_if_any (map artifact_at (bases_alone (map (λ r. r.now) records.now))))))) }
{
    if none_alone(records) {
        return Ok(());
    }
    out.token(Token::Key("artifacts"))?;
    out.token(Token::BeginArray)?;
    if let Err(fault) = push_artifacts(out, records) {
        return Err(fault);
    }
    out.token(Token::EndArray)?;
    Ok(())
}

/// Adds the results of these records, with their regions if regions become known, until the text is too long.
fn push_results(out: &mut Lines, records: &[&Record], regions: bool) -> Result<(), MergeFault>
    requires few { length records.now ≤ most_results }
    ensures added { OnOk result (out.new ≡ out.old
        ++ each_tokens (results_from 0 (map (λ r. known_as regions r.now) records.now))) }
    ensures short { OnOk result
        (least_bytes out.old ≤ most_bytes → least_bytes out.new ≤ most_bytes) }
    ensures lost { IfErr result (IsLost (pretty (out.old
        ++ each_tokens (results_from 0 (map (λ r. known_as regions r.now) records.now))))) }
{
    let mut next: u32 = 0;
    for found in records {
        push_result(out, found, artifact_number(found, next), regions)?;
        if out.is_long() {
            return Err(too_long());
        }
        next = next_number(found, next);
    }
    Ok(())
}

/// Opens a run with these results, up to the first of them, unless the text gets too long.
fn open_run(out: &mut Lines, records: &[&Record]) -> Result<(), MergeFault>
    ensures added { OnOk result (out.new ≡ out.old ++ run_opening (map (λ r. r.now) records.now)) }
    ensures lost { IfErr result
        (IsLost (pretty (out.old ++ run_opening (map (λ r. r.now) records.now)))) }
{
    out.token(Token::BeginObject)?;
    if let Err(fault) = push_artifacts_if(out, records) {
        return Err(fault);
    }
    out.token(Token::Key("results"))?;
    out.token(Token::BeginArray)?;
    Ok(())
}

/// Adds the tool of that name (SARIF 2.1.0, "tool property").
fn push_tool(out: &mut Lines, name: &Text) -> Result<(), AllocError>
    ensures { OnOk result
        (out.new ≡ out.old ++ value_tokens (codes "tool") (Some (tool_named name.now))) }
{
    out.token(Token::Key("tool"))?;
    out.token(Token::BeginObject)?;
    out.token(Token::Key("driver"))?;
    push_object_of(out, "name", name)?;
    out.token(Token::EndObject)?;
    Ok(())
}

/// Closes a run of that tool after its last result.
fn close_run(out: &mut Lines, tool: &Text) -> Result<(), AllocError>
    ensures { OnOk result (out.new ≡ out.old ++ run_closing tool.now) }
{
    out.token(Token::EndArray)?;
    push_tool(out, tool)?;
    out.token(Token::EndObject)?;
    Ok(())
}

/// Adds a run, with the regions of its results if regions become known (SARIF 2.1.0, "run object"), unless the text gets
/// too long.
pub(crate) fn push_run(out: &mut Lines, run: &KnownRun<'_>, regions: bool) -> Result<(), MergeFault>
    ensures added { OnOk result (out.new
        ≡ out.old ++ data_tokens (known_run (run_as regions (chosen_of run.now)))) }
    ensures lost { IfErr result (IsLost
        (pretty (out.old ++ data_tokens (known_run (run_as regions (chosen_of run.now)))))) }
{
    if let Err(fault) = open_run(out, &run.records) {
        return Err(fault);
    }
    if let Err(fault) = push_results(out, &run.records, regions) {
        return Err(fault);
    }
    close_run(out, run.tool)?;
    Ok(())
}
