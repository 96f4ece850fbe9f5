//! The sources that a request names.
ghost use Rattle.std.specs.Prelude.{◌≡◌, IfOk, map, option_map};
ghost use Rattle.sarif_streams.specs.Counted.{failed_calls};
ghost use Rattle.sarif_streams.specs.Failing.{failed_calls_in};
ghost use Rattle.sarif_streams.specs.Named.{Named, channel_named, input_channel};
ghost use Rattle.sarif_streams.specs.OptionalReader.{failed_calls_if};
ghost use Rattle.sarif_gate.specs.Named.{source_channel};

use sarif_model::Text;
use sarif_request::Request;
use sarif_streams::{Counted, Input, InputFile, Kept, Readers};
use std::alloc::AllocError;
use std::io::Stdin;

/// A source of the program.
pub type ProgramSource<'a> = Kept<Input<'a, HostRuntime, Stdin>>;

/// Returns the sources that a request names, none of them opened. If errors are explained, the bytes that are read
/// are kept. Returns `AllocError` if memory for their lists runs out.
pub fn sources_of<'a>(
    rt: &'a HostRuntime,
    request: &'a Request,
) -> Result<Readers<ProgramSource<'a>>, AllocError>
    // Each name is in the list that the request has it in. Only a log or the diff can be standard input.
    ensures logs { IfOk result (λ sources. map source_channel sources.logs.items
        ≡ map channel_named «request».now.logs.items) }
    ensures baselines { IfOk result (λ sources. map source_channel sources.baselines.items
        ≡ map Named «request».now.baselines.items) }
    ensures suppressions { IfOk result (λ sources. option_map source_channel sources.suppressions
        ≡ option_map Named «request».now.suppress) }
    ensures policy { IfOk result (λ sources. option_map source_channel sources.policy
        ≡ option_map Named «request».now.policy) }
    ensures diff { IfOk result (λ sources. option_map source_channel sources.diff
        ≡ option_map channel_named «request».now.diff) }
    ensures fresh { IfOk result (λ sources. (failed_calls_in sources.logs.items ≡ 0)
        × (failed_calls_in sources.baselines.items ≡ 0)
        × (failed_calls_if sources.suppressions ≡ 0)
        × (failed_calls_if sources.policy ≡ 0)
        × (failed_calls_if sources.diff ≡ 0)) }
{
    let logs = logs_of(rt, &request.logs, request.explain)?;
    let baselines = baselines_of(rt, &request.baselines, request.explain)?;
    let suppressions = file_if(rt, &request.suppress, request.explain);
    let policy = file_if(rt, &request.policy, request.explain);
    let diff = match &request.diff {
        Some(name) => Some(stream_of(rt, name.as_str(), request.explain)),
        None => None,
    };
    Ok(Readers {
        logs,
        baselines,
        suppressions,
        policy,
        diff,
    })
}

/// The logs of these names, in order.
fn logs_of<'a>(
    rt: &'a HostRuntime,
    names: &'a Vec<Text>,
    is_kept: bool,
) -> Result<Vec<Counted<ProgramSource<'a>>>, AllocError>
    ensures names { IfOk result
        (λ v. map source_channel v.items ≡ map channel_named names.now.items) }
    ensures fresh { IfOk result (λ v. failed_calls_in v.items ≡ 0) }
{
    let mut logs = Vec::new(rt.alloc());
    for name in names {
        logs.push(stream_of(rt, name.as_str(), is_kept))?;
    }
    Ok(logs)
}

/// The baselines of these names, in order.
fn baselines_of<'a>(
    rt: &'a HostRuntime,
    names: &'a Vec<Text>,
    is_kept: bool,
) -> Result<Vec<Counted<ProgramSource<'a>>>, AllocError>
    ensures names { IfOk result (λ v. map source_channel v.items ≡ map Named names.now.items) }
    ensures fresh { IfOk result (λ v. failed_calls_in v.items ≡ 0) }
{
    let mut baselines = Vec::new(rt.alloc());
    for name in names {
        baselines.push(file_of(rt, name.as_str(), is_kept))?;
    }
    Ok(baselines)
}

/// Returns the file of a name, or standard input for `-`.
fn stream_of<'a>(rt: &'a HostRuntime, name: &'a str, is_kept: bool) -> Counted<ProgramSource<'a>>
    ensures name { source_channel result ≡ channel_named name.now }
    ensures fresh { failed_calls result ≡ 0 }
{
    fresh_source(rt, Input::log(rt, rt.stdin(), name), is_kept)
}

/// Returns the file of a name, if there is one.
fn file_if<'a>(
    rt: &'a HostRuntime,
    name: &'a Option<Text>,
    is_kept: bool,
) -> Option<Counted<ProgramSource<'a>>>
    ensures name { option_map source_channel result ≡ option_map Named name.now }
    ensures fresh { failed_calls_if result ≡ 0 }
{
    match name {
        Some(name) => Some(file_of(rt, name.as_str(), is_kept)),
        None => None,
    }
}

/// The file of a name.
fn file_of<'a>(rt: &'a HostRuntime, name: &'a str, is_kept: bool) -> Counted<ProgramSource<'a>>
    ensures name { source_channel result ≡ Named name.now }
    ensures fresh { failed_calls result ≡ 0 }
{
    fresh_source(rt, Input::File(InputFile::new(rt, name)), is_kept)
}

/// A source none of whose calls failed.
fn fresh_source<'a>(
    rt: &'a HostRuntime,
    input: Input<'a, HostRuntime, Stdin>,
    is_kept: bool,
) -> Counted<ProgramSource<'a>>
    ensures name { source_channel result ≡ input_channel input.entry }
    ensures fresh { failed_calls result ≡ 0 }
{
    let bytes = if is_kept {
        Some(Vec::new(rt.alloc()))
    } else {
        None
    };
    Counted::new(Kept::new(input, bytes))
}
