//! Names in the arguments that clash.
ghost use Rattle.std.specs.Prelude.{◌≡◌, IfOk, Option, codes, find, map, option_map, string_bytes};
ghost use Rattle.std.specs.List.{list_any};
ghost use Rattle.sarif_request.specs.Names as said;
ghost use Rattle.sarif_request.specs.Sentences as text;

use crate::repeated::first_repeated;
use crate::request::Request;
use crate::wanted::RequestedOutput;
use sarif_model::Text;
use sarif_reports::Report;
use sarif_streams::STANDARD;
use std::alloc::{AllocError, Global};

/// Why names clash.
#[derive(Clone, Copy, Debug, PartialEq, Eq)]
pub enum Clash {
    /// Two logs have the same name.
    RepeatedLog,
    /// Two baselines have the same name.
    RepeatedBaseline,
    /// A log and the diff are standard input.
    Streams,
    /// An output would overwrite the suppression file.
    Suppressions,
    /// An output would overwrite the policy.
    Policy,
    /// An output would overwrite the diff.
    Diff,
    /// Two outputs have the same name.
    Outputs,
    /// The merged log would overwrite a log.
    Log,
    /// Another output would overwrite a log or a baseline.
    Inputs,
}

/// An output of a request.
#[derive(Clone, Copy)]
struct Output<'a> {
    /// The name of its option.
    option: &'a str,
    /// The name of its file; `-` is standard output.
    file: &'a str,
}

impl Clash {
    /// Returns whether two inputs have the same name.
    pub fn is_repeat(self) -> bool
        ensures { result ≡ text.is_repeat self }
    {
        matches!(self, Clash::RepeatedLog | Clash::RepeatedBaseline)
    }

    /// Returns the sentence for users, which names the options and the file of this request that clash. Returns
    /// `AllocError` if memory runs out.
    pub fn sentence(self, alloc: Global, request: &Request) -> Result<String, AllocError>
        ensures { IfOk result
            (λ s. string_bytes s ≡ text.clash_text self (said.names_of request.now)) }
    {
        match self {
            Clash::RepeatedLog => repeated_log_told(alloc, request),
            Clash::RepeatedBaseline => repeated_baseline_told(alloc, request),
            Clash::Streams => String::from_str(
                alloc,
                "standard input (-) can be only one of the logs and --diff",
            ),
            Clash::Suppressions => suppressions_told(alloc, request),
            Clash::Policy => input_file_told(alloc, request, "policy", &request.policy),
            Clash::Diff => input_file_told(alloc, request, "diff", &request.diff),
            Clash::Outputs => outputs_told(alloc, request),
            Clash::Log => log_told(alloc, request),
            Clash::Inputs => inputs_told(alloc, request),
        }
    }
}

/// Names the first log that is passed twice.
fn repeated_log_told(alloc: Global, request: &Request) -> Result<String, AllocError>
    ensures { IfOk result (λ s. string_bytes s
        ≡ text.repeated_log_text (text.repeated_name request.now.logs.items)) }
{
    let name = repeated_name(alloc, request, &request.logs)?;
    if name == STANDARD {
        String::from_str(alloc, "standard input (-) can be only one of the logs")
    } else {
        format!(in alloc; "the log {name} is passed twice")
    }
}

/// Names the first baseline that is passed twice.
fn repeated_baseline_told(alloc: Global, request: &Request) -> Result<String, AllocError>
    ensures { IfOk result (λ s. string_bytes s
        ≡ text.repeated_baseline_text (text.repeated_name request.now.baselines.items)) }
{
    let name = repeated_name(alloc, request, &request.baselines)?;
    format!(in alloc; "the baseline {name} is passed twice")
}

/// Returns the first of these names of a request that is repeated, or the empty string if they all differ.
fn repeated_name<'a>(
    alloc: Global,
    request: &Request,
    names: &'a Vec<Text>,
) -> Result<&'a str, AllocError>
    ensures { IfOk result (λ name. name.now ≡ text.repeated_name names.now.items) }
{
    match first_repeated(alloc, request.options.seed, names.as_slice())? {
        Some(name) => Ok(name.as_str()),
        None => Ok(""),
    }
}

/// Returns the outputs of a request: the merged log and then the others.
#[tactic(auto, using(crate::proofs::Named::named_more))]
fn outputs_of<'a>(alloc: Global, request: &'a Request) -> Result<Vec<Output<'a>>, AllocError>
    ensures { IfOk result
        (λ v. map text.named v.items ≡ text.named_outputs (said.names_of request.now)) }
{
    let mut outputs = Vec::new(alloc);
    outputs.push(Output {
        option: "out",
        file: request.out.as_str(),
    })?;
    for report in &request.reports {
        outputs.push(Output {
            option: report.report.name(),
            file: report.to.as_str(),
        })?;
    }
    Ok(outputs)
}

/// Names the first output that would overwrite the suppression file.
fn suppressions_told(alloc: Global, request: &Request) -> Result<String, AllocError>
    ensures { IfOk result
        (λ s. string_bytes s ≡ text.suppressions_text (said.names_of request.now)) }
{
    let name = match &request.suppress {
        Some(name) => name.as_str(),
        None => "",
    };
    let option = replacing_option(name, request);
    format!(in alloc; "--{option} would overwrite the suppression file {name}")
}

/// Returns the option of the first output that would overwrite the suppression file of this name.
fn replacing_option(name: &str, request: &Request) -> &'static str
    ensures { result.now ≡ text.replacing_option name.now (said.names_of request.now) }
{
    if request.out.as_str() != name {
        for wanted in &request.reports {
            if replaces_file(name, wanted) {
                return wanted.report.name();
            }
        }
    }
    "out"
}

/// Names the first output that would overwrite the policy or the diff.
fn input_file_told(
    alloc: Global,
    request: &Request,
    called: &str,
    file: &Option<Text>,
) -> Result<String, AllocError>
    ensures { IfOk result (λ s. string_bytes s
        ≡ text.input_file_text called.now file.now (said.names_of request.now)) }
{
    let name = match file {
        Some(name) => name.as_str(),
        None => "",
    };
    let option = naming_option(name, request);
    format!(in alloc; "--{option} would overwrite the {called} {name}")
}

/// Returns the option of the first output with this name.
fn naming_option(name: &str, request: &Request) -> &'static str
    ensures { result.now ≡ text.naming_option name.now (said.names_of request.now) }
{
    if request.out.as_str() != name {
        for wanted in &request.reports {
            if wanted.to.as_str() == name {
                return wanted.report.name();
            }
        }
    }
    "out"
}

/// Names the first two outputs with one name.
fn outputs_told(alloc: Global, request: &Request) -> Result<String, AllocError>
    ensures { IfOk result
        (λ s. string_bytes s ≡ text.first_shared_text (said.names_of request.now)) }
{
    let outputs = outputs_of(alloc, request)?;
    shared_told(alloc, outputs.as_slice())
}

/// Names the first two of these outputs with one name.
#[tactic(auto, using(crate::proofs::Named::told_here, crate::proofs::Named::told_later, crate::proofs::Named::told_nowhere))]
fn shared_told(alloc: Global, outputs: &[Output<'_>]) -> Result<String, AllocError>
    ensures { IfOk result (λ s. string_bytes s
        ≡ text.outputs_text (map text.named outputs.now) (map text.named outputs.now)) }
{
    for first in outputs {
        if let Some(second) = sharing_with(*first, outputs) {
            return two_outputs_told(alloc, *first, second);
        }
    }
    String::from_str(alloc, "two outputs have the same name")
}

/// Returns the first of these outputs that has another option than this output, and the same name.
fn sharing_with<'a>(first: Output<'_>, outputs: &[Output<'a>]) -> Option<Output<'a>>
    ensures { option_map text.named result
        ≡ find (text.share_file (text.named first.entry)) (map text.named outputs.now) }
{
    for second in outputs {
        if first.option != second.option && first.file == second.file {
            return Some(*second);
        }
    }
    None
}

/// Names two outputs with one name.
fn two_outputs_told(
    alloc: Global,
    first: Output<'_>,
    second: Output<'_>,
) -> Result<String, AllocError>
    ensures { IfOk result (λ s. string_bytes s
        ≡ text.two_outputs_text (text.named first.entry) (text.named second.entry)) }
{
    let (one, other, file) = (first.option, second.option, first.file);
    if file == STANDARD {
        both_standard_told(alloc, one, other)
    } else {
        both_file_told(alloc, one, other, file)
    }
}

/// Names the options of two outputs that are both standard output.
fn both_standard_told(alloc: Global, one: &str, other: &str) -> Result<String, AllocError>
    ensures { IfOk result (λ s. string_bytes s ≡ text.both_standard_text one.now other.now) }
{
    format!(in alloc;
        "--{one} and --{other} both write to standard output (-); only one output can"
    )
}

/// Names the options of two outputs that are both this file.
fn both_file_told(alloc: Global, one: &str, other: &str, file: &str) -> Result<String, AllocError>
    ensures { IfOk result
        (λ s. string_bytes s ≡ text.both_file_text one.now other.now file.now) }
{
    format!(in alloc; "--{one} and --{other} both write to {file}; each output needs its own file")
}

/// Names the log that the merged log would overwrite.
fn log_told(alloc: Global, request: &Request) -> Result<String, AllocError>
    ensures { IfOk result
        (λ s. string_bytes s ≡ text.overwrites (codes "out") (codes "log") request.now.out) }
{
    let name = request.out.as_str();
    format!(in alloc; "--out would overwrite the log {name}")
}

/// Names the first other output that would overwrite a log or a baseline.
fn inputs_told(alloc: Global, request: &Request) -> Result<String, AllocError>
    ensures { IfOk result (λ s. string_bytes s ≡ text.inputs_text (said.names_of request.now)) }
{
    for wanted in &request.reports {
        if replaces_input(request, wanted) {
            return input_told(alloc, request, wanted);
        }
    }
    String::from_str(alloc, "an output would overwrite a log or a baseline")
}

/// Names the log or the baseline that this output would overwrite.
fn input_told(
    alloc: Global,
    request: &Request,
    wanted: &RequestedOutput<Text>,
) -> Result<String, AllocError>
    ensures { IfOk result
        (λ s. string_bytes s ≡ text.input_text (said.names_of request.now) wanted.now) }
{
    let option = wanted.report.name();
    let name = wanted.to.as_str();
    if request.logs.contains(&wanted.to) {
        return format!(in alloc; "--{option} would overwrite the log {name}");
    }
    match wanted.report {
        Report::Known => format!(in alloc;
            "--{option} would overwrite the baseline {name}, which is not the only baseline"
        ),
        _ => format!(in alloc; "--{option} would overwrite the baseline {name}"),
    }
}

/// Returns why the names of this request clash, or `None` if they don't. Names are compared byte for byte. Returns
/// `AllocError` if memory runs out.
pub fn clash_of(alloc: Global, request: &Request) -> Result<Option<Clash>, AllocError>
    ensures { IfOk result (λ clash. clash ≡ said.clash_of (said.names_of request.now)) }
{
    if have_repeats(alloc, request, &request.logs)? {
        Ok(Some(Clash::RepeatedLog))
    } else if have_repeats(alloc, request, &request.baselines)? {
        Ok(Some(Clash::RepeatedBaseline))
    } else if reads_twice(request) {
        Ok(Some(Clash::Streams))
    } else {
        Ok(output_clash(request))
    }
}

/// Whether two of these names of a request are the same.
fn have_repeats(alloc: Global, request: &Request, names: &Vec<Text>) -> Result<bool, AllocError>
    ensures { IfOk result (λ is. is ≡ said.have_one_name names.now.items) }
{
    Ok(first_repeated(alloc, request.options.seed, names.as_slice())?.is_some())
}

/// Returns why the name of an output clashes with another name, or `None` if none does.
fn output_clash(request: &Request) -> Option<Clash>
    ensures { result ≡ said.output_clash (said.names_of request.now) }
{
    if replaces_suppressions(request) {
        Some(Clash::Suppressions)
    } else if replaces_policy(request) {
        Some(Clash::Policy)
    } else if replaces_diff(request) {
        Some(Clash::Diff)
    } else if share_a_name(request) {
        Some(Clash::Outputs)
    } else if replaces_log(request) {
        Some(Clash::Log)
    } else if replaces_inputs(request) {
        Some(Clash::Inputs)
    } else {
        None
    }
}

/// Whether an output has the name of the suppression file without being allowed to replace it.
fn replaces_suppressions(request: &Request) -> bool
    ensures { result ≡ said.replaces_suppressions (said.names_of request.now) }
{
    match &request.suppress {
        Some(name) => {
            let name = name.as_str();
            request.out.as_str() == name || one_replaces(name, request.reports.as_slice())
        }
        None => false,
    }
}

/// Returns whether an output has the name of the policy.
fn replaces_policy(request: &Request) -> bool
    ensures { result ≡ said.replaces_policy (said.names_of request.now) }
{
    match &request.policy {
        Some(name) => is_output(request, name.as_str()),
        None => false,
    }
}

/// Returns whether an output has the name of the diff.
fn replaces_diff(request: &Request) -> bool
    ensures { result ≡ said.replaces_diff (said.names_of request.now) }
{
    match &request.diff {
        Some(name) => {
            let name = name.as_str();
            name != STANDARD && is_output(request, name)
        }
        None => false,
    }
}

/// Returns whether an output has this name.
fn is_output(request: &Request, name: &str) -> bool
    ensures { result ≡ said.is_among name.now (said.outputs_of (said.names_of request.now)) }
{
    request.out.as_str() == name || is_among(name, request.reports.as_slice())
}

/// Returns whether both a log and the diff are standard input.
fn reads_twice(request: &Request) -> bool
    ensures { result ≡ said.reads_twice (said.names_of request.now) }
{
    match &request.diff {
        Some(name) => {
            let is_log = request.logs.contains(name);
            name.as_str() == STANDARD && is_log
        }
        None => false,
    }
}

/// Whether one of these outputs would overwrite the suppression file of this name.
fn one_replaces(name: &str, outputs: &[RequestedOutput<Text>]) -> bool
    ensures { result ≡ list_any (said.replaces_file name.now) outputs.now }
{
    outputs.iter().any(|wanted| replaces_file(name, wanted))
}

/// Whether this output would overwrite the suppression file of this name.
fn replaces_file(name: &str, wanted: &RequestedOutput<Text>) -> bool
    ensures { result ≡ said.replaces_file name.now wanted.now }
{
    match wanted.report {
        Report::Suppressions => false,
        _ => wanted.to.as_str() == name,
    }
}

/// Whether two outputs have one name.
fn share_a_name(request: &Request) -> bool
    ensures { result ≡ said.have_one_name (said.outputs_of (said.names_of request.now)) }
{
    let reports = request.reports.as_slice();
    is_among(request.out.as_str(), reports) || have_one_name(reports)
}

/// Returns whether one of the reports has this name.
pub(crate) fn is_among(name: &str, reports: &[RequestedOutput<Text>]) -> bool
    ensures { result ≡ said.is_among name.now (map (λ report. report.to) reports.now) }
{
    for report in reports {
        if report.to.as_str() == name {
            return true;
        }
    }
    false
}

/// Whether two of the reports have one name.
fn have_one_name(reports: &[RequestedOutput<Text>]) -> bool
    ensures { result ≡ said.have_one_name (map (λ report. report.to) reports.now) }
{
    for (at, report) in reports.iter().enumerate() {
        if is_among(report.to.as_str(), &reports[at + 1..]) {
            return true;
        }
    }
    false
}

/// Whether the merged log has the name of a log.
fn replaces_log(request: &Request) -> bool
    ensures { result ≡ said.replaces_log (said.names_of request.now) }
{
    let is_log = request.logs.contains(&request.out);
    request.out.as_str() != STANDARD && is_log
}

/// Whether another output has the name of a log, or of a baseline that it may not replace.
fn replaces_inputs(request: &Request) -> bool
    ensures { result ≡ said.replaces_inputs (said.names_of request.now) }
{
    request
        .reports
        .iter()
        .any(|wanted| replaces_input(request, wanted))
}

/// Whether this output has the name of a log, or of a baseline that it may not replace.
fn replaces_input(request: &Request, wanted: &RequestedOutput<Text>) -> bool
    ensures { result ≡ said.replaces_input (said.names_of request.now) wanted.now }
{
    let is_log = request.logs.contains(&wanted.to);
    let is_baseline = request.baselines.contains(&wanted.to);
    let may = may_replace_baseline(request, wanted.report);
    wanted.to.as_str() != STANDARD && (is_log || (is_baseline && !may))
}

/// Whether this output may replace the baseline: the known log may if there is only one.
fn may_replace_baseline(request: &Request, report: Report) -> bool
    ensures { result ≡ said.may_replace_baseline (said.names_of request.now) report }
{
    match report {
        Report::Known => request.baselines.len() == 1,
        _ => false,
    }
}
