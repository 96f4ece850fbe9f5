//! The outputs that a request names.
ghost use Rattle.std.specs.Prelude.{◌≡◌, IfOk, map};
ghost use Rattle.std.specs.List.{list_any};
ghost use Rattle.sarif_streams.specs.Counted.{failed_calls, inner_of};
ghost use Rattle.sarif_streams.specs.Named.{channel_named};
ghost use Rattle.sarif_program.specs.Reports.{report_failures};
ghost use Rattle.sarif_gate.specs.Named.{is_error, output_channel, report_channel, report_named};
ghost use Rattle.sarif_gate.specs.Named.{leaves_no_output, takes_output};
ghost use Rattle.sarif_request.specs.Terminal.{outputs_in};

use sarif_model::Text;
use sarif_program::Writers;
use sarif_reports::Report;
use sarif_request::{Request, RequestedOutput};
use sarif_streams::{Console, Counted, Kept, STANDARD, Target};
use std::alloc::AllocError;
use std::io::{Stderr, Stdout};
use std::process;
use std::random::RandomSource;

/// An output of the program.
pub type ProgramOutput<'a> = Kept<Target<'a, HostRuntime, Stdout>>;

/// An output besides the merged log.
type ReportOutput<'a> = RequestedOutput<Counted<ProgramOutput<'a>>>;

/// The outputs of the program.
pub type Outputs<'a> = Writers<ProgramOutput<'a>, Console<Stdout, Stderr>, ProgramOutput<'a>>;

/// Returns the outputs that a request names, none of them opened. Returns `AllocError` if memory for their names
/// runs out.
pub fn outputs_of<'a>(rt: &'a HostRuntime, request: &'a Request) -> Result<Outputs<'a>, AllocError>
    ensures out { IfOk result
        (λ outputs. output_channel outputs.out ≡ channel_named «request».now.out) }
    // There is a writer for each other output that is requested, in the same order, then one for what a terminal shows,
    // and no more.
    ensures reports { IfOk result (λ outputs. map report_channel outputs.reports.items
        ≡ map report_named (outputs_in «request».now)) }
    // If the merged log or another output that a merge reads goes to standard output, the summary goes to standard
    // error.
    ensures say { IfOk result
        (λ outputs. is_error (inner_of outputs.say) ≡ leaves_no_output «request».now) }
    ensures fresh { IfOk result (λ outputs. (failed_calls outputs.out ≡ 0)
        × (report_failures outputs.reports.items ≡ 0) × (failed_calls outputs.say ≡ 0)) }
{
    let out = output_of(rt, request.out.as_str())?;
    let reports = shown_reports(rt, request)?;
    let say = Counted::new(console_of(rt, request));
    Ok(Writers { out, reports, say })
}

/// Returns where the summary of a request goes.
fn console_of(rt: &HostRuntime, request: &Request) -> Console<Stdout, Stderr>
    ensures { is_error result ≡ leaves_no_output request.now }
{
    if request.out.as_str() == STANDARD || one_takes_output(request.reports.as_slice()) {
        Console::Error(rt.stderr())
    } else {
        Console::Output(rt.stdout())
    }
}

/// Returns whether one of these outputs is standard output and is read by a later merge.
fn one_takes_output(outputs: &[RequestedOutput<Text>]) -> bool
    ensures { result ≡ list_any takes_output outputs.now }
{
    outputs.iter().any(|wanted| wanted.report.is_for_merges() && wanted.to.as_str() == STANDARD)
}

/// Returns the outputs besides the merged log, and last the one that a terminal shows, if there is one.
fn shown_reports<'a>(
    rt: &'a HostRuntime,
    request: &'a Request,
) -> Result<Vec<ReportOutput<'a>>, AllocError>
    ensures names { IfOk result (λ outputs. map report_channel outputs.items
        ≡ map report_named (outputs_in «request».now)) }
    ensures fresh { IfOk result (λ outputs. report_failures outputs.items ≡ 0) }
{
    let mut outputs = reports_of(rt, request.reports.as_slice())?;
    if let Some(screen) = request.screen {
        outputs.push(RequestedOutput {
            report: Report::Terminal(screen),
            to: output_of(rt, STANDARD)?,
        })?;
    }
    Ok(outputs)
}

/// Returns the outputs of these names, in order.
fn reports_of<'a>(
    rt: &'a HostRuntime,
    names: &'a [RequestedOutput<Text>],
) -> Result<Vec<ReportOutput<'a>>, AllocError>
    ensures names { IfOk result
        (λ outputs. map report_channel outputs.items ≡ map report_named names.now) }
    ensures fresh { IfOk result (λ outputs. report_failures outputs.items ≡ 0) }
{
    let mut outputs = Vec::new(rt.alloc());
    for name in names {
        let to = output_of(rt, name.to.as_str())?;
        let report = name.report;
        outputs.push(RequestedOutput { report, to })?;
    }
    Ok(outputs)
}

/// The output of a name.
fn output_of<'a>(
    rt: &'a HostRuntime,
    name: &'a str,
) -> Result<Counted<ProgramOutput<'a>>, AllocError>
    ensures name { IfOk result (λ output. output_channel output ≡ channel_named name.now) }
    ensures fresh { IfOk result (λ output. failed_calls output ≡ 0) }
{
    let target = Target::of(rt, rt.stdout(), rt.alloc(), name, number_of(rt))?;
    Ok(Counted::new(Kept::new(target, None)))
}

/// A number that hardly any other output has, for the name of a new file.
fn number_of(rt: &HostRuntime) -> u64 {
    let mut bytes = [0u8; 8];
    match rt.fill_bytes(&mut bytes) {
        Ok(()) => u64::from_le_bytes(bytes),
        Err(_) => u64::from(process::id(rt.process())),
    }
}
