//! Explaining on standard error what stopped a run.
use crate::outputs::Outputs;
use crate::sources::ProgramSource;
use sarif_explain::{
    FaultSource, argument_explanation, diff_explanation, explanation, is_past_limit,
    output_explanation,
};
use sarif_findings::show_text;
use sarif_model::{At, Cause, MergeFault, Source, Text};
use sarif_program::{Complaint, Complaints};
use sarif_reports::Report;
use sarif_request::{Request, RequestedOutput};
use sarif_streams::{Counted, Kept, Readers};
use std::alloc::{AllocError, Global};
use std::io;

/// The request of a run, and what it read and wrote.
#[derive(Clone, Copy)]
pub struct EndedRun<'a, 'b> {
    /// The request: the names of all sources and outputs.
    pub request: &'b Request,
    /// The sources, each with what was read from it and the message of its last failed call.
    pub readers: &'b Readers<ProgramSource<'a>>,
    /// The outputs, each with the message of its last failed call.
    pub writers: &'b Outputs<'a>,
}

impl EndedRun<'_, '_> {
    /// Writes an error message with its explanation. If memory for the explanation runs out, writes only the message.
    pub fn explain(&self, rt: &HostRuntime, complaint: Complaint) {
        match self.explain_complaint(rt.alloc(), complaint) {
            Ok(told) => {
                let told = told.as_str();
                let _ = eprint!(rt; "{told}");
            }
            Err(_) => Complaints::new(rt.stderr()).complain(complaint),
        }
    }

    /// Returns the line of an error message, and the lines of its explanation.
    fn explain_complaint(&self, alloc: Global, complaint: Complaint) -> Result<String, AllocError> {
        let lines = match complaint {
            Complaint::Fault(fault) => self.explain_fault(alloc, &fault)?,
            Complaint::Lost(report) => self.explain_lost_output(alloc, report)?,
        };
        let lines = lines.as_str();
        match self.unread_name(complaint) {
            Some(name) => {
                let name = show_text(alloc, name.as_str())?;
                let name = name.as_str();
                format!(in alloc; "sarif_gate: {complaint} ({name})\n{lines}")
            }
            None => format!(in alloc; "sarif_gate: {complaint}\n{lines}"),
        }
    }

    /// Returns the name of the file that could not be read, if that is the error.
    fn unread_name(&self, complaint: Complaint) -> Option<&Text> {
        match complaint {
            Complaint::Fault(fault) if fault.cause == Cause::ReadFailed => {
                self.name_of(source_of(&fault)?)
            }
            _ => None,
        }
    }

    /// Returns the name of a source, of the merged log or of the known log, as it was passed.
    fn name_of(&self, source: Source) -> Option<&Text> {
        match source {
            Source::Log(number) => self.request.logs.get(number as usize),
            Source::Baseline(number) => self.request.baselines.get(number as usize),
            Source::Suppress => self.request.suppress.as_ref(),
            Source::Policy => self.request.policy.as_ref(),
            Source::Diff => self.request.diff.as_ref(),
            Source::Output => Some(&self.request.out),
            Source::Known => self.name_for(Report::Known),
        }
    }

    /// Returns the name of the file of an output besides the merged log, if it was requested.
    fn name_for(&self, report: Report) -> Option<&Text> {
        destination_of(report, self.request.reports.as_slice())
    }

    /// Returns whether the error is one of the new suppression file: it would be past a limit, and the suppression file
    /// is not.
    fn is_of_new_file(&self, alloc: Global, fault: &MergeFault) -> Result<bool, AllocError> {
        if fault.at != At::Whole(Source::Suppress) || self.request.upkeep.renewal.is_none() {
            return Ok(false);
        }
        let bytes = match &self.readers.suppressions {
            Some(file) => file.inner().bytes().ok_or(AllocError)?,
            None => &[],
        };
        Ok(!is_past_limit(alloc, fault.cause, bytes)?)
    }

    /// Returns the place or the rule that the error is about: a value of `--at` or of `--rule`.
    fn chosen_by(&self, at: At) -> Option<&Text> {
        let choice = &self.request.choice.as_ref()?.choice;
        match at {
            At::Place(number) => choice.places.as_slice().get(number),
            At::Rule(number) => choice.rules.as_slice().get(number),
            _ => None,
        }
    }

    /// Returns the explanation of an error, by its argument or its source.
    fn explain_fault(&self, alloc: Global, fault: &MergeFault) -> Result<String, AllocError> {
        let readers = self.readers;
        if let Some(value) = self.chosen_by(fault.at) {
            return argument_explanation(alloc, fault, value.as_str());
        }
        let Some(source) = source_of(fault) else {
            return of_source(alloc, fault, "", &[], None);
        };
        if self.is_of_new_file(alloc, fault)? {
            return of_output(alloc, fault, self.name_for(Report::Suppressions));
        }
        let name = self.name_of(source);
        match source {
            Source::Log(number) => {
                of_kept(alloc, fault, name, readers.logs.get(number as usize))
            }
            Source::Baseline(number) => {
                of_kept(alloc, fault, name, readers.baselines.get(number as usize))
            }
            Source::Suppress => of_kept(alloc, fault, name, readers.suppressions.as_ref()),
            Source::Policy => of_kept(alloc, fault, name, readers.policy.as_ref()),
            Source::Diff => of_diff(alloc, fault, name, readers.diff.as_ref()),
            Source::Output => of_written(alloc, fault, name, Some(&self.writers.out)),
            Source::Known => of_output(alloc, fault, name),
        }
    }

    /// Returns the explanation of another output that was not written.
    fn explain_lost_output(&self, alloc: Global, report: Report) -> Result<String, AllocError> {
        let fault = MergeFault {
            at: At::Whole(Source::Output),
            cause: Cause::WriteFailed,
        };
        let name = self.name_for(report);
        let writer = destination_of(report, self.writers.reports.as_slice());
        of_written(alloc, &fault, name, writer)
    }
}

/// Returns the destination of this output, if it is among these.
fn destination_of<T>(report: Report, reports: &[RequestedOutput<T>]) -> Option<&T> {
    let wanted = reports.iter().find(|wanted| wanted.report == report)?;
    Some(&wanted.to)
}

/// Returns the source of an error.
fn source_of(fault: &MergeFault) -> Option<Source> {
    match fault.at {
        At::Nowhere | At::Place(_) | At::Rule(_) => None,
        At::Whole(source) | At::Run(source, _) | At::Single(source, _, _) => Some(source),
        At::Entry(_) => Some(Source::Suppress),
        At::Condition(_) | At::Only(_, _) | At::Except(_, _) => Some(Source::Policy),
        At::Line(_) => Some(Source::Diff),
    }
}

/// Returns the explanation of an output with this name that would be too large for later merges.
fn of_output(alloc: Global, fault: &MergeFault, name: Option<&Text>) -> Result<String, AllocError> {
    output_explanation(alloc, fault, name_or_none(name))
}

/// Returns the name, or the empty string if there is none.
fn name_or_none(name: Option<&Text>) -> &str {
    match name {
        Some(name) => name.as_str(),
        None => "",
    }
}

/// Returns the explanation of an error in a source with this name, from the bytes and the error that were kept. Returns
/// `AllocError` also if memory for the bytes ran out while they were read.
fn of_kept<'a, D>(
    alloc: Global,
    fault: &MergeFault,
    name: Option<&'a Text>,
    source: Option<&'a Counted<Kept<D>>>,
) -> Result<String, AllocError> {
    let file = name_or_none(name);
    match source {
        Some(source) => {
            let kept = source.inner();
            let bytes = kept.bytes().ok_or(AllocError)?;
            of_source(alloc, fault, file, bytes, kept.error())
        }
        None => of_source(alloc, fault, file, &[], None),
    }
}

/// Returns the explanation of an error in the diff with this name, from the kept bytes of the diff.
fn of_diff<'a, D>(
    alloc: Global,
    fault: &MergeFault,
    name: Option<&'a Text>,
    source: Option<&'a Counted<Kept<D>>>,
) -> Result<String, AllocError> {
    let Cause::Of(_) = fault.cause else {
        return of_kept(alloc, fault, name, source);
    };
    let bytes = match source {
        Some(source) => source.inner().bytes().ok_or(AllocError)?,
        None => &[],
    };
    let source = FaultSource {
        file: name_or_none(name),
        bytes,
        system: None,
        is_folder: false,
    };
    diff_explanation(alloc, fault, &source)
}

/// Returns the explanation of an output with this name that was not written, from the error that was kept.
fn of_written<'a, D>(
    alloc: Global,
    fault: &MergeFault,
    name: Option<&'a Text>,
    output: Option<&'a Counted<Kept<D>>>,
) -> Result<String, AllocError> {
    let error = match output {
        Some(output) => output.inner().error(),
        None => None,
    };
    of_source(alloc, fault, name_or_none(name), &[], error)
}

/// Returns the explanation of an error in a source with this name, these bytes and this system error.
fn of_source(
    alloc: Global,
    fault: &MergeFault,
    file: &str,
    bytes: &[u8],
    error: Option<io::Error>,
) -> Result<String, AllocError> {
    match error {
        Some(error) => {
            let is_folder = error.kind() == io::ErrorKind::IsADirectory;
            let system = error.to_string(alloc)?;
            by_system(alloc, fault, file, bytes, Some(system.as_str()), is_folder)
        }
        None => by_system(alloc, fault, file, bytes, None, false),
    }
}

/// Returns the explanation of an error in a source with this name, these bytes and this system message, which may be a
/// folder.
fn by_system<'a>(
    alloc: Global,
    fault: &MergeFault,
    file: &'a str,
    bytes: &'a [u8],
    system: Option<&'a str>,
    is_folder: bool,
) -> Result<String, AllocError> {
    let source = FaultSource {
        file,
        bytes,
        system,
        is_folder,
    };
    explanation(alloc, fault, &source)
}
