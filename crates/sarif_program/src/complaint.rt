//! The line that says what stopped a run, and the lines on what an accepted merge gives for later merges.
ghost use Rattle.std.specs.Prelude.{◌≡◌, ◌<◌, ◌^◌, None, Some, false, true};
ghost use Rattle.sarif_streams.specs.Counted.{failed_calls};
ghost use Rattle.sarif_program.specs.Line.{IsTold};
ghost use Rattle.sarif_program.specs.Notes.{AreNoted};

use crate::cause_name::cause_name;
use crate::line::line_of;
use sarif_model::{At, MergeFault};
use sarif_reports::Report;
use sarif_streams::{Counted, write_out};
use std::fmt;
use std::io::Write;

/// What stopped a run.
#[derive(Clone, Copy, Debug, PartialEq, Eq)]
pub enum Complaint {
    /// The merge was rejected, or the merged log was not written.
    Fault(MergeFault),
    /// Another output was not written.
    Lost(Report),
}

impl fmt::Display for Complaint {
    ghost use Rattle.std.specs.Prelude.{Some};
    ghost use Rattle.sarif_program.specs.Line.{complaint_text};

    ghost output = { λ complaint. Some (complaint_text complaint) };

    fn fmt<W: fmt::Write>(&self, f: &mut fmt::Formatter<W>) -> fmt::Result {
        match *self {
            Complaint::Fault(fault) => {
                let at = fault.at;
                let name = cause_name(fault.cause);
                match at {
                    At::Nowhere => f.write_str(name),
                    _ => write!(f, "{at}: {name}"),
                }
            }
            Complaint::Lost(report) => write!(f, "{report}: WriteFailed"),
        }
    }
}

/// Where error messages and notes go, and the last error message.
#[derive(Debug, Drop)]
pub struct Complaints<E> {
    /// The writer of error messages and notes, one line each.
    pub out: Counted<E>,
    /// Whether the caller explains the last error message: then its line is the caller's to write too.
    pub is_explained: bool,
    /// The last error message, even if its line was not written; `None` if there was none.
    pub last: Option<Complaint>,
}

impl<E> Complaints<E> {
    /// Error messages and notes that are written to `out`; there is none so far.
    pub fn new(out: E) -> Complaints<E>
        ensures none { failed_calls result.out ≡ 0 }
        ensures written { result.is_explained ≡ false }
        ensures last { result.last ≡ None }
    {
        Complaints {
            out: Counted::new(out),
            is_explained: false,
            last: None,
        }
    }

    /// Notes that are written to `out`, and error messages that the caller writes; there is none so far.
    pub fn with_explanations(out: E) -> Complaints<E>
        ensures none { failed_calls result.out ≡ 0 }
        ensures explained { result.is_explained ≡ true }
        ensures last { result.last ≡ None }
    {
        let mut complaints = Complaints::new(out);
        complaints.is_explained = true;
        complaints
    }
}

impl<E: Write> Complaints<E> {
    /// Writes `sarif_gate: ` and the message as one line, without allocating. If a write fails, a prefix of it is
    /// written, and nothing more can be reported. Writes nothing if the caller explains the message.
    pub fn complain(&mut self, complaint: Complaint)
        requires { failed_calls self.old.out < 2 ^ 63 }
        ensures last { self.new.last ≡ Some complaint }
        ensures told { IsTold E.contents complaint self.old.out self.new.out }
        ensures explained { self.old.is_explained ≡ true → self.new.out ≡ self.old.out }
        ensures same { self.new.is_explained ≡ self.old.is_explained }
    {
        self.last = Some(complaint);
        if self.is_explained {
            return;
        }
        if let Some(line) = line_of(complaint) {
            let _ = write_out(&mut self.out, line.as_str().as_bytes());
        }
    }
    /// Writes lines that report no error. If they cannot be written completely, a prefix of them is written, and nothing
    /// reports that.
    pub(crate) fn note(&mut self, lines: &str)
        requires { failed_calls self.old.out < 2 ^ 63 }
        ensures { AreNoted E.contents lines.now self.old self.new }
    {
        if !lines.is_empty() {
            let _ = write_out(&mut self.out, lines.as_bytes());
        }
    }
}
