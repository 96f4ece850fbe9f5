//! The merge of streams, with or without an explanation.
ghost use Rattle.std.specs.Prelude.{◌≡◌, None};
ghost use Rattle.sarif_streams.specs.Counted.{failed_calls};
ghost use Rattle.sarif_streams.specs.Room.{HaveRoom};
ghost use Rattle.sarif_program.specs.Writing.{WritersHaveRoom};
ghost use Rattle.sarif_gate.specs.Served.{HasRun};

use crate::explaining::EndedRun;
use crate::outputs::Outputs;
use crate::sources::ProgramSource;
use sarif_program::{Complaint, Complaints, ExitStatus, run_request};
use sarif_request::Request;
use sarif_streams::Readers;
use std::io::Stderr;
use std::sync::Wait;
use std::thread::Threads;

/// Merges what the readers return, writes to the writers, and returns the exit status. If `request.explain` is set,
/// the error message is written with its explanation. The caller owns and drops all streams.
pub fn merge_streams<'a, T: Threads + Wait + Sync>(
    rt: &'a HostRuntime,
    threads: &T,
    request: &Request,
    readers: &mut Readers<ProgramSource<'a>>,
    writers: &mut Outputs<'a>,
) -> ExitStatus
    requires readers { HaveRoom readers.old }
    requires writers { WritersHaveRoom writers.old }
    ensures { HasRun «request».now readers.old readers.new writers.old writers.new result }
{
    let mut complaints = complaints_of(rt, request);
    let status = run_request(
        threads,
        rt.alloc(),
        request,
        readers,
        writers,
        &mut complaints,
    );
    explain(rt, complaints.last, request, readers, writers);
    status
}

/// Error messages go to standard error. The caller explains the last one if `request.explain` is set.
fn complaints_of(rt: &HostRuntime, request: &Request) -> Complaints<Stderr>
    ensures none { failed_calls result.out ≡ 0 }
    ensures explained { result.is_explained ≡ «request».now.explain }
    ensures last { result.last ≡ None }
{
    let mut complaints = Complaints::new(rt.stderr());
    complaints.is_explained = request.explain;
    complaints
}

/// Writes the last error message of a merge of these streams with its explanation, if there is one and
/// `request.explain` is set.
fn explain<'a>(
    rt: &HostRuntime,
    last: Option<Complaint>,
    request: &Request,
    readers: &Readers<ProgramSource<'a>>,
    writers: &Outputs<'a>,
) {
    if !request.explain {
        return;
    }
    if let Some(complaint) = last {
        let ended = EndedRun {
            request,
            readers,
            writers,
        };
        ended.explain(rt, complaint);
    }
}
