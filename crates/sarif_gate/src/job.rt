//! A request, together with the sources and the outputs that it names.
ghost use Rattle.std.specs.Prelude.{◌≡◌, map, option_map};
ghost use Rattle.sarif_streams.specs.Counted.{failed_calls, inner_of};
ghost use Rattle.sarif_streams.specs.Failing.{failed_calls_in};
ghost use Rattle.sarif_streams.specs.Named.{Named, channel_named};
ghost use Rattle.sarif_streams.specs.OptionalReader.{failed_calls_if};
ghost use Rattle.sarif_program.specs.Reports.{report_failures};
ghost use Rattle.sarif_request.specs.Terminal.{outputs_in};
ghost use Rattle.sarif_gate.specs.Named.{source_channel, output_channel, report_channel, report_named, is_error, leaves_no_output};

use crate::merging::merge_streams;
use crate::outputs::{Outputs, outputs_of};
use crate::sources::{ProgramSource, sources_of};
use sarif_program::ExitStatus;
use sarif_request::Request;
use sarif_streams::Readers;
use std::alloc::AllocError;
use std::sync::Wait;
use std::thread::Threads;

/// A request, together with the sources and the outputs that it names. None of them was opened.
#[derive(Drop)]
pub struct Job<'a> {
    request: &'a Request,
    readers: Readers<ProgramSource<'a>>,
    writers: Outputs<'a>,
    ghost logs: { map source_channel readers.logs.items
        ≡ map channel_named «request».now.logs.items },
    ghost baselines: { map source_channel readers.baselines.items
        ≡ map Named «request».now.baselines.items },
    ghost suppressions: { option_map source_channel readers.suppressions
        ≡ option_map Named «request».now.suppress },
    ghost policy: { option_map source_channel readers.policy
        ≡ option_map Named «request».now.policy },
    ghost diff: { option_map source_channel readers.diff
        ≡ option_map channel_named «request».now.diff },
    ghost out: { output_channel writers.out ≡ channel_named «request».now.out },
    ghost reports: { map report_channel writers.reports.items
        ≡ map report_named (outputs_in «request».now) },
    ghost say: { is_error (inner_of writers.say) ≡ leaves_no_output «request».now },
    ghost fresh_logs: { failed_calls_in readers.logs.items ≡ 0 },
    ghost fresh_baselines: { failed_calls_in readers.baselines.items ≡ 0 },
    ghost fresh_suppressions: { failed_calls_if readers.suppressions ≡ 0 },
    ghost fresh_policy: { failed_calls_if readers.policy ≡ 0 },
    ghost fresh_diff: { failed_calls_if readers.diff ≡ 0 },
    ghost fresh_out: { failed_calls writers.out ≡ 0 },
    ghost fresh_reports: { report_failures writers.reports.items ≡ 0 },
    ghost fresh_say: { failed_calls writers.say ≡ 0 },
}

impl<'a> Job<'a> {
    ghost use Rattle.std.specs.Prelude.{IfOk};
    ghost use Rattle.sarif_gate.specs.Served.{IsRunOf};

    /// Returns the sources and the outputs that a request names, and opens none of them. If errors are explained,
    /// the bytes that are read are kept. Returns `AllocError` if memory for them runs out.
    pub fn of(rt: &'a HostRuntime, request: &'a Request) -> Result<Job<'a>, AllocError>
        ensures { IfOk result (λ job. job.request.now ≡ «request».now) }
    {
        let readers = sources_of(rt, request)?;
        let writers = outputs_of(rt, request)?;
        Ok(Job {
            request,
            readers,
            writers,
        })
    }

    /// Merges the sources into the outputs, and returns the exit status.
    pub fn merge<T: Threads + Wait + Sync>(self, rt: &'a HostRuntime, threads: &T) -> ExitStatus
        ensures { IsRunOf self.entry.request.now result }
    {
        let Job {
            request,
            mut readers,
            mut writers,
        } = self;
        merge_streams(rt, threads, request, &mut readers, &mut writers)
    }
}
