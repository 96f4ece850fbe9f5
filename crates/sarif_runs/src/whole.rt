//! Calls for runs as whole values. Only tests and callers outside this program use them: the merge opens a run by
//! its index and makes its results one by one.
ghost use Rattle.std.specs.Prelude.{◌≡◌, ◌<◌, length, Ok, Err, IfOk};
ghost use Rattle.serde_json.specs.View.{view};
ghost use Rattle.sarif_model.specs.Internal.Refusal.{IfFault};
ghost use Rattle.sarif_model.specs.Run.{results_of, result_at};
ghost use Rattle.sarif_runs.specs.Head.{head_of};
ghost use Rattle.sarif_members.specs.OwnMembers.{parts_of};
ghost use Rattle.sarif_runs.specs.Record.{record_of};

use crate::head::RunHead;
use crate::making::{copy_tool_name, make_record_of};
use crate::open::open_value;
use crate::run_options::RecordOptions;
use sarif_members::{Parts, read_members};
use sarif_model::{Fault, Record, Refusal};
use sarif_read::RawRun;
use std::alloc::Global;
use std::hash::RandomState;

/// Reads the rules, overrides and artifacts of a whole run. Returns `BadRules`, `BadLevel`, `BadLocation`,
/// `BadMember`, `BadIndex` and `OutOfMemory` as [`open_value`](crate::open_value) does; `seed` has the same
/// meaning.
pub fn open_run(alloc: Global, seed: RandomState, run: &RawRun) -> Result<RunHead, Refusal<Fault>>
    ensures ok { IfOk result (λ head. head_of (view run.now) ≡ Ok head) }
    ensures err { IfFault result (λ fault. head_of (view run.now) ≡ Err fault) }
{
    open_value(alloc, seed, run.value())
}

/// The own members of result `seq` of `run`, numbered from 0 (SARIF 2.1.0, run object, "results property"), or its
/// first error: the errors are those of [`read_members`](sarif_members::read_members), in the same order, and
/// `OutOfMemory` if memory runs out. With `regions` its region and its snippet are read too.
pub fn read_parts(
    alloc: Global,
    run: &RawRun,
    seq: u32,
    regions: bool,
) -> Result<Parts, Refusal<Fault>>
    requires { seq < length (results_of (view run.now)) }
    ensures ok { IfOk result
        (λ parts. parts_of regions (result_at (view run.now) seq) ≡ Ok parts) }
    ensures err { IfFault result
        (λ fault. parts_of regions (result_at (view run.now) seq) ≡ Err fault) }
{
    read_members(alloc, run.result(seq), regions)
}

/// Makes the record of result `seq` of a run, numbered from 0, with the head that was opened from that run and the
/// name of the run's driver. The errors are those of [`make_record_of`](crate::make_record_of), including
/// `BadIndex` and `OutOfMemory`, and `options` have the same meaning.
#[tactic(auto, unfolding(crate::specs::Record::record_of))]
pub fn make_record(
    alloc: Global,
    head: &RunHead,
    run: &RawRun,
    seq: u32,
    options: &RecordOptions<'_>,
) -> Result<Record, Refusal<Fault>>
    requires opened { head_of (view run.now) ≡ Ok head.now }
    requires in_run { seq < length (results_of (view run.now)) }
    ensures ok { IfOk result (λ made. record_of options.now (view run.now) seq ≡ Ok made) }
    ensures err { IfFault result (λ fault. record_of options.now (view run.now) seq ≡ Err fault) }
{
    let tool = copy_tool_name(alloc, run.value())?;
    make_record_of(alloc, head, &tool, run.result(seq), options)
}
