//! The change that the gate of a merge checks.
ghost use Rattle.std.specs.Prelude.{◌≡◌, IfOk, option_map};
ghost use Rattle.sarif_model.specs.FirstFault.{Answers};
ghost use Rattle.sarif_model.specs.MergeFault.{IsQuiet};
ghost use Rattle.sarif_inputs.specs.ChangeIn as said;

use sarif_diff::{DiffFault, LineFault};
use sarif_model::{At, Cause, Fault, MergeFault, Refusal, Sequence, Source, Text};
use sarif_options::Checks;
use sarif_scope::{GatedChange, read_change};
use std::alloc::{AllocError, Global};
use std::hash::RandomState;

/// Returns a copy of these roots. It shares their bytes.
fn copy_of_roots(alloc: Global, roots: &[Text]) -> Result<Sequence<Text>, AllocError>
    ensures { IfOk result (λ copy. copy ≡ roots.now) }
{
    let mut copy = Sequence::new(alloc);
    for root in roots {
        copy.push(root.clone()?)?;
    }
    Ok(copy)
}

fn fault_of_line(wrong: LineFault) -> Fault
    ensures { result ≡ said.fault_of_line wrong }
{
    match wrong {
        LineFault::Combined => Fault::Combined,
        LineFault::BadHunk => Fault::BadHunk,
        LineFault::BadHeader => Fault::BadHeader,
        LineFault::Submodule => Fault::Submodule,
        LineFault::TooMany => Fault::TooMany,
    }
}

/// Returns the error of a diff, with its place.
fn fault_of_diff(wrong: DiffFault) -> MergeFault
    ensures { result ≡ said.fault_of_diff wrong }
{
    match wrong {
        DiffFault::NoChange => {
            MergeFault::with_place(At::Whole(Source::Diff), Cause::Of(Fault::NoChange))
        }
        DiffFault::AtLine(number, wrong) => {
            MergeFault::with_place(At::Line(number), Cause::Of(fault_of_line(wrong)))
        }
    }
}

/// Returns the change that a diff with these bytes describes, if there is a diff. The change keeps the scope and the
/// roots of `checks`. Its tables hash with `seed`, on which no result depends. A rejection is the first error of the
/// diff: `NoChange` at the diff, or `Combined`, `BadHunk`, `BadHeader`, `Submodule` or `TooMany` at a line.
/// `OutOfMemory` has no place.
#[tactic(auto, using(crate::proofs::ChangeAnswers::quiet_diff, crate::proofs::ChangeAnswers::change_refused, crate::proofs::ChangeAnswers::change_faultless, crate::proofs::ChangeAnswers::change_is_read))]
pub fn look_at_change(
    alloc: Global,
    seed: RandomState,
    bytes: Option<&[u8]>,
    checks: &Checks,
) -> Result<Option<GatedChange>, MergeFault>
    ensures read { IfOk result (λ change. change ≡ said.change_or_none
        (said.change_read checks.now (option_map (λ b. b.now) bytes.entry))) }
    ensures faults { Answers (said.faults_of_change
        (said.change_read checks.now (option_map (λ b. b.now) bytes.entry))) result }
    ensures quiet { IsQuiet result }
{
    let Some(bytes) = bytes else {
        return Ok(None);
    };
    let roots = copy_of_roots(alloc, checks.roots.as_slice())?;
    match read_change(alloc, seed, bytes, checks.scope, roots) {
        Ok(change) => Ok(Some(change)),
        Err(Refusal::Fault(wrong)) => Err(fault_of_diff(wrong)),
        Err(Refusal::OutOfMemory) => Err(MergeFault::from(AllocError)),
    }
}
