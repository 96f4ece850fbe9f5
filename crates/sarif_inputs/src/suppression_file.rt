//! Reading the suppression file of a merge.
ghost use Rattle.std.specs.Prelude.{◌≡◌, Ok, IfOk, option_map};
ghost use Rattle.sarif_model.specs.MergeFault.{IsQuiet};
ghost use Rattle.sarif_model.specs.FirstFault.{Answers};
ghost use Rattle.sarif_inputs.specs.Faults.{file_faults};
ghost use Rattle.sarif_entries.specs.Given.{file_or_none};

use sarif_model::{MergeFault, Refusal};
use sarif_suppress::{Suppressions, read_rules_with};
use std::alloc::{AllocError, Global};
use std::hash::RandomState;

/// The entries of the suppression file for the date `today`, as YYYYMMDD, if there is a file; without one there
/// are none. Their tables hash with `seed`, on which no result depends. A rejection is the first error of the
/// file: `NotJson`, `NotList`, `WrongVersion` or `TooMany` at the file, or `BadEntry`, `EmptyMatch` or
/// `NeedsToday` at an entry. `OutOfMemory` has no place.
#[tactic(auto, using(sarif_entries::proofs::QuietFile::quiet_file, crate::proofs::FileAnswers::file_refused))]
pub fn read_file(
    alloc: Global,
    seed: RandomState,
    bytes: Option<&[u8]>,
    today: Option<u32>,
) -> Result<Suppressions, MergeFault>
    ensures read { IfOk result
        (λ file. file_or_none (option_map (λ b. b.now) bytes.entry) today ≡ Ok file) }
    ensures faults { Answers
        (file_faults (file_or_none (option_map (λ b. b.now) bytes.entry) today)) result }
    ensures quiet { IsQuiet result }
{
    match bytes {
        Some(bytes) => match read_rules_with(alloc, seed, bytes, today) {
            Ok(file) => Ok(file),
            Err(Refusal::Fault(fault)) => Err(MergeFault::from(fault)),
            Err(Refusal::OutOfMemory) => Err(MergeFault::from(AllocError)),
        },
        None => Ok(Suppressions::none(alloc, seed, today)?),
    }
}
