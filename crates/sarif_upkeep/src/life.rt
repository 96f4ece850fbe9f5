//! What a merge gives for later merges.
ghost use Rattle.std.specs.Prelude.{◌≡◌, ◌⊎◌, [], Some, option_map, string_bytes, IfOk, IfErr};
ghost use Rattle.sarif_model.specs.FirstFault.{first};
ghost use Rattle.sarif_model.specs.MergeFault.{out_of_memory};
ghost use Rattle.sarif_upkeep.specs.Internal.IsMatched.{IsMatched};
ghost use Rattle.sarif_upkeep.specs.Life as said;
ghost use Rattle.sarif_upkeep.specs.Merge.{Merge};
ghost use Rattle.sarif_upkeep.specs.ReadBack.{IsReadAgain};

use crate::knowing::remember;
use crate::matched::Matched;
use crate::renewing::renew;
use crate::used::used_by;
use sarif_accept::unused_lines;
use sarif_counts::{KnownLog, Life, NewFile};
use sarif_model::{MergeFault, Text};
use sarif_options::Upkeep;
use std::alloc::{AllocError, Global};
use std::hash::RandomState;

/// A line for each unused entry of the suppression file.
fn list_unused(alloc: Global, matched: &Matched<'_, '_, '_>) -> Result<Text, AllocError>
    ensures { (m : Merge) → IsMatched m matched.now
        → IfOk result (λ text. text ≡ said.unused_in m) }
{
    let marks = used_by(alloc, matched.file, matched.current.drafts)?;
    match matched.bytes {
        Some(bytes) => Text::from_string(unused_lines(alloc, bytes, matched.file, &marks)?),
        None => Text::copy_of(alloc, ""),
    }
}

/// What `upkeep` requests, and nothing else.
fn make_life(
    alloc: Global,
    seed: RandomState,
    matched: &Matched<'_, '_, '_>,
    upkeep: &Upkeep,
) -> Result<Life, MergeFault>
    requires { (m : Merge) × IsMatched m matched.now }
    ensures made { (m : Merge) → IsMatched m matched.now
        → IfOk result (λ life. life ≡ said.life_of m (Some upkeep.now)) }
    ensures read { (m : Merge) → IsMatched m matched.now
        → IfOk result (IsReadAgain m upkeep.now) }
    ensures sound { (m : Merge) → IsMatched m matched.now
        → IfOk result (λ _. said.files_faults m upkeep.now ≡ []) }
    ensures refused { (m : Merge) → IsMatched m matched.now → IfErr result (λ fault.
        (fault ≡ out_of_memory) ⊎ (first (said.files_faults m upkeep.now) ≡ Some fault)) }
{
    let suppressions = match &upkeep.renewal {
        Some(renewal) => Some(renew(alloc, seed, matched, renewal)?),
        None => None,
    };
    let unused = if upkeep.unused {
        Some(list_unused(alloc, matched)?)
    } else {
        None
    };
    let known = match upkeep.known {
        Some(knowing) => Some(remember(alloc, seed, matched, knowing)?),
        None => None,
    };
    Ok(Life {
        suppressions,
        unused,
        known,
    })
}

/// Returns what a merge gives for later merges: what `upkeep` requests, and nothing else. Each file of it is read as it is
/// defined; the known log is if its records are those of results that were read. Returns `TooMany` or `TooLong`
/// at the suppression file if the new one could not be read again, then `TooLong` at the known log if this one could not,
/// and `OutOfMemory` without a place if memory runs out.
pub fn life_of(
    alloc: Global,
    seed: RandomState,
    matched: &Matched<'_, '_, '_>,
    upkeep: &Upkeep,
) -> Result<Life, MergeFault>
    requires { (m : Merge) × IsMatched m matched.now }
    ensures made { (m : Merge) → IsMatched m matched.now
        → IfOk result (λ life. life ≡ said.life_of m (Some upkeep.now)) }
    ensures read { (m : Merge) → IsMatched m matched.now
        → IfOk result (IsReadAgain m upkeep.now) }
    ensures sound { (m : Merge) → IsMatched m matched.now
        → IfOk result (λ _. said.life_faults m (Some upkeep.now) ≡ []) }
    ensures refused { (m : Merge) → IsMatched m matched.now → IfErr result (λ fault.
        (fault ≡ out_of_memory) ⊎ (first (said.life_faults m (Some upkeep.now)) ≡ Some fault)) }
{
    make_life(alloc, seed, matched, upkeep)
}
