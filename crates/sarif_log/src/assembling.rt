//! Assembling the merged log, while what is no longer needed is released.
ghost use Rattle.std.specs.Prelude.{◌≡◌, ℕ, List, Ok, Option, IfOk};
ghost use Rattle.serde_json.specs.Data.{Data};
ghost use Rattle.sarif_evidence.specs.declared.version.MatchingVersion.{MatchingVersion};
ghost use Rattle.sarif_entries.specs.File.{File};
ghost use Rattle.sarif_runs.specs.Placed.{Placed};
ghost use Rattle.sarif_findings.specs.declared.finding.Finding.{Finding};
ghost use Rattle.sarif_log.specs.Counted.{IsMergedAs};
ghost use Rattle.sarif_log.specs.declared.copies.CopyPlace.{CopyPlace};
ghost use Rattle.sarif_log.specs.Beside.{IsMadeBy};
ghost use Rattle.sarif_log.specs.Assembled.{IsMergedBy};
ghost use Rattle.sarif_log.specs.Internal.Prepared.{IsPrepared, IsPreparedAs};
ghost use Rattle.sarif_scope.specs.declared.gated.GatedChange.{GatedChange};
ghost use Rattle.sarif_conditions.specs.declared.facts.PolicyFacts.{PolicyFacts};
ghost use denote.Param.Send.{IsSend};

use crate::facts::Facts;
use crate::merged::Merged;
use crate::prepared::Prepared;
use crate::written::write_log;
use sarif_options::Options;
use std::alloc::{AllocError, Global};
use std::thread;
use std::thread::Threads;

/// Returns the merged log of what was prepared, with what is for later merges, and what `tell` returns for the facts
/// of the merge. Its gate is that of the policy of `options`, or if conditions of a policy decide, theirs. As many
/// threads as there are workers count the results, and `tell` is called while the log's text is made. Meanwhile one
/// more thread releases `spent`, such as the memory of the sources. Returns `AllocError` if memory runs out or if
/// `tell` returns it.
pub fn assemble<
    R: Threads + Sync,
    B: Drop,
    X: Send + Drop,
    Tell: FnOnce(&Facts<'_>) -> Result<B, AllocError>,
>(
    rt: &R,
    alloc: Global,
    prepared: Prepared,
    options: &Options,
    spent: X,
    tell: Tell,
) -> Result<(Merged, B), AllocError>
    requires tells { Tell.IsAlwaysCallable tell }
    ensures merged { IfOk result (λ made. (version : MatchingVersion) (file : File)
        (current_runs baseline_runs : List Placed) (change : Option GatedChange)
        (ruling : Option PolicyFacts) (told : List Finding)
        → IsPrepared version file current_runs baseline_runs change options.now.policy ruling
        told prepared
        → IsMergedBy version file current_runs baseline_runs change options.now.policy ruling
        told made.0) }
    ensures counted { IfOk result (λ made. (runs counted : List Data)
        (places : Option (List CopyPlace)) (change : Option GatedChange)
        (ruling : Option PolicyFacts) (bare idle : ℕ) (told : List Finding)
        → IsPreparedAs runs counted places change options.now.policy ruling bare idle told
        prepared
        → IsMergedAs runs counted places change options.now.policy ruling bare idle told
        made.0) }
    ensures expired { IfOk result (λ made. made.0.expired ≡ prepared.expired) }
    ensures life { IfOk result (λ made. made.0.life ≡ prepared.life) }
    ensures told { IfOk result (λ made. IsMadeBy Tell.FnOnce tell made.0 (Ok made.1)) }
{
    let write = move || -> Result<(Merged, B), AllocError>
        requires { Tell.IsAlwaysCallable tell }
        ensures counted { IfOk result (λ made. (runs counted : List Data)
            (places : Option (List CopyPlace)) (change : Option GatedChange)
            (ruling : Option PolicyFacts) (bare idle : ℕ) (told : List Finding)
            → IsPreparedAs runs counted places change options.entry.now.policy ruling bare idle
            told prepared
            → IsMergedAs runs counted places change options.entry.now.policy ruling bare idle
            told made.0) }
        ensures expired { IfOk result (λ made. made.0.expired ≡ prepared.expired) }
        ensures life { IfOk result (λ made. made.0.life ≡ prepared.life) }
        ensures told { IfOk result (λ made. IsMadeBy Tell.FnOnce tell made.0 (Ok made.1)) }
    { write_log(rt, alloc, prepared, options, tell) };
    let release = move ||
        requires { IsSend X.row }
    { drop(spent) };
    let (_, made) = thread::join(rt, release, write);
    made
}
