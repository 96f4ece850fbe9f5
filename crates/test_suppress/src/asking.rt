//! Questions about a suppression file. A file is large, so each of these functions reads one, asks and drops it, and a
//! test owns only what it compares.
ghost use Rattle.std.specs.Prelude.{◌≡◌, [], Err, IfOk, None, Ok};
ghost use Rattle.sarif_model.specs.Internal.Refusal.{IfFault};
ghost use Rattle.sarif_entries.specs.File.{File, file_of};
ghost use Rattle.test_suppress.specs.Asked.{IsAnswer};

use sarif_entries::FileFault;
use sarif_model::Refusal;
use sarif_suppress::{Suppressions, read_rules};
use std::alloc::{AllocError, Global};
use std::hash::{BuildHasherDefault, FoldHasher};

/// A suppression file by the standard hasher.
pub type Plain = Suppressions<BuildHasherDefault<FoldHasher>>;

/// Returns what `ask` returns for the file, which is read for the date `today`. Returns an error if the file has one,
/// or `OutOfMemory` if memory runs out.
pub fn asked_of<A, Ask: FnOnce(&Plain) -> Result<A, AllocError>>(
    alloc: Global,
    bytes: &[u8],
    today: Option<u32>,
    ask: Ask,
) -> Result<A, Refusal<FileFault>>
    requires { Ask.IsAlwaysCallable ask }
    ensures answer { IfOk result (λ answer. (file : File) × (file_of bytes.now today ≡ Ok file)
        × IsAnswer Ask.FnOnce ask file (Ok answer)) }
    ensures fault { IfFault result (λ fault. file_of bytes.now today ≡ Err fault) }
{
    let rules = read_rules(alloc, bytes, today)?;
    let answer = ask(&rules);
    drop(rules);
    Ok(answer?)
}

/// Returns what `ask` returns without a file. Returns `AllocError` if memory runs out.
pub fn asked_of_none<A, Ask: FnOnce(&Plain) -> Result<A, AllocError>>(
    alloc: Global,
    ask: Ask,
) -> Result<A, AllocError>
    requires { Ask.IsAlwaysCallable ask }
    ensures { IfOk result (λ answer.
        IsAnswer Ask.FnOnce ask (record { entries = []; today = None }) (Ok answer)) }
{
    let rules: Plain = Suppressions::none(alloc, BuildHasherDefault::<FoldHasher>::new(), None)?;
    let answer = ask(&rules);
    drop(rules);
    answer
}
