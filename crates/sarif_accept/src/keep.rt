//! Which entries stay in a new suppression file.
ghost use Rattle.std.specs.Prelude.{◌≡◌, List, map, option_map, IfOk};
ghost use Rattle.sarif_model.specs.declared.record.Record.{Record};
ghost use Rattle.sarif_suppress.specs.Internal.Marks.{marks_of};
ghost use Rattle.sarif_accept.specs.Internal.Flags.{is_dropped, flags_by};
ghost use Rattle.sarif_accept.specs.Heard.{heard_of};
ghost use Rattle.sarif_accept.specs.Keeping.{is_kept};

use crate::heard::Heard;
use crate::marked::is_marked;
use sarif_entries::{ConditionKind, Entry, text_in};
use sarif_suppress::{Marks, Suppressions};
use std::alloc::{AllocError, Global};
use std::hash::BuildHasher;

/// Whether pruning drops an entry: it expired, or it is unused although its tool was heard.
fn is_pruned<S: BuildHasher + Copy>(
    heard: &Heard<S>,
    today: Option<u32>,
    entry: &Entry,
    used: bool,
) -> bool
    ensures { result ≡ is_dropped (heard_of heard.now) today entry.now used }
{
    entry.is_expired(today)
        || (!used && heard.hears(text_in(entry.conditions.as_slice(), ConditionKind::Tool)))
}

/// For each entry whether it stays, by the marks of those that are used.
#[tactic(auto, using(crate::proofs::Flags::flags_go_on, crate::proofs::Flags::flags_end))]
fn flags_of<S: BuildHasher + Copy>(
    alloc: Global,
    entries: &[Entry],
    today: Option<u32>,
    used: &[bool],
    heard: &Heard<S>,
    prune: bool,
) -> Result<Vec<bool>, AllocError>
    ensures { IfOk result (λ kept. kept.items
        ≡ flags_by today used.now prune (heard_of heard.now) 0 entries.now) }
{
    let mut kept = Vec::new(alloc);
    for (number, entry) in entries.iter().enumerate() {
        let used = is_marked(used, number);
        kept.push(!(prune && is_pruned(heard, today, entry, used)))?;
    }
    Ok(kept)
}

/// Returns for each entry of the file whether it stays in the new file. `marks` are those of the entries that match a
/// current result. Pruning drops an entry that expired, and one that matches no current result although the tool that
/// it names was heard. Returns `AllocError` if memory for the list runs out.
#[tactic(auto, using(crate::proofs::Flags::flags_of_marks))]
pub fn kept_entries<S: BuildHasher + Copy>(
    alloc: Global,
    file: &Suppressions<S>,
    marks: &Marks,
    heard: &Heard<S>,
    prune: bool,
) -> Result<Vec<bool>, AllocError>
    ensures { (rs : List Record) → marks.now ≡ marks_of file.now rs
        → IfOk result (λ kept. kept.items
        ≡ map (is_kept prune (heard_of heard.now) file.now rs) file.now.entries) }
{
    flags_of(
        alloc,
        file.entries(),
        file.today(),
        marks.as_slice(),
        heard,
        prune,
    )
}
