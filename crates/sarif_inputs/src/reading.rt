//! Reading the runs of sources that were indexed, some of them at the same time.
ghost use Rattle.std.specs.Prelude.{◌≡◌, ◌≤◌, ℕ, List, IfOk};
ghost use Rattle.sarif_inputs.specs.Internal.Together.{IsIndexed};
ghost use Rattle.json_parts.specs.Mark.{without_mark};
ghost use Rattle.sarif_inputs.specs.Internal.Indexes.{AreIndexesOf};
ghost use Rattle.sarif_inputs.specs.Internal.Parsed.{AreParsedFrom, AreReadFrom, IsParsedFrom, IsReadFrom};

use json_parts::{Index, IndexFault};
use sarif_model::Refusal;
use sarif_read::{IndexedRun, ReadFault, index_log, refused_text};
use sarif_share::{Sharing, each_of, share_jobs};
use std::alloc::{AllocError, Global};
use std::thread::Threads;

/// The runs of the log of a source, or why it is not a log.
pub(crate) type ReadLog<'t, 'a> = Result<Vec<IndexedRun<'t, 'a>>, Refusal<ReadFault>>;

/// The runs of the log of an index, or why it is not a log.
fn read_index<'t, 'a>(
    alloc: Global,
    index: &'t Result<Index<'a>, IndexFault>,
    allow_external: bool,
) -> ReadLog<'t, 'a>
    ensures { (bytes : List ℕ) → IsIndexed (without_mark bytes) index.now
        → IsParsedFrom allow_external bytes result }
{
    match index {
        Ok(found) => index_log(alloc, found, allow_external),
        Err(fault) => Err(refused_text(*fault)),
    }
}

/// What each index gives, in their order: the runs of its log, or why it is none. They are read in at most `threads`
/// threads, this one among them.
pub(crate) fn read_each<'t, 'a, R: Threads + Sync>(
    rt: &R,
    alloc: Global,
    indexes: &'t [Result<Index<'a>, IndexFault>],
    threads: u32,
    allow_external: bool,
) -> Result<Vec<ReadLog<'t, 'a>>, AllocError>
    ensures { IfOk result (λ read. AreReadFrom allow_external indexes.now read.items) }
{
    let sharing = Sharing {
        rt,
        alloc,
        threads,
        least: 1,
    };
    let one = move |index|
        ensures { IfOk result (λ read. IsReadFrom allow_external index.now read) }
    { Ok(read_index(alloc, index, allow_external)) };
    let each = each_of(alloc, indexes)?;
    let read = share_jobs(&sharing, each, &one)?;
    Ok(read)
}

/// The results for the first `logs` indexes, and for the indexes of the baselines after them. At most `threads`
/// threads read them, including this one.
pub(crate) fn read_kinds<'t, 'a, R: Threads + Sync>(
    rt: &R,
    alloc: Global,
    indexes: &'t [Result<Index<'a>, IndexFault>],
    logs: usize,
    threads: u32,
    allow_external: bool,
) -> Result<(Vec<ReadLog<'t, 'a>>, Vec<ReadLog<'t, 'a>>), AllocError>
    requires threads { 1 ≤ threads }
    requires indexes { (ls : List (List ℕ)) × (bs : List (List ℕ))
        × AreIndexesOf ls bs indexes.now logs }
    ensures logs { (ls bs : List (List ℕ)) → AreIndexesOf ls bs indexes.now logs
        → IfOk result (λ read. AreParsedFrom allow_external ls read.0.items) }
    ensures baselines { (ls bs : List (List ℕ)) → AreIndexesOf ls bs indexes.now logs
        → IfOk result (λ read. AreParsedFrom allow_external bs read.1.items) }
{
    let mut first = read_each(rt, alloc, indexes, threads, allow_external)?;
    let second = first.split_off(logs)?;
    Ok((first, second))
}
