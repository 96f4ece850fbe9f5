//! Indexing the sources of a merge, some of them at the same time.
ghost use Rattle.std.specs.Prelude.{◌≡◌, ◌≤◌, ◌+◌, ◌++◌, IfOk, map, length};
ghost use Rattle.sarif_inputs.specs.Internal.Together.{AreIndexed, IsIndexed};
ghost use Rattle.json_parts.specs.Mark as said;

use json::Scratch;
use json_parts::{Index, IndexFault, index_text, without_mark};
use sarif_share::{Sharing, share_jobs};
use std::alloc::{AllocError, Global};
use std::thread::Threads;

/// A document to index, and the memory for its strings.
#[derive(Drop)]
struct IndexJob<'a> {
    /// The text.
    bytes: &'a [u8],
    /// Keeps its strings with escapes.
    scratch: &'a mut Scratch,
}

/// Returns the index of a document, or why it has none.
fn index_one<'a>(alloc: Global, job: IndexJob<'a>) -> Result<Index<'a>, IndexFault>
    ensures { IsIndexed job.entry.bytes.now result }
{
    let IndexJob { bytes, scratch } = job;
    index_text(alloc, bytes, scratch)
}

/// Indexes documents in at most `threads` threads, including this one. Returns the result for each document in
/// order: its index, or its own error. Returns `AllocError` if memory for the list runs out.
fn index_texts<'a, R: Threads + Sync>(
    rt: &R,
    alloc: Global,
    jobs: Vec<IndexJob<'a>>,
    threads: u32,
) -> Result<Vec<Result<Index<'a>, IndexFault>>, AllocError>
    ensures { IfOk result
        (λ found. AreIndexed (map (λ job. job.bytes.now) jobs.entry.items) found.items) }
{
    let sharing = Sharing {
        rt,
        alloc,
        threads,
        least: 1,
    };
    let one = move |job|
        ensures { IfOk result (λ found. IsIndexed job.entry.bytes.now found) }
    { Ok(index_one(alloc, job)) };
    let found = share_jobs(&sharing, jobs, &one)?;
    Ok(found)
}

/// Adds a job for each of these sources, with a separate scratch.
fn add_jobs<'a>(
    mut jobs: Vec<IndexJob<'a>>,
    sources: &'a [Vec<u8>],
    scratches: &'a mut [Scratch],
) -> Result<Vec<IndexJob<'a>>, AllocError>
    requires { length scratches.old ≡ length sources.now }
    ensures { IfOk result (λ all. map (λ job. job.bytes.now) all.items
        ≡ map (λ job. job.bytes.now) jobs.entry.items
        ++ map said.without_mark (map (λ v. v.items) sources.now)) }
{
    let mut spare = scratches.iter_mut();
    for bytes in sources {
        // Each source has one.
        let Some(scratch) = spare.next() else {
            return Err(AllocError);
        };
        jobs.push(IndexJob {
            bytes: without_mark(bytes.as_slice()),
            scratch,
        })?;
    }
    Ok(jobs)
}

/// The indexes of all sources, the logs and then the baselines, each without its leading byte order mark. At most
/// `threads` threads index them, including this one; each source has a separate scratch. Returns `AllocError` if
/// memory for the list runs out; a source's own error is in the list.
pub fn index_sources<'a, R: Threads + Sync>(
    rt: &R,
    alloc: Global,
    logs: &'a [Vec<u8>],
    baselines: &'a [Vec<u8>],
    scratches: &'a mut [Scratch],
    threads: u32,
) -> Result<Vec<Result<Index<'a>, IndexFault>>, AllocError>
    requires threads { 1 ≤ threads }
    requires scratches { length scratches.old ≡ length logs.now + length baselines.now }
    ensures { IfOk result (λ found. AreIndexed (map said.without_mark
        (map (λ v. v.items) logs.now ++ map (λ v. v.items) baselines.now)) found.items) }
{
    let (first, second) = scratches.split_at_mut(logs.len());
    let jobs = add_jobs(Vec::new(alloc), logs, first)?;
    let all = add_jobs(jobs, baselines, second)?;
    index_texts(rt, alloc, all, threads)
}
