//! Sharing work among threads.
ghost use Rattle.std.specs.Prelude.{◌≡◌, ◌<◌, IfOk, map};
ghost use denote.Param.Send.{IsSend, IsSync};
ghost use Rattle.sarif_share.specs.Sharing.{AcceptsEach, AcceptsEachAt, AcceptsParts, AreJoined, GivesEach, GivesEachAt, GivesInParts};

use std::alloc::{AllocError, Global};
use std::thread;
use std::thread::Threads;

/// How work is shared: among at most `threads` threads, including this one, each with at least `least` elements.
#[derive(Drop)]
pub struct Sharing<'r, R> {
    /// What starts threads.
    pub rt: &'r R,
    /// Where results are kept.
    pub alloc: Global,
    /// The most threads that there may be, this one among them.
    pub threads: u32,
    /// For fewer elements it is not worth starting another thread.
    pub least: usize,
}

/// Returns what `one` returns for each of these jobs, in order.
fn jobs_in_turn<J: Drop, U: Drop, F: Fn(J) -> Result<U, AllocError>>(
    alloc: Global,
    jobs: Vec<J>,
    one: &F,
) -> Result<Vec<U>, AllocError>
    requires { AcceptsEach F.Fn one.now jobs.items }
    ensures { IfOk result (λ made. GivesEach F.Fn one.now jobs.items made.items) }
{
    let mut made = Vec::with_capacity(alloc, jobs.len())?;
    for job in jobs {
        made.push(one(job)?)?;
    }
    Ok(made)
}

/// Returns what `one` returns for each of these jobs, in order, in at most this many threads.
#[cycle(jobs)]
fn jobs_by<
    R: Threads + Sync,
    J: Send + Drop,
    U: Send + Drop,
    F: Fn(J) -> Result<U, AllocError> + Sync,
>(rt: &R, alloc: Global, mut jobs: Vec<J>, threads: usize, one: &F) -> Result<Vec<U>, AllocError>
    requires { AcceptsEach F.Fn one.now jobs.items }
    ensures { IfOk result (λ made. GivesEach F.Fn one.now jobs.items made.items) }
{
    if threads < 2 || jobs.len() < 2 {
        return jobs_in_turn(alloc, jobs, one);
    }
    let few = threads / 2;
    let others = threads - few;
    let later = jobs.split_off(jobs.len() / 2)?;
    let front = move || -> Result<Vec<U>, AllocError>
        requires { IsSync R.row × IsSync F.row × IsSend J.row × IsSend U.row
            × AcceptsEach F.Fn one.now jobs.items }
        ensures { IfOk result (λ made. GivesEach F.Fn one.entry.now jobs.items made.items) }
    { jobs_by(rt, alloc, jobs, few, one) };
    let back = move || -> Result<Vec<U>, AllocError>
        requires { IsSync R.row × IsSync F.row × IsSend J.row × IsSend U.row
            × AcceptsEach F.Fn one.now later.items }
        ensures { IfOk result (λ made. GivesEach F.Fn one.entry.now later.items made.items) }
    { jobs_by(rt, alloc, later, others, one) };
    let (first, second) = thread::join(rt, front, back);
    let mut made = first?;
    let mut rest = second?;
    made.append(&mut rest)?;
    Ok(made)
}

/// Returns how many threads are worth starting for this many elements, if each gets at least `least`.
fn worth(count: usize, threads: u32, least: usize) -> usize {
    let most = threads as usize;
    match count.checked_div(least) {
        Some(parts) => most.min(parts),
        None => most,
    }
}

/// Returns how many elements each of this many threads gets.
fn part_size(count: usize, threads: usize) -> usize
    ensures { 0 < result }
{
    count.div_ceil(threads.max(1)).max(1)
}

/// Returns what `one` returns for each of these jobs, in order. Returns `AllocError` if one of them does, or if
/// memory for the list runs out.
pub fn share_jobs<
    R: Threads + Sync,
    J: Send + Drop,
    U: Send + Drop,
    F: Fn(J) -> Result<U, AllocError> + Sync,
>(sharing: &Sharing<'_, R>, jobs: Vec<J>, one: &F) -> Result<Vec<U>, AllocError>
    requires { AcceptsEach F.Fn one.now jobs.items }
    ensures { IfOk result (λ made. GivesEach F.Fn one.now jobs.items made.items) }
{
    let threads = worth(jobs.len(), sharing.threads, sharing.least);
    jobs_by(sharing.rt, sharing.alloc, jobs, threads, one)
}

/// Returns what `part` returns for each of some parts, which together are `items`, in order. None of them is empty.
/// `part` gets the position where its part begins. Returns `AllocError` if memory for the list runs out.
pub fn share_parts<R: Threads + Sync, T: Sync, X: Send + Drop, F: Fn(usize, &[T]) -> X + Sync>(
    sharing: &Sharing<'_, R>,
    items: &[T],
    part: &F,
) -> Result<Vec<X>, AllocError>
    requires { AcceptsParts F.Fn part.now items.now }
    ensures { IfOk result (λ made. GivesInParts F.Fn part.now items.now made.items) }
{
    let threads = worth(items.len(), sharing.threads, sharing.least);
    let size = part_size(items.len(), threads);
    let made = thread::map_chunks(sharing.rt, sharing.alloc, items, size, part)?;
    Ok(made)
}

/// Returns what `one` returns for each of these, in order.
fn each_in_turn<T, U: Drop, F: Fn(&T) -> Result<U, AllocError>>(
    alloc: Global,
    items: &[T],
    one: &F,
) -> Result<Vec<U>, AllocError>
    requires { AcceptsEachAt F.Fn one.now items.now }
    ensures { IfOk result (λ made. GivesEachAt F.Fn one.now items.now made.items) }
{
    let mut made = Vec::with_capacity(alloc, items.len())?;
    for item in items {
        made.push(one(item)?)?;
    }
    Ok(made)
}

/// Returns the concatenation of these lists, which have `count` elements in all. Returns `AllocError` if one of them is
/// one, or if memory for all elements runs out.
pub fn join_lists<U: Drop>(
    alloc: Global,
    count: usize,
    lists: Vec<Result<Vec<U>, AllocError>>,
) -> Result<Vec<U>, AllocError>
    ensures { IfOk result (λ all. AreJoined (λ list. list.items) lists.items all.items) }
{
    let mut all = Vec::with_capacity(alloc, count)?;
    for list in lists {
        all.append(&mut list?)?;
    }
    Ok(all)
}

/// Returns what `one` returns for each of these, in order. Returns `AllocError` if one of them does, or if memory
/// for the list runs out.
pub fn share_each<
    R: Threads + Sync,
    T: Sync,
    U: Send + Drop,
    F: Fn(&T) -> Result<U, AllocError> + Sync,
>(sharing: &Sharing<'_, R>, items: &[T], one: &F) -> Result<Vec<U>, AllocError>
    requires { AcceptsEachAt F.Fn one.now items.now }
    ensures { IfOk result (λ made. GivesEachAt F.Fn one.now items.now made.items) }
{
    let alloc = sharing.alloc;
    if worth(items.len(), sharing.threads, sharing.least) < 2 {
        return each_in_turn(alloc, items, one);
    }
    let part = move |_: usize, some: &[T]| -> Result<Vec<U>, AllocError>
        requires { AcceptsEachAt F.Fn one.now some.now }
        ensures { IfOk result (λ made. GivesEachAt F.Fn one.entry.now some.now made.items) }
    { each_in_turn(alloc, some, one) };
    let lists = share_parts(sharing, items, &part)?;
    join_lists(alloc, items.len(), lists)
}

/// Returns references to these, in order: the jobs of a call of `share_jobs` in which each is only read. Returns
/// `AllocError` if memory for the list runs out.
pub fn each_of<'t, T>(alloc: Global, items: &'t [T]) -> Result<Vec<&'t T>, AllocError>
    ensures { IfOk result (λ each. map (λ one. one.now) each.items ≡ items.now) }
{
    let mut each = Vec::with_capacity(alloc, items.len())?;
    for item in items {
        each.push(item)?;
    }
    Ok(each)
}
