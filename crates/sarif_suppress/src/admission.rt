//! Which results the entries with `max` admit. The results are gone through once. The tables of the entries that still
//! admit results find those that a result meets, and are made again without the entries that were used up since.
ghost use Rattle.std.specs.Prelude.{◌≡◌, ◌≤◌, ◌++◌, ◌∷◌, [], List, filter, length, map, option_map, IfOk, OnOk, None, slice_index_or};
ghost use Rattle.sarif_model.specs.declared.record.Record.{Record as Found};
ghost use Rattle.sarif_model.specs.Limits.{most_entries};
ghost use Rattle.sarif_entries.specs.File.{File};
ghost use Rattle.sarif_suppress.specs.Internal.Admission as said;
ghost use Rattle.sarif_suppress.specs.Internal.Admission.{IsAfter};
ghost use Rattle.sarif_suppress.specs.Limited.{admitted_after, all_admitted};

use crate::suppressions::Suppressions;
use sarif_entries::{Entry, Limit, copy_of_conditions};
use sarif_model::{Record, Sequence, Status};
use std::alloc::{AllocError, Global};
use std::hash::{BuildHasher, RandomState};
use std::marker::Model;

/// How often used up entries may be found, for each entry, before the tables are made again for the first time.
const LEAST_WASTED: usize = 64;

// ---- what is left of entries

/// Returns whether an entry that admits this number of further results admits more.
fn has_left(left: Option<u32>) -> bool
    ensures { result ≡ said.has_left left }
{
    match left {
        Some(left) => left != 0,
        None => false,
    }
}

/// Whether there is an entry with this number and it admits more results.
fn has_left_at(left: &[Option<u32>], number: u32) -> bool
    ensures { result ≡ said.has_left_at left.now number }
{
    match left.get(number as usize) {
        Some(left) => has_left(*left),
        None => false,
    }
}

/// Returns the numbers whose entries admit more results, in order.
fn list_left(
    alloc: Global,
    left: &[Option<u32>],
    numbers: &[u32],
) -> Result<Sequence<u32>, AllocError>
    ensures { IfOk result
        (λ admitted. admitted ≡ filter (said.has_left_at left.now) numbers.now) }
{
    let mut admitted = Sequence::new(alloc);
    for number in numbers {
        if has_left_at(left, *number) {
            admitted.push(*number)?;
        }
    }
    Ok(admitted)
}

/// One result less, if the entry has a `max`.
fn one_less(left: Option<u32>) -> Option<u32>
    ensures { result ≡ said.one_less left }
{
    match left {
        Some(left) => Some(left.saturating_sub(1)),
        None => None,
    }
}

/// Counts a result for the entries with these numbers.
fn count_down(left: &mut [Option<u32>], numbers: &[u32])
    ensures { left.new ≡ said.counted_down left.old numbers.now }
{
    for number in numbers {
        let at = *number as usize;
        if at < left.len() {
            left[at] = one_less(left[at]);
        }
    }
}

/// How many results the entry admits, if it has a `max`.
fn most_of(entry: &Entry) -> Option<u32>
    ensures { result ≡ option_map (λ limit. limit.most) entry.now.limit }
{
    match entry.limit {
        Some(limit) => Some(limit.most),
        None => None,
    }
}

/// How many results each entry admits, before any result.
fn all_of(alloc: Global, entries: &[Entry]) -> Result<Vec<Option<u32>>, AllocError>
    ensures { IfOk result (λ left. left.items
        ≡ map (λ e. option_map (λ limit. limit.most) e.limit) entries.now) }
{
    let mut left = Vec::with_capacity(alloc, entries.len())?;
    for entry in entries {
        left.push(most_of(entry))?;
    }
    Ok(left)
}

// ---- open entries

/// An entry that is found by no result that was read, since none has a number.
fn closed_entry(alloc: Global) -> Entry
    ensures { result ≡ said.closed }
{
    Entry {
        conditions: Sequence::new(alloc),
        expires: None,
        status: Status::Accepted,
        justification: None,
        limit: Some(Limit { most: 1, number: 0 }),
    }
}

/// The entry without its `max`, if it admits more results.
fn open_entry(alloc: Global, entry: &Entry, left: Option<u32>) -> Result<Entry, AllocError>
    ensures { IfOk result (λ live. live ≡ said.opened left entry.now) }
{
    if !has_left(left) {
        return Ok(closed_entry(alloc));
    }
    Ok(Entry {
        conditions: copy_of_conditions(alloc, entry.conditions.as_slice())?,
        expires: entry.expires,
        status: Status::Accepted,
        justification: None,
        limit: None,
    })
}

/// What is left of the entry with this number; `None` past the last.
fn left_at(left: &[Option<u32>], number: usize) -> Option<u32>
    ensures { result ≡ slice_index_or left.now number None }
{
    left.get(number).copied().flatten()
}

/// The entries without their `max`, where they admit more results.
fn open_entries(
    alloc: Global,
    entries: &[Entry],
    left: &[Option<u32>],
) -> Result<Vec<Entry>, AllocError>
    ensures { IfOk result (λ live. live.items ≡ said.opened_from left.now 0 entries.now) }
{
    let mut live = Vec::with_capacity(alloc, entries.len())?;
    for (number, entry) in entries.iter().enumerate() {
        live.push(open_entry(alloc, entry, left_at(left, number))?)?;
    }
    Ok(live)
}

/// The tables of the entries that admit more results.
#[tactic(auto, using(crate::proofs::Limits::opened_long))]
fn open_file<S: BuildHasher + Copy>(
    alloc: Global,
    file: &Suppressions<S>,
    left: &[Option<u32>],
) -> Result<Suppressions<S>, AllocError>
    ensures entries { IfOk result
        (λ live. live.entries ≡ said.opened_from left.now 0 file.now.entries) }
    ensures today { IfOk result (λ live. live.today ≡ file.now.today) }
{
    // By its contract a file has few enough entries for tables.
    let _few = file.len();
    let entries = open_entries(alloc, file.entries(), left)?;
    Suppressions::new(alloc, file.hasher(), entries, file.today())
}

// ---- results in turn

/// How many more results each entry with `max` admits, after some results. Contracts see these numbers and the entries
/// that still admit results.
#[derive(Drop)]
struct Admission<S: BuildHasher + Copy = RandomState> {
    left: Vec<Option<u32>>,
    /// The entries that admit more results, without their `max`, and perhaps some that were used up since.
    live: Suppressions<S>,
    /// How often a table had an entry that was used up.
    wasted: usize,
    /// How often that may happen before the tables are made again. It is four times as often each time, so that this is
    /// done few times, however long the conditions are.
    allowed: usize,
}

impl<S: BuildHasher + Copy> Model for Admission<S> {
    ghost use Rattle.sarif_suppress.specs.Internal.Admission.{Admitting};

    ghost Value = { Admitting };

    ghost view = { λ a. record { left = a.left.items; live = a.live } };
}

impl<S: BuildHasher + Copy> Admission<S> {
    /// Before any result. Returns `AllocError` if memory for the tables runs out.
    fn of_all(alloc: Global, file: &Suppressions<S>) -> Result<Admission<S>, AllocError>
        ensures { IfOk result (IsAfter file.now []) }
    {
        let left = all_of(alloc, file.entries())?;
        let live = open_file(alloc, file, &left)?;
        let allowed = left.len().saturating_mul(LEAST_WASTED);
        Ok(Admission {
            left,
            live,
            wasted: 0,
            allowed,
        })
    }

    /// Makes the tables again without the entries that are used up, if these were found more often than is allowed.
    fn tidy(&mut self, alloc: Global, file: &Suppressions<S>) -> Result<(), AllocError>
        ensures { OnOk result ((before : List Found) → IsAfter file.now before self.old
            → IsAfter file.now before self.new) }
    {
        if self.wasted <= self.allowed {
            return Ok(());
        }
        let again = open_file(alloc, file, &self.left)?;
        let old = std::mem::replace(&mut self.live, again);
        drop(old);
        self.wasted = 0;
        self.allowed = self.allowed.saturating_mul(4);
        Ok(())
    }

    /// The numbers of the entries that admit a result, after those that were counted; it is counted for these.
    fn count(&mut self, alloc: Global, record: &Record) -> Result<Sequence<u32>, AllocError>
        ensures admitted { (file : File) (before : List Found) → IsAfter file before self.old
            → IfOk result (λ admitted. admitted ≡ admitted_after file before «record».now) }
        ensures counted { (file : File) (before : List Found) → IsAfter file before self.old
            → OnOk result (IsAfter file (before ++ «record».now ∷ []) self.new) }
    {
        let met = self.live.apply(alloc, record)?;
        let numbers = met.entries.as_slice();
        let admitted = list_left(alloc, &self.left, numbers)?;
        let used_up = numbers.len().saturating_sub(admitted.as_slice().len());
        self.wasted = self.wasted.saturating_add(used_up);
        count_down(&mut self.left, admitted.as_slice());
        Ok(admitted)
    }

    /// Adds for each of these results, in order, the numbers of the entries that admit it.
    fn count_all(
        &mut self,
        alloc: Global,
        file: &Suppressions<S>,
        records: &[&Record],
        lists: &mut Vec<Sequence<u32>>,
    ) -> Result<(), AllocError>
        requires { IsAfter file.now [] self.old }
        ensures { OnOk result (lists.new.items
            ≡ lists.old.items ++ all_admitted file.now (map (λ r. r.now) records.now)) }
    {
        for found in records {
            self.tidy(alloc, file)?;
            lists.push(self.count(alloc, found)?)?;
        }
        Ok(())
    }
}

impl<S: BuildHasher + Copy> Suppressions<S> {
    /// Returns for each result, in order, the numbers of the entries with `max` that admit it: the result meets them, and the
    /// results before it don't use them up. Returns `AllocError` if memory for these numbers and the tables of the entries
    /// runs out.
    pub fn admitted(
        &self,
        alloc: Global,
        records: &[&Record],
    ) -> Result<Vec<Sequence<u32>>, AllocError>
        ensures { IfOk result
            (λ lists. lists.items ≡ all_admitted self.now (map (λ r. r.now) records.now)) }
    {
        let mut lists = Vec::with_capacity(alloc, records.len())?;
        let mut admission = Admission::of_all(alloc, self)?;
        admission.count_all(alloc, self, records, &mut lists)?;
        Ok(lists)
    }
}
