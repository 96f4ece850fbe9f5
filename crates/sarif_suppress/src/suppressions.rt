//! A suppression file that was read, and what it makes of the results.
ghost use Rattle.std.specs.Prelude.{◌≡◌, ◌≤◌, [], length, map, IfOk};
ghost use Rattle.serde_json.specs.View.{view};
ghost use Rattle.sarif_model.specs.declared.record.Record.{Record};
ghost use Rattle.sarif_suppress.specs.Internal.Marks.{marks_of};
ghost use Rattle.sarif_suppress.specs.Written as said;
ghost use Rattle.sarif_suppress.specs.Suppressing.{lasting, matching_numbers, is_suppressed};
ghost use Rattle.sarif_model.specs.Limits.{most_entries};

use crate::lasting::do_suppress_for_good;
use crate::marks::Marks;
use crate::objects::with_objects;
use crate::select::{do_suppress, select};
use sarif_entries::Entry;
use sarif_filing::{PrefixTable, Table};
use sarif_model::{Record, Sequence};
use serde_json::Value;
use std::alloc::{AllocError, Global};
use std::hash::{BuildHasher, RandomState};
use std::marker::Model;

/// The entries of a suppression file, on the date for which it was read. Contracts see the file: its entries in
/// order, and the date, regardless of the hasher of its tables.
#[derive(Drop)]
pub struct Suppressions<S: BuildHasher + Copy = RandomState> {
    /// By which the keys of a result's suppressions are hashed.
    hasher: S,
    entries: Vec<Entry>,
    today: Option<u32>,
    table: Table<S>,
    prefixes: PrefixTable<S>,
}

impl<S: BuildHasher + Copy> Model for Suppressions<S> {
    ghost use Rattle.std.specs.Prelude.{◌≤◌, length};
    ghost use Rattle.sarif_entries.specs.File.{File};
    ghost use Rattle.sarif_filing.specs.Internal.Prefixes.{IsPrefixTable};
    ghost use Rattle.sarif_filing.specs.Internal.Table.{IsTable};
    ghost use Rattle.sarif_model.specs.Limits.{most_entries};

    ghost Value = { File };

    ghost view = { λ s. record { entries = s.entries.items; today = s.today } };

    ghost invariant = { λ s. (length s.entries.items ≤ most_entries)
        × IsTable s.entries.items s.table × IsPrefixTable s.entries.items s.prefixes };
}

/// What a suppression file makes of a result.
#[derive(Debug, Drop)]
pub struct Applied {
    /// The numbers of the entries that match, in file order.
    pub entries: Sequence<u32>,
    /// Whether the result is suppressed, by its own suppressions and those of these entries.
    pub suppressed: bool,
}

impl<S: BuildHasher + Copy> Suppressions<S> {
    /// No entries: the value without a suppression file. Returns `AllocError` if memory for the empty tables runs
    /// out.
    pub fn none(alloc: Global, hasher: S, today: Option<u32>) -> Result<Suppressions<S>, AllocError>
        ensures { IfOk result (λ s. s ≡ record { entries = []; today = today }) }
    {
        Suppressions::new(alloc, hasher, Vec::new(alloc), today)
    }

    /// At most `MOST_ENTRIES` entries, with their tables. Returns `AllocError` if memory for the tables runs out.
    pub fn new(
        alloc: Global,
        hasher: S,
        entries: Vec<Entry>,
        today: Option<u32>,
    ) -> Result<Suppressions<S>, AllocError>
        requires { length entries.items ≤ most_entries }
        ensures { IfOk result (λ s. s ≡ record { entries = entries.items; today = today }) }
    {
        let table = Table::new(alloc, hasher, &entries)?;
        let prefixes = PrefixTable::new(alloc, hasher, &entries)?;
        Ok(Suppressions {
            hasher,
            entries,
            today,
            table,
            prefixes,
        })
    }

    /// How many entries the file has, at most `MOST_ENTRIES`.
    pub fn len(&self) -> u32
        ensures count { result ≡ length self.now.entries }
        ensures few { result ≤ most_entries }
    {
        self.entries.len() as u32
    }

    /// The entries, in file order.
    pub fn entries(&self) -> &[Entry]
        ensures { result.now ≡ self.now.entries }
    {
        &self.entries
    }

    /// The date for which the file was read, if one is known.
    pub fn today(&self) -> Option<u32>
        ensures { result ≡ self.now.today }
    {
        self.today
    }

    /// Returns which entries match the result, and whether it is then suppressed (SARIF 2.1.0, result object, "suppressions
    /// property"). An entry with `max` matches only if it admits the result. Returns `AllocError` if memory runs out.
    pub fn apply(&self, alloc: Global, record: &Record) -> Result<Applied, AllocError>
        ensures entries { IfOk result
            (λ applied. applied.entries ≡ matching_numbers self.now «record».now) }
        ensures verdict { IfOk result
            (λ applied. applied.suppressed ≡ is_suppressed self.now «record».now) }
    {
        let mut numbers = self.table.candidates(alloc, record)?;
        self.prefixes.add_for(&mut numbers, &record.place.uri)?;
        let entries = select(alloc, &self.entries, self.today, record, &numbers)?;
        let suppressed = do_suppress(record.held.as_slice(), &self.entries, entries.as_slice());
        Ok(Applied {
            entries,
            suppressed,
        })
    }

    /// Returns whether a result to which the file was applied is suppressed by its own suppressions and those of the
    /// matching entries without an expiry date. Does not allocate.
    pub fn suppresses_for_good(&self, found: &Record, applied: &Applied) -> bool
        requires { applied.now.entries ≡ matching_numbers self.now found.now }
        ensures { result ≡ is_suppressed (lasting self.now) found.now }
    {
        let numbers = applied.entries.as_slice();
        do_suppress_for_good(found.held.as_slice(), &self.entries, numbers)
    }

    /// Returns the suppressions of a result to which the file was applied: its `own` suppressions, unchanged, and
    /// then the objects of the matching entries in file order, each only if no equal one comes before it. Returns
    /// `AllocError` if memory for the list runs out.
    pub fn write_suppressions(
        &self,
        alloc: Global,
        own: Vec<Value>,
        applied: &Applied,
    ) -> Result<Vec<Value>, AllocError>
        ensures { (r : Record) → applied.now.entries ≡ matching_numbers self.now r
            → IfOk result (λ list. map view list.items
            ≡ said.suppressions_of (map view own.items) self.now r) }
    {
        let numbers = applied.entries.as_slice();
        let list = with_objects(alloc, self.hasher, own, &self.entries, numbers)?;
        Ok(list)
    }

    /// By which the tables hash.
    pub(crate) fn hasher(&self) -> S {
        self.hasher
    }

    /// Returns a mark for each entry, none of them set. Returns `AllocError` if memory for them runs out.
    #[tactic(auto, using(crate::proofs::Marked::unset))]
    pub fn marks(&self, alloc: Global) -> Result<Marks, AllocError>
        ensures { IfOk result (λ marks. marks ≡ marks_of self.now []) }
    {
        Ok(Marks::all_unset(alloc, self.entries.len())?)
    }
}
