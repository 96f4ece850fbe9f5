//! Which results are alike to one of others.
ghost use Rattle.std.specs.Prelude.{◌≡◌, ◌++◌, ◌∷◌, [], List, map, IfOk, OnOk};
ghost use Rattle.sarif_model.specs.declared.record.Record.{Record};
ghost use Rattle.sarif_copies.specs.Copies.{has_alike};
ghost use Rattle.sarif_copies.specs.Internal.Table.{HasThese};

use crate::firsts::has_line;
use crate::whole_record::{WholeRecord, record_with};
use indexmap::IndexSet;
use sarif_model::{Record, Sequence};
use std::alloc::{AllocError, Global};
use std::hash::BuildHasher;

/// Adds a result to a table of results, if it has a URI and a region.
fn add_if_placed<'a, 's, S: BuildHasher + Copy>(
    table: &mut IndexSet<WholeRecord<'a, 's>, S>,
    found: &'a Record,
    none: &'s Sequence<u32>,
) -> Result<(), AllocError>
    requires { none.now ≡ [] }
    ensures { OnOk result ((rs : List Record) → HasThese rs table.old
        → HasThese (rs ++ found.now ∷ []) table.new) }
{
    if has_line(found) {
        table.insert(record_with(found, none))?;
    }
    Ok(())
}

/// The table of these results.
fn table_of<'a, 's, S: BuildHasher + Copy>(
    alloc: Global,
    hasher: S,
    records: &[&'a Record],
    none: &'s Sequence<u32>,
) -> Result<IndexSet<WholeRecord<'a, 's>, S>, AllocError>
    requires { none.now ≡ [] }
    ensures { IfOk result (λ table. HasThese (map (λ r. r.now) records.now) table) }
{
    let mut table = IndexSet::with_hasher(alloc, hasher);
    for found in records {
        add_if_placed(&mut table, *found, none)?;
    }
    Ok(table)
}

/// Whether one of the results of a table is alike to this one.
fn is_alike<'a, 's, S: BuildHasher + Copy>(
    table: &IndexSet<WholeRecord<'a, 's>, S>,
    found: &'a Record,
    none: &'s Sequence<u32>,
) -> bool
    requires { none.now ≡ [] }
    ensures { (rs : List Record) → HasThese rs table.now → result ≡ has_alike rs found.now }
{
    has_line(found) && table.contains(&record_with(found, none))
}

/// Whether each of `records` is alike to one of `others`, regardless of the entries of a suppression file that are used
/// up before either. The table hashes with `hasher`, on which the return value doesn't depend. Returns `AllocError` if
/// memory runs out.
pub fn list_alike<'a, S: BuildHasher + Copy>(
    alloc: Global,
    hasher: S,
    others: &[&'a Record],
    records: &'a [Record],
) -> Result<Vec<bool>, AllocError>
    ensures { IfOk result
        (λ alike. alike.items ≡ map (has_alike (map (λ r. r.now) others.now)) records.now) }
{
    let none = Sequence::new(alloc);
    let table = table_of(alloc, hasher, others, &none)?;
    let mut alike = Vec::with_capacity(alloc, records.len())?;
    for found in records {
        alike.push(is_alike(&table, found, &none))?;
    }
    Ok(alike)
}
