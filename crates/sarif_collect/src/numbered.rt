//! The items of a run that isn't closed, by their numbers.
ghost use Rattle.std.specs.Prelude.{◌≡◌, ℕ, true, false, [], IfOk, IfErr, OnOk, OnErr};
ghost use Rattle.std.specs.List.{enumerate_from};
ghost use Rattle.std.specs.BTreeMap.{insert_entry};
ghost use Rattle.std.specs.Ordering.{nat_cmp};
ghost use Rattle.sarif_collect.specs.Numbers.{has_number, counts_up};

use std::alloc::{AllocFailed, Global};
use std::collections::BTreeMap;
use std::marker::Model;

/// Bodies by number. Those that came in order lie in a row from 0 on, and the early ones in a map.
#[derive(Drop)]
pub struct Numbered<T> {
    row: Vec<T>,
    early: BTreeMap<u32, T>,
}

impl<T> Model for Numbered<T> {
    ghost use Rattle.std.specs.Prelude.{◌≡◌, ℕ, List, ◌++◌, length, true};
    ghost use Rattle.std.specs.List.{enumerate_from};
    ghost use Rattle.sarif_collect.specs.Numbers.{all_from};

    ghost Value = { List (ℕ × T) };

    ghost view = { λ n. enumerate_from 0 n.row.items ++ n.early.entries };

    ghost invariant = { λ n. all_from (length n.row.items) n.early.entries ≡ true };
}

impl<T: Drop> Numbered<T> {
    /// No bodies; does not allocate.
    pub fn new(alloc: Global) -> Self
        ensures { result ≡ [] }
    {
        Numbered {
            row: Vec::new(alloc),
            early: BTreeMap::new(alloc),
        }
    }

    /// Whether there is a body with this number.
    pub fn contains(&self, seq: u32) -> bool
        ensures { result ≡ has_number seq self.now }
    {
        (seq as usize) < self.row.len() || self.early.contains_key(&seq)
    }

    /// Adds a body at a number that has none. If memory runs out, the body is returned and nothing changes.
    pub fn insert(&mut self, seq: u32, body: T) -> Result<(), T>
        requires { has_number seq self.old ≡ false }
        ensures ok { OnOk result (self.new ≡ insert_entry nat_cmp self.old seq body) }
        ensures err { OnErr result (self.new ≡ self.old) }
        ensures back { IfErr result (λ b. b ≡ body) }
    {
        if seq as usize == self.row.len() {
            if let Err(AllocFailed { value }) = self.row.push(body) {
                return Err(value);
            }
            return Ok(());
        }
        match self.early.insert(seq, body) {
            Ok(None) => Ok(()),
            Ok(Some(_)) => unreachable!(),
            Err(AllocFailed { value: (_, body) }) => Err(body),
        }
    }

    /// Returns whether the numbers are exactly those from 0 up to `count`.
    pub fn is_just(&self, count: u32) -> bool
        ensures { result ≡ counts_up 0 count self.now }
    {
        let mut next = self.row.len() as u64;
        for (seq, _) in self.early.iter() {
            if *seq as u64 != next {
                return false;
            }
            next += 1;
        }
        next == count as u64
    }

    /// Returns the bodies in the order of their numbers, which must be exactly those from 0. If memory for the
    /// list runs out, all bodies are returned.
    pub fn into_list(self) -> Result<Vec<T>, Numbered<T>>
        requires { (count : ℕ) × (counts_up 0 count self ≡ true) }
        ensures ok { IfOk result (λ v. self ≡ enumerate_from 0 v.items) }
        ensures err { IfErr result (λ n. n ≡ self) }
    {
        let Numbered { mut row, early } = self;
        if row.reserve(early.len()).is_err() {
            return Err(Numbered { row, early });
        }
        for (_, body) in early {
            row.push_reserved(body);
        }
        Ok(row)
    }
}
