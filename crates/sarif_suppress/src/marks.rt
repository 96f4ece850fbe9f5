//! Marks of the entries that matched a result, so that those that are unused are counted without
//! going through all results for each of them.
ghost use Rattle.std.specs.Prelude.{◌≡◌, ◌≤◌, ◌++◌, ◌∷◌, [], List, length, false, not, count_by, replicate, IfOk};
ghost use Rattle.sarif_model.specs.declared.record.Record.{Record};
ghost use Rattle.sarif_entries.specs.File.{File};
ghost use Rattle.sarif_suppress.specs.Internal.Marks.{marks_of, with_marks};
ghost use Rattle.sarif_suppress.specs.Suppressing.{matching_numbers, unused_of};
ghost use Rattle.sarif_model.specs.Limits.{most_entries};

use crate::suppressions::Applied;
use std::alloc::{AllocError, Global};
use std::marker::Model;

/// For each entry of a suppression file whether it has matched a result. Contracts see the list of
/// marks.
#[derive(Drop)]
pub struct Marks {
    marks: Vec<bool>,
}

impl Model for Marks {
    ghost use Rattle.std.specs.Prelude.{◌≤◌, List, Bool, length};
    ghost use Rattle.sarif_model.specs.Limits.{most_entries};

    ghost Value = { List Bool };

    ghost view = { λ m. m.marks.items };

    ghost invariant = { λ m. length m.marks.items ≤ most_entries };
}

/// Sets the marks of these numbers.
fn set_marks(marks: &mut [bool], numbers: &[u32])
    ensures { marks.new ≡ with_marks marks.old numbers.now }
{
    for number in numbers {
        let at = *number as usize;
        if at < marks.len() {
            marks[at] = true;
        }
    }
}

/// How many of these are not set.
fn count_unset(marks: &[bool]) -> usize
    ensures few { result ≤ length marks.now }
    ensures count { result ≡ count_by (λ mark. not mark) marks.now }
{
    marks.iter().filter(|mark| !**mark).count()
}

impl Marks {
    /// That many marks, none of them set.
    pub(crate) fn all_unset(alloc: Global, count: usize) -> Result<Marks, AllocError>
        requires { count ≤ most_entries }
        ensures { IfOk result (λ marks. marks ≡ replicate count false) }
    {
        let marks = vec![in alloc; false; count]?;
        Ok(Marks { marks })
    }

    /// Sets the marks of the entries that matched a result. Does not allocate. If the marks were those of the
    /// results so far, they are then those of these results and this one.
    pub fn set(&mut self, applied: &Applied)
        ensures marks { self.new ≡ with_marks self.old applied.now.entries }
        ensures one_more { (file : File) (rs : List Record) (r : Record)
            → self.old ≡ marks_of file rs
            → applied.now.entries ≡ matching_numbers file r
            → self.new ≡ marks_of file (rs ++ r ∷ []) }
    {
        set_marks(&mut self.marks, applied.entries.as_slice());
    }

    /// The marks, in file order.
    pub fn as_slice(&self) -> &[bool]
        ensures { result.now ≡ self.now }
    {
        &self.marks
    }

    /// Returns how many entries are not marked. Does not allocate. If the marks are those of all results, these
    /// are the unused entries.
    pub fn unused(&self) -> u32
        ensures unset { result ≡ count_by (λ mark. not mark) self.now }
        ensures unused { (file : File) (rs : List Record) → self.now ≡ marks_of file rs
            → result ≡ unused_of file rs }
    {
        count_unset(&self.marks) as u32
    }
}
