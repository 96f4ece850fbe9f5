//! Reading a diff.
ghost use Rattle.std.specs.Prelude.{◌≡◌, ◌+◌, ◌<◌, ◌≤◌, ◌^◌, Ok, Err, Some, IfOk, if◌then◌else◌};
ghost use Rattle.sarif_model.specs.Internal.Refusal.{IfFault};
ghost use Rattle.sarif_diff.specs.Reading as said;

use crate::draft::SectionDraft;
use crate::fault::DiffFault;
use crate::hunk::{Hunk, Sign, sign_of};
use crate::hunk_lines::{hunk_fault, is_inside};
use crate::lines::{cut_line, without_mark};
use crate::reading::{Line, Reading};
use crate::section::Change;
use sarif_model::Refusal;
use std::alloc::Global;

/// Returns whether a line that follows this hunk is in it, and adds a line.
fn adds_in(hunk: Hunk, line: &[u8]) -> bool
    ensures { result ≡ said.adds_in (Some hunk) line.now }
{
    is_inside(hunk, line) && matches!(sign_of(line), Some(Sign::New))
}

/// Returns whether a line adds one to the new file.
fn adds(draft: &Option<SectionDraft>, line: &[u8]) -> bool
    ensures { result ≡ said.adds draft.now line.now }
{
    let Some(draft) = draft else {
        return false;
    };
    match draft.hunk {
        Some(hunk) => adds_in(hunk, line),
        None => false,
    }
}

/// Returns the error of a hunk that the diff ends within.
fn fault_at_end(number: usize, hunk: Option<Hunk>) -> Option<DiffFault>
    ensures { result ≡ said.unended number hunk }
{
    match hunk {
        Some(hunk) => {
            if hunk.is_open() {
                Some(hunk_fault(number, hunk))
            } else {
                None
            }
        }
        None => None,
    }
}

/// Ends the section that the last line was in. `number` is one more than that of the last line.
fn end(
    reading: &mut Reading,
    number: usize,
    draft: Option<SectionDraft>,
) -> Result<(), Refusal<DiffFault>>
    ensures ok { IfOk result (λ _. said.ended number reading.old draft ≡ Ok reading.new) }
    ensures err { IfFault result (λ fault. said.ended number reading.old draft ≡ Err fault) }
{
    let Some(draft) = draft else {
        return Ok(());
    };
    match fault_at_end(number, draft.hunk) {
        Some(fault) => Err(Refusal::Fault(fault)),
        None => reading.close(draft),
    }
}

/// Returns what was read, with the number of added lines.
fn change_of(reading: Reading, added: usize) -> Result<Change, DiffFault>
    ensures { result ≡ said.change added reading }
{
    let Reading { sections, hunks: _ } = reading;
    if sections.as_slice().is_empty() {
        return Err(DiffFault::NoChange);
    }
    Ok(Change { sections, added })
}

/// Returns a number of lines, with one more if there is one.
fn add_one_if(added: usize, more: bool) -> usize
    requires { added + 1 < 2 ^ 64 }
    ensures is { result ≡ (if more then added + 1 else added) }
    ensures most { result ≤ added + 1 }
{
    if more { added + 1 } else { added }
}

/// Reads a diff.
#[tactic(auto, using(crate::proofs::ReadingMore::goes, crate::proofs::ReadingMore::stops, crate::proofs::ReadingMore::at_end, crate::proofs::ReadingMore::at_end_stops))]
pub fn read_sections(alloc: Global, bytes: &[u8]) -> Result<Change, Refusal<DiffFault>>
    ensures ok { IfOk result (λ change. said.sections_of bytes.now ≡ Ok change) }
    ensures err { IfFault result (λ fault. said.sections_of bytes.now ≡ Err fault) }
{
    let mut reading = Reading::nothing(alloc);
    let mut draft: Option<SectionDraft> = None;
    let mut number: usize = 1;
    let mut added: usize = 0;
    let mut rest = without_mark(bytes);
    while !rest.is_empty() {
        let (bytes, after) = cut_line(rest);
        added = add_one_if(added, adds(&draft, bytes));
        let line = Line {
            number,
            bytes,
            rest: after,
        };
        draft = match reading.read_line(alloc, &line, draft) {
            Ok(next) => next,
            Err(refusal) => return Err(refusal),
        };
        number += 1;
        rest = after;
    }
    end(&mut reading, number, draft)?;
    Ok(change_of(reading, added)?)
}
