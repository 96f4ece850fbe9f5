//! The lines of hunks, as a section takes them up.
ghost use Rattle.std.specs.Prelude.{◌≡◌, Ok, Err, IfOk, IfErr};
ghost use Rattle.sarif_model.specs.Internal.Refusal.{IfFault};
ghost use Rattle.sarif_diff.specs.Draft as said;

use crate::draft::SectionDraft;
use crate::fault::{DiffFault, LineFault};
use crate::hunk::{Hunk, Sign, sign_of};
use crate::lines::{begins, trim_return};
use crate::submodules::{is_commit, is_pointer};
use sarif_model::Refusal;

/// Returns whether a line is in this hunk: lines of it follow, or it is a remark.
pub(crate) fn is_inside(hunk: Hunk, line: &[u8]) -> bool
    ensures { result ≡ said.is_inside hunk line.now }
{
    hunk.is_open() || begins(line, b"\\")
}

/// Returns whether the new file has one line.
fn is_single(hunk: Hunk) -> bool
    ensures { result ≡ said.is_single hunk }
{
    hunk.next == 1 && hunk.end == 2
}

/// Returns the error of a hunk that goes on with no line of it.
pub(crate) fn hunk_fault(number: usize, hunk: Hunk) -> DiffFault
    ensures { result ≡ said.broken number hunk }
{
    let line = if hunk.changes { number } else { hunk.header };
    DiffFault::AtLine(line, LineFault::BadHunk)
}

/// Returns what an added line is without the byte that says so.
fn added_text(line: &[u8]) -> &[u8]
    ensures { result.now ≡ said.content line.now }
{
    if line.is_empty() {
        return line;
    }
    trim_return(&line[1..])
}

impl SectionDraft {
    /// Returns the hunk that a line is in, if it is in the last one.
    pub(crate) fn hunk_around(&self, line: &[u8]) -> Option<Hunk>
        ensures { result ≡ said.hunk_around self.now.hunk line.now }
    {
        match self.hunk {
            None => None,
            Some(hunk) => {
                if is_inside(hunk, line) {
                    Some(hunk)
                } else {
                    None
                }
            }
        }
    }

    /// Takes up an added line, before which its hunk was this one.
    fn take_added(&mut self, hunk: Hunk, text: &[u8]) -> Result<(), LineFault>
        ensures ok { IfOk result (λ _. said.with_added self.old hunk text.now ≡ Ok self.new) }
        ensures err { IfErr result (λ fault. said.with_added self.old hunk text.now ≡ Err fault) }
    {
        if is_single(hunk) && is_commit(text) {
            return Err(LineFault::Submodule);
        }
        self.whole = self.whole || is_pointer(text);
        Ok(())
    }

    /// Takes up a line of this kind, before which the hunk was this one.
    fn take_by_sign(
        &mut self,
        hunk: Hunk,
        sign: Sign,
        line: &[u8],
    ) -> Result<(), Refusal<LineFault>>
        ensures ok { IfOk result (λ _. said.with_line self.old hunk sign line.now ≡ Ok self.new) }
        ensures err { IfFault result
            (λ fault. said.with_line self.old hunk sign line.now ≡ Err fault) }
    {
        match sign {
            Sign::New => self.take_added(hunk, added_text(line))?,
            Sign::Both => hunk.push_run(&mut self.spans)?,
            Sign::Old | Sign::Neither => (),
        }
        Ok(())
    }

    /// Takes up a line of this kind, which has this number, before which the hunk was this one.
    fn take_signed(
        &mut self,
        number: usize,
        hunk: Hunk,
        sign: Sign,
        line: &[u8],
    ) -> Result<(), Refusal<DiffFault>>
        ensures ok { IfOk result
            (λ _. said.at_line number (said.with_line self.old hunk sign line.now) ≡ Ok self.new) }
        ensures err { IfFault result (λ fault.
            said.at_line number (said.with_line self.old hunk sign line.now) ≡ Err fault) }
    {
        match self.take_by_sign(hunk, sign, line) {
            Ok(()) => Ok(()),
            Err(Refusal::Fault(fault)) => Err(Refusal::Fault(DiffFault::AtLine(number, fault))),
            Err(Refusal::OutOfMemory) => Err(Refusal::OutOfMemory),
        }
    }

    /// Takes up what its hunk is after a line. The last line ends the last run.
    fn settle(&mut self, hunk: Hunk) -> Result<(), Refusal<DiffFault>>
        ensures ok { IfOk result (λ _. said.settled self.old hunk ≡ Ok self.new) }
        ensures err { IfFault result (λ fault. said.settled self.old hunk ≡ Err fault) }
    {
        if hunk.is_open() {
            self.hunk = Some(hunk);
            return Ok(());
        }
        if !hunk.changes {
            return Err(Refusal::Fault(DiffFault::AtLine(hunk.header, LineFault::BadHunk)));
        }
        hunk.push_run(&mut self.spans)?;
        self.hunk = Some(hunk.without_run());
        Ok(())
    }

    /// Takes up a line of its hunk.
    pub(crate) fn take_hunk_line(
        &mut self,
        number: usize,
        hunk: Hunk,
        line: &[u8],
    ) -> Result<(), Refusal<DiffFault>>
        ensures ok { IfOk result
            (λ _. said.with_hunk_line number line.now self.old hunk ≡ Ok self.new) }
        ensures err { IfFault result
            (λ fault. said.with_hunk_line number line.now self.old hunk ≡ Err fault) }
    {
        let Some(sign) = sign_of(line) else {
            return Err(Refusal::Fault(hunk_fault(number, hunk)));
        };
        let Some(next) = hunk.with_sign(sign) else {
            return Err(Refusal::Fault(hunk_fault(number, hunk)));
        };
        self.take_signed(number, hunk, sign, line)?;
        self.settle(next)
    }
}
