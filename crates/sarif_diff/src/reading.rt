//! A diff that is being read, line by line.
ghost use Rattle.std.specs.Prelude.{◌≡◌, ◌≤◌, Ok, Err, Some, IfOk, length};
ghost use Rattle.sarif_model.specs.Internal.Refusal.{IfFault};
ghost use Rattle.sarif_diff.specs.Draft.{at_line, with_word, own_word, hunk_around};
ghost use Rattle.sarif_diff.specs.Draft as drafts;
ghost use Rattle.sarif_diff.specs.Name as names;
ghost use Rattle.sarif_diff.specs.Reading as said;
ghost use Rattle.sarif_diff.specs.declared.fault.DiffFault.TheVariants.{AtLine};
ghost use Rattle.sarif_model.specs.declared.refusal.Refusal.TheVariants as refusal;

use crate::draft::SectionDraft;
use crate::fault::{DiffFault, LineFault};
use crate::header::ranges_of;
use crate::hunk::Hunk;
use crate::lines::{begins, trim_return};
use crate::name::Name;
use crate::names::{file_of, git_file};
use crate::section::Section;
use crate::submodules::hides_files;
use crate::words::{Word, is_combined, is_plain, is_section, says_differ};
use sarif_model::{Refusal, Sequence};
use std::alloc::Global;

/// The most sections that a diff may have.
pub const MOST_SECTIONS: usize = 1_000_000;

/// The most hunks that a diff may have.
pub const MOST_HUNKS: usize = 1_000_000;

/// The part of a diff that was read, without the section that is being read.
#[derive(Drop)]
pub struct Reading {
    /// The sections that ended.
    pub sections: Sequence<Section>,
    /// How many hunks there were.
    pub hunks: usize,
}

/// A line of a diff, and what follows it.
#[derive(Clone, Copy)]
pub(crate) struct Line<'a> {
    /// Its number.
    pub number: usize,
    /// Its bytes, without the line feed.
    pub bytes: &'a [u8],
    /// What follows its line feed.
    pub rest: &'a [u8],
}

impl<'a> Line<'a> {
    /// Returns the line without the carriage return that it may end with.
    fn trimmed(&self) -> Line<'a>
        ensures { said.numbered result ≡ said.trimmed_line (said.numbered self.now) }
    {
        Line {
            number: self.number,
            bytes: trim_return(self.bytes),
            rest: self.rest,
        }
    }
}

/// Returns an error of this line.
fn wrong(number: usize, fault: LineFault) -> Refusal<DiffFault>
    ensures { result ≡ refusal.Fault (AtLine number fault) }
{
    Refusal::Fault(DiffFault::AtLine(number, fault))
}

/// Returns the file of a line `diff --git `.
fn git_file_at(
    alloc: Global,
    number: usize,
    text: &[u8],
) -> Result<Option<Name>, Refusal<DiffFault>>
    ensures ok { IfOk result (λ file. at_line number (names.git_file text.now) ≡ Ok file) }
    ensures err { IfFault result (λ fault. at_line number (names.git_file text.now) ≡ Err fault) }
{
    match git_file(alloc, text) {
        Ok(file) => Ok(file),
        Err(Refusal::Fault(fault)) => Err(wrong(number, fault)),
        Err(Refusal::OutOfMemory) => Err(Refusal::OutOfMemory),
    }
}

/// Returns the file of a line `--- `.
fn file_at(alloc: Global, number: usize, text: &[u8]) -> Result<Option<Name>, Refusal<DiffFault>>
    ensures ok { IfOk result (λ file. at_line number (names.file_of text.now) ≡ Ok file) }
    ensures err { IfFault result (λ fault. at_line number (names.file_of text.now) ≡ Err fault) }
{
    match file_of(alloc, text) {
        Ok(file) => Ok(file),
        Err(Refusal::Fault(fault)) => Err(wrong(number, fault)),
        Err(Refusal::OutOfMemory) => Err(Refusal::OutOfMemory),
    }
}

/// Takes up a line of a section that begins with this word.
fn take_line_at(
    alloc: Global,
    number: usize,
    draft: &mut SectionDraft,
    word: Word,
    line: &[u8],
) -> Result<(), Refusal<DiffFault>>
    ensures ok { IfOk result
        (λ _. at_line number (with_word draft.old word line.now) ≡ Ok draft.new) }
    ensures err { IfFault result
        (λ fault. at_line number (with_word draft.old word line.now) ≡ Err fault) }
{
    match draft.take_line(alloc, word, line) {
        Ok(()) => Ok(()),
        Err(Refusal::Fault(fault)) => Err(wrong(number, fault)),
        Err(Refusal::OutOfMemory) => Err(Refusal::OutOfMemory),
    }
}

impl Reading {
    /// Returns what was read before the first line.
    pub(crate) fn nothing(alloc: Global) -> Reading
        ensures { result ≡ said.nothing }
    {
        Reading {
            sections: Sequence::new(alloc),
            hunks: 0,
        }
    }

    /// Ends a section.
    pub(crate) fn close(&mut self, draft: SectionDraft) -> Result<(), Refusal<DiffFault>>
        ensures ok { IfOk result (λ _. said.closed self.old draft ≡ Ok self.new) }
        ensures err { IfFault result (λ fault. said.closed self.old draft ≡ Err fault) }
    {
        let section = draft.into_section()?;
        self.sections.push(section)?;
        Ok(())
    }

    /// Returns the section that a line with this number begins, unless it is one too many. `git` is the file that a line
    /// `diff --git ` names, and `old` the one that a line `--- ` does.
    fn begin_section(
        &self,
        alloc: Global,
        number: usize,
        git: Option<Name>,
        old: Option<Option<Name>>,
    ) -> Result<SectionDraft, Refusal<DiffFault>>
        ensures ok { IfOk result (λ begun.
            said.with_begun number self.now (drafts.begun number git old)
            ≡ Ok (self.now, Some begun)) }
        ensures err { IfFault result (λ fault.
            said.with_begun number self.now (drafts.begun number git old) ≡ Err fault) }
    {
        if self.sections.as_slice().len() >= MOST_SECTIONS {
            return Err(wrong(number, LineFault::TooMany));
        }
        Ok(SectionDraft::begin(alloc, number, git, old))
    }

    /// Returns the section that a line `diff --git ` begins, unless it is one too many.
    fn begin_git(&self, alloc: Global, line: &Line<'_>) -> Result<SectionDraft, Refusal<DiffFault>>
        requires { 11 ≤ length line.now.bytes.now }
        ensures ok { IfOk result (λ begun.
            said.git_begun (said.numbered line.now) self.now ≡ Ok (self.now, Some begun)) }
        ensures err { IfFault result (λ fault.
            said.git_begun (said.numbered line.now) self.now ≡ Err fault) }
    {
        let file = git_file_at(alloc, line.number, &line.bytes[11..])?;
        self.begin_section(alloc, line.number, file, None)
    }

    /// Reads a line of text, which is in no section. Returns the section that it begins, if it begins one.
    fn read_text(
        &self,
        alloc: Global,
        line: &Line<'_>,
    ) -> Result<Option<SectionDraft>, Refusal<DiffFault>>
        ensures ok { IfOk result (λ draft.
            said.text_line (said.numbered line.now) self.now ≡ Ok (self.now, draft)) }
        ensures err { IfFault result (λ fault.
            said.text_line (said.numbered line.now) self.now ≡ Err fault) }
    {
        if begins(line.bytes, b"@@ -") {
            return Err(wrong(line.number, LineFault::BadHunk));
        }
        if is_plain(line.bytes, line.rest) {
            let file = file_at(alloc, line.number, &line.bytes[4..])?;
            return Ok(Some(self.begin_section(alloc, line.number, None, Some(file))?));
        }
        if says_differ(line.bytes) {
            return Err(wrong(line.number, LineFault::BadHeader));
        }
        if hides_files(line.bytes, line.rest) {
            return Err(wrong(line.number, LineFault::Submodule));
        }
        Ok(None)
    }

    /// Reads a line that follows no section. Returns the section that it begins, if it begins one.
    fn read_outer(
        &self,
        alloc: Global,
        line: &Line<'_>,
    ) -> Result<Option<SectionDraft>, Refusal<DiffFault>>
        ensures ok { IfOk result (λ draft.
            said.outer_line (said.numbered line.now) self.now ≡ Ok (self.now, draft)) }
        ensures err { IfFault result (λ fault.
            said.outer_line (said.numbered line.now) self.now ≡ Err fault) }
    {
        if is_section(line.bytes) {
            return Ok(Some(self.begin_git(alloc, line)?));
        }
        if is_combined(line.bytes) {
            return Err(wrong(line.number, LineFault::Combined));
        }
        self.read_text(alloc, line)
    }

    /// Reads the header of a hunk.
    fn read_header(
        &mut self,
        line: &Line<'_>,
        draft: SectionDraft,
    ) -> Result<Option<SectionDraft>, Refusal<DiffFault>>
        ensures ok { IfOk result
            (λ next. said.header_line (said.numbered line.now) self.old draft
            ≡ Ok (self.new, next)) }
        ensures err { IfFault result
            (λ fault. said.header_line (said.numbered line.now) self.old draft ≡ Err fault) }
    {
        if !draft.is_named() {
            return Err(wrong(draft.line, LineFault::BadHeader));
        }
        if self.hunks >= MOST_HUNKS {
            return Err(wrong(line.number, LineFault::TooMany));
        }
        let Some((old, new)) = ranges_of(line.bytes) else {
            return Err(wrong(line.number, LineFault::BadHunk));
        };
        self.hunks += 1;
        Ok(Some(draft.with_hunk(Hunk::begin(line.number, old, new))))
    }

    /// Reads a line that belongs to the section, or that ends it.
    fn read_own(
        &mut self,
        alloc: Global,
        line: &Line<'_>,
        draft: SectionDraft,
    ) -> Result<Option<SectionDraft>, Refusal<DiffFault>>
        ensures ok { IfOk result (λ next.
            said.own_line (said.numbered line.now) self.old draft
            (own_word draft line.now.bytes.now) ≡ Ok (self.new, next)) }
        ensures err { IfFault result (λ fault.
            said.own_line (said.numbered line.now) self.old draft
            (own_word draft line.now.bytes.now) ≡ Err fault) }
    {
        let mut draft = draft;
        match draft.own_word(line.bytes) {
            Some(word) => {
                take_line_at(alloc, line.number, &mut draft, word, line.bytes)?;
                Ok(Some(draft))
            }
            None => {
                self.close(draft)?;
                self.read_text(alloc, line)
            }
        }
    }

    /// Reads a line that follows a section, and is in no hunk. Returns the section that it is in, if it is in one.
    fn read_inner(
        &mut self,
        alloc: Global,
        line: &Line<'_>,
        draft: SectionDraft,
    ) -> Result<Option<SectionDraft>, Refusal<DiffFault>>
        ensures ok { IfOk result (λ next.
            said.inner_line (said.numbered line.now) self.old draft
            ≡ Ok (self.new, next)) }
        ensures err { IfFault result (λ fault.
            said.inner_line (said.numbered line.now) self.old draft ≡ Err fault) }
    {
        if is_section(line.bytes) {
            self.close(draft)?;
            return Ok(Some(self.begin_git(alloc, line)?));
        }
        if is_combined(line.bytes) {
            return Err(wrong(line.number, LineFault::Combined));
        }
        if begins(line.bytes, b"@@ ") {
            return self.read_header(line, draft);
        }
        self.read_own(alloc, line, draft)
    }

    /// Reads a line that follows a section. Returns the section that it is in, if it is in one.
    fn read_in_section(
        &mut self,
        alloc: Global,
        line: &Line<'_>,
        draft: SectionDraft,
    ) -> Result<Option<SectionDraft>, Refusal<DiffFault>>
        ensures ok { IfOk result (λ next.
            said.section_line (said.numbered line.now) self.old draft
            (hunk_around draft.hunk line.now.bytes.now) ≡ Ok (self.new, next)) }
        ensures err { IfFault result (λ fault.
            said.section_line (said.numbered line.now) self.old draft
            (hunk_around draft.hunk line.now.bytes.now) ≡ Err fault) }
    {
        let mut draft = draft;
        match draft.hunk_around(line.bytes) {
            Some(hunk) => {
                draft.take_hunk_line(line.number, hunk, line.bytes)?;
                Ok(Some(draft))
            }
            None => self.read_inner(alloc, &line.trimmed(), draft),
        }
    }

    /// Reads a line. Returns the section that it is in, if it is in one. `draft` is the section that the line before it
    /// was in.
    pub(crate) fn read_line(
        &mut self,
        alloc: Global,
        line: &Line<'_>,
        draft: Option<SectionDraft>,
    ) -> Result<Option<SectionDraft>, Refusal<DiffFault>>
        ensures ok { IfOk result (λ next.
            said.next_line (said.numbered line.now) self.old draft
            ≡ Ok (self.new, next)) }
        ensures err { IfFault result (λ fault.
            said.next_line (said.numbered line.now) self.old draft ≡ Err fault) }
    {
        match draft {
            None => self.read_outer(alloc, &line.trimmed()),
            Some(draft) => self.read_in_section(alloc, line, draft),
        }
    }
}
