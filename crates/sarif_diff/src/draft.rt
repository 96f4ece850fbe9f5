//! A section of a diff that is being read.
ghost use Rattle.std.specs.Prelude.{◌≡◌, ◌||◌, Ok, Err, Some, IfOk, is_some};
ghost use Rattle.std.specs.Option.{option_or, option_flatten};
ghost use Rattle.sarif_model.specs.Internal.Refusal.{IfFault};
ghost use Rattle.sarif_diff.specs.Draft as said;
ghost use Rattle.sarif_model.specs.Members.{result_map};
ghost use Rattle.sarif_diff.specs.Name as names;

use crate::fault::{DiffFault, LineFault};
use crate::hunk::Hunk;
use crate::name::Name;
use crate::names::{file_of, moved_name};
use crate::section::{Section, Span};
use crate::submodules::{is_link, is_submodule};
use crate::words::{Word, word_of};
use sarif_model::{Refusal, Sequence};
use std::alloc::Global;

/// A section of a diff that is being read.
#[derive(Drop)]
pub struct SectionDraft {
    /// Its first line.
    pub line: usize,
    /// The file of `diff --git`, if it names one.
    pub git: Option<Name>,
    /// The name after a rename, or that of a copy.
    pub moved: Option<Name>,
    /// The name before a rename.
    pub source: Option<Name>,
    /// The file of `--- `, if there is this line; `None` in it if it is `/dev/null`.
    pub old_file: Option<Option<Name>>,
    /// The file of `+++ `, in the same form.
    pub new_file: Option<Option<Name>>,
    /// Whether the file is changed whole.
    pub whole: bool,
    /// Whether it is a symbolic link.
    pub link: bool,
    /// The changed lines so far.
    pub spans: Sequence<Span>,
    /// Its last hunk so far.
    pub hunk: Option<Hunk>,
}

/// Returns the first of two names that is there.
fn first_name(first: Option<Name>, second: Option<Name>) -> Option<Name>
    ensures { result ≡ option_or first second }
{
    match first {
        Some(name) => Some(name),
        None => second,
    }
}

/// Returns the name in this line, if there are the line and the name.
fn name_in(file: Option<Option<Name>>) -> Option<Name>
    ensures { result ≡ option_flatten file }
{
    match file {
        Some(name) => name,
        None => None,
    }
}

/// Returns whether there are the line and the name.
fn is_named_in(file: &Option<Option<Name>>) -> bool
    ensures { result ≡ is_some (option_flatten file.now) }
{
    match file {
        Some(name) => name.is_some(),
        None => false,
    }
}

impl SectionDraft {
    /// Returns a section after its first line.
    pub(crate) fn begin(
        alloc: Global,
        line: usize,
        git: Option<Name>,
        old: Option<Option<Name>>,
    ) -> SectionDraft
        ensures { result ≡ said.begun line git old }
    {
        SectionDraft {
            line,
            git,
            moved: None,
            source: None,
            old_file: old,
            new_file: None,
            whole: false,
            link: false,
            spans: Sequence::new(alloc),
            hunk: None,
        }
    }

    /// Returns the section with this hunk, which begins.
    pub(crate) fn with_hunk(self, hunk: Hunk) -> SectionDraft
        ensures { result ≡ record self { hunk = Some hunk } }
    {
        let mut draft = self;
        draft.hunk = Some(hunk);
        draft
    }

    /// Returns whether there is a line `--- ` or `+++ `.
    fn has_lines(&self) -> bool
        ensures { result ≡ (is_some self.now.new_file || is_some self.now.old_file) }
    {
        self.new_file.is_some() || self.old_file.is_some()
    }

    /// Returns whether the section has a name so far.
    pub(crate) fn is_named(&self) -> bool
        ensures { result ≡ is_some (said.name_of self.now) }
    {
        if self.moved.is_some() {
            return true;
        }
        if self.has_lines() {
            return is_named_in(&self.new_file) || is_named_in(&self.old_file);
        }
        self.git.is_some()
    }

    /// Returns the section. Returns `BadHeader` at its first line if it has no name.
    pub(crate) fn into_section(self) -> Result<Section, DiffFault>
        ensures { result ≡ said.section_of self }
    {
        let has_lines = self.has_lines();
        let SectionDraft {
            line,
            git,
            moved,
            source,
            old_file,
            new_file,
            whole,
            link,
            spans,
            hunk: _,
        } = self;
        let named = if has_lines {
            first_name(name_in(new_file), name_in(old_file))
        } else {
            git
        };
        match first_name(moved, named) {
            None => Err(DiffFault::AtLine(line, LineFault::BadHeader)),
            Some(name) => Ok(Section {
                name,
                old: source,
                whole,
                link,
                spans,
            }),
        }
    }

    /// Returns whether a line with this word and these bytes after it belongs to the section.
    fn takes(&self, word: Word, rest: &[u8]) -> bool
        ensures { result ≡ said.takes self.now word rest.now }
    {
        match word {
            Word::OldFile => self.old_file.is_none(),
            Word::NewFile => self.new_file.is_none(),
            Word::BinaryPatch => rest.is_empty(),
            _ => true,
        }
    }

    /// Returns the word of a line that belongs to the section.
    pub(crate) fn own_word(&self, line: &[u8]) -> Option<Word>
        ensures { result ≡ said.own_word self.now line.now }
    {
        if self.hunk.is_some() {
            return None;
        }
        let word = word_of(line)?;
        if self.takes(word, word.after(line)) {
            Some(word)
        } else {
            None
        }
    }

    /// Takes up the mode at the end of this line.
    fn take_mode(&mut self, line: &[u8]) -> Result<(), Refusal<LineFault>>
        ensures ok { IfOk result (λ _. said.with_mode line.now self.old ≡ Ok self.new) }
        ensures err { IfFault result (λ fault. said.with_mode line.now self.old ≡ Err fault) }
    {
        if is_submodule(line) {
            return Err(Refusal::Fault(LineFault::Submodule));
        }
        if is_link(line) {
            self.whole = true;
            self.link = true;
        }
        Ok(())
    }

    /// Takes up the name after a rename or of a copy.
    fn take_moved(&mut self, alloc: Global, text: &[u8]) -> Result<(), Refusal<LineFault>>
        ensures ok { IfOk result
            (λ _. result_map (said.with_moved self.old) (names.moved_name text.now) ≡ Ok self.new) }
        ensures err { IfFault result (λ fault. names.moved_name text.now ≡ Err fault) }
    {
        let name = moved_name(alloc, text)?;
        if self.moved.is_none() {
            self.moved = Some(name);
        }
        Ok(())
    }

    /// Takes up the name before a rename.
    fn take_source(&mut self, alloc: Global, text: &[u8]) -> Result<(), Refusal<LineFault>>
        ensures ok { IfOk result (λ _.
            result_map (said.with_source self.old) (names.moved_name text.now) ≡ Ok self.new) }
        ensures err { IfFault result (λ fault. names.moved_name text.now ≡ Err fault) }
    {
        let name = moved_name(alloc, text)?;
        self.source = Some(name);
        Ok(())
    }

    /// Takes up the file of a line `--- `.
    fn take_old(&mut self, alloc: Global, text: &[u8]) -> Result<(), Refusal<LineFault>>
        ensures ok { IfOk result
            (λ _. result_map (said.with_old self.old) (names.file_of text.now) ≡ Ok self.new) }
        ensures err { IfFault result (λ fault. names.file_of text.now ≡ Err fault) }
    {
        let file = file_of(alloc, text)?;
        self.old_file = Some(file);
        Ok(())
    }

    /// Takes up the file of a line `+++ `.
    fn take_new(&mut self, alloc: Global, text: &[u8]) -> Result<(), Refusal<LineFault>>
        ensures ok { IfOk result
            (λ _. result_map (said.with_new self.old) (names.file_of text.now) ≡ Ok self.new) }
        ensures err { IfFault result (λ fault. names.file_of text.now ≡ Err fault) }
    {
        let file = file_of(alloc, text)?;
        self.new_file = Some(file);
        Ok(())
    }

    /// Takes up a line of the section that begins with this word.
    pub(crate) fn take_line(
        &mut self,
        alloc: Global,
        word: Word,
        line: &[u8],
    ) -> Result<(), Refusal<LineFault>>
        ensures ok { IfOk result (λ _. said.with_word self.old word line.now ≡ Ok self.new) }
        ensures err { IfFault result (λ fault. said.with_word self.old word line.now ≡ Err fault) }
    {
        let rest = word.after(line);
        match word {
            Word::OldMode | Word::BinaryFiles | Word::BinaryPatch => self.whole = true,
            Word::NewMode => {
                self.whole = true;
                return self.take_mode(line);
            }
            Word::NewFileMode | Word::Index => return self.take_mode(line),
            Word::CopyFrom => {
                let _name = moved_name(alloc, rest)?;
            }
            Word::CopyTo => {
                self.whole = true;
                return self.take_moved(alloc, rest);
            }
            Word::RenameFrom | Word::RenameOld => return self.take_source(alloc, rest),
            Word::RenameTo | Word::RenameNew => return self.take_moved(alloc, rest),
            Word::OldFile => return self.take_old(alloc, rest),
            Word::NewFile => return self.take_new(alloc, rest),
            Word::DeletedFileMode | Word::Similarity | Word::Dissimilarity => (),
        }
        Ok(())
    }
}
