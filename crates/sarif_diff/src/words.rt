//! What a line of a diff begins with, outside of hunks.
ghost use Rattle.std.specs.Prelude.{◌≡◌, drop};
ghost use Rattle.sarif_diff.specs.Lines as lines;
ghost use Rattle.sarif_diff.specs.Words as said;

use crate::lines::{begins, cut_line, ends, first_line};

/// The keywords with which the lines of a section begin, before its first hunk.
#[derive(Clone, Copy)]
pub enum Word {
    /// The mode before the change.
    OldMode,
    /// The mode after the change.
    NewMode,
    /// The mode of a new file.
    NewFileMode,
    /// The mode of a removed file.
    DeletedFileMode,
    /// What was copied.
    CopyFrom,
    /// The name of a copy.
    CopyTo,
    /// The name before a rename.
    RenameFrom,
    /// The name after a rename.
    RenameTo,
    /// The name before a rename, in old diffs.
    RenameOld,
    /// The name after a rename, in old diffs.
    RenameNew,
    /// How much of the file stayed.
    Similarity,
    /// How much of the file changed.
    Dissimilarity,
    /// The hashes of both files, and their mode if it stayed.
    Index,
    /// The old file.
    OldFile,
    /// The new file.
    NewFile,
    /// That binary files differ.
    BinaryFiles,
    /// The change of a binary file.
    BinaryPatch,
}

/// All keywords, each before those that it begins with.
const WORDS: [Word; 17] = [
    Word::OldMode,
    Word::NewMode,
    Word::NewFileMode,
    Word::DeletedFileMode,
    Word::CopyFrom,
    Word::CopyTo,
    Word::RenameFrom,
    Word::RenameTo,
    Word::RenameOld,
    Word::RenameNew,
    Word::Similarity,
    Word::Dissimilarity,
    Word::Index,
    Word::OldFile,
    Word::NewFile,
    Word::BinaryFiles,
    Word::BinaryPatch,
];

impl Word {
    /// Returns whether a line begins with the word.
    fn begins(self, line: &[u8]) -> bool
        ensures is { result ≡ lines.begins line.now (said.text_of self) }
    {
        begins(line, self.text())
    }

    /// Returns what follows the word in a line that begins with it.
    pub(crate) fn after(self, line: &[u8]) -> &[u8]
        ensures { result.now ≡ lines.past line.now (said.text_of self) }
    {
        let word = self.text();
        if word.len() <= line.len() {
            return &line[word.len()..];
        }
        &line[line.len()..]
    }

    /// Returns its text.
    pub(crate) fn text(self) -> &'static [u8]
        ensures { result.now ≡ said.text_of self }
    {
        match self {
            Word::OldMode => b"old mode ",
            Word::NewMode => b"new mode ",
            Word::NewFileMode => b"new file mode ",
            Word::DeletedFileMode => b"deleted file mode ",
            Word::CopyFrom => b"copy from ",
            Word::CopyTo => b"copy to ",
            Word::RenameFrom => b"rename from ",
            Word::RenameTo => b"rename to ",
            Word::RenameOld => b"rename old ",
            Word::RenameNew => b"rename new ",
            Word::Similarity => b"similarity index ",
            Word::Dissimilarity => b"dissimilarity index ",
            Word::Index => b"index ",
            Word::OldFile => b"--- ",
            Word::NewFile => b"+++ ",
            Word::BinaryFiles => b"Binary files ",
            Word::BinaryPatch => b"GIT binary patch",
        }
    }
}

/// Returns the first of these keywords that a line begins with.
fn first_word(words: &[Word], line: &[u8]) -> Option<Word>
    ensures { result ≡ said.first_word words.now line.now }
{
    for word in words {
        if word.begins(line) {
            return Some(*word);
        }
    }
    None
}

/// Returns the word that a line begins with.
pub(crate) fn word_of(line: &[u8]) -> Option<Word>
    ensures { result ≡ said.word_of line.now }
{
    first_word(&WORDS, line)
}

/// Returns whether a line begins a section.
pub(crate) fn is_section(line: &[u8]) -> bool
    ensures { result ≡ said.is_section line.now }
{
    begins(line, b"diff --git ")
}

/// Returns whether a line begins a comparison with several parents.
pub(crate) fn is_combined(line: &[u8]) -> bool
    ensures { result ≡ said.is_combined line.now }
{
    begins(line, b"diff --cc ")
        || begins(line, b"diff --combined ")
        || begins(line, b"@@@ ")
        || begins(line, b"* Unmerged path ")
}

/// Returns what follows the first line.
#[tactic(auto, using(crate::proofs::LinesMore::no_lines))]
fn after_line(bytes: &[u8]) -> &[u8]
    ensures { lines.lines_of result.now ≡ drop 1 (lines.lines_of bytes.now) }
{
    if bytes.is_empty() {
        return bytes;
    }
    cut_line(bytes).1
}

/// Returns whether a line `--- ` begins a section. `rest` is what follows the line.
pub(crate) fn is_plain(line: &[u8], rest: &[u8]) -> bool
    ensures { result ≡ said.is_plain line.now (lines.lines_of rest.now) }
{
    begins(line, b"--- ")
        && begins(first_line(rest), b"+++ ")
        && begins(first_line(after_line(rest)), b"@@")
}

/// Returns whether a line of text says that two files differ.
pub(crate) fn says_differ(line: &[u8]) -> bool
    ensures { result ≡ said.says_differ line.now }
{
    begins(line, b"Binary files ") && ends(line, b" differ")
}
