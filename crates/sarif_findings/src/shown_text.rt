//! What a report shows of a log's text: one line, no character that hides or steers, and at most `MOST_CHARACTERS`.
ghost use Rattle.std.specs.Prelude.{◌≡◌, ℕ, List, ◌∷◌, ◌++◌, [], OnOk, IfOk, true, false, chars, string_bytes};
ghost use Rattle.std.specs.Prelude.{encode_utf8_all, if◌then◌else◌, Bool};
ghost use Rattle.std.specs.List.{list_all};
ghost use Rattle.sarif_findings.specs.Shown as said;
ghost use Rattle.sarif_findings.specs.Internal.ShownSoFar as so_far;

use sarif_model::Text;
use std::alloc::{AllocError, Global};

/// The maximum number of characters of a shown string.
pub const MOST_CHARACTERS: u32 = 1_000;

/// The room for a shown string at first, in bytes. Most need no more.
const FIRST_ROOM: usize = 128;

/// A control character, a line or paragraph separator, or one of the two codes that XML does not allow.
fn is_control(c: char) -> bool
    ensures { result ≡ said.is_control c }
{
    matches!(
        c,
        '\u{0}'..='\u{1f}'
            | '\u{7f}'..='\u{9f}'
            | '\u{2028}'..='\u{2029}'
            | '\u{fffe}'..='\u{ffff}'
    )
}

/// A character that changes the reading order, or that joins or controls its neighbours without being visible.
fn is_unseen_mark(c: char) -> bool
    ensures { result ≡ said.is_unseen_mark c }
{
    matches!(
        c,
        '\u{ad}'
            | '\u{34f}'
            | '\u{61c}'
            | '\u{180b}'..='\u{180f}'
            | '\u{200b}'..='\u{200f}'
            | '\u{202a}'..='\u{202e}'
            | '\u{2060}'..='\u{206f}'
            | '\u{fe00}'..='\u{fe0f}'
            | '\u{feff}'
            | '\u{fff9}'..='\u{fffb}'
            | '\u{1d173}'..='\u{1d17a}'
            | '\u{e0000}'..='\u{e0fff}'
    )
}

/// A letter that is drawn as nothing.
fn is_blank_letter(c: char) -> bool
    ensures { result ≡ said.is_blank_letter c }
{
    matches!(c, '\u{115f}'..='\u{1160}' | '\u{17b4}'..='\u{17b5}' | '\u{3164}' | '\u{ffa0}')
}

/// Returns the character, or a space instead of a character that is not shown. Most characters are compared with the
/// first range alone.
#[tactic(auto, using(crate::proofs::ShownWhole::plain_within))]
pub(crate) fn plain(c: char) -> char
    ensures { result ≡ said.plain c }
{
    if ' ' <= c && c <= '~' {
        return c;
    }
    if is_control(c) || is_unseen_mark(c) || is_blank_letter(c) {
        ' '
    } else {
        c
    }
}

/// Returns whether a byte is a character that is shown unchanged, regardless of its neighbours.
fn is_verbatim(byte: u8) -> bool
    ensures { result ≡ so_far.is_verbatim byte }
{
    matches!(byte, b' '..=b'~') && byte != b'#'
}

/// Returns whether each of these bytes is such a character. It doesn't end early, so that many bytes are compared at a
/// time.
fn all_verbatim(bytes: &[u8]) -> bool
    ensures { result ≡ list_all so_far.is_verbatim bytes.now }
{
    let mut all = true;
    for byte in bytes {
        all &= is_verbatim(*byte);
    }
    all
}

/// Returns whether a byte is a character that is seen, or a space. A code shows it unchanged.
fn is_printable(byte: u8) -> bool
    ensures { result ≡ so_far.is_printable byte }
{
    matches!(byte, b' '..=b'~')
}

/// Returns whether each of these bytes is such a character. It doesn't end early either.
pub(crate) fn all_printable(bytes: &[u8]) -> bool
    ensures { result ≡ list_all so_far.is_printable bytes.now }
{
    let mut all = true;
    for byte in bytes {
        all &= is_printable(*byte);
    }
    all
}

/// A partly shown string. It reads characters and stores only what it keeps.
#[derive(Drop)]
pub(crate) struct ShownText {
    text: String,
    room: u32,
    after_sign: bool,
    full: bool,
}

impl ShownText {
    ghost use Rattle.std.specs.Prelude.{◌<◌, ◌≤◌, length, map};
    ghost use Rattle.std.specs.Bool.{OnTrue};
    ghost use Rattle.std.specs.List.{list_all};
    ghost use Rattle.sarif_findings.specs.Internal.ShownSoFar.{kept_with, shown_with, is_printable, is_verbatim, TakesCharacters, Keeps, KeepsAll, SeparatesCharacter};

    pub(crate) fn new(alloc: Global) -> Result<ShownText, AllocError>
        ensures { IfOk result (λ made. (cs : List ℕ) → shown_with made cs ≡ said.shown cs) }
    {
        ShownText::with_room(alloc, MOST_CHARACTERS)
    }

    /// An empty string that keeps the given number of characters.
    pub(crate) fn with_room(alloc: Global, room: u32) -> Result<ShownText, AllocError>
        ensures shown { IfOk result (λ made. (cs : List ℕ) → shown_with made cs
            ≡ encode_utf8_all (said.kept room (said.parted_signs false (map said.plain cs)))) }
        ensures kept { IfOk result
            (λ made. (cs : List ℕ) → kept_with made cs ≡ encode_utf8_all (said.kept room cs)) }
    {
        let text = String::with_capacity(alloc, FIRST_ROOM)?;
        Ok(ShownText {
            text,
            room,
            after_sign: false,
            full: false,
        })
    }

    /// Returns whether no further character is read.
    pub(crate) fn is_full(&self) -> bool
        ensures { result ≡ self.now.full }
    {
        self.full
    }

    /// Keeps a character that is shown unchanged, or ends the string.
    pub(crate) fn keep(&mut self, c: char) -> Result<(), AllocError>
        ensures { OnOk result ((cs : List ℕ) → Keeps self.old self.new c cs) }
    {
        if self.full {
            return Ok(());
        }
        if self.room == 0 {
            self.text.push('…')?;
            self.full = true;
            return Ok(());
        }
        self.text.push(c)?;
        self.room -= 1;
        Ok(())
    }

    /// Returns how many further characters there is room for.
    pub(crate) fn room(&self) -> usize
        ensures { result ≡ self.now.room }
    {
        self.room as usize
    }

    /// Keeps a printable string that there is room for, unless the shown string has ended.
    pub(crate) fn keep_whole(&mut self, text: &str) -> Result<(), AllocError>
        requires printable { list_all is_printable text.now ≡ true }
        requires room { length text.now ≤ self.old.room }
        ensures { OnOk result (KeepsAll self.old self.new text.now) }
    {
        if self.full {
            return Ok(());
        }
        self.text.push_str(text)?;
        self.room = (self.room as usize - text.len()) as u32;
        Ok(())
    }

    /// Keeps a space, where the character is the second of two `#`.
    fn part(&mut self, c: char) -> Result<(), AllocError>
        ensures { OnOk result ((cs : List ℕ) → SeparatesCharacter self.old self.new c cs) }
    {
        if self.after_sign && c == '#' {
            self.keep(' ')?;
        }
        Ok(())
    }

    /// Takes the next character of the text.
    pub(crate) fn push(&mut self, c: char) -> Result<(), AllocError>
        ensures { OnOk result (TakesCharacters self.old self.new (c ∷ [])) }
    {
        let c = plain(c);
        self.part(c)?;
        self.keep(c)?;
        self.after_sign = c == '#';
        Ok(())
    }

    /// Reads the characters of a string, in order.
    fn push_each(&mut self, text: &str) -> Result<(), AllocError>
        ensures { OnOk result (TakesCharacters self.old self.new (chars text.now)) }
    {
        for c in text.chars() {
            if self.full {
                return Ok(());
            }
            self.push(c)?;
        }
        Ok(())
    }

    /// Returns whether a string is shown unchanged and there is room for it.
    fn has_room(&self, text: &str) -> bool
        ensures some { OnTrue result (0 < length text.now) }
        ensures is_verbatim { OnTrue result (list_all is_verbatim text.now ≡ true) }
        ensures room { OnTrue result (length text.now ≤ self.now.room) }
        ensures going { OnTrue result (self.now.full ≡ false) }
    {
        !self.full
            && 0 < text.len()
            && text.len() <= self.room as usize
            && all_verbatim(text.as_bytes())
    }

    /// Reads a string that is shown unchanged.
    fn push_whole(&mut self, text: &str) -> Result<(), AllocError>
        requires some { 0 < length text.now }
        requires is_verbatim { list_all is_verbatim text.now ≡ true }
        requires room { length text.now ≤ self.old.room }
        requires going { self.old.full ≡ false }
        ensures { OnOk result (TakesCharacters self.old self.new (chars text.now)) }
    {
        self.text.push_str(text)?;
        self.room = (self.room as usize - text.len()) as u32;
        self.after_sign = false;
        Ok(())
    }

    /// Reads the characters of a string.
    pub(crate) fn push_str(&mut self, text: &str) -> Result<(), AllocError>
        ensures { OnOk result (TakesCharacters self.old self.new (chars text.now)) }
    {
        if self.has_room(text) {
            return self.push_whole(text);
        }
        self.push_each(text)
    }

    /// The text that is shown.
    pub(crate) fn finish(self) -> String
        ensures { string_bytes result ≡ shown_with self [] }
    {
        let ShownText { text, .. } = self;
        text
    }
}

/// Returns a string as it is shown: one line of at most `MOST_CHARACTERS` characters, followed by `…` if there were
/// more. No character in it hides or controls others. Returns `AllocError` if memory for it runs out.
pub fn show_text(alloc: Global, text: &str) -> Result<String, AllocError>
    ensures { IfOk result (λ s. string_bytes s ≡ said.shown (chars text.now)) }
{
    let mut so_far = ShownText::new(alloc)?;
    so_far.push_str(text)?;
    Ok(so_far.finish())
}

/// A string as it is shown, in a form that clones share.
pub(crate) fn shown_copy(alloc: Global, text: &str) -> Result<Text, AllocError>
    ensures { IfOk result (λ t. t ≡ said.shown (chars text.now)) }
{
    Text::from_string(show_text(alloc, text)?)
}
