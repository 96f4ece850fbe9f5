//! Putting what files of arguments give in the places of the arguments that name them.
ghost use Rattle.std.specs.Prelude.{◌≡◌, ◌≢◌, ◌||◌, ◌∷◌, [], ℕ, List, IfOk, MatchOption, Ok, false, option_map, map, string_bytes};
ghost use Rattle.std.specs.List.{list_any};
ghost use Rattle.sarif_arguments.specs.Replaced as said;
ghost use Rattle.sarif_arguments.specs.Replaced.{AreReplaced, IfDone, StandFor, StandsFor};

use crate::fault::ArgumentsFault;
use crate::reading::{ArgumentFiles, arguments_of};
use sarif_model::Refusal;
use std::alloc::{AllocError, Global};

/// The argument after which all arguments are left unchanged.
const END: &str = "--";

/// Returns the arguments of the program, where each that begins with `@` and names a file is replaced by the arguments in
/// that file; after `--`, which may be in a file too, none does. They are gone through in order. Returns the first
/// error: `Unread` if a file can't be read, `Invalid` if it is not a file of arguments; `NoneLeft` if there are arguments
/// and none is left; `OutOfMemory` if memory runs out.
pub fn replace_arguments<F: ArgumentFiles>(
    files: &F,
    alloc: Global,
    words: &[String],
) -> Result<Vec<String>, Refusal<ArgumentsFault>>
    ensures { IfDone (AreReplaced (F.gives files.now) (map string_bytes words.now)) result }
{
    match all_of(files, alloc, words) {
        Ok(all) => some_left(words, all),
        Err(refusal) => Err(refusal),
    }
}

/// Returns what these arguments are replaced by, if some are left or there were none.
#[tactic(auto, using(crate::proofs::Left::some_stay, crate::proofs::Left::none_given, crate::proofs::Left::none_stay))]
fn some_left(words: &[String], all: Vec<String>) -> Result<Vec<String>, Refusal<ArgumentsFault>>
    ensures { IfDone (λ left. left ≡ said.some_left (map string_bytes words.now)
        (Ok (map string_bytes all.items))) result }
{
    if all.is_empty() && !words.is_empty() {
        return Err(Refusal::Fault(ArgumentsFault::NoneLeft));
    }
    Ok(all)
}

/// Returns what these arguments are replaced by.
fn all_of<F: ArgumentFiles>(
    files: &F,
    alloc: Global,
    words: &[String],
) -> Result<Vec<String>, Refusal<ArgumentsFault>>
    ensures { IfDone (StandFor (F.gives files.now) false (map string_bytes words.now)) result }
{
    let mut all = Vec::new(alloc);
    let mut is_ended = false;
    for word in words {
        let mut given = one_of(files, alloc, word.as_str(), is_ended)?;
        is_ended = has_ended(is_ended, given.as_slice());
        all.append(&mut given)?;
    }
    Ok(all)
}

/// Returns what an argument is replaced by: itself, or what is in the file that it names.
fn one_of<F: ArgumentFiles>(
    files: &F,
    alloc: Global,
    word: &str,
    is_ended: bool,
) -> Result<Vec<String>, Refusal<ArgumentsFault>>
    ensures { IfDone (StandsFor (F.gives files.now) is_ended word.now) result }
{
    match file_in(word, is_ended) {
        Some(name) => arguments_of(files, alloc, name),
        None => Ok(only(alloc, word)?),
    }
}

/// Returns this argument alone.
fn only(alloc: Global, word: &str) -> Result<Vec<String>, AllocError>
    ensures { IfOk result (λ words. map string_bytes words.items ≡ word.now ∷ []) }
{
    let word = String::from_str(alloc, word)?;
    let words = vec![in alloc; word]?;
    Ok(words)
}

/// Returns the name of the file that replaces an argument, or `None` if it is left unchanged.
fn file_in(word: &str, is_ended: bool) -> Option<&str>
    ensures { option_map (λ name. name.now) result ≡ said.file_in is_ended word.now }
{
    if is_ended { None } else { file_named(word) }
}

/// Returns the name of the file that an argument names: what follows its `@`, at least one byte.
#[tactic(auto, using(crate::proofs::Named::a_file, crate::proofs::Named::no_file, crate::proofs::Named::sign_alone))]
fn file_named(word: &str) -> Option<&str>
    ensures { option_map (λ name. name.now) result ≡ said.file_named word.now }
{
    match after_sign(word) {
        Some(name) => if name.is_empty() { None } else { Some(name) },
        None => None,
    }
}

/// Returns what follows the `@` with which an argument begins, or `None` if it does not.
fn after_sign(word: &str) -> Option<&str>
    ensures { MatchOption result ((rest : List ℕ) → word.now ≢ 64 ∷ rest)
        (λ rest. word.now ≡ 64 ∷ rest.now) }
{
    word.strip_prefix('@')
}

/// Returns whether files of arguments have ended: they had, or one of these arguments is `--`.
fn has_ended(had_ended: bool, words: &[String]) -> bool
    ensures { result ≡ (had_ended || list_any said.is_end (map string_bytes words.now)) }
{
    had_ended || have_end(words)
}

/// Returns whether one of these arguments is `--`.
fn have_end(words: &[String]) -> bool
    ensures { result ≡ list_any said.is_end (map string_bytes words.now) }
{
    for word in words {
        if word.as_str() == END {
            return true;
        }
    }
    false
}
