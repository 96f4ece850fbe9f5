//! Suppression files, read for the date 31 January 2025.
use crate::reading::first_record;
use sarif_model::Record;
use sarif_suppress::{Suppressions, read_rules};
use std::alloc::{AllocError, Global};
use std::hash::{BuildHasherDefault, FoldHasher, RandomState};

type SeededSuppressions = Suppressions<BuildHasherDefault<FoldHasher>>;

/// A question about a file: how many entries it has, its effect on a result, or the object that is written for its
/// first entry.
#[derive(Clone, Copy)]
pub enum Question<'a> {
    Count,
    Applied(&'a Record),
    Object,
}

/// The result for a file, or its error.
pub fn answer_of(alloc: Global, file: &str, asked: Question) -> Result<String, AllocError> {
    match read_rules(alloc, file.as_bytes(), Some(20250131)) {
        Ok(rules) => in_words(alloc, &rules, asked),
        Err(fault) => format!(in alloc; "{fault}"),
    }
}

fn in_words(
    alloc: Global,
    rules: &SeededSuppressions,
    asked: Question,
) -> Result<String, AllocError> {
    match asked {
        Question::Count => {
            let count = rules.len();
            format!(in alloc; "{count} entries")
        }
        Question::Applied(record) => {
            let applied = rules.apply(alloc, record)?;
            format!(in alloc; "{applied:?}")
        }
        Question::Object if rules.is_empty() => String::from_str(alloc, "no entry"),
        Question::Object => rules.object(alloc, 0)?.to_string(alloc),
    }
}

/// The effect of a file on a log's first result. The file comes before the log, with a bar between.
pub fn applied_in_words(
    alloc: Global,
    seed: RandomState,
    both: &str,
) -> Result<String, AllocError> {
    let (file, log) = both.split_once(" | ").unwrap_or((both, ""));
    match first_record(alloc, seed, log) {
        Ok(record) => answer_of(alloc, file, Question::Applied(&record)),
        Err(fault) => format!(in alloc; "{fault}"),
    }
}
