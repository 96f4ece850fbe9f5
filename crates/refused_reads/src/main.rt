//! Makes public calls that read, match, suppress and count, including calls that the merge does not make, and prints
//! their results. Each line of standard input is a call and its input. In `tests/program/calls`, allocations of this program
//! fail.
#![tactic(auto)]

mod matching;
mod reading;
mod suppressing;

use sarif_arguments::arguments_in;
use sarif_counts::{Counts, summary};
use sarif_model::{Level, State};
use sarif_options::Policy;
use std::alloc::{AllocError, Global};
use std::hash::RandomState;
use std::io;
use suppressing::Question;

fn main(rt: HostRuntime) -> io::Result<()> {
    let seed = RandomState::new(&rt)?;
    for line in rt.lines(rt.alloc()) {
        match line.and_then(|line| Ok(answer_to(rt.alloc(), seed, line.as_str())?)) {
            Ok(answer) => println!(rt; "{answer}")?,
            Err(error) if error.kind() == io::ErrorKind::OutOfMemory => {
                println!(rt; "OutOfMemory")?;
            }
            Err(error) => return Err(error),
        }
    }
    Ok(())
}

fn answer_to(alloc: Global, seed: RandomState, line: &str) -> Result<String, AllocError> {
    let (call, given) = line.split_once(' ').unwrap_or((line, ""));
    match call {
        "read_log" => reading::runs_in_words(alloc, given),
        "strip" => reading::stripped(alloc, given),
        "read_parts" => reading::parts_in_words(alloc, given),
        "open_run" => reading::head_in_words(alloc, seed, given),
        "make_record" => reading::record_in_words(alloc, seed, given),
        "tiers" => matching::tiers_in_words(alloc, seed, given),
        "key" => matching::keys_in_words(alloc, seed, given),
        "match_all" => matching::partners_in_words(alloc, seed, given),
        "read_rules" => suppressing::answer_of(alloc, given, Question::Count),
        "apply" => suppressing::applied_in_words(alloc, seed, given),
        "object" => suppressing::answer_of(alloc, given, Question::Object),
        "summary" => summary_in_words(alloc),
        "arguments_in" => arguments_in_words(alloc, given),
        _ => String::from_str(alloc, "no such call"),
    }
}

// The arguments in a file with these lines, which have a semicolon for each line feed.
fn arguments_in_words(alloc: Global, given: &str) -> Result<String, AllocError> {
    let mut file = Vec::new(alloc);
    for byte in given.bytes() {
        file.push(if byte == b';' { b'\n' } else { byte })?;
    }
    match arguments_in(alloc, file.as_slice()) {
        Ok(words) => format!(in alloc; "{words:?}"),
        Err(fault) => format!(in alloc; "{fault}"),
    }
}

// The summary of two results, on one line.
fn summary_in_words(alloc: Global) -> Result<String, AllocError> {
    let mut counts = Counts::new();
    counts.add(State::New, Level::Error, false);
    counts.add(State::Updated, Level::Note, true);
    let text = summary(alloc, &counts, &Policy::default())?;
    format!(in alloc; "{text:?}")
}
