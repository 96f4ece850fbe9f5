//! Requests and error messages that are read from arguments.
use sarif_request::{Request, WordsFault, plain_words, read_words};
use std::hash::RandomState;
use std::random::RandomSource;
use std::test::Fail;

/// What the message about invalid arguments has before its sentence.
const BEGINNING: &str = "error: ";

/// What the message about invalid arguments has after its sentence.
const END: &str = "\n\nFor more information, try '--help'.\n";

/// Reads the arguments on a line, which are separated by single spaces.
pub fn read<R: AllocGlobal + RandomSource>(
    rt: &R,
    line: &str,
) -> Result<Result<Request, WordsFault>, Fail> {
    let mut words = Vec::new(rt.alloc());
    for word in line.split(' ') {
        words.push(String::from_str(rt.alloc(), word)?)?;
    }
    let seed = RandomState::new(rt)?;
    Ok(read_words(rt.alloc(), seed, words.as_slice()))
}

/// Returns the request of these arguments. Fails if they are rejected.
pub fn accepted<R: AllocGlobal + RandomSource>(rt: &R, line: &str) -> Result<Request, Fail> {
    match read(rt, line)? {
        Ok(request) => Ok(request),
        Err(_) => Err(Fail::new(format_args!("rejected: {line}"))),
    }
}

/// Returns the request of no arguments. Fails if it is rejected.
pub fn plain<R: AllocGlobal + RandomSource>(rt: &R) -> Result<Request, Fail> {
    let words = plain_words(rt.alloc())?;
    let seed = RandomState::new(rt)?;
    match read_words(rt.alloc(), seed, words.as_slice()) {
        Ok(request) => Ok(request),
        Err(_) => Err(Fail::new("rejected")),
    }
}

/// Returns the sentence of the message about these arguments. Fails unless they are invalid.
pub fn usage_in<R: AllocGlobal + RandomSource>(rt: &R, line: &str) -> Result<String, Fail> {
    match read(rt, line)? {
        Err(WordsFault::Usage(text)) => {
            let rest = text.as_str().strip_prefix(BEGINNING).ok_or("no beginning")?;
            let sentence = rest.strip_suffix(END).ok_or("no end")?;
            Ok(String::from_str(rt.alloc(), sentence)?)
        }
        _ => Err(Fail::new(format_args!("not invalid: {line}"))),
    }
}

/// Fails unless these arguments are invalid and the message has this sentence.
pub fn expect_usage<R: AllocGlobal + RandomSource>(
    rt: &R,
    line: &str,
    sentence: &str,
) -> Result<(), Fail> {
    let found = usage_in(rt, line)?;
    if found.as_str() == sentence {
        return Ok(());
    }
    Err(Fail::new(format_args!("{line}: {found}")))
}
