//! Merges SARIF 2.1.0 logs, and fails if too many new or updated results are left.
#![tactic(auto)]

ghost use Rattle.std.specs.Prelude.{◌≡◌, map, string_bytes};
ghost use Rattle.sarif_gate.specs.Given.{AreServedWith, refusal_status, refused_status};
ghost use Rattle.sarif_gate.specs.Served.{AreServed, AreServedAt, IsServed, unmade_status};

mod explaining;
mod job;
mod merging;
mod outputs;
mod sources;
mod terminal;

use job::Job;
use sarif_arguments::{ArgumentsFault, system_arguments};
use sarif_model::{Cause, MergeFault, Refusal};
use sarif_program::{Complaint, Complaints, ExitStatus, seed_of};
use sarif_request::{Request, TerminalFacts, WordsFault, at_terminal, plain_words, read_words};
use std::alloc::AllocError;
use std::hash::RandomState;
use std::io::IsTerminal;
use std::process::ExitCode;
use std::sync::Wait;
use std::thread::Threads;
use std::{env, io};
use terminal::terminal_facts;

fn main(rt: HostRuntime) -> ExitCode {
    let status = match words_of(&rt) {
        Ok((words, seed)) => run_given(&rt, &rt, seed, words.as_slice(), terminal_facts(&rt)),
        Err(error) => {
            tell_unread(&rt, &error);
            ExitStatus::for_unread_arguments()
        }
    };
    ExitCode::from(status.code())
}

/// The arguments after the program's name, and the seed of the hash tables.
fn words_of(rt: &HostRuntime) -> io::Result<(Vec<String>, RandomState)> {
    let mut words = env::args(rt)?;
    let _program = words.next();
    let words = words.collect(rt.alloc())?;
    Ok((words, seed_of(rt)?))
}

/// Does what the arguments request after files of arguments are put in their places: with `@FILE` it does what it does
/// with the arguments in that file. Returns the status of the error if none is left.
fn run_given<T: Threads + Wait + Sync>(
    rt: &HostRuntime,
    threads: &T,
    seed: RandomState,
    words: &[String],
    facts: TerminalFacts,
) -> ExitStatus
    ensures { AreServedWith facts (map string_bytes words.now) result }
{
    match system_arguments(rt, words) {
        Ok(words) => run(rt, threads, seed, words.as_slice(), facts),
        Err(refusal) => tell_refusal(rt, &refusal),
    }
}

/// Reports why no arguments are left, or that memory ran out. Returns the exit status.
fn tell_refusal(rt: &HostRuntime, refusal: &Refusal<ArgumentsFault>) -> ExitStatus
    ensures { result ≡ refusal_status refusal.now }
{
    match refusal {
        Refusal::Fault(fault) => tell_refused(rt, fault),
        Refusal::OutOfMemory => tell_unmade(rt, AllocError),
    }
}

/// Reports why no arguments are left. Returns the exit status.
fn tell_refused(rt: &HostRuntime, fault: &ArgumentsFault) -> ExitStatus
    ensures { result ≡ refused_status fault.now }
{
    match fault {
        ArgumentsFault::Unread(_) => {
            let _ = eprintln!(rt; "sarif_gate: {fault}");
            ExitStatus::of_cause(Cause::ReadFailed)
        }
        ArgumentsFault::Invalid(_, _) | ArgumentsFault::NoneLeft => tell_invalid(rt, fault),
    }
}

/// Prints what is wrong with the arguments as a usage error. Returns the exit status.
fn tell_invalid(rt: &HostRuntime, fault: &ArgumentsFault) -> ExitStatus
    ensures { result ≡ 2 }
{
    let _ = eprint!(rt; "error: {fault}\n\nFor more information, try '--help'.\n");
    ExitStatus::for_unread_arguments()
}

/// Does what the arguments request at a terminal with these facts. Without arguments it does what `plain_words` request,
/// as if there were no terminal: it merges one log from standard input to standard output.
fn run<T: Threads + Wait + Sync>(
    rt: &HostRuntime,
    threads: &T,
    seed: RandomState,
    words: &[String],
    facts: TerminalFacts,
) -> ExitStatus
    ensures { AreServed facts (map string_bytes words.now) result }
{
    if !words.is_empty() {
        return run_words(rt, threads, seed, words, facts);
    }
    tell_terminal(rt);
    match plain_words(rt.alloc()) {
        Ok(plain) => run_words(rt, threads, seed, plain.as_slice(), TerminalFacts::NONE),
        Err(error) => tell_unmade(rt, error),
    }
}

/// Does what arguments request at a terminal with these facts.
fn run_words<T: Threads + Wait + Sync>(
    rt: &HostRuntime,
    threads: &T,
    seed: RandomState,
    words: &[String],
    facts: TerminalFacts,
) -> ExitStatus
    ensures { AreServedAt facts (map string_bytes words.now) result }
{
    match read_words(rt.alloc(), seed, words) {
        Ok(asked) => serve(rt, threads, &at_terminal(facts, asked)),
        Err(fault) => {
            tell(rt, &fault);
            ExitStatus::of_words(&fault)
        }
    }
}

/// Merges the sources that a request names into the outputs that it names.
fn serve<T: Threads + Wait + Sync>(rt: &HostRuntime, threads: &T, request: &Request) -> ExitStatus
    ensures { IsServed «request».now result }
{
    match Job::of(rt, request) {
        Ok(job) => job.merge(rt, threads),
        Err(error) => tell_unmade(rt, error),
    }
}

/// Reports that memory for a request, its sources and its outputs ran out. Returns the exit status.
fn tell_unmade(rt: &HostRuntime, error: AllocError) -> ExitStatus
    ensures { result ≡ unmade_status }
{
    let fault = MergeFault::from(error);
    Complaints::new(rt.stderr()).complain(Complaint::Fault(fault));
    ExitStatus::of_cause(fault.cause)
}

/// Says on standard error that the program waits for a log, if standard input is a terminal.
fn tell_terminal(rt: &HostRuntime) {
    if rt.stdin().is_terminal() {
        let _ = eprintln!(rt;
            "sarif_gate: reading a SARIF log from standard input; --help shows the options"
        );
    }
}

/// Prints the help on standard output, and usage errors on standard error.
fn tell(rt: &HostRuntime, fault: &WordsFault) {
    let _ = match fault {
        WordsFault::Usage(text) => eprint!(rt; "{text}"),
        WordsFault::Help(text) => print!(rt; "{text}"),
        WordsFault::OutOfMemory => eprintln!(rt; "sarif_gate: OutOfMemory"),
    };
}

/// Reports why the arguments cannot be read.
fn tell_unread(rt: &HostRuntime, error: &io::Error) {
    if error.kind() == io::ErrorKind::OutOfMemory {
        tell(rt, &WordsFault::OutOfMemory);
    } else {
        let _ = eprintln!(rt; "sarif_gate: {error}");
    }
}
