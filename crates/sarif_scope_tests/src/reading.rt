//! Reading the change of a diff, and the artifacts of a run.
use sarif_change::Scope;
use sarif_diff::DiffFault;
use sarif_model::{Refusal, Sequence};
use sarif_scope::{GatedChange, artifacts_in, read_change};
use serde_json::Value;
use std::alloc::AllocGlobal;
use std::hash::RandomState;
use std::random::RandomSource;
use std::test::Fail;

/// A diff that adds line 2 of a.c.
const DIFF: &str =
    "diff --git a/a.c b/a.c\n--- a/a.c\n+++ b/a.c\n@@ -1,3 +1,4 @@\n x\n+y\n z\n z\n";

/// A run with three artifacts.
const RUN: &str =
    "{\"artifacts\":[{\"location\":{\"uri\":\"b.c\"}},{\"location\":{\"uri\":\"a.c\"}},{}]}";

/// Reads a diff, with a table whose seed is drawn.
fn read<R: AllocGlobal + RandomSource>(
    rt: &R,
    diff: &str,
    scope: Scope,
) -> Result<GatedChange, Fail> {
    let seed = RandomState::new(rt)?;
    let roots = Sequence::new(rt.alloc());
    match read_change(rt.alloc(), seed, diff.as_bytes(), scope, roots) {
        Ok(change) => Ok(change),
        Err(Refusal::Fault(_)) => Err(Fail::new("a fault")),
        Err(Refusal::OutOfMemory) => Err(Fail::new("out of memory")),
    }
}

#[test]
fn a_file_of_two_commits_is_one_file(rt: HostRuntime) -> Result<(), Fail> {
    let one = read(&rt, DIFF, Scope::Lines)?;
    assert_eq!(rt; one.files, 1);
    assert_eq!(rt; one.lines, 1);
    let twice = format!(in rt.alloc(); "{DIFF}{DIFF}--- b.c\n+++ b.c\n@@ -1 +1 @@\n-x\n+y\n")?;
    let both = read(&rt, twice.as_str(), Scope::Lines)?;
    assert_eq!(rt; both.files, 2);
    assert_eq!(rt; both.lines, 3);
    Ok(())
}

#[test]
fn an_empty_diff_is_an_error(rt: HostRuntime) -> Result<(), Fail> {
    let seed = RandomState::new(&rt)?;
    let roots = Sequence::new(rt.alloc());
    let fault = read_change(rt.alloc(), seed, b"", Scope::Lines, roots).err();
    assert!(rt; matches!(fault, Some(Refusal::Fault(DiffFault::NoChange))));
    Ok(())
}

#[test]
fn artifacts_are_read_with_their_uris(rt: HostRuntime) -> Result<(), Fail> {
    let run = Value::from_str(rt.alloc(), RUN)?;
    let artifacts = artifacts_in(rt.alloc(), &run)?;
    let mut told = String::new(rt.alloc());
    for artifact in artifacts.as_slice() {
        match &artifact.uri {
            Some(uri) => told.push_str(uri.as_str())?,
            None => told.push_str("none")?,
        }
        told.push_str("\n")?;
    }
    assert_eq!(rt; told.as_str(), "b.c\na.c\nnone\n");
    Ok(())
}
