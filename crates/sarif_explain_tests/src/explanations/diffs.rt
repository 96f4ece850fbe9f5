//! Errors in diffs.
use sarif_explain::{FaultSource, diff_explanation};
use sarif_model::{At, Cause, Fault, MergeFault, Source};
use std::alloc::Global;
use std::test::Fail;

/// Returns the explanation of that error of a file `d` with this content.
fn told(alloc: Global, at: At, fault: Fault, bytes: &[u8]) -> Result<String, Fail> {
    let source = FaultSource {
        file: "d",
        bytes,
        system: None,
        is_folder: false,
    };
    let cause = Cause::Of(fault);
    Ok(diff_explanation(alloc, &MergeFault { at, cause }, &source)?)
}

#[test]
fn an_error_at_a_line_of_a_diff_is_found(rt: HostRuntime) -> Result<(), Fail> {
    for (number, fault, text, wanted) in [
        (
            1,
            Fault::Combined,
            "diff --cc a.c\n",
            r#"  file: d
  line: 1
  found: diff --cc a.c
  wanted: a diff of two commits: one of several parents has no lines of its own
  advice: compare two commits: git diff A B
"#,
        ),
        (
            2,
            Fault::Submodule,
            "diff --git a/s b/s\nindex 1..2 160000\n",
            r#"  file: d
  line: 2
  found: index 1..2 160000
  wanted: the changed files of the submodule
  advice: pass --submodule=diff to git diff, or --ignore-submodules
"#,
        ),
        (
            1,
            Fault::BadHeader,
            "diff --git \"a/a.c b/a.c",
            r#"  file: d
  line: 1
  found: diff --git "a/a.c b/a.c
  wanted: the name of one file, quoted as git quotes it
  advice: pass the diff as git diff writes it, with the names of its files
"#,
        ),
        // After the last line, there is nothing.
        (
            3,
            Fault::BadHunk,
            "@@ -1 +1 @@\n-x\n",
            r#"  file: d
  line: 3
  found: nothing
  wanted: the header of a hunk, or as many of its old and new lines as the header says, one of them removed or added
  advice: pass the diff as git diff writes it, whole and without colours; --word-diff writes no lines
"#,
        ),
        (
            2,
            Fault::TooMany,
            "\n\n",
            r#"  file: d
  line: 2
  found: nothing
  wanted: at most 1000000 sections and 1000000 hunks
  advice: compare fewer commits or fewer files: git diff A B -- PATH
"#,
        ),
        // Without its order mark; 80 characters of the line are shown.
        (
            1,
            Fault::Combined,
            "\u{feff}diff --cc \u{e4}234567890123456789012345678901234567890123456789012345678901234567890X\n",
            "  file: d
  line: 1
  found: diff --cc \u{e4}234567890123456789012345678901234567890123456789012345678901234567890...
  wanted: a diff of two commits: one of several parents has no lines of its own
  advice: compare two commits: git diff A B
",
        ),
    ] {
        let found = told(rt.alloc(), At::Line(number), fault, text.as_bytes())?;
        assert_eq!(rt; found.as_str(), wanted);
    }
    Ok(())
}

#[test]
fn a_line_that_is_no_text_is_told(rt: HostRuntime) -> Result<(), Fail> {
    let found = told(
        rt.alloc(),
        At::Line(2),
        Fault::BadHeader,
        b"x\n+++ \"\xe9\nx\n",
    )?;
    let wanted = r#"  file: d
  line: 2
  found: bytes that are not UTF-8
  wanted: the name of one file, quoted as git quotes it
  advice: pass the diff as git diff writes it, with the names of its files
"#;
    assert_eq!(rt; found.as_str(), wanted);
    Ok(())
}

#[test]
fn a_diff_without_a_change_has_no_line(rt: HostRuntime) -> Result<(), Fail> {
    let at = At::Whole(Source::Diff);
    let found = told(rt.alloc(), at, Fault::NoChange, b"x\n")?;
    let wanted = r#"  file: d
  wanted: a diff as git diff writes it, with a section for each changed file
  advice: check that git diff succeeded, with set -o pipefail and the history fetched (fetch-depth: 0); a change without files needs no gate
"#;
    assert_eq!(rt; found.as_str(), wanted);
    Ok(())
}
