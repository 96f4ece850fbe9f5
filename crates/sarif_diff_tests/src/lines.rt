//! Changed lines.
use crate::told::{added_by, section_of, told, wrong_rows, wrong_sections};
use std::test::Fail;

/// A hunk in which line 2 is added.
const ADDED: &str = "@@ -1,3 +1,4 @@\n x\n+y\n z\n z\n";

#[test]
fn runs_have_their_lines(rt: HostRuntime) -> Result<(), Fail> {
    let rows = [
        (ADDED, "a.c 2"),
        ("@@ -2,4 +2,2 @@\n w\n-x\n-y\n z\n", "a.c 2-3"),
        ("@@ -3,2 +2,0 @@\n-x\n-y\n", "a.c 2-3"),
        ("@@ -1,2 +0,0 @@\n-x\n-y\n", "a.c 1"),
        ("@@ -2,3 +2,2 @@\n w\n-x\n-y\n+z\n", "a.c 3"),
        ("@@ -1,4 +1,4 @@\n-x\n y\n z\n+w\n a\n", "a.c 1 3"),
        ("@@ -2,3 +2,3 @@\n w\n+z\n-x\n a\n", "a.c 3"),
        ("@@ -1 +1 @@\n--- x\n+++ y\n", "a.c 1"),
        (
            "@@ -1 +1 @@ f\n-x\n\\ No newline\n+y\n\\ No newline\n",
            "a.c 1",
        ),
        ("@@ -1,3 +1,4 @@\n\n+y\n\n\n", "a.c 2"),
        ("@@ -1,3 +1,4 @@\r\n\r\n+y\r\n\r\n z\r\n", "a.c 2"),
        ("@@ -1 +1,2 @@\n x\n+y\n@@ -8,0 +9 @@\n+z\n", "a.c 2 9"),
        ("@@ -4294967295 +4294967295 @@\n-x\n+y\n", "a.c 4294967295"),
        (
            "@@ -4294967295 +4294967295,0 @@\n-x\n",
            "a.c 4294967295-4294967296",
        ),
    ];
    assert_eq!(rt; wrong_sections(rt.alloc(), &rows)?.as_str(), "");
    Ok(())
}

#[test]
fn text_around_changes_nothing(rt: HostRuntime) -> Result<(), Fail> {
    let diff = section_of(rt.alloc(), "a.c", ADDED)?;
    let rows = [
        ("\u{feff}", ""),
        ("From 1\nSubject: x\n\n---\n a.c | 1 +\n\n", "-- \n2.1\n"),
        ("commit 1\n\n    diff --git a/x b/x\n    @@ -1 +1 @@\n", ""),
        ("--- x\n+++ y\nz\n", ""),
        ("@@ x\n", ""),
        ("", "-x\n+x\n"),
        ("", "\\ No newline at end of file\n"),
    ];
    for (before, after) in &rows {
        let whole = format!(in rt.alloc(); "{before}{diff}{after}")?;
        assert_eq!(rt; told(rt.alloc(), whole.as_bytes())?.as_str(), "a.c 2");
    }
    Ok(())
}

#[test]
fn other_forms_are_read(rt: HostRuntime) -> Result<(), Fail> {
    let rows = [
        (
            "--- a.c\t2026\n+++ a.c\t2026\n@@ -1,3 +1,4 @@\n x\n+y\n z\n z\n",
            "a.c 2",
        ),
        ("--- a.c\n+++ a.c\n@@ -1,3 +1,4 @@\n x\n+y\n z\n z", "a.c 2"),
        (
            "diff --git a/x b/y\nsimilarity index 100%\nrename from x\nrename to y\n",
            "y was x",
        ),
        ("diff --git a/x b/y\ncopy from x\ncopy to y\n", "y whole"),
        (
            "diff --git a/x b/x\nold mode 100644\nnew mode 100755\n",
            "x whole",
        ),
        (
            "diff --git a/x b/x\nindex 1..2 100644\nBinary files a/x and b/x differ\n",
            "x whole",
        ),
        (
            "diff --git a/x b/x\nindex 1..2 100644\nGIT binary patch\nliteral 1\nx\n\n",
            "x whole",
        ),
        ("diff --git a/x b/x\nindex 1..2 120000\n", "x whole link"),
        (
            "diff --git a/x b/x\nnew file mode 100644\nindex 0..1\n",
            "x",
        ),
        (
            "diff --git a/x b/x\ndeleted file mode 100644\n--- a/x\n+++ /dev/null\n@@ -1 +0,0 @@\n-x\n",
            "x 1",
        ),
    ];
    assert_eq!(rt; wrong_rows(rt.alloc(), &rows)?.as_str(), "");
    Ok(())
}

#[test]
fn pointers_change_whole_files(rt: HostRuntime) -> Result<(), Fail> {
    let digits = "0123456789abcdef0123456789abcdef0123456789abcdef0123456789abcdef";
    let lines = format!(in rt.alloc(); "@@ -1 +1 @@\n-x\n+oid sha256:{digits}\r\n")?;
    let diff = section_of(rt.alloc(), "a.c", lines.as_str())?;
    assert_eq!(rt; told(rt.alloc(), diff.as_bytes())?.as_str(), "a.c whole 1");
    let longer = format!(in rt.alloc(); "@@ -1 +1 @@\n-x\n+oid sha256:{digits}0\n")?;
    let other = section_of(rt.alloc(), "a.c", longer.as_str())?;
    assert_eq!(rt; told(rt.alloc(), other.as_bytes())?.as_str(), "a.c 1");
    Ok(())
}

#[test]
fn added_lines_are_counted(rt: HostRuntime) -> Result<(), Fail> {
    let rows = [
        (ADDED, Some(1)),
        ("@@ -1,2 +1,3 @@\n-x\n+y\n+z\n w\n+x\n", Some(2)),
        ("@@ -1 +1 @@\n--- x\n+++ y\n@@ -8,0 +9 @@\n+z\n", Some(2)),
        ("@@ -2 +1,0 @@\n-x\n", Some(0)),
        ("@@ -1 +1 @@\n-x\n", None),
    ];
    for (lines, expected) in &rows {
        let diff = section_of(rt.alloc(), "a.c", lines)?;
        assert_eq!(rt; added_by(rt.alloc(), diff.as_bytes())?, *expected);
    }
    Ok(())
}
