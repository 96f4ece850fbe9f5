//! Diffs with errors.
use crate::told::{wrong_rows, wrong_sections};
use std::test::Fail;

#[test]
fn a_diff_without_a_section_is_rejected(rt: HostRuntime) -> Result<(), Fail> {
    let rows = [
        ("", "NoChange"),
        ("\n", "NoChange"),
        ("a.c | 1 +\n", "NoChange"),
        ("\u{1b}[1mdiff --git a/a.c b/a.c\u{1b}[m\n", "NoChange"),
        (" diff --git a/a.c b/a.c\n --- a/a.c\n", "NoChange"),
        ("\u{0}d\u{0}i\u{0}f\u{0}f\n", "NoChange"),
        ("diff --cc a.c\n", "line 1: Combined"),
        ("diff --combined a.c\n", "line 1: Combined"),
        ("@@@ -1 -1 +1 @@@\n", "line 1: Combined"),
        ("* Unmerged path a.c\n", "line 1: Combined"),
        ("x\n@@ -1 +1 @@\n-x\n+y\n", "line 2: BadHunk"),
        ("Binary files a/x and b/x differ\n", "line 1: BadHeader"),
    ];
    assert_eq!(rt; wrong_rows(rt.alloc(), &rows)?.as_str(), "");
    Ok(())
}

#[test]
fn headers_with_errors_are_rejected(rt: HostRuntime) -> Result<(), Fail> {
    let rows = [
        ("diff --git a/a.c b/b.c\n", "line 1: BadHeader"),
        ("diff --git \"a/a.c b/a.c\n", "line 1: BadHeader"),
        ("diff --git \"a/a.c\"b/a.c\n", "line 1: BadHeader"),
        (
            "diff --git a/x b/x\n--- /dev/null\n+++ /dev/null\n",
            "line 1: BadHeader",
        ),
        (
            "diff --git a/x b/x\n--- a/x\n+++ \"b/a.c\n",
            "line 3: BadHeader",
        ),
        (
            "diff --git a/x b/x\n--- a/x\n+++ \"b/a\\400.c\"\n",
            "line 3: BadHeader",
        ),
        (
            "diff --git a/x b/x\n--- a/x\n+++ \"b/a.c\" x\n",
            "line 3: BadHeader",
        ),
        ("diff --git a/x b/x\n--- a/x\n+++ \n", "line 3: BadHeader"),
    ];
    assert_eq!(rt; wrong_rows(rt.alloc(), &rows)?.as_str(), "");
    Ok(())
}

#[test]
fn submodules_without_their_files_are_rejected(rt: HostRuntime) -> Result<(), Fail> {
    let rows = [
        (
            "diff --git a/s b/s\nindex 1..2 160000\n",
            "line 2: Submodule",
        ),
        (
            "diff --git a/s b/s\nnew file mode 160000\n",
            "line 2: Submodule",
        ),
        (
            "Submodule s f8e52d2..e137edc:\n  > 2\n",
            "line 1: Submodule",
        ),
        (
            "Submodule s contains modified content\n",
            "line 1: Submodule",
        ),
        (
            "Submodule s f8e52d2...0000000 (submodule deleted)\n",
            "NoChange",
        ),
        ("Submodule s 1..2:\ndiff --git a/s/x b/s/x\n", "s/x"),
        (
            "Submodule s 1..2 (commits not present)\ndiff --git a/s/x b/s/x\n",
            "line 1: Submodule",
        ),
        ("Submodule s contains untracked content\n", "NoChange"),
    ];
    assert_eq!(rt; wrong_rows(rt.alloc(), &rows)?.as_str(), "");
    Ok(())
}

#[test]
fn hunks_with_errors_are_rejected(rt: HostRuntime) -> Result<(), Fail> {
    let rows = [
        ("@@ -1 +1\n-x\n+y\n", "line 4: BadHunk"),
        ("@@ -1 +4294967296 @@\n-x\n+y\n", "line 4: BadHunk"),
        ("@@ -1 +4294967295,2 @@\n-x\n+y\n+z\n", "line 4: BadHunk"),
        ("@@ -1 +0 @@\n-x\n+y\n", "line 4: BadHunk"),
        ("@@ -0,0 +0,0 @@\n", "line 4: BadHunk"),
        ("@@ -1 +1 @@\n x\n", "line 4: BadHunk"),
        ("@@ -1 +1 @@\n-x\n", "line 6: BadHunk"),
        ("@@ -1 +1 @@\n-x\n*y\n", "line 6: BadHunk"),
        ("@@ -1 +1 @@\n-x\n-y\n", "line 6: BadHunk"),
        ("@@ -1,3 +1,4 @@\n x\n+y\n z\n", "line 8: BadHunk"),
        (
            "@@ -1 +1 @@\n-x\n+y\nSubmodule s 1..2:\n",
            "line 7: Submodule",
        ),
        (
            "@@ -1 +1 @@\n-x\n+Subproject commit 0123456789012345678901234567890123456789-dirty\n",
            "line 6: Submodule",
        ),
        (
            "@@ -1 +2 @@\n-x\n+Subproject commit 0123456789012345678901234567890123456789\n",
            "a.c 2",
        ),
    ];
    assert_eq!(rt; wrong_sections(rt.alloc(), &rows)?.as_str(), "");
    Ok(())
}
