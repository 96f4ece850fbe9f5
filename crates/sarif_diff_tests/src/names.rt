//! Names of files.
use crate::told::wrong_rows;
use std::test::Fail;

#[test]
fn names_are_read(rt: HostRuntime) -> Result<(), Fail> {
    let rows = [
        (
            "diff --git a/s/a.c b/s/a.c\n--- a/s/a.c\n+++ b/s/a.c\n",
            "s/a.c",
        ),
        (
            "diff --git i/s/a.c w/s/a.c\n--- i/s/a.c\n+++ w/s/a.c\n",
            "s/a.c",
        ),
        ("diff --git c/s/a.c i/s/a.c\n", "s/a.c"),
        ("diff --git o/s/a.c w/s/a.c\n", "s/a.c"),
        ("diff --git 1/s/a.c 2/s/a.c\n", "s/a.c"),
        ("diff --git src/a.c src/a.c\n", "src/a.c"),
        (
            "diff --git old/a.c new/a.c\n--- old/a.c\n+++ new/a.c\n",
            "new/a.c",
        ),
        (
            "diff --git a/x y b/x y.c\n--- a/x y.c\n+++ b/x y.c\t\n",
            "x%20y.c",
        ),
        (
            "diff --git a/x y b/x y\nold mode 100644\nnew mode 100755\n",
            "x%20y whole",
        ),
        ("diff --git a/x b/x\r\n--- a/x\r\n+++ b/x\r\n", "x"),
    ];
    assert_eq!(rt; wrong_rows(rt.alloc(), &rows)?.as_str(), "");
    Ok(())
}

#[test]
fn quoted_names_are_read(rt: HostRuntime) -> Result<(), Fail> {
    let rows = [
        (
            "diff --git \"a/s/a.c\" \"b/s\\162c/\\141.c\"\n--- \"a/x\"\n+++ \"b/s\\162c/\\141.c\"\n",
            "src/a.c",
        ),
        ("diff --git \"a/a\\142\" b/ab\n", "ab"),
        (
            "diff --git \"a/x\" \"b/x\"\n+++ \"b/\\303\\251\\t\\\"\\\\.c\"\n",
            "%C3%A9%09\"\\.c",
        ),
        ("diff --git a/x b/x\n+++ \"b/\\351.c\"\n", "%E9.c"),
        (
            "diff --git a/x b/x\n+++ \"b/\\a\\b\\n\\v\\f\\r\\377\\000\"\n",
            "%07%08%0A%0B%0C%0D%FF%00",
        ),
    ];
    assert_eq!(rt; wrong_rows(rt.alloc(), &rows)?.as_str(), "");
    Ok(())
}

#[test]
fn names_of_renames_have_no_prefix(rt: HostRuntime) -> Result<(), Fail> {
    let rows = [
        (
            "diff --git a/x b/y\nrename from a/x.c\nrename to a/y.c\n",
            "a/y.c was a/x.c",
        ),
        (
            "diff --git a/x b/y\nrename old x\nrename new \"y\\t\"\n",
            "y%09 was x",
        ),
    ];
    assert_eq!(rt; wrong_rows(rt.alloc(), &rows)?.as_str(), "");
    Ok(())
}
