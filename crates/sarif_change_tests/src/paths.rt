//! Which file a URI may be.
use crate::told::{changed_by, other_uris};
use sarif_model::Text;
use std::test::Fail;

/// A diff that adds line 2 of src/a.c.
const DIFF: &str =
    "diff --git a/src/a.c b/src/a.c\n--- a/src/a.c\n+++ b/src/a.c\n@@ -1,3 +1,4 @@\n x\n+y\n z\n z\n";

#[test]
fn uris_that_may_be_the_file_are_inside(rt: HostRuntime) -> Result<(), Fail> {
    let changed = changed_by(&rt, DIFF)?;
    let inside = [
        "src/a.c",
        "./src/a.c",
        "src//a.c",
        "src/./a.c",
        "x/../src/a.c",
        "../src/a.c",
        "a.c",
        "../a.c",
        "lib/../a.c",
        "w/src/a.c",
        "SRC/A.C",
        "src\\a.c",
        "src%2Fa.c",
        "src/%61.c",
        "src/a.c#L3",
        "src/a.c?plain=1",
        "file:///w/src/a.c",
        "file:///w/lib/a.c",
        "/lib/a.c",
        "https://h/lib/a.c",
        "C:/w/lib/a.c",
        "c:a.c",
        "\\\\h\\a.c",
        "",
        ".",
        "src/",
        "..",
        "src/..",
    ];
    let told = other_uris(rt.alloc(), &changed, &[], 2, false, &inside)?;
    assert_eq!(rt; told.as_str(), "");
    Ok(())
}

#[test]
fn other_uris_are_outside(rt: HostRuntime) -> Result<(), Fail> {
    let changed = changed_by(&rt, DIFF)?;
    let outside = [
        "lib/a.c",
        "../lib/a.c",
        "rc/a.c",
        "src/aa.c",
        "xsrc/a.c",
        "src/a%2",
        "file:///w/src/b.c",
        "file:///src/a.c/b.c",
    ];
    let told = other_uris(rt.alloc(), &changed, &[], 2, true, &outside)?;
    assert_eq!(rt; told.as_str(), "");
    let other_line = ["src/a.c", "a.c", "file:///w/lib/a.c"];
    let told = other_uris(rt.alloc(), &changed, &[], 3, true, &other_line)?;
    assert_eq!(rt; told.as_str(), "");
    Ok(())
}

#[test]
fn a_root_makes_paths_relative(rt: HostRuntime) -> Result<(), Fail> {
    let changed = changed_by(&rt, DIFF)?;
    let roots = [Text::copy_of(rt.alloc(), "file:///w/")?];
    let inside = ["file:///w/src/a.c", "file:///w/a.c", "file:///v/lib/a.c"];
    let told = other_uris(rt.alloc(), &changed, &roots, 2, false, &inside)?;
    assert_eq!(rt; told.as_str(), "");
    let told = other_uris(
        rt.alloc(),
        &changed,
        &roots,
        2,
        true,
        &["file:///w/lib/a.c"],
    )?;
    assert_eq!(rt; told.as_str(), "");
    Ok(())
}

#[test]
fn names_with_marks_of_uris_are_found(rt: HostRuntime) -> Result<(), Fail> {
    let changed = changed_by(
        &rt,
        "--- a/x#y/a%41.c\n+++ b/x#y/a%41.c\n@@ -1 +1,2 @@\n x\n+y\n--- a/a#b.c\n+++ b/a#b.c\n@@ -1 +1,2 @@\n x\n+y\n",
    )?;
    let inside = ["x#y/a%41.c", "x%23y/a%2541.c", "a%23b.c#L3"];
    let told = other_uris(rt.alloc(), &changed, &[], 2, false, &inside)?;
    assert_eq!(rt; told.as_str(), "");
    Ok(())
}

#[test]
fn a_file_that_others_end_with_is_found(rt: HostRuntime) -> Result<(), Fail> {
    let changed = changed_by(
        &rt,
        "--- a/a.c\n+++ b/a.c\n@@ -1 +1,2 @@\n x\n+y\n--- a/n/a.c\n+++ b/n/a.c\n@@ -1 +1,2 @@\n x\n+y\n--- a/n/b.c\n+++ b/n/b.c\n@@ -1 +1,2 @@\n x\n+y\n",
    )?;
    let inside = ["a.c", "n/a.c", "z/a.c", "b/a.c", "z/n/b.c", "b.c"];
    let told = other_uris(rt.alloc(), &changed, &[], 2, false, &inside)?;
    assert_eq!(rt; told.as_str(), "");
    let outside = ["z/b.c", "b/b.c", "na.c", "c.c", "a.h"];
    let told = other_uris(rt.alloc(), &changed, &[], 2, true, &outside)?;
    assert_eq!(rt; told.as_str(), "");
    Ok(())
}

#[test]
fn a_link_may_be_a_folder(rt: HostRuntime) -> Result<(), Fail> {
    let changed = changed_by(
        &rt,
        "diff --git a/x b/x\nnew file mode 120000\n--- /dev/null\n+++ b/x\n@@ -0,0 +1 @@\n+y\n",
    )?;
    let inside = ["x", "x/a.c", "z/x/a.c", "file:///z/x/a.c"];
    let told = other_uris(rt.alloc(), &changed, &[], 9, false, &inside)?;
    assert_eq!(rt; told.as_str(), "");
    let told = other_uris(rt.alloc(), &changed, &[], 9, true, &["z/a.c", "xx/a.c"])?;
    assert_eq!(rt; told.as_str(), "");
    Ok(())
}
