//! The addresses of places.
use sarif_links::{Template, place_address};
use std::alloc::Global;
use std::process::Abort;
use std::test::Fail;

/// Checks the address of a place by this template; the empty string is none.
fn check_by(
    rt: &impl Abort,
    alloc: Global,
    template: &str,
    place: (&str, Option<u32>),
    wanted: &str,
) -> Result<(), Fail> {
    let (path, line) = place;
    match Template::parse(alloc, template)? {
        Some(template) => {
            let address = place_address(alloc, &template, path, line)?;
            check(rt, address, wanted)
        }
        None => {
            assert!(rt; false);
            Ok(())
        }
    }
}

fn check(rt: &impl Abort, address: Option<String>, wanted: &str) -> Result<(), Fail> {
    match address {
        Some(address) => {
            assert_eq!(rt; address.as_str(), wanted);
        }
        None => {
            assert_eq!(rt; "", wanted);
        }
    }
    Ok(())
}

const TEMPLATE: &str = "https://h/o/blob/S/{path}#L{line}";

#[test]
fn a_place_has_an_encoded_path_and_a_line(rt: HostRuntime) -> Result<(), Fail> {
    for (path, line, wanted) in [
        ("src/a b.c", Some(12), "https://h/o/blob/S/src/a%20b.c#L12"),
        ("src/a b.c", None, "https://h/o/blob/S/src/a%20b.c#L1"),
        ("ä%\".c", Some(3), "https://h/o/blob/S/%C3%A4%25%22.c#L3"),
        (
            "a~b-c_d.e+f(g)",
            None,
            "https://h/o/blob/S/a~b-c_d.e%2Bf%28g%29#L1",
        ),
        ("{line}.c", Some(3), "https://h/o/blob/S/%7Bline%7D.c#L3"),
        ("a/b:c", Some(1), "https://h/o/blob/S/a/b%3Ac#L1"),
        ("a\\b", Some(1), "https://h/o/blob/S/a%5Cb#L1"),
    ] {
        check_by(&rt, rt.alloc(), TEMPLATE, (path, line), wanted)?;
    }
    Ok(())
}

#[test]
fn each_placeholder_is_filled_in(rt: HostRuntime) -> Result<(), Fail> {
    for (template, wanted) in [
        (
            "https://h/p/_git/r?path=/{path}&line={line}&lineEnd={line}",
            "https://h/p/_git/r?path=/x/a.c&line=7&lineEnd=7",
        ),
        ("https://h:8/{line}/{path}", "https://h:8/7/x/a.c"),
        ("http://h/{path}", "http://h/x/a.c"),
    ] {
        check_by(&rt, rt.alloc(), template, ("x/a.c", Some(7)), wanted)?;
    }
    Ok(())
}

#[test]
fn paths_outside_the_folder_have_no_address(rt: HostRuntime) -> Result<(), Fail> {
    for path in [
        "/etc/x",
        "a//b",
        "a/",
        "../x",
        "a/../b",
        "a/./b",
        "..",
        "C:/x",
        "file:///x",
        "a:b/c",
        "",
    ] {
        check_by(&rt, rt.alloc(), TEMPLATE, (path, Some(1)), "")?;
    }
    Ok(())
}
