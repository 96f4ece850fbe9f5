//! How places in reports are linked.
use sarif_request::WordsFault;
use std::process::Abort;
use std::test::Fail;
use test_request::{accepted, expect_usage, read};

#[test]
fn places_are_not_linked_by_default(rt: HostRuntime) -> Result<(), Fail> {
    let request = accepted(&rt, "a --out o")?;
    assert!(rt; request.link.is_none());
    Ok(())
}

#[test]
fn a_template_is_read(rt: HostRuntime) -> Result<(), Fail> {
    for (line, wanted) in [
        ("--link http://h/{path} a --out o", "http://h/{path}"),
        (
            "a --out o --link=https://h:8/{line}/{path}",
            "https://h:8/{line}/{path}",
        ),
        (
            "a --markdown m --out o --link https://h/p?path=/{path}&line={line}&lineEnd={line}",
            "https://h/p?path=/{path}&line={line}&lineEnd={line}",
        ),
    ] {
        let request = accepted(&rt, line)?;
        match &request.link {
            Some(template) => check(&rt, template.as_str(), wanted)?,
            None => panic!(rt; "{line}"),
        }
    }
    Ok(())
}

fn check(rt: &impl Abort, text: &str, wanted: &str) -> Result<(), Fail> {
    assert_eq!(rt; text, wanted);
    Ok(())
}

#[test]
fn a_string_that_is_no_template_is_usage(rt: HostRuntime) -> Result<(), Fail> {
    for line in [
        "a --out o --link",
        "a --out o --link=",
        "a --out o --link https://h/x",
        "a --out o --link https://h{line}/{path}",
        "a --out o --link HTTPS://h/{path}",
        "a --out o --link https://h/{path}/{path}",
        "a --out o --link https://h/{path}{column}",
        "a --out o --link https://h/{path}|",
        "a --out o --link https://h/{path} --link https://h/{path}",
    ] {
        match read(&rt, line)? {
            Err(fault) => {
                assert!(rt; matches!(fault, WordsFault::Usage(_)), "{line}");
                assert_eq!(rt; fault.status(), 2);
            }
            Ok(_) => panic!(rt; "{line}"),
        }
    }
    Ok(())
}

#[test]
fn a_template_is_explained(rt: HostRuntime) -> Result<(), Fail> {
    let told = "invalid value for '--link <TEMPLATE>': expected https:// or http://, a host, /, \
        and characters of an address with {path} once, for example \
        https://host/repo/blob/SHA/{path}#L{line}";
    expect_usage(&rt, "a --out o --link https://h/x", told)
}
