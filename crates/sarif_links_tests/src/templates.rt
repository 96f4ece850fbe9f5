//! Which strings are templates.
use sarif_links::Template;
use std::alloc::Global;
use std::process::Abort;
use std::test::Fail;

#[test]
fn templates_have_a_host_a_slash_and_one_path(rt: HostRuntime) -> Result<(), Fail> {
    for text in [
        "http://h/{path}",
        "https://h:8/{line}/{path}",
        "https://h/p/_git/r?path=/{path}&line={line}&lineEnd={line}",
    ] {
        check(&rt, rt.alloc(), text, true)?;
    }
    Ok(())
}

#[test]
fn other_strings_are_no_templates(rt: HostRuntime) -> Result<(), Fail> {
    for text in [
        "",
        "https://h/x",
        "https://{path}",
        "https://h{path}",
        "https://h{line}/{path}",
        "https:///{path}",
        "https://a@h/{path}",
        "ftp://h/{path}",
        "HTTPS://h/{path}",
        "javascript:{path}",
        "//h/{path}",
        "h/{path}",
    ] {
        check(&rt, rt.alloc(), text, false)?;
    }
    Ok(())
}

#[test]
fn no_other_braces_or_characters_are_in_a_template(rt: HostRuntime) -> Result<(), Fail> {
    for text in [
        "https://h/{path}/{path}",
        "https://h/{path}{column}",
        "https://h/{path}{",
        "https://h/{path} ",
        "https://h/{path}\"",
        "https://h/{path}|",
        "https://h/{path}##",
        "https://h/ä/{path}",
        "https://h?/{path}",
    ] {
        check(&rt, rt.alloc(), text, false)?;
    }
    Ok(())
}

fn check(rt: &impl Abort, alloc: Global, text: &str, wanted: bool) -> Result<(), Fail> {
    let template = Template::parse(alloc, text)?;
    assert_eq!(rt; template.is_some(), wanted);
    Ok(())
}

#[test]
fn a_template_has_at_most_a_thousand_characters(rt: HostRuntime) -> Result<(), Fail> {
    let mut text = String::from_str(rt.alloc(), "https://h/{path}")?;
    for _ in text.len()..1000 {
        text.push('a')?;
    }
    check(&rt, rt.alloc(), text.as_str(), true)?;
    text.push('a')?;
    check(&rt, rt.alloc(), text.as_str(), false)
}
