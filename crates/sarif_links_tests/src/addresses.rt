//! Which strings reports may link to.
use sarif_links::is_address;
use std::process::Abort;
use std::test::Fail;

#[test]
fn addresses_of_the_web_are_links(rt: HostRuntime) -> Result<(), Fail> {
    for text in [
        "https://e.org",
        "http://e/a?b=1&c=2#d",
        "https://e.org/a_(b)",
        "https://e:8080",
    ] {
        check(&rt, text, true)?;
    }
    Ok(())
}

#[test]
fn other_strings_are_no_links(rt: HostRuntime) -> Result<(), Fail> {
    for text in [
        "https://",
        "https:///x",
        "https://e.org/a b",
        "https://e.org/\"",
        "https://e.org/'",
        "https://e.org/|",
        "https://e.org/`",
        "https://e.org/$x$",
        "https://e.org/<b>",
        "https://e.org/[b]",
        "https://e.org/ä",
        "https://u@e.org/",
        "https://e.org/##",
        "javascript:alert(1)",
        "HTTPS://e.org",
        "//e.org",
    ] {
        check(&rt, text, false)?;
    }
    Ok(())
}

fn check(rt: &impl Abort, text: &str, wanted: bool) -> Result<(), Fail> {
    assert_eq!(rt; is_address(text), wanted);
    Ok(())
}

#[test]
fn an_address_has_at_most_a_thousand_characters(rt: HostRuntime) -> Result<(), Fail> {
    let mut text = String::from_str(rt.alloc(), "https://e.org/")?;
    for _ in text.len()..1000 {
        text.push('a')?;
    }
    check(&rt, text.as_str(), true)?;
    text.push('a')?;
    check(&rt, text.as_str(), false)
}
