//! An indexed text, the values that are looked up in it and those that are made from it.
use json::Scratch;
use json_parts::{Index, IndexFault, Node, index_text};
use serde_json::Value;
use std::alloc::{AllocError, Global};
use std::test::Fail;

const LOG: &str = r#"{"runs":[{"tool":{"driver":{"name":"a\u0062","rank":1.5}},
    "results":[1,{"at":[[1e3],2]},-7],"guid":null,"share":0.5,"share":true}],
    "version":1,"version":"2.1.0","big":12345678901234567890,"twice":1,"twice":2.5}"#;

// A description of the root of this index; `none` if there is no index.
fn told_by<Tell: FnOnce(&Node<'_, '_>) -> Result<String, AllocError>>(
    alloc: Global,
    index: Result<Index<'_>, IndexFault>,
    tell: Tell,
) -> Result<String, AllocError>
    requires { Tell.IsAlwaysCallable tell }
{
    match index {
        Ok(index) => tell(&index.root()),
        Err(_) => String::from_str(alloc, "none"),
    }
}

// A description of the root of an indexed document; `none` if there is no index.
fn told_of<Tell: FnOnce(&Node<'_, '_>) -> Result<String, AllocError>>(
    alloc: Global,
    text: &str,
    tell: Tell,
) -> Result<String, AllocError>
    requires { Tell.IsAlwaysCallable tell }
{
    let mut scratch = Scratch::new(alloc);
    let index = index_text(alloc, text.as_bytes(), &mut scratch);
    told_by(alloc, index, tell)
}

fn member_in(alloc: Global, root: &Node<'_, '_>, name: &str) -> Result<String, AllocError> {
    match root.get(name) {
        Some(member) => member.to_value(alloc)?.to_string(alloc),
        None => String::from_str(alloc, "none"),
    }
}

// The member with that name, stripped, as text; `none` if there is no member or no index.
fn member(alloc: Global, text: &str, name: &str) -> Result<String, AllocError> {
    told_of(alloc, text, |root| member_in(alloc, root, name))
}

// The text of the whole, stripped and without the member of that name.
fn without(alloc: Global, text: &str, name: &str) -> Result<String, AllocError> {
    told_of(alloc, text, |root| {
        root.to_value_without(alloc, name)?.to_string(alloc)
    })
}

#[test]
fn members_are_made_stripped(rt: HostRuntime) -> Result<(), Fail> {
    let alloc = rt.alloc();
    for (name, made) in [
        ("version", r#""2.1.0""#),
        ("big", "12345678901234567890"),
        ("twice", "2.5"),
        ("absent", "none"),
        (
            "runs",
            "[{\"guid\":null,\"results\":[1,{},-7],\"share\":true,\
                \"tool\":{\"driver\":{\"name\":\"ab\"}}}]",
        ),
    ] {
        assert_eq!(rt; member(alloc, LOG, name)?.as_str(), made);
    }
    Ok(())
}

#[test]
fn a_member_is_left_out(rt: HostRuntime) -> Result<(), Fail> {
    let alloc = rt.alloc();
    assert_eq!(rt;
        without(alloc, LOG, "runs")?.as_str(),
        "{\"big\":12345678901234567890,\"version\":\"2.1.0\"}"
    );
    assert_eq!(rt;
        without(alloc, "{\"a\":1,\"b\":2,\"a\":{}}", "a")?.as_str(),
        "{\"b\":2}"
    );
    assert_eq!(rt; without(alloc, "[1.5]", "a")?.as_str(), "[1.5]");
    Ok(())
}

// How many elements an array has.
fn count_of(alloc: Global, node: &Node<'_, '_>) -> Result<String, AllocError> {
    match node.items(alloc)? {
        Some(items) => format!(in alloc; "{}", items.len()),
        None => String::from_str(alloc, "none"),
    }
}

// The types that a value is found to have, by their first letters.
fn kinds_of(alloc: Global, node: &Node<'_, '_>) -> Result<String, AllocError> {
    let mut told = String::new(alloc);
    for (letter, is_so) in [
        ('n', node.is_null()),
        ('t', node.as_str().is_some()),
        ('o', node.is_object()),
        ('a', node.is_array()),
        ('f', node.is_fractional()),
    ] {
        if is_so {
            told.push(letter)?;
        }
    }
    Ok(told)
}

fn kinds(alloc: Global, text: &str) -> Result<String, AllocError> {
    told_of(alloc, text, |root| kinds_of(alloc, root))
}

#[test]
fn kinds_are_told(rt: HostRuntime) -> Result<(), Fail> {
    let alloc = rt.alloc();
    for (text, told) in [
        ("null", "n"),
        ("\"a\"", "t"),
        ("{}", "o"),
        ("[[1.5]]", "af"),
        ("[{\"a\":1.5}]", "a"),
        ("1.5", "f"),
        ("true", ""),
    ] {
        assert_eq!(rt; kinds(alloc, text)?.as_str(), told);
    }
    Ok(())
}

#[test]
fn elements_are_counted(rt: HostRuntime) -> Result<(), Fail> {
    let alloc = rt.alloc();
    let told = told_of(alloc, "[1,2,3]", |root| count_of(alloc, root))?;
    assert_eq!(rt; told.as_str(), "3");
    Ok(())
}

#[test]
fn what_is_no_json_has_no_index(rt: HostRuntime) -> Result<(), Fail> {
    let alloc = rt.alloc();
    for text in ["", "[1,]", "{\"a\":1e999}", "[1] 2", "[01]"] {
        let mut scratch = Scratch::new(alloc);
        let fault = index_text(alloc, text.as_bytes(), &mut scratch).err();
        assert!(rt; fault == Some(IndexFault::NotJson));
        assert!(rt; Value::from_str(alloc, text).is_err());
    }
    let mut scratch = Scratch::new(alloc);
    assert!(rt; index_text(alloc, b"[\"\xff\"]", &mut scratch).err() == Some(IndexFault::NotJson));
    Ok(())
}

// Nested arrays, this many levels deep.
fn nested(alloc: Global, depth: usize) -> Result<String, Fail> {
    let mut text = String::new(alloc);
    for _ in 0..depth {
        text.push('[')?;
    }
    for _ in 0..depth {
        text.push(']')?;
    }
    Ok(text)
}

// Whether a document of arrays nested this deep has an index.
fn has_index(alloc: Global, depth: usize) -> Result<bool, Fail> {
    let text = nested(alloc, depth)?;
    let mut scratch = Scratch::new(alloc);
    Ok(index_text(alloc, text.as_bytes(), &mut scratch).is_ok())
}

#[test]
fn texts_nest_127_deep(rt: HostRuntime) -> Result<(), Fail> {
    let alloc = rt.alloc();
    assert!(rt; has_index(alloc, 127)?);
    assert!(rt; !has_index(alloc, 128)?);
    Ok(())
}
