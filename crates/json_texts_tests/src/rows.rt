//! What is written with all numbers, and what without fractions.
use json::Scratch;
use json_parts::index_text;
use json_texts::{node_text, push_node};
use std::alloc::{AllocError, Global};
use std::test::Fail;

// What is written for a document; `none` if it has no index.
pub(crate) fn written(
    alloc: Global,
    text: &str,
    keeps_numbers: bool,
) -> Result<String, AllocError> {
    let mut scratch = Scratch::new(alloc);
    match index_text(alloc, text.as_bytes(), &mut scratch) {
        Ok(index) => node_text(alloc, &index.root(), keeps_numbers),
        Err(_) => String::from_str(alloc, "none"),
    }
}

// A document, what is written for it, and what is written without fractions.
const ROWS: [(&str, &str, &str); 13] = [
    (
        r#"{"rank":12.5,"properties":{"list":[1,2.5],"keep":[1,2]}}"#,
        r#"{"properties":{"keep":[1,2],"list":[1,2.5]},"rank":12.5}"#,
        r#"{"properties":{"keep":[1,2]}}"#,
    ),
    (r#"{"rank":1,"rank":2.50}"#, r#"{"rank":2.50}"#, "{}"),
    (
        r#"{"rank":2.50,"rank":1}"#,
        r#"{"rank":1}"#,
        r#"{"rank":1}"#,
    ),
    (
        r#"{"rank":3.5,"\u0072ank":[2.50]}"#,
        r#"{"rank":[2.50]}"#,
        "{}",
    ),
    (
        r#"{ "z" : [ 1.50 , { "b" : 1E5 , "a" : "\/\u00e9\u001F\t" } ] , "\u005A":-0, "message": {"text":"m","a":0.5} }"#,
        r#"{"Z":-0,"message":{"a":0.5,"text":"m"},"z":[1.50,{"a":"/é\u001f\t","b":1E5}]}"#,
        r#"{"message":{"text":"m"}}"#,
    ),
    (
        r#"{"a":1.50,"b":1.0,"c":1E5,"d":1e+05,"e":1e-07,"f":-0,"g":-0.0,"h":0e0}"#,
        r#"{"a":1.50,"b":1.0,"c":1E5,"d":1e+05,"e":1e-07,"f":-0,"g":-0.0,"h":0e0}"#,
        "{}",
    ),
    (
        r#"{"a":18446744073709551616,"b":-9223372036854775809,"c":0.1000000000000000055511151231257827,"d":1e-999}"#,
        r#"{"a":18446744073709551616,"b":-9223372036854775809,"c":0.1000000000000000055511151231257827,"d":1e-999}"#,
        "{}",
    ),
    (
        r#"{"a":0,"b":-1,"c":18446744073709551615,"d":-9223372036854775808}"#,
        r#"{"a":0,"b":-1,"c":18446744073709551615,"d":-9223372036854775808}"#,
        r#"{"a":0,"b":-1,"c":18446744073709551615,"d":-9223372036854775808}"#,
    ),
    (
        r#"[null,true,false,"",[],{},[[]],[{"b":[{"a":1.5}],"a":[[[-0]]]}]]"#,
        r#"[null,true,false,"",[],{},[[]],[{"a":[[[-0]]],"b":[{"a":1.5}]}]]"#,
        r#"[null,true,false,"",[],{},[[]],[{"b":[{}]}]]"#,
    ),
    (
        r#"{"b":1,"a":2,"":3,"ab":4,"B":5,"é":6,"a\u0000":7}"#,
        r#"{"":3,"B":5,"a":2,"a\u0000":7,"ab":4,"b":1,"é":6}"#,
        r#"{"":3,"B":5,"a":2,"a\u0000":7,"ab":4,"b":1,"é":6}"#,
    ),
    (
        r#"{"q":"\"\\\b\f\n\r\t\u007f\ud83d\ude00"}"#,
        "{\"q\":\"\\\"\\\\\\b\\f\\n\\r\\t\u{7f}\u{1f600}\"}",
        "{\"q\":\"\\\"\\\\\\b\\f\\n\\r\\t\u{7f}\u{1f600}\"}",
    ),
    (r#"{"rank":1e999,"rank":1}"#, "none", "none"),
    (r#"{"rank":01}"#, "none", "none"),
];

#[test]
fn numbers_are_kept_or_dropped_with_their_members(rt: HostRuntime) -> Result<(), Fail> {
    let alloc = rt.alloc();
    for (text, kept, stripped) in ROWS {
        assert_eq!(rt; written(alloc, text, true)?.as_str(), kept);
        assert_eq!(rt; written(alloc, text, false)?.as_str(), stripped);
        assert_eq!(rt; written(alloc, kept, true)?.as_str(), kept);
        assert_eq!(rt; written(alloc, kept, false)?.as_str(), stripped);
    }
    Ok(())
}

fn pushed(alloc: Global, before: &str, text: &str) -> Result<String, AllocError> {
    let mut all = String::from_str(alloc, before)?;
    let mut scratch = Scratch::new(alloc);
    if let Ok(index) = index_text(alloc, text.as_bytes(), &mut scratch) {
        push_node(alloc, &mut all, &index.root(), true)?;
        push_node(alloc, &mut all, &index.root(), false)?;
    }
    Ok(all)
}

#[test]
fn a_text_is_added_to_another(rt: HostRuntime) -> Result<(), Fail> {
    let alloc = rt.alloc();
    assert_eq!(rt;
        pushed(alloc, "x,", r#"{"b":1.5,"a":[1]}"#)?.as_str(),
        r#"x,{"a":[1],"b":1.5}{"a":[1]}"#
    );
    Ok(())
}
