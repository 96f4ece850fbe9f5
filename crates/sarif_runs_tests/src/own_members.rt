//! A result's own members, read from the index of JSON text. Scripts over the program have the rows of results that are
//! rejected.
use json::Scratch;
use json_parts::index_text;
use sarif_members::{Parts, read_node_members};
use sarif_model::{Fault, Kind, Level, Message, Pairs, Refusal, Status, Text};
use std::alloc::Global;
use std::process::Abort;
use std::test::Fail;

/// What is read from the index of a result with this JSON.
fn read(alloc: Global, text: &str) -> Result<Result<Parts, Refusal<Fault>>, Fail> {
    let mut scratch = Scratch::new(alloc);
    match index_text(alloc, text.as_bytes(), &mut scratch) {
        Ok(index) => Ok(read_node_members(alloc, &index.root(), true)),
        Err(_) => Err(Fail::new("a result is wanted")),
    }
}

/// The members of a result that is accepted.
fn accepted(alloc: Global, text: &str) -> Result<Parts, Fail> {
    match read(alloc, text)? {
        Ok(parts) => Ok(parts),
        Err(fault) => Err(Fail::new(format_args!("{text}: {fault}"))),
    }
}

fn shown(text: &Option<Text>) -> Option<&str> {
    text.as_ref().map(Text::as_str)
}

fn pair(pairs: &Pairs, index: usize) -> Option<(&str, &str)> {
    pairs
        .as_slice()
        .get(index)
        .map(|(name, value)| (name.as_str(), value.as_str()))
}

/// A result with every member that is read.
const WHOLE: &str = r#"{"kind":"review","level":"note","ruleId":"R1","ruleIndex":3,
    "rule":{"id":"R2","index":4,"toolComponent":{"index":2}},
    "provenance":{"invocationIndex":1},
    "message":{"text":"m","id":"i","arguments":["a","b"]},
    "locations":[{"physicalLocation":{"artifactLocation":
        {"uri":"a.c","uriBaseId":"SRC","index":5}}}, 7],
    "correlationGuid":"0F14D0AB-9605-4a62-a9e4-5ed26688389b",
    "fingerprints":{"f/v2":"y","f/v1":"x"},"partialFingerprints":{"p/v1":"z"},
    "suppressions":[{"kind":"inSource"},{"kind":"external","status":"underReview"},
        {"kind":"external","status":"rejected"},{"kind":"inSource","status":"accepted"}],
    "baselineState":"unchanged"}"#;

#[test]
fn what_a_result_says_is_read(rt: HostRuntime) -> Result<(), Fail> {
    let parts = accepted(rt.alloc(), WHOLE)?;
    check_what_it_is_of(&rt, &parts);
    check_what_it_says(&rt, &parts.message);
    check_where_it_is(&rt, &parts);
    check_pairs(&rt, &parts.full, &[("f/v1", "x"), ("f/v2", "y")]);
    check_pairs(&rt, &parts.partial, &[("p/v1", "z")]);
    check_statuses(&rt, &parts);
    Ok(())
}

fn check_what_it_is_of(rt: &impl Abort, parts: &Parts) {
    assert_eq!(rt; parts.kind, Kind::Review);
    assert_eq!(rt; parts.level, Some(Level::Note));
    assert_eq!(rt; shown(&parts.rule_id), Some("R1"));
    assert_eq!(rt; parts.rule_index, Some(4));
    assert_eq!(rt; parts.component, Some(2));
    assert_eq!(rt; parts.invocation, Some(1));
}

fn check_what_it_says(rt: &impl Abort, message: &Message) {
    assert_eq!(rt; shown(&message.text), Some("m"));
    assert_eq!(rt; shown(&message.id), Some("i"));
    let args = message.args.as_slice();
    assert_eq!(rt; args.len(), 2);
    assert_eq!(rt; args.first().map(Text::as_str), Some("a"));
    assert_eq!(rt; args.last().map(Text::as_str), Some("b"));
}

fn check_where_it_is(rt: &impl Abort, parts: &Parts) {
    assert_eq!(rt; shown(&parts.uri), Some("a.c"));
    assert_eq!(rt; shown(&parts.base), Some("SRC"));
    assert_eq!(rt; parts.artifact, Some(5));
    assert_eq!(rt; parts.guid, Some(0x0f14d0ab_9605_4a62_a9e4_5ed26688389b));
}

fn check_pairs(rt: &impl Abort, pairs: &Pairs, wanted: &[(&str, &str)]) {
    assert_eq!(rt; pairs.as_slice().len(), wanted.len());
    for (index, both) in wanted.iter().enumerate() {
        assert_eq!(rt; pair(pairs, index), Some(*both));
    }
}

/// An absent status is accepted.
fn check_statuses(rt: &impl Abort, parts: &Parts) {
    let held = [
        Status::Accepted,
        Status::UnderReview,
        Status::Rejected,
        Status::Accepted,
    ];
    assert_eq!(rt; parts.held.as_slice(), held.as_slice());
}

/// A result without members.
fn is_empty(parts: &Parts) -> bool {
    let message = &parts.message;
    let names_nothing = message.text.is_none()
        && message.id.is_none()
        && message.args.as_slice().is_empty()
        && parts.rule_id.is_none();
    let points_nowhere = parts.rule_index.is_none()
        && parts.component.is_none()
        && parts.invocation.is_none()
        && parts.uri.is_none()
        && parts.base.is_none()
        && parts.artifact.is_none();
    let is_nowhere = parts.region.is_none() && parts.snippet.is_none();
    let is_no_twin = parts.guid.is_none()
        && parts.full.as_slice().is_empty()
        && parts.partial.as_slice().is_empty();
    parts.kind == Kind::Fail
        && parts.level.is_none()
        && parts.held.as_slice().is_empty()
        && names_nothing
        && points_nowhere
        && is_nowhere
        && is_no_twin
}

#[test]
fn absent_and_null_members_are_the_defaults(rt: HostRuntime) -> Result<(), Fail> {
    for text in [
        "{}",
        r#"{"kind":null,"level":null,"ruleId":null,"ruleIndex":null,"rule":null,
            "provenance":null,"message":null,"locations":null,"correlationGuid":null,
            "fingerprints":null,"partialFingerprints":null,"suppressions":null,
            "baselineState":null}"#,
        r#"{"rule":{"id":null,"index":null,"toolComponent":null},
            "provenance":{"invocationIndex":null},
            "message":{"text":null,"id":null,"arguments":null},
            "locations":[{"physicalLocation":null}],
            "fingerprints":{"f":null},"partialFingerprints":{},"suppressions":[]}"#,
        r#"{"rule":{"toolComponent":{"index":null}},
            "locations":[{"physicalLocation":{"artifactLocation":null}}]}"#,
        r#"{"ruleIndex":-1,"rule":{"index":-1,"toolComponent":{"index":-1}},
            "provenance":{"invocationIndex":-1},
            "locations":[{"physicalLocation":{"artifactLocation":
                {"uri":null,"uriBaseId":null,"index":-1}}}]}"#,
        r#"{"locations":[],"baselineState":"new"}"#,
        r#"{"locations":[{},null,7],"baselineState":7,"guid":"x","rank":1.5}"#,
        r#"{"fingerprints":{"a":null,"b":1.5},"message":{"arguments":[1.5]}}"#,
        r#"{"kind":1.5,"ruleIndex":1.0,"rule":{"index":1e2},
            "provenance":{"invocationIndex":-0},"locations":[18446744073709551616]}"#,
        r#"{"kind":"review","kind":null,"level":"note","level":1.5,"ruleIndex":7,"ruleIndex":-1,
            "fingerprints":{"a":"x","a":null},"message":{"text":"m"},"message":null}"#,
    ] {
        let parts = accepted(rt.alloc(), text)?;
        assert!(rt; is_empty(&parts), "{text}");
    }
    Ok(())
}

/// A result whose strings are empty.
const EMPTY: &str = r#"{"ruleId":"","rule":{"id":"R2"},"message":{"text":""},"fingerprints":{"":""},
    "locations":[{"physicalLocation":{"artifactLocation":{"uri":""}}}]}"#;

#[test]
fn an_empty_text_is_there(rt: HostRuntime) -> Result<(), Fail> {
    let parts = accepted(rt.alloc(), EMPTY)?;
    assert_eq!(rt; shown(&parts.rule_id), Some(""));
    assert_eq!(rt; shown(&parts.message.text), Some(""));
    assert_eq!(rt; shown(&parts.uri), Some(""));
    assert_eq!(rt; pair(&parts.full, 0), Some(("", "")));
    Ok(())
}

#[test]
fn the_reference_of_the_rule_stands_in_for_id_and_index(rt: HostRuntime) -> Result<(), Fail> {
    let parts = accepted(rt.alloc(), r#"{"rule":{"id":"R2"},"ruleIndex":3}"#)?;
    assert_eq!(rt; shown(&parts.rule_id), Some("R2"));
    assert_eq!(rt; parts.rule_index, Some(3));
    Ok(())
}

#[test]
fn a_guid_is_read_in_each_of_its_forms(rt: HostRuntime) -> Result<(), Fail> {
    for text in [
        r#"{"correlationGuid":"0f14d0ab-9605-4a62-a9e4-5ed26688389b"}"#,
        r#"{"correlationGuid":"0F14D0AB-9605-4A62-A9E4-5ED26688389B"}"#,
        r#"{"correlationGuid":"0f14d0ab96054a62a9e45ed26688389b"}"#,
        r#"{"correlationGuid":"{0f14d0ab-9605-4a62-a9e4-5ed26688389b}"}"#,
        r#"{"correlationGuid":"urn:uuid:0f14d0ab-9605-4a62-a9e4-5ed26688389b"}"#,
    ] {
        let parts = accepted(rt.alloc(), text)?;
        assert_eq!(rt;
            parts.guid,
            Some(0x0f14d0ab_9605_4a62_a9e4_5ed26688389b),
            "{text}"
        );
    }
    Ok(())
}

/// The index of the rule of a result that is accepted.
fn rule_index_of(alloc: Global, text: &str) -> Result<Option<u32>, Fail> {
    Ok(accepted(alloc, text)?.rule_index)
}

#[test]
fn an_index_is_a_whole_number_of_32_bits(rt: HostRuntime) -> Result<(), Fail> {
    for (text, index) in [
        (r#"{"ruleIndex":0}"#, Some(0)),
        (r#"{"ruleIndex":4294967295}"#, Some(4_294_967_295)),
        (r#"{"ruleIndex":-1}"#, None),
    ] {
        assert_eq!(rt; rule_index_of(rt.alloc(), text)?, index, "{text}");
    }
    Ok(())
}
