//! What reports read from a result: how it refers to its rule and to its message, and its first location.
ghost use Rattle.std.specs.Prelude.{◌<◌, length};
ghost use Rattle.sarif_model.specs.Run.{results_of};
ghost use Rattle.sarif_read.specs.Internal.Indexed.{run_of};

use json::Scratch;
use json_parts::index_text;
use sarif_read::{IndexedRun, index_log};
use std::alloc::{AllocError, Global};
use std::test::Fail;

/// A run whose results refer to their rules and messages in each way: by `ruleId` and `ruleIndex`, by `rule`, with
/// members of wrong types, with a number that isn't whole, and not at all.
const LOG: &str = r#"{"version":"2.1.0","runs":[{"tool":{"driver":{"name":"a"}},"results":[
    {"ruleId":"R1","ruleIndex":4,"message":{"text":"a \"b\"","id":"m","arguments":["x","y"]},
        "rule":{"id":"R2","index":7,"toolComponent":{"index":1}}},
    {"ruleIndex":4,"rule":{"id":"R2","toolComponent":{}},"message":{"id":"m","arguments":[]}},
    {"ruleId":1,"ruleIndex":-1,"rule":["R2"],"message":"m"},
    {"ruleIndex":1.5,"rule":{"id":null,"index":"7"},"message":{"text":2,"arguments":{"a":"x"}}},
    {}
    ]}]}"#;

/// Adds a name, or `-`.
fn push_name(told: &mut String, name: Option<&str>) -> Result<(), AllocError> {
    told.push_str(name.unwrap_or("-"))?;
    told.push(' ')
}

/// Adds a number, or `-`.
fn push_number(alloc: Global, told: &mut String, number: Option<u64>) -> Result<(), AllocError> {
    match number {
        Some(number) => told.push_str(format!(in alloc; "{number} ")?.as_str()),
        None => told.push_str("- "),
    }
}

/// The rule's id, index and extension, the message's text, id and count of arguments, of a result.
fn told_of(alloc: Global, run: &IndexedRun<'_, '_>, seq: u32) -> Result<String, AllocError>
    requires { seq < length (results_of (run_of run.now)) }
{
    let mut told = String::new(alloc);
    let rule = run.rule_reference(seq);
    push_name(&mut told, rule.id)?;
    push_number(alloc, &mut told, rule.index)?;
    push_number(alloc, &mut told, rule.extension)?;
    let message = run.message(alloc, seq)?;
    push_name(&mut told, message.reference.text)?;
    push_name(&mut told, message.reference.id)?;
    push_number(alloc, &mut told, Some(message.arguments.len() as u64))?;
    Ok(told)
}

#[test]
fn a_result_refers_to_its_rule_and_message(rt: HostRuntime) -> Result<(), Fail> {
    let alloc = rt.alloc();
    let mut scratch = Scratch::new(alloc);
    let index = index_text(alloc, LOG.as_bytes(), &mut scratch)?;
    let expected = [
        "R1 7 1 a \"b\" m 2 ",
        "R2 4 - - m 0 ",
        "- - - - - 0 ",
        "- - - - - 0 ",
        "- - - - - 0 ",
    ];
    for run in index_log(alloc, &index, false)? {
        assert_eq!(rt; run.len() as usize, expected.len());
        for seq in 0..run.len() {
            assert_eq!(rt; told_of(alloc, &run, seq)?.as_str(), expected[seq as usize]);
        }
    }
    Ok(())
}
