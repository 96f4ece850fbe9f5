//! The code of findings and the names of their rules. A row is what is expected, and what a log has.
use sarif_findings::{Finding, Reporting, Show, findings_in_log};
use sarif_model::{Sequence, Text};
use sarif_options::Policy;
use serde_json::Value;
use std::alloc::Global;
use std::test::Fail;

/// The findings of this log under the default policy.
fn findings_of(alloc: Global, log: &str) -> Result<Vec<Finding>, Fail> {
    let reporting = Reporting {
        policy: Policy::default(),
        show: Show::All,
        roots: Sequence::new(alloc),
    };
    let log = Value::from_str(alloc, log)?;
    Ok(findings_in_log(alloc, &reporting, &log)?)
}

/// The finding of a log that has one result, with these members of its physical location and this descriptor.
fn finding_of(alloc: Global, location: &str, rule: &str) -> Result<Finding, Fail> {
    let log = format!(in alloc;
        "{{\"runs\":[{{\"tool\":{{\"driver\":{{\"name\":\"lint\",\"rules\":[{rule}]}}}},\"results\":[{{\"ruleId\":\"R1\",\
         \"baselineState\":\"new\",\"level\":\"error\",\"message\":{{\"text\":\"m\"}},\
         \"locations\":[{{\"physicalLocation\":{{{location}}}}}]}}]}}]}}"
    )?;
    let mut findings = findings_of(alloc, log.as_str())?;
    let finding = findings.pop().ok_or("no finding")?;
    Ok(finding)
}

/// The rows of the code of a finding, with ` ⏎ ` between them; `none` if it has no code.
fn rows_of(alloc: Global, finding: &Finding) -> Result<String, Fail> {
    let mut rows = String::new(alloc);
    let Some(code) = &finding.code else {
        rows.push_str("none")?;
        return Ok(rows);
    };
    for (index, line) in code.lines.as_slice().iter().enumerate() {
        if index > 0 {
            rows.push_str(" ⏎ ")?;
        }
        code.push_row(&mut rows, index, line.as_str())?;
    }
    Ok(rows)
}

/// The rows of the code at `a.c` with these members of the physical location.
fn rows_at(alloc: Global, members: &str) -> Result<String, Fail> {
    let location = format!(in alloc; "\"artifactLocation\":{{\"uri\":\"a.c\"}},{members}")?;
    let finding = finding_of(alloc, location.as_str(), "")?;
    rows_of(alloc, &finding)
}

/// Rows of codes, and the regions with their snippets.
const CODES: [(&str, &str); 23] = [
    // the region's own snippet
    (
        "f(x);",
        r#""region":{"startLine":7,"snippet":{"text":"\t\tf(x);\n"}}"#,
    ),
    (
        "> 7 | if (x) ⏎   8 |     y();",
        r#""region":{"startLine":7,"snippet":{"text":"if (x)\n\ty();\n"}}"#,
    ),
    ("x ⏎     y", r#""region":{"snippet":{"text":"x\n\ty"}}"#),
    // a context with the line, or without it
    (
        "  4 |     b ⏎   5 |         c ⏎ > 6 | d ⏎   7 | e ⏎   8 | f",
        r#""region":{"startLine":6,"snippet":{"text":"q"}},"contextRegion":{"startLine":3,"snippet":{"text":"a\n\tb\n\t\tc\nd\ne\nf\ng"}}"#,
    ),
    (
        "> 3 | a ⏎   4 |     b ⏎   5 |         c ⏎   6 | d ⏎   7 | e",
        r#""region":{"startLine":3,"snippet":{"text":"q"}},"contextRegion":{"startLine":3,"snippet":{"text":"a\n\tb\n\t\tc\nd\ne\nf\ng"}}"#,
    ),
    (
        "  7 | e ⏎   8 | f ⏎ > 9 | g",
        r#""region":{"startLine":9,"snippet":{"text":"q"}},"contextRegion":{"startLine":3,"snippet":{"text":"a\n\tb\n\t\tc\nd\ne\nf\ng"}}"#,
    ),
    (
        "q",
        r#""region":{"startLine":10,"snippet":{"text":"q"}},"contextRegion":{"startLine":3,"snippet":{"text":"a\n\tb\n\t\tc\nd\ne\nf\ng"}}"#,
    ),
    (
        "q",
        r#""region":{"startLine":2,"snippet":{"text":"q"}},"contextRegion":{"startLine":3,"snippet":{"text":"a\n\tb\n\t\tc\nd\ne\nf\ng"}}"#,
    ),
    // ends of lines, blank lines, and the width of numbers
    (
        "  10 | a ⏎   11 | ⏎ > 12 |   b",
        r#""region":{"startLine":12,"snippet":{"text":"q"}},"contextRegion":{"startLine":10,"snippet":{"text":"a\r\n\r\n  b\r\n"}}"#,
    ),
    (
        "b",
        r#""region":{"startLine":12,"snippet":{"text":"q"}},"contextRegion":{"startLine":10,"snippet":{"text":"\n\n  b\n\n"}}"#,
    ),
    (
        "   99 | x ⏎ > 100 | y",
        r#""region":{"startLine":100,"snippet":{"text":"q"}},"contextRegion":{"startLine":99,"snippet":{"text":"x\ny"}}"#,
    ),
    // a context without a line, without a region's snippet, or alone
    (
        "q",
        r#""region":{"startLine":12,"snippet":{"text":"q"}},"contextRegion":{"snippet":{"text":"a\nb"}}"#,
    ),
    ("a ⏎ b", r#""contextRegion":{"snippet":{"text":"a\nb"}}"#),
    (
        "  3 | a ⏎   4 | b",
        r#""contextRegion":{"startLine":3,"snippet":{"text":"a\nb"}}"#,
    ),
    (
        "  3 | a ⏎   4 | b",
        r#""region":{"startLine":12,"snippet":{"text":""}},"contextRegion":{"startLine":3,"snippet":{"text":"a\nb"}}"#,
    ),
    ("none", r#""region":{"startLine":12,"snippet":{"text":5}}"#),
    // characters
    (
        "a b",
        r#""region":{"startLine":1,"snippet":{"text":"a\rb"}}"#,
    ),
    (
        "none",
        r#""region":{"startLine":1,"snippet":{"text":" \t\n \u200b"}}"#,
    ),
    (
        "[31m x",
        r#""region":{"startLine":1,"snippet":{"text":"\u001b[31m\u0000x"}}"#,
    ),
    (
        "a##b",
        r#""region":{"startLine":1,"snippet":{"text":"a##b"}}"#,
    ),
    (
        "<&>\"'",
        r#""region":{"startLine":1,"snippet":{"text":"<&>\"'"}}"#,
    ),
    // many lines, and a common indentation
    (
        "> 1 | 1 ⏎   2 | 2 ⏎   3 | 3 ⏎   4 | 4 ⏎   5 | 5",
        r#""region":{"startLine":1,"snippet":{"text":"1\n2\n3\n4\n5\n6"}}"#,
    ),
    (
        "> 1 |   a ⏎   2 | ⏎   3 | b ⏎   4 |   c",
        r#""region":{"startLine":1,"snippet":{"text":"    a\n\n  b\n\tc"}}"#,
    ),
];

#[test]
fn code_is_up_to_five_lines_around_the_line_of_the_result(rt: HostRuntime) -> Result<(), Fail> {
    for (wanted, members) in CODES {
        let rows = rows_at(rt.alloc(), members)?;
        assert_eq!(rt; rows.as_str(), wanted);
    }
    Ok(())
}

#[test]
fn code_without_a_path_has_no_numbers(rt: HostRuntime) -> Result<(), Fail> {
    let region = r#""region":{"startLine":7,"snippet":{"text":"x\n\ty"}}"#;
    let finding = finding_of(rt.alloc(), region, "")?;
    let rows = rows_of(rt.alloc(), &finding)?;
    assert_eq!(rt; rows.as_str(), "x ⏎     y");
    Ok(())
}

/// A string of that many `x`, and what may follow.
fn many(alloc: Global, count: u32, last: &str) -> Result<String, Fail> {
    let mut text = String::new(alloc);
    for _ in 0..count {
        text.push('x')?;
    }
    text.push_str(last)?;
    Ok(text)
}

#[test]
fn a_long_line_ends_after_120_characters(rt: HostRuntime) -> Result<(), Fail> {
    let alloc = rt.alloc();
    for (count, wanted) in [(120, many(alloc, 120, "")?), (121, many(alloc, 120, "…")?)] {
        let text = many(alloc, count, "")?;
        let region = format!(in alloc;
            "\"region\":{{\"startLine\":1,\"snippet\":{{\"text\":\"{text}\"}}}}"
        )?;
        let rows = rows_at(alloc, region.as_str())?;
        assert_eq!(rt; rows.as_str(), wanted.as_str());
    }
    Ok(())
}

/// What Markdown shows of a code, and the regions with their snippets.
const LINES: [(&str, &str); 3] = [
    (
        "f(x);",
        r#""region":{"startLine":7,"snippet":{"text":"if (x)\n\tf(x);\n"}},"contextRegion":{"startLine":6,"snippet":{"text":"if (x)\n\tf(x);\n"}}"#,
    ),
    (
        "a",
        r#""region":{"startLine":11},"contextRegion":{"startLine":10,"snippet":{"text":"a\n\nb"}}"#,
    ),
    ("x", r#""contextRegion":{"snippet":{"text":"\t x\ny"}}"#),
];

#[test]
fn one_line_of_code_is_the_hit_line_or_the_first(rt: HostRuntime) -> Result<(), Fail> {
    for (wanted, members) in LINES {
        let location = format!(in rt.alloc();
            "\"artifactLocation\":{{\"uri\":\"a.c\"}},{members}"
        )?;
        let finding = finding_of(rt.alloc(), location.as_str(), "")?;
        let line = match &finding.code {
            Some(code) => code.one_line(),
            None => "none",
        };
        assert_eq!(rt; line, wanted);
    }
    Ok(())
}

/// The name of the rule of the result with this descriptor; `none` if it has none.
fn name_of(alloc: Global, rule: &str) -> Result<Text, Fail> {
    let Finding { rule_name, .. } = finding_of(alloc, "", rule)?;
    match rule_name {
        Some(name) => Ok(name),
        None => Ok(Text::copy_of(alloc, "none")?),
    }
}

/// Names of rules, and their descriptors.
const NAMES: [(&str, &str); 4] = [
    (
        "No <b>",
        r#"{"id":"R1","name":"R1","shortDescription":{"text":"No <b>"}}"#,
    ),
    (
        "No <b>",
        r#"{"id":"R1","name":5,"shortDescription":{"text":"No <b>"}}"#,
    ),
    (
        "none",
        r#"{"id":"R1","name":"","shortDescription":{"text":""}}"#,
    ),
    (" x", r#"{"id":"R1","name":"\nx"}"#),
];

#[test]
fn a_rule_has_the_first_name_that_is_not_its_id(rt: HostRuntime) -> Result<(), Fail> {
    let alloc = rt.alloc();
    for (wanted, rule) in NAMES {
        let name = name_of(alloc, rule)?;
        assert_eq!(rt; name.as_str(), wanted);
    }
    let long = many(alloc, 101, "")?;
    let rule = format!(in alloc; "{{\"id\":\"R1\",\"name\":\"{long}\"}}")?;
    let name = name_of(alloc, rule.as_str())?;
    let wanted = many(alloc, 100, "…")?;
    assert_eq!(rt; name.as_str(), wanted.as_str());
    Ok(())
}
