//! Security severities and their minimum.
use sarif_policy::{Decimal, Minimum, Rating, Unrated, rating_of};
use serde_json::Value;
use std::alloc::{AllocError, Global};
use std::test::Fail;

/// Returns the value of JSON; null if it is none.
fn value_of(alloc: Global, json: &str) -> Value {
    Value::from_str(alloc, json).unwrap_or(Value::Null)
}

/// Returns whether a rating meets this minimum.
fn is_met(
    alloc: Global,
    least: &str,
    unrated: Unrated,
    rating: &Rating,
) -> Result<bool, AllocError> {
    match Decimal::read(alloc, least)? {
        Some(least) => Ok(Minimum { least, unrated }.is_met(rating)),
        None => Ok(false),
    }
}

/// Returns the rating of a result with these properties whose rule has others.
fn rating_with(alloc: Global, own: &str, rule: &str) -> Result<Rating, AllocError> {
    let own = format!(in alloc; "{{\"properties\":{own}}}")?;
    let rule = format!(in alloc; "{{\"properties\":{rule}}}")?;
    let own = value_of(alloc, own.as_str());
    let rule = value_of(alloc, rule.as_str());
    rating_of(alloc, &own, Some(&rule))
}

/// Returns the rating of a result with this value as its security severity.
fn rating_by(alloc: Global, value: &str) -> Result<Rating, AllocError> {
    let own = format!(in alloc; "{{\"security-severity\":{value}}}")?;
    rating_with(alloc, own.as_str(), "{}")
}

/// A minimum, the security severity of a result, and whether it meets the minimum.
const RATED: [(&str, &str, bool); 21] = [
    ("7.0", "\"7.0\"", true),
    ("7.0", "\"7\"", true),
    ("7.0", "\"07.00\"", true),
    ("7.0", "\"10.0\"", true),
    ("7.0", "\"7.00000000000000000001\"", true),
    ("7.0", "\"70\"", true),
    ("7.0", "\"6.9\"", false),
    ("7.0", "\"6.99999999999999999999\"", false),
    ("7.0", "\"0.7\"", false),
    ("7.0", "\"01\"", false),
    ("6.99999999999999999999", "\"6.9999999999999999999\"", false),
    ("7.0", "\"high\"", true),
    ("7.0", "\"\"", true),
    ("7.0", "\"7.\"", true),
    ("7.0", "\".5\"", true),
    ("7.0", "\"+1\"", true),
    ("7.0", "\"1e0\"", true),
    ("7.0", "1", true),
    ("7.0", "true", true),
    ("7.0", "{}", true),
    ("7.0", "\"1.2.3\"", true),
];

#[test]
fn ratings_are_compared_as_numbers(rt: HostRuntime) -> Result<(), Fail> {
    let alloc = rt.alloc();
    for (least, value, wanted) in RATED {
        let rating = rating_by(alloc, value)?;
        assert!(rt; is_met(alloc, least, Unrated::Skip, &rating)? == wanted);
    }
    Ok(())
}

#[test]
fn a_result_without_a_rating_counts_unless_it_is_skipped(rt: HostRuntime) -> Result<(), Fail> {
    let alloc = rt.alloc();
    for value in ["null", "{}"] {
        let rating = if value == "{}" {
            rating_with(alloc, "{}", "{}")?
        } else {
            rating_by(alloc, value)?
        };
        assert!(rt; is_met(alloc, "7.0", Unrated::Count, &rating)?);
        assert!(rt; !is_met(alloc, "7.0", Unrated::Skip, &rating)?);
    }
    Ok(())
}

#[test]
fn the_rating_of_the_result_comes_before_that_of_its_rule(rt: HostRuntime) -> Result<(), Fail> {
    let alloc = rt.alloc();
    let rows = [("6", "8", true), ("9.1", "1", false)];
    for (rule, own, wanted) in rows {
        let rule = format!(in alloc; "{{\"security-severity\":\"{rule}\"}}")?;
        let own = format!(in alloc; "{{\"security-severity\":\"{own}\"}}")?;
        let rating = rating_with(alloc, own.as_str(), rule.as_str())?;
        assert!(rt; is_met(alloc, "7.0", Unrated::Count, &rating)? == wanted);
    }
    let rating = rating_with(alloc, "{}", "{\"security-severity\":\"6\"}")?;
    assert!(rt; !is_met(alloc, "7.0", Unrated::Count, &rating)?);
    Ok(())
}
