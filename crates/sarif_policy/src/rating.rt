//! The security severity of a result.
ghost use Rattle.std.specs.Prelude.{◌≡◌, IfOk, codes, option_and_then, option_map};
ghost use Rattle.serde_json.specs.Find.{get};
ghost use Rattle.serde_json.specs.View.{view};
ghost use Rattle.sarif_policy.specs.Rating as said;

use crate::decimal::Decimal;
use sarif_model::members::member_within;
use serde_json::Value;
use std::alloc::{AllocError, Global};

/// The security severity of a result.
#[derive(Debug, Drop)]
pub enum Rating {
    /// The result has no security severity.
    Missing,
    /// A decimal.
    Number(Decimal),
    /// A value that is not a decimal: it says something, and it isn't known what.
    Unknown,
}

/// Returns `security-severity` of the properties of a result or of a descriptor, if it is there and not null.
fn severity_in(value: Option<&Value>) -> Option<&Value>
    ensures { option_map (λ v. view v.now) result
        ≡ option_and_then said.severity_in (option_map (λ v. view v.now) value.entry) }
{
    member_within(properties_of(value), "security-severity")
}

/// Returns the properties of a result or of a descriptor, of any type.
fn properties_of(value: Option<&Value>) -> Option<&Value>
    ensures { option_map (λ v. view v.now) result
        ≡ option_and_then (get (codes "properties")) (option_map (λ v. view v.now) value.entry) }
{
    match value {
        None => None,
        Some(value) => value.get("properties"),
    }
}

/// Returns the rating that this value represents.
fn rating_of_value(alloc: Global, value: &Value) -> Result<Rating, AllocError>
    ensures { IfOk result (λ rating. rating ≡ said.rating_of_value (view value.now)) }
{
    match value.as_str() {
        None => Ok(Rating::Unknown),
        Some(text) => match Decimal::read(alloc, text)? {
            Some(number) => Ok(Rating::Number(number)),
            None => Ok(Rating::Unknown),
        },
    }
}

/// Returns the rating of a result (SARIF 2.1.0, "property bags"): `security-severity` in its `properties`, if it is there
/// and not null, otherwise `security-severity` in the `properties` of its descriptor. A string that represents a decimal is
/// a number, and any other value is unknown. Returns `AllocError` if memory for the rating runs out.
pub fn rating_of(
    alloc: Global,
    result_value: &Value,
    descriptor: Option<&Value>,
) -> Result<Rating, AllocError>
    ensures { IfOk result (λ rating. rating
        ≡ said.rating_of (view result_value.now) (option_map (λ v. view v.now) descriptor.entry)) }
{
    if let Some(own) = severity_in(Some(result_value)) {
        return rating_of_value(alloc, own);
    }
    match severity_in(descriptor) {
        Some(value) => rating_of_value(alloc, value),
        None => Ok(Rating::Missing),
    }
}
