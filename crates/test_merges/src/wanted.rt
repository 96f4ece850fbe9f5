//! The contents of an expected log.
use std::alloc::{AllocError, Global};

/// The numbers of a merged log without hits under the default policy: its active results by state, and the new
/// results that are suppressed. Each string has the numbers of errors, warnings, notes and results of no level.
#[derive(Clone, Copy)]
pub struct ExpectedCounts {
    /// The places of the copies as JSON, if copies aren't counted.
    pub copies: Option<&'static str>,
    /// The active results that are absent.
    pub absent: &'static str,
    /// The active ones that are new.
    pub new: &'static str,
    /// The new ones that are suppressed.
    pub suppressed: &'static str,
    /// The active ones that are unchanged.
    pub unchanged: &'static str,
    /// The active ones that are updated.
    pub updated: &'static str,
    /// The number of runs without results.
    pub without: u32,
    /// The number of unused suppressions.
    pub unused: u32,
}

/// No results at all.
pub const NOTHING: ExpectedCounts = ExpectedCounts {
    copies: None,
    absent: "0,0,0,0",
    new: "0,0,0,0",
    suppressed: "0,0,0,0",
    unchanged: "0,0,0,0",
    updated: "0,0,0,0",
    without: 0,
    unused: 0,
};

/// The member of the gate that names the copies, if copies aren't counted.
fn copies_member(alloc: Global, copies: Option<&'static str>) -> Result<String, AllocError> {
    match copies {
        Some(places) => format!(in alloc; "\"copies\":{places},"),
        None => Ok(String::new(alloc)),
    }
}

/// The expected log with these runs, which are JSON.
pub fn text_of(alloc: Global, wanted: ExpectedCounts, runs: &str) -> Result<String, AllocError> {
    let ExpectedCounts {
        copies,
        absent,
        new,
        suppressed,
        unchanged,
        updated,
        without,
        unused,
    } = wanted;
    let copies = copies_member(alloc, copies)?;
    format!(in alloc;
        "{{\"properties\":{{\"gate\":{{{copies}\"counts\":{{\
        \"absent\":{{\"active\":[{absent}],\"suppressed\":[0,0,0,0]}},\
        \"new\":{{\"active\":[{new}],\"suppressed\":[{suppressed}]}},\
        \"unchanged\":{{\"active\":[{unchanged}],\"suppressed\":[0,0,0,0]}},\
        \"updated\":{{\"active\":[{updated}],\"suppressed\":[0,0,0,0]}}}},\
        \"failOn\":\"error\",\"hits\":0,\"max\":0,\"runsWithoutResults\":{without},\
        \"states\":[\"new\",\"updated\"],\"unusedSuppressions\":{unused},\"verdict\":\"pass\"}}}},\
        \"runs\":{runs},\"version\":\"2.1.0\"}}"
    )
}
