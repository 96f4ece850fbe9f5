//! The error in a result.
use crate::checks::{location_checks, result_checks, suppression_checks};
use crate::mismatch::{Found, mismatch_in, mismatch_in_each};
use crate::past_table::mismatch_past_tables;
use crate::place::JsonPlace;
use sarif_model::Fault;
use std::alloc::Global;

/// In its first location.
fn mismatch_of_location<'a>(alloc: Global, place: &JsonPlace<'a>, fault: Fault) -> Found<'a> {
    match place.nth(alloc, &["locations"], 0)? {
        Some(first) => mismatch_in(alloc, &first, location_checks(fault)),
        None => Ok(None),
    }
}

/// Returns what is wrong in a result of the run that has this error.
pub(crate) fn mismatch_of_result<'a>(
    alloc: Global,
    run: &JsonPlace<'_>,
    place: &JsonPlace<'a>,
    fault: Fault,
) -> Found<'a> {
    let found = mismatch_in(alloc, place, result_checks(fault))?;
    if found.is_some() {
        return Ok(found);
    }
    let found = mismatch_in_each(alloc, place, &["suppressions"], suppression_checks(fault))?;
    if found.is_some() {
        return Ok(found);
    }
    let found = mismatch_of_location(alloc, place, fault)?;
    if found.is_some() || fault != Fault::BadIndex {
        return Ok(found);
    }
    mismatch_past_tables(alloc, run, place)
}
