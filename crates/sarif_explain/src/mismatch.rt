//! The first value that is not as expected.
use crate::checks::{Check, Need};
use crate::place::{JsonPlace, find, is_dropped};
use crate::wanted::Wanted;
use serde_json::Value;
use std::alloc::{AllocError, Global};

/// A value that is not as expected, or an object with a missing member.
#[derive(Drop)]
pub(crate) struct Mismatch<'a> {
    /// Its position.
    pub place: JsonPlace<'a>,
    /// The name of the missing member.
    pub missing: Option<&'static str>,
    /// What is expected there.
    pub wanted: Wanted,
}

/// The first mismatch, if there is one.
pub(crate) type Found<'a> = Result<Option<Mismatch<'a>>, AllocError>;

impl<'a> Mismatch<'a> {
    /// The value of this place.
    pub(crate) fn at(place: JsonPlace<'a>, wanted: Wanted) -> Mismatch<'a> {
        Mismatch {
            place,
            missing: None,
            wanted,
        }
    }
}

/// Returns whether a member passes. A member that is treated as missing passes if it may be missing.
fn passes(stripped: bool, need: Need, wanted: Wanted, value: &Value) -> bool {
    let dropped = stripped && is_dropped(value);
    match need {
        Need::May => dropped || value.is_null() || wanted.fits(value),
        Need::Must => !dropped && wanted.fits(value),
    }
}

/// The first element or member that is not as expected.
fn mismatch_inside<'a>(alloc: Global, place: &JsonPlace<'a>, wanted: Wanted) -> Found<'a> {
    match place.value {
        Value::Array(items) => {
            for (index, item) in items.iter().enumerate() {
                if !wanted.fits(item) {
                    let place = place.element(alloc, index, item)?;
                    return Ok(Some(Mismatch::at(place, wanted)));
                }
            }
            Ok(None)
        }
        Value::Object(members) => {
            for (name, member) in members.iter() {
                if !wanted.fits(member) {
                    let place = place.member(alloc, name.as_str(), member)?;
                    return Ok(Some(Mismatch::at(place, wanted)));
                }
            }
            Ok(None)
        }
        _ => Ok(None),
    }
}

/// The error if the member of the check is missing: the object that should contain it.
fn mismatch_without<'a>(alloc: Global, place: &JsonPlace<'a>, check: &Check) -> Found<'a> {
    let Check(way, need, wanted) = *check;
    match (need, way) {
        (Need::Must, [within @ .., name]) => Ok(Some(Mismatch {
            place: place.along(alloc, within)?,
            missing: Some(*name),
            wanted,
        })),
        _ => Ok(None),
    }
}

/// The error that one check finds.
fn mismatch_by<'a>(alloc: Global, place: &JsonPlace<'a>, check: &Check) -> Found<'a> {
    let Check(way, need, wanted) = *check;
    let Some(value) = find(place.value, way) else {
        return mismatch_without(alloc, place, check);
    };
    if !passes(place.stripped, need, wanted, value) {
        return Ok(Some(Mismatch::at(place.along(alloc, way)?, wanted)));
    }
    match wanted.of_each() {
        Some(each) if !(place.stripped && is_dropped(value)) => {
            mismatch_inside(alloc, &place.along(alloc, way)?, each)
        }
        _ => Ok(None),
    }
}

/// The error of the first of these checks that fails at this place.
pub(crate) fn mismatch_in<'a>(alloc: Global, place: &JsonPlace<'a>, checks: &[Check]) -> Found<'a> {
    for check in checks {
        let found = mismatch_by(alloc, place, check)?;
        if found.is_some() {
            return Ok(found);
        }
    }
    Ok(None)
}

/// The error in the first element of the array at the end of the path that fails one of these checks.
pub(crate) fn mismatch_in_each<'a>(
    alloc: Global,
    place: &JsonPlace<'a>,
    way: &[&str],
    checks: &[Check],
) -> Found<'a> {
    if checks.is_empty() {
        return Ok(None);
    }
    let list = place.along(alloc, way)?;
    for (index, item) in place.elements(way).iter().enumerate() {
        let found = mismatch_in(alloc, &list.element(alloc, index, item)?, checks)?;
        if found.is_some() {
            return Ok(found);
        }
    }
    Ok(None)
}
