//! A position in a source: a value and the path to it.
use crate::pointer::{push_index, push_name};
use serde_json::Value;
use std::alloc::{AllocError, Global};

/// A value of a source, and the JSON pointer to it.
#[derive(Drop)]
pub(crate) struct JsonPlace<'a> {
    /// The JSON pointer from the whole source to it.
    pub pointer: String,
    /// The value itself.
    pub value: &'a Value,
    /// Whether a member whose value is a number with a fraction is treated as missing, as in a log.
    pub stripped: bool,
}

impl<'a> JsonPlace<'a> {
    /// The whole source.
    pub(crate) fn root(alloc: Global, value: &'a Value, stripped: bool) -> JsonPlace<'a> {
        JsonPlace {
            pointer: String::new(alloc),
            value,
            stripped,
        }
    }

    /// A copy of this place.
    fn again(&self, alloc: Global) -> Result<JsonPlace<'a>, AllocError> {
        Ok(JsonPlace {
            pointer: String::from_str(alloc, self.pointer.as_str())?,
            value: self.value,
            stripped: self.stripped,
        })
    }

    /// The place of this member's value.
    pub(crate) fn member(
        &self,
        alloc: Global,
        name: &str,
        value: &'a Value,
    ) -> Result<JsonPlace<'a>, AllocError> {
        let mut place = self.again(alloc)?;
        push_name(&mut place.pointer, name)?;
        place.value = value;
        Ok(place)
    }

    /// The place of this element.
    pub(crate) fn element(
        &self,
        alloc: Global,
        index: usize,
        value: &'a Value,
    ) -> Result<JsonPlace<'a>, AllocError> {
        let mut place = self.again(alloc)?;
        push_index(alloc, &mut place.pointer, index)?;
        place.value = value;
        Ok(place)
    }

    /// The place at the end of this way from member to member, or the last on it that is there.
    pub(crate) fn along(&self, alloc: Global, way: &[&str]) -> Result<JsonPlace<'a>, AllocError> {
        let mut place = self.again(alloc)?;
        for name in way {
            let Some(value) = place.value.get(*name) else {
                return Ok(place);
            };
            push_name(&mut place.pointer, name)?;
            place.value = value;
        }
        Ok(place)
    }

    /// The elements of the array at the end of the path; empty if there is no array.
    pub(crate) fn elements(&self, way: &[&str]) -> &'a [Value] {
        match find(self.value, way) {
            Some(value) if !(self.stripped && is_dropped(value)) => items_of(value),
            _ => &[],
        }
    }

    /// The position of element `index` of the array at the end of the path, if there is one.
    pub(crate) fn nth(
        &self,
        alloc: Global,
        way: &[&str],
        index: usize,
    ) -> Result<Option<JsonPlace<'a>>, AllocError> {
        match self.elements(way).get(index) {
            Some(value) => Ok(Some(self.along(alloc, way)?.element(alloc, index, value)?)),
            None => Ok(None),
        }
    }
}

/// The elements of an array; what is none has none.
pub(crate) fn items_of(value: &Value) -> &[Value] {
    match value.as_array() {
        Some(items) => items.as_slice(),
        None => &[],
    }
}

/// The value at the end of a way from member to member.
pub(crate) fn find<'a>(value: &'a Value, way: &[&str]) -> Option<&'a Value> {
    let mut value = value;
    for name in way {
        value = value.get(*name)?;
    }
    Some(value)
}

/// Whether a log is read without the member that holds this: a number with a fraction or an exponent, or an array
/// that holds one directly or within arrays.
pub(crate) fn is_dropped(value: &Value) -> bool {
    match value {
        Value::Number(number) => number.is_f64(),
        Value::Array(items) => {
            for item in items {
                if is_dropped(item) {
                    return true;
                }
            }
            false
        }
        _ => false,
    }
}
