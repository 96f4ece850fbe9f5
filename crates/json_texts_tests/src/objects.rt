//! Objects with many members.
use crate::rows::written;
use std::alloc::{AllocError, Global};
use std::test::Fail;

// A member with a number, whose name rises with it.
fn push_member(alloc: Global, text: &mut String, number: u32, end: &str) -> Result<(), AllocError> {
    text.push_str(format!(in alloc; "\"m{number:05}\":{number}.50{end}")?.as_str())
}

// An object whose names fall, and then the same members again.
fn falling(alloc: Global, count: u32) -> Result<String, AllocError> {
    let mut text = String::from_str(alloc, "{")?;
    for number in 0..count {
        push_member(alloc, &mut text, count - 1 - number, ",")?;
    }
    for number in 0..count {
        let end = if number + 1 == count { "}" } else { "," };
        push_member(alloc, &mut text, count - 1 - number, end)?;
    }
    Ok(text)
}

// What is written for it.
fn rising(alloc: Global, count: u32) -> Result<String, AllocError> {
    let mut text = String::from_str(alloc, "{")?;
    for number in 0..count {
        let end = if number + 1 == count { "}" } else { "," };
        push_member(alloc, &mut text, number, end)?;
    }
    Ok(text)
}

#[test]
fn members_are_sorted_in_a_list_or_in_a_map(rt: HostRuntime) -> Result<(), Fail> {
    let alloc = rt.alloc();
    for count in [1, 2, 31, 32, 33, 34, 1000] {
        let text = falling(alloc, count)?;
        assert_eq!(rt;
            written(alloc, text.as_str(), true)?.as_str(),
            rising(alloc, count)?.as_str()
        );
        assert_eq!(rt; written(alloc, text.as_str(), false)?.as_str(), "{}");
    }
    Ok(())
}
