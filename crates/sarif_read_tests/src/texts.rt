//! Strings that are put together from parts.
use json_parts::{push_value, text_around};
use serde_json::{Map, Value};
use std::test::Fail;

#[test]
fn a_value_is_added_to_a_text(rt: HostRuntime) -> Result<(), Fail> {
    let alloc = rt.alloc();
    let mut text = String::from_str(alloc, "x = ")?;
    let value = Value::Array(vec![in alloc; Value::Null, Value::Bool(true)]?);
    push_value(alloc, &mut text, &value)?;
    assert_eq!(rt; text.as_str(), "x = [null,true]");
    Ok(())
}

#[test]
fn an_object_is_open_at_one_of_its_members(rt: HostRuntime) -> Result<(), Fail> {
    let alloc = rt.alloc();
    let mut members = Map::new(alloc);
    members.insert(String::from_str(alloc, "z")?, Value::Null)?;
    members.insert(String::from_str(alloc, "m")?, Value::Null)?;
    members.insert(String::from_str(alloc, "a")?, Value::Bool(true))?;
    let around = text_around(alloc, members, "m")?;
    assert_eq!(rt; around.before(), "{\"a\":true,\"m\":");
    assert_eq!(rt; around.after(), ",\"z\":null}");
    Ok(())
}

#[test]
fn the_open_place_is_filled(rt: HostRuntime) -> Result<(), Fail> {
    let alloc = rt.alloc();
    let around = text_around(alloc, Map::new(alloc), "m")?;
    let mut text = String::from_str(alloc, ",")?;
    around.push_filled(&mut text, "\"new\"")?;
    assert_eq!(rt; text.as_str(), ",{\"m\":\"new\"}");
    Ok(())
}
