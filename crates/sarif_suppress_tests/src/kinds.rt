//! The conditions of an entry by their kinds.
use sarif_entries::{Condition, ConditionKind, Entry, entries_of_file, own_of, text_in};
use sarif_model::Text;
use std::test::Fail;
use test_suppress::result_at;

/// An entry whose conditions are in another order than that in which they are read, and a map that is empty.
const FILE: &str = "{\"version\":4,\"suppressions\":[{\"messageArguments\":[\"x\"],\"uri\":\"a.c\",\
    \"tool\":\"lint\",\"fingerprints\":{},\"status\":null}]}";

/// The names of the members that have the conditions of the entry.
fn has_names(entry: &Entry, names: &[&str]) -> bool {
    let conditions = entry.conditions.as_slice();
    if conditions.len() != names.len() {
        return false;
    }
    for (condition, name) in conditions.iter().zip(names) {
        if condition.kind().name() != *name {
            return false;
        }
    }
    true
}

#[test]
fn an_entry_lists_its_conditions_in_order(rt: HostRuntime) -> Result<(), Fail> {
    let entries = entries_of_file(rt.alloc(), FILE.as_bytes(), None).unwrap_or(Vec::new(
        rt.alloc(),
    ));
    assert_eq!(rt; entries.len(), 1);
    for entry in &entries {
        assert!(rt; has_names(entry, &["tool", "uri", "messageArguments"]));
        assert!(rt; entry.guid_key().is_none());
        let uri = text_in(entry.conditions.as_slice(), ConditionKind::Uri);
        assert_eq!(rt; uri.map(Text::as_str), Some("a.c"));
    }
    Ok(())
}

#[test]
fn a_result_has_conditions_of_its_own(rt: HostRuntime) -> Result<(), Fail> {
    let finding = result_at(rt.alloc(), "R1", Some("a.c"))?;
    let rule = own_of(rt.alloc(), ConditionKind::RuleId, &finding)?;
    let name = rule.as_ref().and_then(Condition::text).map(Text::as_str);
    assert_eq!(rt; name, Some("R1"));
    assert!(rt; own_of(rt.alloc(), ConditionKind::Guid, &finding)?.is_none());
    Ok(())
}
