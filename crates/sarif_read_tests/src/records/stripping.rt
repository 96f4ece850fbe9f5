//! Values with fractions in them, and their stripped copies.
use sarif_read::strip;
use serde_json::Value;
use std::test::Fail;

#[test]
fn a_copy_is_stripped_at_every_depth(rt: HostRuntime) -> Result<(), Fail> {
    let alloc = rt.alloc();
    for (text, stripped) in [
        (
            r#"{"tool":{"driver":{"name":"a","rank":1.5}},"properties":{"of":[1,2.5]},
                "results":[{"rank":2.5,"message":{"text":"m"}},{"ruleIndex":1,"at":[[1e3],2]}]}"#,
            "{\"properties\":{},\
                \"results\":[{\"message\":{\"text\":\"m\"}},{\"ruleIndex\":1}],\
                \"tool\":{\"driver\":{\"name\":\"a\"}}}",
        ),
        (
            r#"{"tool":{"driver":{"name":"b"}},"results":[{"rank":-0.5}],
                "columns":[{"width":3,"share":0.5}]}"#,
            r#"{"columns":[{"width":3}],"results":[{}],"tool":{"driver":{"name":"b"}}}"#,
        ),
    ] {
        let value = Value::from_slice(alloc, text.as_bytes())?;
        let copy = strip(&value)?;
        assert_eq!(rt; copy.to_string(alloc)?.as_str(), stripped);
    }
    Ok(())
}
