//! Errors of outputs that would be too large for later merges.
use sarif_explain::{is_past_limit, output_explanation};
use sarif_model::{At, Cause, Fault, MOST_BYTES, MOST_ENTRIES, MergeFault, Source};
use std::test::Fail;

#[test]
fn an_output_past_a_limit_is_named_and_advised_on(rt: HostRuntime) -> Result<(), Fail> {
    for (source, cause, wanted) in [
        (
            Source::Suppress,
            Cause::Of(Fault::TooMany),
            r#"  file: new.json
  wanted: at most 10000 entries
  advice: accept fewer hits in one call, pass --prune, or write an entry by hand that matches many of them
"#,
        ),
        (
            Source::Suppress,
            Cause::TooLong,
            r#"  file: new.json
  wanted: at most 67108864 bytes
  advice: accept fewer hits in one call, pass --prune, or write an entry by hand that matches many of them
"#,
        ),
        (
            Source::Known,
            Cause::TooLong,
            r#"  file: new.json
  wanted: at most 67108864 bytes
  advice: merge fewer logs in one call, and write a known log for each of these merges
"#,
        ),
    ] {
        let at = At::Whole(source);
        let told = output_explanation(rt.alloc(), &MergeFault { at, cause }, "new.json")?;
        assert_eq!(rt; told.as_str(), wanted);
    }
    Ok(())
}

/// A suppression file with this number of entries.
fn file_of(rt: &HostRuntime, count: usize) -> Result<String, Fail> {
    let mut text = String::from_str(rt.alloc(), r#"{"version":4,"suppressions":["#)?;
    for number in 0..count {
        text.push_str(if number == 0 { "{}" } else { ",{}" })?;
    }
    text.push_str("]}")?;
    Ok(text)
}

#[test]
fn a_file_within_its_limits_is_not_the_one_past_them(rt: HostRuntime) -> Result<(), Fail> {
    let alloc = rt.alloc();
    let many = Cause::Of(Fault::TooMany);
    let most = file_of(&rt, MOST_ENTRIES)?;
    assert!(rt; !is_past_limit(alloc, many, most.as_str().as_bytes())?);
    let more = file_of(&rt, MOST_ENTRIES + 1)?;
    assert!(rt; is_past_limit(alloc, many, more.as_str().as_bytes())?);
    assert!(rt; !is_past_limit(alloc, many, &[])?);
    let bytes = vec![in alloc; b' '; MOST_BYTES + 1]?;
    assert!(rt; is_past_limit(alloc, Cause::TooLong, bytes.as_slice())?);
    assert!(rt; !is_past_limit(alloc, Cause::TooLong, &bytes[1..])?);
    assert!(rt; is_past_limit(alloc, Cause::Of(Fault::WrongVersion), &[])?);
    Ok(())
}
