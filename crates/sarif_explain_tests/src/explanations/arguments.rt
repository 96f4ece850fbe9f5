//! Places and rules that fit no hit.
use sarif_explain::argument_explanation;
use sarif_model::{At, Cause, Fault, MergeFault};
use std::test::Fail;

#[test]
fn a_place_or_a_rule_without_a_hit_is_found(rt: HostRuntime) -> Result<(), Fail> {
    for (at, value, wanted) in [
        (
            At::Place(0),
            "./a.c",
            r#"  found: ./a.c
  wanted: the place of a hit as --text prints it, with or without its column or its line
  advice: copy it from a line of --text; if you pass --at and --rule, one of each must fit the same hit
"#,
        ),
        (
            At::Rule(1),
            "r1",
            r#"  found: r1
  wanted: the rule of a hit as --text prints it in brackets, or the empty string for a hit without a rule
  advice: copy it from a line of --text; if you pass --at and --rule, one of each must fit the same hit
"#,
        ),
    ] {
        let cause = Cause::Of(Fault::NoHit);
        let told = argument_explanation(rt.alloc(), &MergeFault { at, cause }, value)?;
        assert_eq!(rt; told.as_str(), wanted);
    }
    Ok(())
}
