//! What arguments request with a policy.
use sarif_model::Text;
use std::test::Fail;
use test_request::{accepted, expect_usage, usage_in};

#[test]
fn the_policy_is_read(rt: HostRuntime) -> Result<(), Fail> {
    for (line, policy, diff) in [
        ("a --out o", None, None),
        ("a --out o --policy p", Some("p"), None),
        ("--policy=- a --out o --diff -", Some("-"), Some("-")),
        // A default of an option that a policy excludes is not given.
        (
            "a --out o --diff d --policy p --matching 2",
            Some("p"),
            Some("d"),
        ),
    ] {
        let request = accepted(&rt, line)?;
        assert_eq!(rt; request.policy.as_ref().map(Text::as_str), policy);
        assert_eq!(rt; request.diff.as_ref().map(Text::as_str), diff);
    }
    Ok(())
}

#[test]
fn what_does_not_go_with_a_policy_is_told(rt: HostRuntime) -> Result<(), Fail> {
    for (line, told) in [
        (
            "a --out o --policy p --fail-on error",
            "--fail-on and --policy cannot be used together: each condition has its own level",
        ),
        (
            "a --out o --states new --policy p",
            "--states and --policy cannot be used together: each condition has its own states",
        ),
        (
            "--max 0 a --out o --policy p",
            "--max and --policy cannot be used together: each condition has its own max",
        ),
        (
            "a --out o --diff-scope lines --policy p --diff d",
            "--diff-scope and --policy cannot be used together: each condition has its own diff",
        ),
        // The policy comes before the change, and the level before the states.
        (
            "a --out o --policy p --states absent --diff d",
            "--states and --policy cannot be used together: each condition has its own states",
        ),
        (
            "a --out o --policy p --diff-scope files",
            "--diff-scope and --policy cannot be used together: each condition has its own diff",
        ),
        (
            "a --out o --policy p --states new --fail-on note --max 1",
            "--fail-on and --policy cannot be used together: each condition has its own level",
        ),
    ] {
        expect_usage(&rt, line, told)?;
    }
    Ok(())
}

#[test]
fn wrong_words_with_a_policy_are_usage(rt: HostRuntime) -> Result<(), Fail> {
    for line in [
        "a --out o --policy",
        "a --out o --policy p --policy p",
        "a --out o --policy p --states new,updated",
        "a --out o --policy p --fail-on=error",
        "a --out o --policy p --max=0",
        "a --out o --policy p --diff d --diff-scope lines",
    ] {
        usage_in(&rt, line)?;
    }
    Ok(())
}

#[test]
fn no_output_has_the_name_of_the_policy(rt: HostRuntime) -> Result<(), Fail> {
    for (line, told) in [
        ("a --out p --policy p", "--out would overwrite the policy p"),
        (
            "a --out o --text t --html p --policy p",
            "--html would overwrite the policy p",
        ),
        (
            "a --out o --suppress s --suppress-out p --prune --policy p",
            "--suppress-out would overwrite the policy p",
        ),
        (
            "a --out o --baseline p --known p --policy p",
            "--known would overwrite the policy p",
        ),
        // As a policy, - is a file.
        ("a --out - --policy -", "--out would overwrite the policy -"),
        // The suppression file comes first, then the policy, then the diff.
        (
            "a --out s --suppress s --policy s --diff s",
            "--out would overwrite the suppression file s",
        ),
        (
            "a --out p --policy p --diff p",
            "--out would overwrite the policy p",
        ),
        (
            "a --out o --text p --html p --policy p",
            "--text would overwrite the policy p",
        ),
    ] {
        expect_usage(&rt, line, told)?;
    }
    Ok(())
}

#[test]
fn names_that_may_stand_beside_a_policy_do(rt: HostRuntime) -> Result<(), Fail> {
    for line in [
        "a --out ./p --policy p",
        "- --out - --policy p --diff d",
        "- --out o --policy -",
        // The policy may be an input.
        "p --baseline p --suppress p --diff p --out o --policy p",
    ] {
        accepted(&rt, line)?;
    }
    Ok(())
}
