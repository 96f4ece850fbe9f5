//! Which arguments request what is made for later merges.
use sarif_model::Text;
use sarif_options::{Knowing, Renewal};
use sarif_reports::Report;
use sarif_request::Request;
use std::process::Abort;
use std::test::Fail;
use test_request::{accepted, expect_usage, usage_in};

#[test]
fn nothing_is_made_for_later_merges_where_no_word_asks(rt: HostRuntime) -> Result<(), Fail> {
    let request = accepted(&rt, "--out o --today 20250131 --suppress s a")?;
    check_nothing(&rt, &request)
}

fn check_nothing(rt: &impl Abort, request: &Request) -> Result<(), Fail> {
    assert!(rt; request.upkeep.renewal.is_none());
    assert!(rt; !request.upkeep.unused);
    assert!(rt; request.upkeep.known.is_none());
    assert!(rt; request.choice.is_none());
    assert!(rt; request.reports.is_empty());
    Ok(())
}

#[test]
fn each_word_on_a_new_suppression_file_is_read(rt: HostRuntime) -> Result<(), Fail> {
    let line = "--suppress s --suppress-out n --accept --reason ticket --until 20270101 \
        --today 20260101 --out o a";
    let request = accepted(&rt, line)?;
    check_renewal(
        &rt,
        &request,
        [true, false],
        Some("ticket"),
        Some(20_270_101),
    )?;
    let request = accepted(&rt, "--suppress s --suppress-out s --prune --out o a")?;
    check_renewal(&rt, &request, [false, true], None, None)?;
    let line = "--suppress s --suppress-out - --prune --accept --reason= --out o a";
    let request = accepted(&rt, line)?;
    check_renewal(&rt, &request, [true, true], Some(""), None)
}

/// Checks how the new suppression file is made: whether hits are accepted, and whether entries are pruned.
fn check_renewal(
    rt: &impl Abort,
    request: &Request,
    ways: [bool; 2],
    reason: Option<&str>,
    until: Option<u32>,
) -> Result<(), Fail> {
    match &request.upkeep.renewal {
        Some(how) => {
            assert_eq!(rt; [how.accept, how.prune], ways);
            assert_eq!(rt; reason_of(how), reason);
            assert_eq!(rt; how.until, until);
        }
        None => panic!(rt; "no new suppression file is requested"),
    }
    Ok(())
}

fn reason_of(how: &Renewal) -> Option<&str> {
    match &how.reason {
        Some(reason) => Some(reason.as_str()),
        None => None,
    }
}

#[test]
fn places_and_rules_of_accepted_hits_are_read(rt: HostRuntime) -> Result<(), Fail> {
    let line =
        "--suppress-out n --at a.c:3 --root r/ --accept --rule= --at - --rule R1 --root= --out o a";
    let request = accepted(&rt, line)?;
    check_choice(&rt, &request, &["a.c:3", "-"], &["", "R1"], &["r/", ""])?;
    let request = accepted(&rt, "--suppress-out n --accept --at=a.c --out o a")?;
    check_choice(&rt, &request, &["a.c"], &[], &[])?;
    let request = accepted(
        &rt,
        "--suppress-out n --accept --rule R1 --rule R1 --out o a",
    )?;
    check_choice(&rt, &request, &[], &["R1", "R1"], &[])
}

/// Checks the places, the rules and the roots by which hits are chosen.
fn check_choice(
    rt: &impl Abort,
    request: &Request,
    places: &[&str],
    rules: &[&str],
    roots: &[&str],
) -> Result<(), Fail> {
    match &request.choice {
        Some(choosing) => {
            assert!(rt; are_texts(choosing.choice.places.as_slice(), places));
            assert!(rt; are_texts(choosing.choice.rules.as_slice(), rules));
            assert!(rt; are_texts(choosing.roots.as_slice(), roots));
        }
        None => panic!(rt; "no hits are chosen"),
    }
    Ok(())
}

/// Returns whether these are exactly the strings.
fn are_texts(found: &[Text], wanted: &[&str]) -> bool {
    if found.len() != wanted.len() {
        return false;
    }
    for (one, text) in found.iter().zip(wanted.iter()) {
        if one.as_str() != *text {
            return false;
        }
    }
    true
}

#[test]
fn all_hits_are_accepted_without_places_and_rules(rt: HostRuntime) -> Result<(), Fail> {
    let request = accepted(&rt, "--suppress-out n --accept --root r/ --out o a")?;
    assert!(rt; request.choice.is_none());
    Ok(())
}

#[test]
fn the_expiry_date_may_be_todays(rt: HostRuntime) -> Result<(), Fail> {
    let line = "--suppress-out n --accept --until 20260101 --today 20260101 --out o a";
    let request = accepted(&rt, line)?;
    check_renewal(&rt, &request, [true, false], None, Some(20_260_101))
}

#[test]
fn each_word_on_a_known_log_is_read(rt: HostRuntime) -> Result<(), Fail> {
    let request = accepted(&rt, "--known k --out o a")?;
    check_known(&rt, &request, Knowing::Matched)?;
    let request = accepted(&rt, "--adopt --known - --out o a")?;
    check_known(&rt, &request, Knowing::Adopted)
}

fn check_known(rt: &impl Abort, request: &Request, wanted: Knowing) -> Result<(), Fail> {
    assert_eq!(rt; request.upkeep.known, Some(wanted));
    assert!(rt; request.upkeep.renewal.is_none());
    Ok(())
}

#[test]
fn outputs_stand_in_the_order_of_writing(rt: HostRuntime) -> Result<(), Fail> {
    let line =
        "--unused u --text t --html h --known k --suppress s --suppress-out n --prune --out o a";
    let request = accepted(&rt, line)?;
    check_order(&rt, &request)
}

/// The outputs besides the merged log that the last test requests, each with the name of its file.
const ORDER: [(Report, &str); 5] = [
    (Report::Suppressions, "n"),
    (Report::Known, "k"),
    (Report::Text, "t"),
    (Report::Html, "h"),
    (Report::Unused, "u"),
];

fn check_order(rt: &impl Abort, request: &Request) -> Result<(), Fail> {
    assert!(rt; request.upkeep.unused);
    assert_eq!(rt; request.reports.len(), ORDER.len());
    for (wanted, (report, name)) in request.reports.iter().zip(ORDER.iter()) {
        assert_eq!(rt; wanted.report, *report);
        assert_eq!(rt; wanted.to.as_str(), *name);
    }
    Ok(())
}

#[test]
fn options_that_miss_their_companion_are_usage(rt: HostRuntime) -> Result<(), Fail> {
    for (more, told) in [
        (
            "--suppress-out n",
            "--suppress-out needs --accept, --prune or both",
        ),
        ("--accept", "--accept needs --suppress-out"),
        ("--prune", "--prune needs --suppress-out"),
        (
            "--accept --prune --suppress s",
            "--accept needs --suppress-out",
        ),
        ("--reason x", "--reason needs --accept"),
        (
            "--suppress s --suppress-out n --prune --reason x",
            "--reason needs --accept",
        ),
        (
            "--suppress s --suppress-out n --prune --until 20260101 --today 20250101",
            "--until needs --accept",
        ),
        ("--at a.c", "--at needs --accept"),
        ("--rule R1", "--rule needs --accept"),
        ("--rule R1 --at a.c", "--at needs --accept"),
        (
            "--suppress s --suppress-out n --prune --rule=",
            "--rule needs --accept",
        ),
        ("--unused u", "--unused needs --suppress"),
        ("--suppress-out n --prune", "--prune needs --suppress"),
        (
            "--suppress-out n --accept --prune",
            "--prune needs --suppress",
        ),
        ("--adopt", "--adopt needs --known"),
    ] {
        let line = format!(in rt.alloc(); "--out o a {more}")?;
        expect_usage(&rt, line.as_str(), told)?;
    }
    Ok(())
}

#[test]
fn known_logs_and_accepting_exclude_each_other(rt: HostRuntime) -> Result<(), Fail> {
    let told = "--known and --accept cannot be used together: the next merge knows what was \
        accepted";
    for line in [
        "--out o a --suppress-out n --accept --known k",
        "--out o a --suppress-out n --accept --known k --adopt",
    ] {
        expect_usage(&rt, line, told)?;
    }
    Ok(())
}

#[test]
fn an_expiry_date_is_a_date_from_today_on(rt: HostRuntime) -> Result<(), Fail> {
    for (more, told) in [
        ("--until 20260101", "--until needs --today"),
        (
            "--until 20260101 --today 20260102",
            "the date of --until is before the date of --today",
        ),
        (
            "--until 20261301 --today 20260101",
            "invalid value for '--until <YYYYMMDD>': expected a date as YYYYMMDD, for example 20251128",
        ),
        (
            "--until 20260132 --today 20260101",
            "invalid value for '--until <YYYYMMDD>': expected a date as YYYYMMDD, for example 20251128",
        ),
        (
            "--until 20260100 --today 20250101",
            "invalid value for '--until <YYYYMMDD>': expected a date as YYYYMMDD, for example 20251128",
        ),
    ] {
        let line = format!(in rt.alloc(); "--out o a --suppress-out n --accept {more}")?;
        expect_usage(&rt, line.as_str(), told)?;
    }
    Ok(())
}

#[test]
fn each_word_stands_once(rt: HostRuntime) -> Result<(), Fail> {
    for more in [
        "--suppress-out n --suppress-out m --accept",
        "--suppress-out n --accept --accept",
        "--suppress s --suppress-out n --prune --prune",
        "--suppress-out n --accept --reason x --reason x",
        "--suppress-out n --accept --today 20260101 --until 20270101 --until 20270101",
        "--suppress-out n --accept --today 20260101 --until 0",
        "--suppress-out n --accept --today 20260101 --until soon",
        "--suppress s --unused u --unused v",
        "--known k --known l",
        "--known k --adopt --adopt",
        "--suppress-out",
        "--known",
        "--suppress s --unused",
        "--suppress-out n --accept --reason",
        "--suppress-out n --accept --at",
        "--suppress-out n --accept --rule",
    ] {
        let line = format!(in rt.alloc(); "--out o a {more}")?;
        usage_in(&rt, line.as_str())?;
    }
    Ok(())
}

#[test]
fn names_of_outputs_for_later_merges_clash(rt: HostRuntime) -> Result<(), Fail> {
    for (line, told) in [
        (
            "--out x --suppress-out x --accept a",
            "--out and --suppress-out both write to x; each output needs its own file",
        ),
        (
            "--out x --known x a",
            "--out and --known both write to x; each output needs its own file",
        ),
        (
            "--out o --suppress s --suppress-out x --prune --known x a",
            "--suppress-out and --known both write to x; each output needs its own file",
        ),
        (
            "--out o --known x --text x a",
            "--known and --text both write to x; each output needs its own file",
        ),
        (
            "--out o --suppress s --unused x --known x a",
            "--known and --unused both write to x; each output needs its own file",
        ),
        (
            "--out - --known - a",
            "--out and --known both write to standard output (-); only one output can",
        ),
        (
            "--out o --suppress s --suppress-out - --prune --known - a",
            "--suppress-out and --known both write to standard output (-); only one output can",
        ),
        (
            "--out o --suppress s --known s a",
            "--known would overwrite the suppression file s",
        ),
        (
            "--out o --suppress s --unused s a",
            "--unused would overwrite the suppression file s",
        ),
        (
            "--out s --suppress s a",
            "--out would overwrite the suppression file s",
        ),
        (
            "--out s --suppress s --suppress-out s --prune a",
            "--out would overwrite the suppression file s",
        ),
        (
            "--out - --unused - --suppress s a",
            "--out and --unused both write to standard output (-); only one output can",
        ),
    ] {
        expect_usage(&rt, line, told)?;
    }
    Ok(())
}

#[test]
fn outputs_for_later_merges_replace_no_input(rt: HostRuntime) -> Result<(), Fail> {
    for (line, told) in [
        (
            "--out o --baseline b --suppress-out b --accept a",
            "--suppress-out would overwrite the baseline b",
        ),
        (
            "--out o --baseline b --suppress s --unused b a",
            "--unused would overwrite the baseline b",
        ),
        ("--out a a", "--out would overwrite the log a"),
        (
            "--out o --suppress-out a --accept a",
            "--suppress-out would overwrite the log a",
        ),
        ("--out o --known a a", "--known would overwrite the log a"),
        (
            "--out o --suppress s --unused a a",
            "--unused would overwrite the log a",
        ),
        (
            "--out o --known a --baseline a a",
            "--known would overwrite the log a",
        ),
        (
            "--out o --known b --baseline b --baseline c a",
            "--known would overwrite the baseline b, which is not the only baseline",
        ),
        (
            "--out o --known b --baseline b --baseline b a",
            "the baseline b is passed twice",
        ),
    ] {
        expect_usage(&rt, line, told)?;
    }
    Ok(())
}

#[test]
fn outputs_that_may_replace_an_input_do(rt: HostRuntime) -> Result<(), Fail> {
    for line in [
        // The new suppression file and the known log may replace what they are made from.
        "--out o --suppress s --suppress-out s --prune --baseline k --known k a",
        "--out k --baseline k --known l a",
        // Standard output is neither a log nor a baseline of that name.
        "--out - --known k -",
        "--out o --known - -",
        "--out o --suppress s --unused - -",
        "--out o --baseline - --baseline c --known - a",
        "--out o --suppress - --suppress-out - --prune a",
    ] {
        accepted(&rt, line)?;
    }
    Ok(())
}
