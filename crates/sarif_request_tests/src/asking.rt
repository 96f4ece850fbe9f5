//! What arguments request.
use sarif_change::Scope;
use sarif_evidence::MatchingVersion;
use sarif_findings::Show;
use sarif_model::{Level, Text};
use sarif_options::{Checks, Options, Policy, States};
use sarif_reports::Report;
use sarif_request::{Request, WordsFault};
use std::process::Abort;
use std::test::Fail;
use test_request::{accepted, expect_usage, plain, read, usage_in};

/// Returns whether these are exactly the names.
fn are_named(found: &[Text], names: &[&str]) -> bool {
    if found.len() != names.len() {
        return false;
    }
    for (one, name) in found.iter().zip(names.iter()) {
        if one.as_str() != *name {
            return false;
        }
    }
    true
}

#[test]
fn no_file_is_named_where_no_word_does(rt: HostRuntime) -> Result<(), Fail> {
    let request = accepted(&rt, "--out o a.sarif")?;
    check_default_files(&rt, &request)
}

fn check_default_files(rt: &impl Abort, request: &Request) -> Result<(), Fail> {
    assert!(rt; are_named(&request.logs, &["a.sarif"]));
    assert!(rt; request.baselines.is_empty());
    assert!(rt; request.suppress.is_none());
    assert!(rt; request.out.as_str() == "o");
    assert!(rt; request.reports.is_empty());
    assert!(rt; request.roots.is_empty());
    assert!(rt; !request.explain);
    Ok(())
}

#[test]
fn defaults_stand_where_no_word_says_more(rt: HostRuntime) -> Result<(), Fail> {
    let request = accepted(&rt, "--out o a.sarif")?;
    check_default_options(&rt, &request.options)
}

fn check_default_options(rt: &impl Abort, options: &Options) -> Result<(), Fail> {
    assert_eq!(rt; options.today, None);
    assert_eq!(rt; options.workers, 4);
    assert_eq!(rt; options.policy.fail_on, Level::Error);
    assert_eq!(rt; options.policy.max, 0);
    let states = States {
        absent: false,
        fresh: true,
        unchanged: false,
        updated: true,
    };
    assert_eq!(rt; options.policy.states, states);
    Ok(())
}

#[test]
fn no_arguments_merge_one_log_between_the_standard_streams(rt: HostRuntime) -> Result<(), Fail> {
    let request = plain(&rt)?;
    check_plain_files(&rt, &request)?;
    check_plain_options(&rt, &request)
}

fn check_plain_files(rt: &impl Abort, request: &Request) -> Result<(), Fail> {
    assert!(rt; are_named(&request.logs, &["-"]));
    assert!(rt; request.baselines.is_empty());
    assert!(rt; request.suppress.is_none());
    assert!(rt; request.out.as_str() == "-");
    assert!(rt; request.reports.is_empty());
    assert!(rt; request.roots.is_empty());
    assert!(rt; !request.explain);
    Ok(())
}

fn check_plain_options(rt: &impl Abort, request: &Request) -> Result<(), Fail> {
    let options = &request.options;
    assert_eq!(rt; options.today, None);
    assert_eq!(rt; options.workers, 1);
    assert_eq!(rt; options.policy, Policy::default());
    assert!(rt; !options.checks.require_success);
    assert!(rt; !options.checks.allow_external);
    assert_eq!(rt; options.checks.matching, MatchingVersion::Two);
    assert!(rt; options.checks.ignored.as_slice().is_empty());
    assert!(rt; request.upkeep.renewal.is_none());
    assert!(rt; !request.upkeep.unused);
    assert_eq!(rt; request.upkeep.known, None);
    assert!(rt; request.choice.is_none());
    Ok(())
}

#[test]
fn each_word_is_read(rt: HostRuntime) -> Result<(), Fail> {
    let line = "--baseline b --suppress=s --today 20250131 a --workers 64 --fail-on note \
        --max 4294967295 --baseline c --out o d";
    let request = accepted(&rt, line)?;
    check_files(&rt, &request)?;
    check_options(&rt, &request.options)
}

fn check_files(rt: &impl Abort, request: &Request) -> Result<(), Fail> {
    assert!(rt; are_named(&request.logs, &["a", "d"]));
    assert!(rt; are_named(&request.baselines, &["b", "c"]));
    assert!(rt; is_named(&request.suppress, "s"));
    Ok(())
}

fn check_options(rt: &impl Abort, options: &Options) -> Result<(), Fail> {
    assert_eq!(rt; options.today, Some(20_250_131));
    assert_eq!(rt; options.workers, 64);
    assert_eq!(rt; options.policy.fail_on, Level::Note);
    assert_eq!(rt; options.policy.max, 4_294_967_295);
    Ok(())
}

#[test]
fn each_word_on_reports_is_read(rt: HostRuntime) -> Result<(), Fail> {
    let line = "a --html h --text t --github=g --markdown m --root file:///builds/app/ --gitlab - \
        --root= --explain --azure z --junit j --out o";
    let request = accepted(&rt, line)?;
    check_reports(&rt, &request)
}

/// Each report with the name of its file, in the order in which reports are written.
const NAMED: [(Report, &str); 7] = [
    (Report::Text, "t"),
    (Report::Github, "g"),
    (Report::Markdown, "m"),
    (Report::Gitlab, "-"),
    (Report::Html, "h"),
    (Report::Junit, "j"),
    (Report::Azure, "z"),
];

fn check_reports(rt: &impl Abort, request: &Request) -> Result<(), Fail> {
    assert_eq!(rt; request.reports.len(), NAMED.len());
    for (wanted, (report, name)) in request.reports.iter().zip(NAMED.iter()) {
        assert_eq!(rt; wanted.report, *report);
        assert_eq!(rt; wanted.to.as_str(), *name);
    }
    assert!(rt; are_named(&request.roots, &["file:///builds/app/", ""]));
    assert!(rt; request.explain);
    Ok(())
}

/// Whether there is this name.
fn is_named(found: &Option<Text>, name: &str) -> bool {
    match found {
        Some(found) => found.as_str() == name,
        None => false,
    }
}

#[test]
fn what_is_required_of_runs_is_read(rt: HostRuntime) -> Result<(), Fail> {
    for (line, require_success, allow_external) in [
        ("a --out o", false, false),
        ("a --out o --require-success", true, false),
        ("--allow-external-properties a --out o", false, true),
        (
            "a --allow-external-properties --out o --require-success",
            true,
            true,
        ),
    ] {
        let request = accepted(&rt, line)?;
        check_required(
            &rt,
            &request.options.checks,
            require_success,
            allow_external,
        )?;
    }
    Ok(())
}

fn check_required(
    rt: &impl Abort,
    checks: &Checks,
    require_success: bool,
    allow_external: bool,
) -> Result<(), Fail> {
    assert_eq!(rt; checks.require_success, require_success);
    assert_eq!(rt; checks.allow_external, allow_external);
    Ok(())
}

#[test]
fn the_version_of_matching_is_read(rt: HostRuntime) -> Result<(), Fail> {
    for (line, version) in [
        ("a --out o", MatchingVersion::Two),
        ("a --out o --matching 2", MatchingVersion::Two),
        ("--matching=3 a --out o", MatchingVersion::Three),
    ] {
        let request = accepted(&rt, line)?;
        assert_eq!(rt; request.options.checks.matching, version);
    }
    Ok(())
}

#[test]
fn whether_copies_are_counted_is_read(rt: HostRuntime) -> Result<(), Fail> {
    for (line, once) in [("a --out o", false), ("a --once --out o", true)] {
        let request = accepted(&rt, line)?;
        assert_eq!(rt; request.options.checks.once, once);
    }
    Ok(())
}

#[test]
fn the_diff_and_its_scope_are_read(rt: HostRuntime) -> Result<(), Fail> {
    for (line, diff, scope) in [
        ("a --out o", None, Scope::Lines),
        ("a --out o --diff -", Some("-"), Scope::Lines),
        (
            "a --out o --diff d --diff-scope lines",
            Some("d"),
            Scope::Lines,
        ),
        (
            "a --out - --diff d --diff-scope=files",
            Some("d"),
            Scope::Files,
        ),
    ] {
        let request = accepted(&rt, line)?;
        assert_eq!(rt; request.diff.as_ref().map(Text::as_str), diff);
        assert_eq!(rt; request.options.checks.scope, scope);
    }
    Ok(())
}

#[test]
fn what_is_wrong_with_a_diff_is_told(rt: HostRuntime) -> Result<(), Fail> {
    for (line, told) in [
        (
            "a --out o --diff d --diff-scope file",
            "invalid value for '--diff-scope <SCOPE>': expected lines or files",
        ),
        ("a --out o --diff-scope files", "--diff-scope needs --diff"),
        (
            "a --out o --states new,absent --diff d",
            "--states with absent and --diff cannot be used together: no change has an absent \
             result",
        ),
        // What options need comes before names that clash.
        ("a --out a --diff-scope files", "--diff-scope needs --diff"),
    ] {
        expect_usage(&rt, line, told)?;
    }
    Ok(())
}

#[test]
fn each_ignored_name_is_read(rt: HostRuntime) -> Result<(), Fail> {
    let line =
        "--ignore-fingerprint f/v1 a --out o --ignore-fingerprint= --ignore-fingerprint f/v1";
    let request = accepted(&rt, line)?;
    assert!(rt;
        are_named(
            request.options.checks.ignored.as_slice(),
            &["f/v1", "", "f/v1"]
        )
    );
    Ok(())
}

#[test]
fn the_least_of_each_range_is_taken(rt: HostRuntime) -> Result<(), Fail> {
    let line = "a --out o --today 10000101 --workers 1 --max 0 --fail-on none";
    let request = accepted(&rt, line)?;
    check_least(&rt, &request.options)
}

fn check_least(rt: &impl Abort, options: &Options) -> Result<(), Fail> {
    assert_eq!(rt; options.today, Some(10_000_101));
    assert_eq!(rt; options.workers, 1);
    assert_eq!(rt; options.policy.fail_on, Level::NoLevel);
    Ok(())
}

#[test]
fn the_states_of_a_list_are_read(rt: HostRuntime) -> Result<(), Fail> {
    for (list, listed) in [
        ("new", [false, true, false, false]),
        ("unchanged", [false, false, true, false]),
        ("updated", [false, false, false, true]),
        ("absent", [true, false, false, false]),
        ("updated,new", [false, true, false, true]),
        ("unchanged,absent,new", [true, true, true, false]),
        ("new,updated,unchanged,absent", [true, true, true, true]),
    ] {
        let line = format!(in rt.alloc(); "a --out o --states {list}")?;
        let request = accepted(&rt, line.as_str())?;
        check_states(&rt, request.options.policy.states, listed)?;
    }
    Ok(())
}

/// Checks that these states are listed: absent, new, unchanged and updated.
fn check_states(rt: &impl Abort, states: States, listed: [bool; 4]) -> Result<(), Fail> {
    let [absent, fresh, unchanged, updated] = listed;
    let wanted = States {
        absent,
        fresh,
        unchanged,
        updated,
    };
    assert_eq!(rt; states, wanted);
    Ok(())
}

#[test]
fn a_list_that_names_no_states_is_explained(rt: HostRuntime) -> Result<(), Fail> {
    let told = "invalid value for '--states <LIST>': expected new, updated, unchanged or absent, \
        each at most once, joined by commas";
    expect_usage(&rt, "a --out o --states new,all", told)
}

#[test]
fn what_reports_show_is_read(rt: HostRuntime) -> Result<(), Fail> {
    for (line, show) in [
        ("a --out o", Show::All),
        ("a --out o --show all", Show::All),
        ("--show hits a --out o", Show::Hits),
        ("a --text t --show=hits --out o", Show::Hits),
    ] {
        let request = accepted(&rt, line)?;
        check_show(&rt, request.show, show)?;
    }
    Ok(())
}

fn check_show(rt: &impl Abort, show: Show, wanted: Show) -> Result<(), Fail> {
    assert_eq!(rt; show, wanted);
    Ok(())
}

#[test]
fn a_name_of_nothing_that_reports_show_is_explained(rt: HostRuntime) -> Result<(), Fail> {
    let told = "invalid value for '--show <WHICH>': expected hits or all";
    expect_usage(&rt, "a --out o --show errors", told)
}

#[test]
fn the_last_day_is_taken(rt: HostRuntime) -> Result<(), Fail> {
    let request = accepted(&rt, "a --out o --today 99991231 --fail-on warning")?;
    check_last_day(&rt, &request.options)
}

fn check_last_day(rt: &impl Abort, options: &Options) -> Result<(), Fail> {
    assert_eq!(rt; options.today, Some(99_991_231));
    assert_eq!(rt; options.policy.fail_on, Level::Warning);
    Ok(())
}

#[test]
fn wrong_words_are_usage(rt: HostRuntime) -> Result<(), Fail> {
    for line in [
        "--out o",
        "a",
        "a --out o --workers 0",
        "a --out o --workers 65",
        "a --out o --max 4294967296",
        "a --out o --max -1",
        "a --out o --fail-on high",
        "a --out o --today 0",
        "a --out o --today 10000100",
        "a --out o --today 99991232",
        "a --out o --out p",
        "a --out o --suppress s --suppress s",
        "a --out o --workers 2 --workers 2",
        "a --out o --max 1 --max 1",
        "a --out o --fail-on error --fail-on error",
        "a --out o --today 20250131 --today 20250131",
        "a --out o --verbose",
        "a --out",
        "a --out o --text t --text u",
        "a --out o --github g --github h",
        "a --out o --markdown m --markdown n",
        "a --out o --gitlab g --gitlab h",
        "a --out o --html h --html i",
        "a --out o --explain --explain",
        "a --out o --require-success --require-success",
        "a --out o --allow-external-properties=true",
        "a --out o --once --once",
        "a --out o --once=1",
        "a --out o --explain=true",
        "a --out o --text",
        "a --out o --states=",
        "a --out o --states new,new",
        "a --out o --states new,",
        "a --out o --states=,new",
        "a --out o --states new,,updated",
        "a --out o --states New",
        "a --out o --states new;updated",
        "a --out o --states all",
        "a --out o --states new --states new",
        "a --out o --show",
        "a --out o --show=",
        "a --out o --show Hits",
        "a --out o --show hit",
        "a --out o --show hits,all",
        "a --out o --show hits --show hits",
        "a --out o --states",
        "a --out o --diff",
        "a --out o --diff d --diff e",
        "a --out o --diff-scope lines",
        "a --out o --diff d --diff-scope",
        "a --out o --diff d --diff-scope=",
        "a --out o --diff d --diff-scope line",
        "a --out o --diff d --diff-scope Lines",
        "a --out o --diff d --diff-scope lines,files",
        "a --out o --diff d --diff-scope lines --diff-scope lines",
        "a --out o --diff d --states absent",
        "a --out o --diff d --states new,absent",
        "- --out o --diff -",
    ] {
        match read(&rt, line)? {
            Err(fault) => {
                assert!(rt; matches!(fault, WordsFault::Usage(_)), "{line}");
                assert_eq!(rt; fault.status(), 2);
            }
            Ok(_) => panic!(rt; "{line}"),
        }
    }
    Ok(())
}

#[test]
fn an_invalid_number_or_date_says_what_is_expected(rt: HostRuntime) -> Result<(), Fail> {
    for (words, told) in [
        (
            "--today 2026-11-28",
            "invalid value '2026-11-28' for '--today <YYYYMMDD>': expected a date as YYYYMMDD, for \
             example 20251128",
        ),
        (
            "--today=",
            "invalid value '' for '--today <YYYYMMDD>': expected a date as YYYYMMDD, for example \
             20251128",
        ),
        (
            "--until 0",
            "invalid value '0' for '--until <YYYYMMDD>': expected a date as YYYYMMDD, for example \
             20251128",
        ),
        (
            "--max 10%",
            "invalid value '10%' for '--max <NUMBER>': expected a number from 0 to 4294967295",
        ),
        (
            "--max=-1",
            "invalid value '-1' for '--max <NUMBER>': expected a number from 0 to 4294967295",
        ),
        (
            "--max 4294967296",
            "invalid value '4294967296' for '--max <NUMBER>': expected a number from 0 to \
             4294967295",
        ),
        (
            "--workers 65",
            "invalid value '65' for '--workers <NUMBER>': expected a number from 1 to 64",
        ),
        // A value that looks like the end of another message.
        (
            "--max=x'for'--today<YYYYMMDD>':y",
            "invalid value 'x'for'--today<YYYYMMDD>':y' for '--max <NUMBER>': expected a number \
             from 0 to 4294967295",
        ),
    ] {
        let line = format!(in rt.alloc(); "a --out o {words}")?;
        expect_usage(&rt, line.as_str(), told)?;
    }
    Ok(())
}

#[test]
fn names_that_clash_are_usage(rt: HostRuntime) -> Result<(), Fail> {
    for (line, told) in [
        (
            "a --out o --suppress o",
            "--out would overwrite the suppression file o",
        ),
        (
            "a --out - --suppress -",
            "--out would overwrite the suppression file -",
        ),
        (
            "a --out o --html s --suppress s",
            "--html would overwrite the suppression file s",
        ),
        (
            "a --out o --text - --suppress -",
            "--text would overwrite the suppression file -",
        ),
        (
            "a --out o --text o",
            "--out and --text both write to o; each output needs its own file",
        ),
        (
            "a --out o --html o",
            "--out and --html both write to o; each output needs its own file",
        ),
        (
            "a --out - --github -",
            "--out and --github both write to standard output (-)",
        ),
        (
            "a --out o --github t --text t",
            "--text and --github both write to t",
        ),
        (
            "a --out o --gitlab p --html p",
            "--gitlab and --html both write to p",
        ),
        (
            "a --out o --markdown - --html -",
            "--markdown and --html both write to standard output (-)",
        ),
        ("a --out a", "--out would overwrite the log a"),
        ("a b --out b", "--out would overwrite the log b"),
        ("a b --out b --text a", "--out would overwrite the log b"),
        ("a --out a --text a", "--out and --text both write to a"),
        ("a b --out o --text b", "--text would overwrite the log b"),
        (
            "a --out o --baseline b --html b",
            "--html would overwrite the baseline b",
        ),
        ("a --out d --diff d", "--out would overwrite the diff d"),
        (
            "a --out o --text t --html d --diff d",
            "--html would overwrite the diff d",
        ),
        (
            "a --out o --baseline d --known d --diff d",
            "--known would overwrite the diff d",
        ),
        // The suppression file comes first, and two outputs come later.
        (
            "a --out s --text s --suppress s --diff s",
            "--out would overwrite the suppression file s",
        ),
        (
            "a --out o --text d --html d --diff d",
            "--text would overwrite the diff d",
        ),
    ] {
        assert!(rt; usage_in(&rt, line)?.contains(told), "{line}");
    }
    Ok(())
}

#[test]
fn a_name_that_is_passed_twice_is_usage(rt: HostRuntime) -> Result<(), Fail> {
    for (line, told) in [
        ("a a --out o", "the log a is passed twice"),
        ("a b c b --out o", "the log b is passed twice"),
        // The first of two names that are repeated.
        ("b a b a --out o", "the log b is passed twice"),
        ("b a a b --out o", "the log b is passed twice"),
        (
            "- - --out o",
            "standard input (-) can be only one of the logs",
        ),
        (
            "- a - --out o",
            "standard input (-) can be only one of the logs",
        ),
        (
            "a --baseline b --baseline b --out o",
            "the baseline b is passed twice",
        ),
        (
            "a --baseline b --baseline c --baseline=b --out o",
            "the baseline b is passed twice",
        ),
        // As a baseline, - is a file.
        (
            "a --baseline - --baseline - --out o",
            "the baseline - is passed twice",
        ),
        // Logs come first, then baselines, and outputs last.
        (
            "a a --baseline b --baseline b --out a",
            "the log a is passed twice",
        ),
        (
            "a --baseline b --baseline b --out a --text a --suppress a",
            "the baseline b is passed twice",
        ),
        ("a a --out s --suppress s", "the log a is passed twice"),
        (
            "a - --out o --diff -",
            "standard input (-) can be only one of the logs and --diff",
        ),
        (
            "- --out s --suppress s --diff=-",
            "standard input (-) can be only one of the logs and --diff",
        ),
    ] {
        expect_usage(&rt, line, told)?;
    }
    Ok(())
}

#[test]
fn a_baseline_before_several_logs_is_told(rt: HostRuntime) -> Result<(), Fail> {
    for (line, told) in [
        (
            "--baseline a b c b c --out o",
            "the log b is passed twice; --baseline takes one file, and the files after it are logs",
        ),
        (
            "--out o --baseline=a b b",
            "the log b is passed twice; --baseline takes one file, and the files after it are logs",
        ),
        (
            "--baseline a --baseline a b c --out o",
            "the baseline a is passed twice; --baseline takes one file, and the files after it are logs",
        ),
        // One log after a baseline.
        ("--baseline a b --out o b", "the log b is passed twice"),
        (
            "--out o --baseline=a b --max 0 b",
            "the log b is passed twice",
        ),
        // Another option before the logs.
        ("--out o b b", "the log b is passed twice"),
    ] {
        expect_usage(&rt, line, told)?;
    }
    Ok(())
}

#[test]
fn names_that_may_stand_together_do(rt: HostRuntime) -> Result<(), Fail> {
    for line in [
        // A baseline is replaced by the merged log.
        "a --baseline b --out b",
        // A file is a log and a baseline.
        "a --baseline a --out o",
        "a b --baseline b --baseline a --out o",
        // Standard input, standard output and files of that name.
        "- --out -",
        "- --out o --github -",
        "a --baseline - --out o --text -",
        "- --suppress - --out o",
        "- --baseline - --out o",
        // A name is compared byte for byte.
        "a ./a A --out o",
        "a --baseline b --baseline ./b --baseline B --out o",
        "a --out o --text ./o",
        "a --out o --text O",
        // The root is not a file name.
        "a --out o --text t --root t",
        // Standard input is the diff or a log, and standard output is another stream.
        "a --out - --diff -",
        "a --out o --text - --diff -",
        "- --out o --diff d",
        // As a baseline and as a suppression file, - is a file.
        "a --baseline - --suppress - --out o --diff -",
        // The diff may be an input.
        "d --baseline d --out o --diff d",
        "a --out ./d --diff d",
    ] {
        accepted(&rt, line)?;
    }
    Ok(())
}

#[test]
fn the_version_is_no_mistake(rt: HostRuntime) -> Result<(), Fail> {
    for line in [
        "--version",
        "-V",
        "a --out o --version",
        "a --version --out",
    ] {
        match read(&rt, line)? {
            Err(fault) => {
                assert_eq!(rt; fault.status(), 0, "{line}");
                assert!(rt; text_of(&fault) == "sarif_gate 1.0.0\n", "{line}");
            }
            Ok(_) => panic!(rt; "{line}"),
        }
    }
    Ok(())
}

#[test]
fn help_is_no_mistake(rt: HostRuntime) -> Result<(), Fail> {
    for line in ["--help", "-h", "a --out o --help"] {
        match read(&rt, line)? {
            Err(fault) => {
                assert_eq!(rt; fault.status(), 0, "{line}");
                assert!(rt; text_of(&fault).contains("--baseline"), "{line}");
            }
            Ok(_) => panic!(rt; "{line}"),
        }
    }
    Ok(())
}

#[test]
fn help_is_narrow_and_says_what_a_hit_is(rt: HostRuntime) -> Result<(), Fail> {
    match read(&rt, "--help")? {
        Err(fault) => check_help(&rt, text_of(&fault)),
        Ok(_) => panic!(rt; "help is a request"),
    }
}

fn check_help(rt: &impl Abort, help: &str) -> Result<(), Fail> {
    for line in help.lines() {
        assert!(rt; line.len() <= 100, "{line}");
    }
    assert!(rt; help.contains("A hit is an active result with a state of --states"));
    Ok(())
}

#[test]
fn help_is_grouped(rt: HostRuntime) -> Result<(), Fail> {
    match read(&rt, "--help")? {
        Err(fault) => check_groups(&rt, text_of(&fault)),
        Ok(_) => panic!(rt; "help is a request"),
    }
}

/// Checks that each group begins with the option that is its first.
fn check_groups(rt: &impl Abort, help: &str) -> Result<(), Fail> {
    for (group, first) in [
        ("\n\nInputs:\n  ", "<LOG>..."),
        ("\n\nGate:\n      ", "--fail-on <LEVEL>"),
        ("\n\nOutputs:\n      ", "--out <FILE>"),
        ("\n\nUpkeep:\n      ", "--accept"),
        ("\n\nOther:\n      ", "--workers <NUMBER>"),
    ] {
        match help.split_once(group) {
            Some((_, rest)) => assert!(rt; rest.starts_with(first), "{first}"),
            None => panic!(rt; "{group}"),
        }
    }
    assert!(rt; !help.contains("\nOptions:\n"));
    Ok(())
}

/// The help, or the version.
fn text_of(fault: &WordsFault) -> &str {
    match fault {
        WordsFault::Help(text) => text.as_str(),
        _ => "",
    }
}

#[test]
fn wanting_memory_has_the_status_of_a_refusal(rt: HostRuntime) {
    assert_eq!(rt; WordsFault::OutOfMemory.status(), 2);
}
