//! What is written and reported, and with which exit status.
use sarif_change::Scope;
use sarif_model::{At, Cause, Fault, Level, MergeFault, Source};
use sarif_program::{Complaint, Complaints};
use sarif_request::Request;
use sarif_streams::{Counted, Readers};
use std::alloc::{AllocError, AllocGlobal};
use std::process::Abort;
use std::sync::Wait;
use std::test::Fail;
use std::thread::Threads;
use test_program::{AMPLE, Ended, GivenBytes, Rooms, Setting, plain_request, run_over};

/// The log of one result without a level, merged: a new warning.
const MERGED: &str = "{\"properties\":{\"gate\":{\"counts\":{\
    \"absent\":{\"active\":[0,0,0,0],\"suppressed\":[0,0,0,0]},\
    \"new\":{\"active\":[0,1,0,0],\"suppressed\":[0,0,0,0]},\
    \"unchanged\":{\"active\":[0,0,0,0],\"suppressed\":[0,0,0,0]},\
    \"updated\":{\"active\":[0,0,0,0],\"suppressed\":[0,0,0,0]}},\
    \"failOn\":\"error\",\"hits\":0,\"max\":0,\"runsWithoutResults\":0,\
    \"states\":[\"new\",\"updated\"],\"unusedSuppressions\":0,\"verdict\":\"pass\"}},\
    \"runs\":[{\"results\":[{\"baselineState\":\"new\",\"level\":\"warning\",\
    \"message\":{\"text\":\"m\"},\"suppressions\":[]}],\
    \"tool\":{\"driver\":{\"name\":\"lint\"}}}],\
    \"version\":\"2.1.0\"}";

/// A log of one run with one result, which has a message alone.
const LOG: &str = "{\"version\":\"2.1.0\",\"runs\":[{\"tool\":{\"driver\":{\"name\":\"lint\"}},\
    \"results\":[{\"message\":{\"text\":\"m\"}}]}]}";

/// Its summary.
const SUMMARY: &str = "\
state           error    warning       note       none suppressed
new                 0          1          0          0          0
unchanged           0          0          0          0          0
updated             0          0          0          0          0
absent              0          0          0          0          0
gate: pass, hits 0, max 0
";

/// A log whose one result has an invalid GUID.
const BAD: &str = "{\"version\":\"2.1.0\",\"runs\":[{\"tool\":{\"driver\":{\"name\":\"lint\"}},\
    \"results\":[{\"message\":{\"text\":\"m\"},\"correlationGuid\":\"x\"}]}]}";

/// A log of two runs with three equal results, and a baseline with two of them.
const THREE: &str = concat!(
    r#"{"version":"2.1.0","runs":[{"tool":{"driver":{"name":"lint"}},"results":["#,
    r#"{"message":{"text":"m"},"ruleId":"R1"},{"message":{"text":"m"},"ruleId":"R1"}]},"#,
    r#"{"tool":{"driver":{"name":"lint"}},"results":[{"message":{"text":"m"},"ruleId":"R1"}]}]}"#
);

const TWO: &str = concat!(
    r#"{"version":"2.1.0","runs":[{"tool":{"driver":{"name":"lint"}},"results":["#,
    r#"{"message":{"text":"m"},"ruleId":"R1"},{"message":{"text":"m"},"ruleId":"R1"}]}]}"#
);

/// A log of two results of one file: in lines 1 and 2.
const LINES: &str = concat!(
    r#"{"version":"2.1.0","runs":[{"tool":{"driver":{"name":"lint"}},"results":["#,
    r#"{"message":{"text":"m"},"locations":[{"physicalLocation":{"artifactLocation":"#,
    r#"{"uri":"a.c"},"region":{"startLine":1}}}]},"#,
    r#"{"message":{"text":"m"},"locations":[{"physicalLocation":{"artifactLocation":"#,
    r#"{"uri":"a.c"},"region":{"startLine":2}}}]}]}]}"#
);

/// A diff that adds line 2 of that file.
const DIFF: &str = "--- a/a.c\n+++ b/a.c\n@@ -1,2 +1,3 @@\n x\n+y\n z\n";

/// A suppression file without entries.
const NO_ENTRIES: &str = r#"{"version":1,"suppressions":[]}"#;

/// The first 50 bytes of the log of three results.
const BROKEN: &str = r#"{"version":"2.1.0","runs":[{"tool":{"driver":{"nam"#;

/// The log, ten bytes per read, which fails after this many reads.
fn failing(good: u32) -> GivenBytes {
    GivenBytes::failing_over(LOG, good)
}

/// Runs a request over one log alone.
fn run_by<T: Threads + Wait + Sync + AllocGlobal>(
    threads: &T,
    request: &Request,
    log: GivenBytes,
    rooms: Rooms,
) -> Result<Ended, AllocError> {
    let alloc = threads.alloc();
    let mut readers = Readers {
        logs: vec![in alloc; Counted::new(log)]?,
        baselines: Vec::new(alloc),
        suppressions: None,
        policy: None,
        diff: None,
    };
    let setting = Setting {
        request,
        rooms,
        is_explained: false,
    };
    run_over(threads, alloc, &setting, &mut readers, Vec::new(alloc))
}

/// Runs the request of the standard streams over one log alone.
fn run<T: Threads + Wait + Sync + AllocGlobal>(
    threads: &T,
    log: GivenBytes,
    rooms: Rooms,
) -> Result<Ended, AllocError> {
    let request = plain_request(threads.alloc())?;
    run_by(threads, &request, log, rooms)
}

/// Runs over the log with a gate on warnings, which lets `max` of them pass.
fn run_strict<T: Threads + Wait + Sync + AllocGlobal>(
    threads: &T,
    max: u32,
) -> Result<Ended, AllocError> {
    let mut request = plain_request(threads.alloc())?;
    request.options.policy.fail_on = Level::Warning;
    request.options.policy.max = max;
    run_by(threads, &request, GivenBytes::whole(LOG), AMPLE)
}

/// Runs a request over one log with a baseline and a suppression file.
fn run_all_by<T: Threads + Wait + Sync + AllocGlobal>(
    threads: &T,
    request: &Request,
    log: GivenBytes,
    baseline: GivenBytes,
    suppressions: GivenBytes,
) -> Result<Ended, AllocError> {
    let alloc = threads.alloc();
    let mut readers = Readers {
        logs: vec![in alloc; Counted::new(log)]?,
        baselines: vec![in alloc; Counted::new(baseline)]?,
        suppressions: Some(Counted::new(suppressions)),
        policy: None,
        diff: None,
    };
    let setting = Setting {
        request,
        rooms: AMPLE,
        is_explained: false,
    };
    run_over(threads, alloc, &setting, &mut readers, Vec::new(alloc))
}

/// Runs the request of the standard streams over one log with a baseline and a suppression file.
fn run_all<T: Threads + Wait + Sync + AllocGlobal>(
    threads: &T,
    log: GivenBytes,
    baseline: GivenBytes,
    suppressions: GivenBytes,
) -> Result<Ended, AllocError> {
    let request = plain_request(threads.alloc())?;
    run_all_by(threads, &request, log, baseline, suppressions)
}

/// Runs a request over one log with a suppression file and a diff.
fn run_change_by<T: Threads + Wait + Sync + AllocGlobal>(
    threads: &T,
    request: &Request,
    log: &'static str,
    suppressions: &'static str,
    diff: GivenBytes,
) -> Result<Ended, AllocError> {
    let alloc = threads.alloc();
    let mut readers = Readers {
        logs: vec![in alloc; Counted::new(GivenBytes::whole(log))]?,
        baselines: Vec::new(alloc),
        suppressions: Some(Counted::new(GivenBytes::whole(suppressions))),
        policy: None,
        diff: Some(Counted::new(diff)),
    };
    let setting = Setting {
        request,
        rooms: AMPLE,
        is_explained: false,
    };
    run_over(threads, alloc, &setting, &mut readers, Vec::new(alloc))
}

/// Runs the request of the standard streams over one log with a suppression file without entries and a diff.
fn run_change<T: Threads + Wait + Sync + AllocGlobal>(
    threads: &T,
    log: &'static str,
    diff: GivenBytes,
) -> Result<Ended, AllocError> {
    let request = plain_request(threads.alloc())?;
    run_change_by(threads, &request, log, NO_ENTRIES, diff)
}

/// Asserts that a run passed, and wrote the merged log and its summary.
fn assert_passed(rt: &impl Abort, ended: &Ended) {
    assert_eq!(rt; ended.status, 0);
    assert_eq!(rt; ended.out.as_slice(), MERGED.as_bytes());
    assert_eq!(rt; ended.say.as_slice(), SUMMARY.as_bytes());
    assert!(rt; ended.complain.is_empty());
}

/// Asserts that a run passed, wrote a merged log, and reported nothing.
fn assert_quiet(rt: &impl Abort, ended: &Ended) {
    assert_eq!(rt; ended.status, 0);
    assert!(rt; !ended.out.is_empty());
    assert!(rt; ended.complain.is_empty());
}

/// Asserts that a run wrote the first `room` bytes of the merged log, and reported that its writer failed.
fn assert_cut(rt: &impl Abort, ended: &Ended, room: usize) {
    assert_eq!(rt; ended.status, 3);
    assert_eq!(rt; ended.out.len(), room);
    assert!(rt; MERGED.as_bytes().starts_with(ended.out.as_slice()));
    assert!(rt; ended.say.is_empty());
    assert_eq!(rt;
        ended.complain.as_slice(),
        b"sarif_gate: output: WriteFailed\n".as_slice()
    );
}

/// Asserts that a run ended with this status, wrote no merged log, and reported this line.
fn assert_stopped(rt: &impl Abort, ended: &Ended, status: u8, line: &[u8]) {
    assert_eq!(rt; ended.status, status);
    assert!(rt; ended.out.is_empty());
    assert_eq!(rt; ended.complain.as_slice(), line);
}

#[test]
fn one_new_warning_passes_a_gate_on_errors(rt: HostRuntime) -> Result<(), Fail> {
    assert_passed(&rt, &run(&rt, GivenBytes::whole(LOG), AMPLE)?);
    Ok(())
}

#[test]
fn a_gate_on_warnings_fails(rt: HostRuntime) -> Result<(), Fail> {
    let ended = run_strict(&rt, 0)?;
    assert_eq!(rt; ended.status, 1);
    assert!(rt; ended.say.ends_with(b"\ngate: fail, hits 1, max 0\n"));
    Ok(())
}

#[test]
fn a_gate_that_lets_one_warning_pass(rt: HostRuntime) -> Result<(), Fail> {
    let ended = run_strict(&rt, 1)?;
    assert_eq!(rt; ended.status, 0);
    assert!(rt; ended.say.ends_with(b"\ngate: pass, hits 1, max 1\n"));
    Ok(())
}

#[test]
fn a_second_read_that_fails(rt: HostRuntime) -> Result<(), Fail> {
    let ended = run(&rt, failing(1), AMPLE)?;
    assert_stopped(&rt, &ended, 3, b"sarif_gate: log 0: ReadFailed\n");
    assert!(rt; ended.say.is_empty());
    Ok(())
}

/// The log ends with the eleventh read, and one more is needed to see it.
#[test]
fn each_read_that_is_reached_may_fail(rt: HostRuntime) -> Result<(), Fail> {
    for good in 0..12 {
        let ended = run(&rt, failing(good), AMPLE)?;
        assert_stopped(&rt, &ended, 3, b"sarif_gate: log 0: ReadFailed\n");
    }
    let ended = run(&rt, failing(12), AMPLE)?;
    assert_eq!(rt; ended.status, 0);
    Ok(())
}

/// The reads of a log come before those of its baseline. Each has one for every ten bytes, and one more to see its end.
#[test]
fn each_read_of_a_log_or_of_its_baseline_may_fail(rt: HostRuntime) -> Result<(), Fail> {
    let none = "{\"version\":1,\"suppressions\":[]}";
    for (is_log, wanted) in [
        (true, b"sarif_gate: log 0: ReadFailed\n".as_slice()),
        (false, b"sarif_gate: baseline 0: ReadFailed\n".as_slice()),
    ] {
        let text = if is_log { THREE } else { TWO };
        let reads = text.len().div_ceil(10) as u32 + 1;
        for good in 0..reads + 1 {
            let ended = run_all(
                &rt,
                GivenBytes::failing_over(THREE, if is_log { good } else { 1000 }),
                GivenBytes::failing_over(TWO, if is_log { 1000 } else { good }),
                GivenBytes::whole(none),
            )?;
            if good < reads {
                assert_stopped(&rt, &ended, 3, wanted);
            } else {
                assert_quiet(&rt, &ended);
            }
        }
    }
    Ok(())
}

#[test]
fn a_write_that_fails_leaves_the_beginning(rt: HostRuntime) -> Result<(), Fail> {
    let rooms = Rooms { out: 10, ..AMPLE };
    let ended = run(&rt, GivenBytes::whole(LOG), rooms)?;
    assert_eq!(rt; ended.out.as_slice(), b"{\"properti".as_slice());
    assert_cut(&rt, &ended, 10);
    Ok(())
}

#[test]
fn a_write_may_fail_at_each_byte(rt: HostRuntime) -> Result<(), Fail> {
    for room in 0..MERGED.len() {
        let rooms = Rooms { out: room, ..AMPLE };
        let ended = run(&rt, GivenBytes::whole(LOG), rooms)?;
        assert_cut(&rt, &ended, room);
    }
    Ok(())
}

#[test]
fn a_writer_that_takes_a_byte_at_a_time(rt: HostRuntime) -> Result<(), Fail> {
    let rooms = Rooms { piece: 1, ..AMPLE };
    assert_passed(&rt, &run(&rt, GivenBytes::whole(LOG), rooms)?);
    Ok(())
}

#[test]
fn a_lost_summary_is_told_by_the_status_alone(rt: HostRuntime) -> Result<(), Fail> {
    for room in 0..SUMMARY.len() {
        let rooms = Rooms { say: room, ..AMPLE };
        let ended = run(&rt, GivenBytes::whole(LOG), rooms)?;
        assert_eq!(rt; ended.status, 3);
        assert_eq!(rt; ended.out.as_slice(), MERGED.as_bytes());
        assert_eq!(rt; ended.say.len(), room);
        assert!(rt; ended.complain.is_empty());
    }
    Ok(())
}

#[test]
fn a_lost_complaint_changes_no_status(rt: HostRuntime) -> Result<(), Fail> {
    let rooms = Rooms {
        complain: 0,
        ..AMPLE
    };
    for log in [BROKEN, "{}"] {
        let ended = run(&rt, GivenBytes::whole(log), rooms)?;
        assert_stopped(&rt, &ended, 2, b"");
        assert!(rt; ended.say.is_empty());
    }
    Ok(())
}

#[test]
fn the_longest_error_line_is_written(rt: HostRuntime) -> Result<(), Fail> {
    let most = u32::MAX;
    let fault = MergeFault {
        at: At::Single(Source::Baseline(most), most, most),
        cause: Cause::Of(Fault::ExternalProperties),
    };
    let mut complaints = Complaints::new(Vec::new(rt.alloc()));
    complaints.complain(Complaint::Fault(fault));
    let line =
        b"sarif_gate: baseline 4294967295, run 4294967295, result 4294967295: ExternalProperties\n";
    assert_eq!(rt; complaints.out.inner().as_slice(), line.as_slice());
    Ok(())
}

#[test]
fn a_baseline_is_read_before_a_result_is_judged(rt: HostRuntime) -> Result<(), Fail> {
    let ended = run_all(
        &rt,
        GivenBytes::whole(BAD),
        GivenBytes::whole("{"),
        GivenBytes::whole("{}"),
    )?;
    assert_stopped(&rt, &ended, 2, b"sarif_gate: baseline 0: NotJson\n");
    Ok(())
}

#[test]
fn an_entry_without_a_condition_is_refused(rt: HostRuntime) -> Result<(), Fail> {
    let file = "{\"version\":1,\"suppressions\":[{}]}";
    let ended = run_all(
        &rt,
        GivenBytes::whole(BAD),
        GivenBytes::whole(LOG),
        GivenBytes::whole(file),
    )?;
    assert_stopped(
        &rt,
        &ended,
        2,
        b"sarif_gate: suppressions, entry 0: EmptyMatch\n",
    );
    Ok(())
}

#[test]
fn a_failed_read_is_told_at_its_source(rt: HostRuntime) -> Result<(), Fail> {
    let ended = run_all(
        &rt,
        GivenBytes::whole(LOG),
        failing(1),
        GivenBytes::whole("{}"),
    )?;
    assert_stopped(&rt, &ended, 3, b"sarif_gate: baseline 0: ReadFailed\n");
    let ended = run_all(
        &rt,
        GivenBytes::whole(LOG),
        GivenBytes::whole(LOG),
        failing(1),
    )?;
    assert_stopped(&rt, &ended, 3, b"sarif_gate: suppressions: ReadFailed\n");
    Ok(())
}

#[test]
fn results_outside_a_change_are_no_hits(rt: HostRuntime) -> Result<(), Fail> {
    let mut request = plain_request(rt.alloc())?;
    request.options.policy.fail_on = Level::Warning;
    for (scope, told) in [
        (
            Scope::Lines,
            b"\ndiff: files 1, lines 1, outside 1\ngate: fail, hits 1, max 0\n".as_slice(),
        ),
        (
            Scope::Files,
            b"\ndiff: files 1, lines 1, outside 0\ngate: fail, hits 2, max 0\n".as_slice(),
        ),
    ] {
        request.options.checks.scope = scope;
        let diff = GivenBytes::whole(DIFF);
        let ended = run_change_by(&rt, &request, LINES, NO_ENTRIES, diff)?;
        assert_eq!(rt; ended.status, 1);
        assert!(rt; ended.say.ends_with(told));
        assert!(rt; ended.complain.is_empty());
    }
    Ok(())
}

/// The diff is read last. It has one read for every ten bytes, and one more to see its end.
#[test]
fn each_read_of_a_diff_may_fail(rt: HostRuntime) -> Result<(), Fail> {
    let reads = DIFF.len().div_ceil(10) as u32 + 1;
    for good in 0..reads + 1 {
        let ended = run_change(&rt, LOG, GivenBytes::failing_over(DIFF, good))?;
        if good < reads {
            assert_stopped(&rt, &ended, 3, b"sarif_gate: diff: ReadFailed\n");
        } else {
            assert_quiet(&rt, &ended);
        }
    }
    Ok(())
}

#[test]
fn a_bad_diff_is_told_at_its_line(rt: HostRuntime) -> Result<(), Fail> {
    for (diff, line) in [
        ("", b"sarif_gate: diff: NoChange\n".as_slice()),
        (
            "\ndiff --cc a.c\n",
            b"sarif_gate: diff, line 2: Combined\n".as_slice(),
        ),
        (
            "diff --git a/s b/s\nindex 1..2 160000\n",
            b"sarif_gate: diff, line 2: Submodule\n".as_slice(),
        ),
        (
            "diff --git a/a.c b/b.c\n",
            b"sarif_gate: diff, line 1: BadHeader\n".as_slice(),
        ),
        (
            "--- a/a.c\n+++ b/a.c\n@@ -1 +1\n",
            b"sarif_gate: diff, line 3: BadHunk\n".as_slice(),
        ),
    ] {
        let ended = run_change(&rt, BAD, GivenBytes::whole(diff))?;
        assert_stopped(&rt, &ended, 2, line);
        assert!(rt; ended.say.is_empty());
    }
    Ok(())
}

#[test]
fn a_suppression_file_is_judged_before_a_diff(rt: HostRuntime) -> Result<(), Fail> {
    let request = plain_request(rt.alloc())?;
    let file = r#"{"version":1,"suppressions":[{}]}"#;
    let ended = run_change_by(&rt, &request, BAD, file, GivenBytes::whole(""))?;
    assert_stopped(
        &rt,
        &ended,
        2,
        b"sarif_gate: suppressions, entry 0: EmptyMatch\n",
    );
    Ok(())
}
