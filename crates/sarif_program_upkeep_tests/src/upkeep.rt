//! What is written for later merges, the lines on it, and in which order.

use sarif_options::{Knowing, Renewal};
use sarif_reports::Report;
use sarif_request::{Request, RequestedOutput};
use sarif_shown::Screen;
use sarif_streams::{Counted, Readers};
use std::alloc::{AllocError, AllocGlobal, Global};
use std::cell::RefCell;
use std::sync::Wait;
use std::test::Fail;
use std::thread::Threads;
use test_program::{Ended, GivenBytes, Narrow, Setting, plain_request, run_over};

/// A log of three errors: two of one rule, which differ in their rank, and one of another rule.
const HITS: &str = concat!(
    r#"{"version":"2.1.0","runs":[{"tool":{"driver":{"name":"lint"}},"results":["#,
    r#"{"level":"error","message":{"text":"m"},"ruleId":"R1"},"#,
    r#"{"level":"error","message":{"text":"m"},"ruleId":"R1","rank":1},"#,
    r#"{"level":"error","message":{"text":"m"},"ruleId":"R2"}]}]}"#
);

/// The suppression file that accepts them.
const ACCEPTED: &str = r#"{
  "suppressions": [
    {
      "message": "m",
      "ruleId": "R1",
      "tool": "lint"
    },
    {
      "message": "m",
      "ruleId": "R2",
      "tool": "lint"
    }
  ],
  "version": 4
}
"#;

const ACCEPTED_LINE: &str = "sarif_gate: 3 accepted, 0 stay, 0 pruned, 2 entries\n";

/// A log of an open note and of a failure without a rule.
const OPEN: &str = concat!(
    r#"{"version":"2.1.0","runs":[{"tool":{"driver":{"name":"lint"}},"results":["#,
    r#"{"kind":"open","level":"note"},{"kind":"fail","ruleId":""}]}]}"#
);

/// The known log of a merge of `OPEN`, with all of its results adopted.
const KNOWN: &str = r#"{
  "runs": [
    {
      "results": [
        {
          "kind": "open",
          "message": {}
        },
        {
          "level": "warning",
          "message": {}
        }
      ],
      "tool": {
        "driver": {
          "name": "lint"
        }
      }
    }
  ],
  "version": "2.1.0"
}
"#;

const KNOWN_LINE: &str = "sarif_gate: 2 known, 0 left out, 0 kept\n";

/// How many bytes two of the writers of a run accept in all. The others accept every byte.
#[derive(Clone, Copy)]
struct LaterRooms {
    later: usize,
    complain: usize,
}

/// Enough room for every output of these tests.
const AMPLE: LaterRooms = LaterRooms {
    later: 10_000,
    complain: 10_000,
};

/// The request to accept all hits.
fn accepting(alloc: Global) -> Result<Request, AllocError> {
    let mut request = plain_request(alloc)?;
    request.upkeep.renewal = Some(Renewal {
        accept: true,
        prune: false,
        reason: None,
        until: None,
    });
    Ok(request)
}

/// The request to know all results.
fn adopting(alloc: Global) -> Result<Request, AllocError> {
    let mut request = plain_request(alloc)?;
    request.upkeep.known = Some(Knowing::Adopted);
    Ok(request)
}

/// Runs a request over one log without a baseline and a suppression file. Besides the merged log, the run writes this
/// output; its bytes are returned too. If `is_explained` is set, the caller writes the error messages.
fn run<T: Threads + Wait + Sync + AllocGlobal>(
    threads: &T,
    request: &Request,
    log: &'static str,
    report: Report,
    rooms: LaterRooms,
    is_explained: bool,
) -> Result<(Ended, Vec<u8>), AllocError> {
    let alloc = threads.alloc();
    let mut readers = Readers {
        logs: vec![in alloc; Counted::new(GivenBytes::whole(log))]?,
        baselines: Vec::new(alloc),
        suppressions: None,
        policy: None,
        diff: None,
    };
    let later = RefCell::new(Vec::new(alloc));
    let to = Counted::new(Narrow::new(&later, 10_000, rooms.later));
    let reports = vec![in alloc; RequestedOutput { report, to }]?;
    let setting = Setting {
        request,
        rooms: test_program::Rooms {
            complain: rooms.complain,
            ..test_program::AMPLE
        },
        is_explained,
    };
    let ended = run_over(threads, alloc, &setting, &mut readers, reports)?;
    Ok((ended, later.into_inner()))
}

#[test]
fn accepted_hits_are_written_and_still_fail_this_gate(rt: HostRuntime) -> Result<(), Fail> {
    let request = accepting(rt.alloc())?;
    let (ended, later) = run(&rt, &request, HITS, Report::Suppressions, AMPLE, false)?;
    assert_eq!(rt; ended.status, 1);
    assert_eq!(rt; later.as_slice(), ACCEPTED.as_bytes());
    assert_eq!(rt; ended.complain.as_slice(), ACCEPTED_LINE.as_bytes());
    assert!(rt; ended.say.ends_with(b"\ngate: fail, hits 3, max 0\n"));
    Ok(())
}

#[test]
fn what_is_adopted_is_known(rt: HostRuntime) -> Result<(), Fail> {
    let request = adopting(rt.alloc())?;
    let (ended, later) = run(&rt, &request, OPEN, Report::Known, AMPLE, false)?;
    assert_eq!(rt; ended.status, 0);
    assert_eq!(rt; later.as_slice(), KNOWN.as_bytes());
    assert_eq!(rt; ended.complain.as_slice(), KNOWN_LINE.as_bytes());
    Ok(())
}

#[test]
fn a_lost_new_suppression_file_ends_the_run(rt: HostRuntime) -> Result<(), Fail> {
    let request = accepting(rt.alloc())?;
    for room in 0..ACCEPTED.len() {
        let rooms = LaterRooms {
            later: room,
            ..AMPLE
        };
        let (ended, later) = run(&rt, &request, HITS, Report::Suppressions, rooms, false)?;
        assert_eq!(rt; ended.status, 3);
        assert!(rt; !ended.out.is_empty());
        assert_eq!(rt; later.len(), room);
        assert!(rt; ended.say.is_empty());
        assert_eq!(rt;
            ended.complain.as_slice(),
            b"sarif_gate: new suppressions: WriteFailed\n".as_slice()
        );
    }
    Ok(())
}

#[test]
fn a_lost_output_is_named(rt: HostRuntime) -> Result<(), Fail> {
    let request = adopting(rt.alloc())?;
    let rooms = LaterRooms { later: 0, ..AMPLE };
    for (report, line) in [
        (
            Report::Known,
            b"sarif_gate: known log: WriteFailed\n".as_slice(),
        ),
        (
            Report::Text,
            b"sarif_gate: text report: WriteFailed\n".as_slice(),
        ),
        (
            Report::Html,
            b"sarif_gate: html report: WriteFailed\n".as_slice(),
        ),
        (
            Report::Terminal(Screen::Coloured),
            b"sarif_gate: terminal report: WriteFailed\n".as_slice(),
        ),
    ] {
        let (ended, _) = run(&rt, &request, HITS, report, rooms, false)?;
        assert_eq!(rt; ended.status, 3);
        assert!(rt; ended.say.is_empty());
        assert_eq!(rt; ended.complain.as_slice(), line);
    }
    Ok(())
}

#[test]
fn a_lost_line_changes_no_status(rt: HostRuntime) -> Result<(), Fail> {
    let request = accepting(rt.alloc())?;
    for room in 0..ACCEPTED_LINE.len() {
        let rooms = LaterRooms {
            complain: room,
            ..AMPLE
        };
        let (ended, later) = run(&rt, &request, HITS, Report::Suppressions, rooms, false)?;
        assert_eq!(rt; ended.status, 1);
        assert_eq!(rt; later.as_slice(), ACCEPTED.as_bytes());
        assert_eq!(rt; ended.complain.len(), room);
        assert!(rt;
            ACCEPTED_LINE
                .as_bytes()
                .starts_with(ended.complain.as_slice())
        );
        assert!(rt; ended.say.ends_with(b"\ngate: fail, hits 3, max 0\n"));
    }
    Ok(())
}

#[test]
fn an_explained_run_writes_lines_and_no_message(rt: HostRuntime) -> Result<(), Fail> {
    let request = accepting(rt.alloc())?;
    let (ended, later) = run(&rt, &request, HITS, Report::Suppressions, AMPLE, true)?;
    assert_eq!(rt; ended.status, 1);
    assert_eq!(rt; ended.complain.as_slice(), ACCEPTED_LINE.as_bytes());
    let (ended, later) = run(&rt, &request, "{", Report::Suppressions, AMPLE, true)?;
    assert_eq!(rt; ended.status, 2);
    assert!(rt; ended.complain.is_empty());
    assert!(rt; later.is_empty());
    Ok(())
}
