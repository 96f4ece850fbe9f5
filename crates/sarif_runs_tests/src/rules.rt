//! Examples computed by hand, and that each call succeeds if there is enough memory. A row is an expected value
//! and a run, whose first result gives its descriptor, its level and its place, or an error.
use sarif_members::Parts;
use sarif_model::{Fault, Kind, Level, Place, Record, Refusal};
use sarif_read::{Log, RawRun, read_log};
use sarif_runs::{
    Descriptor, IgnoredNames, RecordOptions, RunHead, make_record, open_run, read_parts,
};
use std::alloc::{AllocError, Global};
use std::hash::RandomState;
use std::io;
use std::process::Abort;
use std::random::RandomSource;
use std::test::Fail;

#[derive(Drop)]
struct Answer {
    descriptor: Option<Descriptor>,
    level: Level,
    place: Place,
}

fn read_run(alloc: Global, run: &str) -> Result<Log, Fail> {
    let text = format!(in alloc; "{{\"version\":\"2.1.0\",\"runs\":[{run}]}}")?;
    let log = read_log(alloc, text.as_bytes(), false)
        .ok()
        .ok_or("no log")?;
    Ok(log)
}

fn answer_by(head: &RunHead, parts: &Parts) -> Result<Answer, Refusal<Fault>> {
    let descriptor = head.descriptor(parts)?;
    let level = head.level(parts)?;
    let place = head.place(parts)?;
    Ok(Answer {
        descriptor,
        level,
        place,
    })
}

fn answer_in(alloc: Global, head: &RunHead, run: &RawRun) -> Result<Answer, Refusal<Fault>> {
    if run.len() == 0 {
        return Err(Refusal::Fault(Fault::NotLog));
    }
    let parts = read_parts(alloc, run, 0, false)?;
    answer_by(head, &parts)
}

fn answer_of(alloc: Global, seed: RandomState, run: &RawRun) -> Result<Answer, Refusal<Fault>> {
    let head = open_run(alloc, seed, run)?;
    answer_in(alloc, &head, run)
}

fn words_of(alloc: Global, answer: &Answer) -> Result<String, AllocError> {
    let level = answer.level.name();
    let uri = answer.place.uri.as_ref().map_or("-", |text| text.as_str());
    let base = answer.place.base.as_ref().map_or("-", |text| text.as_str());
    match answer.descriptor {
        Some(Descriptor { component, rule }) => {
            format!(in alloc; "{component}.{rule} {level} {uri} {base}")
        }
        None => format!(in alloc; "none {level} {uri} {base}"),
    }
}

fn answer_in_words(alloc: Global, seed: RandomState, run: &RawRun) -> Result<String, AllocError> {
    match answer_of(alloc, seed, run) {
        Ok(answer) => words_of(alloc, &answer),
        Err(fault) => format!(in alloc; "{fault}"),
    }
}

/// Random bytes that are all the same.
#[derive(Drop)]
struct EqualBytes(u8);

impl RandomSource for EqualBytes {
    fn fill_bytes(&self, buf: &mut [u8]) -> io::Result<()> {
        buf.fill(self.0);
        Ok(())
    }
}

// The result of a run for one of some seeds, if it isn't the expected one.
fn wrong_answer(alloc: Global, run: &RawRun, wanted: &str) -> Result<Option<String>, Fail> {
    for byte in [0, 1, 255] {
        let seed = RandomState::new(&EqualBytes(byte))?;
        let answer = answer_in_words(alloc, seed, run)?;
        if answer.as_str() != wanted {
            return Ok(Some(answer));
        }
    }
    Ok(None)
}

// The result of a run that isn't read yet, if it isn't the expected one.
fn wrong_answer_of(alloc: Global, run: &str, wanted: &str) -> Result<Option<String>, Fail> {
    let log = read_run(alloc, run)?;
    let first = log.runs().first().ok_or("no run")?;
    wrong_answer(alloc, first, wanted)
}

// The first row with a different result for one of some seeds, with that result.
fn wrong_row(alloc: Global, rows: &str) -> Result<Option<String>, Fail> {
    for row in rows.lines() {
        let (wanted, run) = row.split_once('|').ok_or("no bar")?;
        if let Some(answer) = wrong_answer_of(alloc, run, wanted)? {
            return Ok(Some(format!(in alloc; "{answer}|{run}")?));
        }
    }
    Ok(None)
}

#[test]
fn record_holds_what_the_result_and_its_run_say(rt: HostRuntime) -> Result<(), Fail> {
    let run =
        r#"{"tool":{"driver":{"name":"lint","rules":[{"id":"R1"}]}},"results":[{"ruleIndex":0,"kind":"open","message":{"text":"m","arguments":["x"]},"correlationGuid":"0f14d0ab-9605-4a62-a9e4-5ed26688389b","fingerprints":{"f":"1"},"suppressions":[{"kind":"inSource"}]}]}"#;
    let log = read_run(rt.alloc(), run)?;
    let first = log.runs().first().ok_or("no run")?;
    let seed = RandomState::new(&rt)?;
    let made = record_of(rt.alloc(), seed, first).ok().ok_or("no record")?;
    check_record(&rt, &made);
    Ok(())
}

fn check_record(rt: &impl Abort, made: &Record) {
    assert_eq!(rt; made.tool.as_str(), "lint");
    assert_eq!(rt; made.rule_id.as_str(), "R1");
    assert_eq!(rt; made.kind, Kind::Undecided);
    assert_eq!(rt; made.level, Level::NoLevel);
    assert_eq!(rt; made.message.args.as_slice().len(), 1);
    assert_eq!(rt;
        made.guid,
        Some(0x0f14_d0ab_9605_4a62_a9e4_5ed2_6688_389b_u128)
    );
    assert_eq!(rt; made.full.as_slice().len(), 1);
    assert!(rt; made.partial.as_slice().is_empty());
    assert_eq!(rt; made.held.as_slice().len(), 1);
}

fn record_of(alloc: Global, seed: RandomState, run: &RawRun) -> Result<Record, Refusal<Fault>> {
    let head = open_run(alloc, seed, run)?;
    if run.len() == 0 {
        return Err(Refusal::Fault(Fault::NotLog));
    }
    let options = RecordOptions {
        regions: false,
        ignored: IgnoredNames::new(&[]),
    };
    make_record(alloc, &head, run, 0, &options)
}

const BY_INDEX_OR_ID: &str =
    r#"BadIndex|{"tool":{"driver":{"name":"lint"}},"results":[{"ruleIndex":0}]}
none warning - -|{"tool":{"driver":{"name":"lint"}},"results":[{"ruleIndex":-1,"ruleId":"R1"}]}
BadIndex|{"tool":{"driver":{"name":"lint"}},"results":[{"ruleIndex":-2}]}
0.0 note - -|{"tool":{"driver":{"name":"lint","rules":[{"id":"R1","defaultConfiguration":{"level":"note"}},{"id":"R1","defaultConfiguration":{"level":"error"}}]}},"results":[{"ruleId":"R1"}]}
0.1 error - -|{"tool":{"driver":{"name":"lint","rules":[{"id":"R1","defaultConfiguration":{"level":"note"}},{"id":"R2","defaultConfiguration":{"level":"error"}}]}},"results":[{"ruleId":"R1","ruleIndex":1}]}
BadIndex|{"tool":{"driver":{"name":"lint","rules":[{"id":"R1","defaultConfiguration":{"level":"note"}},{"id":"R2","defaultConfiguration":{"level":"error"}}]}},"results":[{"ruleIndex":2}]}"#;

const BY_COMPONENT: &str =
    r#"1.0 error - -|{"tool":{"driver":{"name":"lint"},"extensions":[{"rules":[{"id":"E1","defaultConfiguration":{"level":"error"}}]}]},"results":[{"rule":{"id":"E1","toolComponent":{"index":0}}}]}
none warning - -|{"tool":{"driver":{"name":"lint"},"extensions":[{"rules":[{"id":"E1","defaultConfiguration":{"level":"error"}}]}]},"results":[{"ruleId":"E1"}]}
BadIndex|{"tool":{"driver":{"name":"lint"},"extensions":[{"rules":[{"id":"E1","defaultConfiguration":{"level":"error"}}]}]},"results":[{"rule":{"toolComponent":{"index":1}}}]}"#;

const OVERRIDES: &str =
    r#"0.0 note - -|{"tool":{"driver":{"name":"lint","rules":[{"id":"R1","defaultConfiguration":{"level":"note"}}]}},"invocations":[{"ruleConfigurationOverrides":[{"descriptor":{"index":0},"configuration":{"enabled":true}}]}],"results":[{"message":{"text":"m"},"ruleId":"R1","provenance":{"invocationIndex":0}}]}
0.0 error - -|{"tool":{"driver":{"name":"lint","rules":[{"id":"R1","defaultConfiguration":{"level":"note"}}]}},"invocations":[{"ruleConfigurationOverrides":[{"descriptor":{"index":0},"configuration":{"level":"error"}}]}],"results":[{"message":{"text":"m"},"ruleId":"R1","provenance":{"invocationIndex":0}}]}
0.0 note - -|{"tool":{"driver":{"name":"lint","rules":[{"id":"R1","defaultConfiguration":{"level":"note"}}]}},"invocations":[{"ruleConfigurationOverrides":[{"descriptor":{"index":0},"configuration":{"level":"error"}}]}],"results":[{"message":{"text":"m"},"ruleId":"R1"}]}
0.0 note - -|{"tool":{"driver":{"name":"lint","rules":[{"id":"R1","defaultConfiguration":{"level":"note"}}]}},"invocations":[{"ruleConfigurationOverrides":[{"descriptor":{"index":0}},{"descriptor":{"index":0},"configuration":{"level":"error"}}]}],"results":[{"message":{"text":"m"},"ruleId":"R1","provenance":{"invocationIndex":0}}]}
0.0 error - -|{"tool":{"driver":{"name":"lint","rules":[{"id":"R1","defaultConfiguration":{"level":"note"}}]}},"invocations":[{"ruleConfigurationOverrides":[{"configuration":{"level":"none"}},{"descriptor":{"index":0},"configuration":{"level":"error"}}]}],"results":[{"message":{"text":"m"},"ruleId":"R1","provenance":{"invocationIndex":0}}]}
0.0 note - -|{"tool":{"driver":{"name":"lint","rules":[{"id":"R1","defaultConfiguration":{"level":"note"}}]}},"invocations":[{"ruleConfigurationOverrides":[]},{"ruleConfigurationOverrides":[{"descriptor":{"index":0},"configuration":{"level":"error"}}]}],"results":[{"message":{"text":"m"},"ruleId":"R1","provenance":{"invocationIndex":0}}]}"#;

const KINDS: &str =
    r#"none none - -|{"tool":{"driver":{"name":"lint"}},"results":[{"kind":"pass","level":"error"}]}
none error - -|{"tool":{"driver":{"name":"lint"}},"results":[{"level":"error"}]}
BadIndex|{"tool":{"driver":{"name":"lint"}},"results":[{"kind":"pass","provenance":{"invocationIndex":0}}]}"#;

const PLACES: &str =
    r#"none warning a.c -|{"tool":{"driver":{"name":"lint"}},"artifacts":[{"location":{"uri":"a.c"}},{"location":{"uriBaseId":"B","index":0}}],"results":[{"locations":[{"physicalLocation":{"artifactLocation":{"index":0}}}]}]}
none warning b.c -|{"tool":{"driver":{"name":"lint"}},"artifacts":[{"location":{"uri":"a.c"}},{"location":{"uriBaseId":"B","index":0}}],"results":[{"locations":[{"physicalLocation":{"artifactLocation":{"uri":"b.c","index":0}}}]}]}
BadIndex|{"tool":{"driver":{"name":"lint"}},"artifacts":[{"location":{"uri":"a.c"}},{"location":{"uriBaseId":"B","index":0}}],"results":[{"locations":[{"physicalLocation":{"artifactLocation":{"index":2}}}]}]}
none warning a.c -|{"tool":{"driver":{"name":"lint"}},"artifacts":[{"location":{"uri":"a.c"}},{"location":{"uriBaseId":"B","index":0}}],"results":[{"locations":[{"physicalLocation":{"artifactLocation":{"uriBaseId":"S","index":0}}}]}]}
none warning b.c -|{"tool":{"driver":{"name":"lint"}},"artifacts":[{"location":{"uri":"a.c"}},{"location":{"uriBaseId":"B","index":0}}],"results":[{"locations":[{"physicalLocation":{"artifactLocation":{"uri":"b.c","index":9}}}]}]}
BadIndex|{"tool":{"driver":{"name":"lint"}},"artifacts":[{"location":{"uri":"a.c"}},{"location":{"uriBaseId":"B","index":0}}],"results":[{"locations":[{"physicalLocation":{"artifactLocation":{"uri":"b.c","index":-2}}}]}]}
none warning - -|{"tool":{"driver":{"name":"lint"}},"artifacts":[{"location":{"uri":"a.c"}},{"location":{"uriBaseId":"B","index":0}}],"results":[{"locations":[{"physicalLocation":{"artifactLocation":{"uriBaseId":"S"}}}]}]}
none warning - B|{"tool":{"driver":{"name":"lint"}},"artifacts":[{"location":{"uri":"a.c"}},{"location":{"uriBaseId":"B","index":0}}],"results":[{"locations":[{"physicalLocation":{"artifactLocation":{"index":1}}}]}]}
none warning b.c S|{"tool":{"driver":{"name":"lint"}},"artifacts":[{"location":{"uri":"a.c"}},{"location":{"uriBaseId":"B","index":0}}],"results":[{"locations":[{"physicalLocation":{"artifactLocation":{"uri":"b.c","uriBaseId":"S"}}}]}]}"#;

const ONE_ARTIFACT: &str =
    r#"none warning a.c -|{"tool":{"driver":{"name":"lint"}},"artifacts":[{"location":{"uri":"a.c"}}],"results":[{"locations":[{"physicalLocation":{"artifactLocation":{"index":0}}}]}]}
none warning b.c -|{"tool":{"driver":{"name":"lint"}},"artifacts":[{"location":{"uri":"a.c"}}],"results":[{"locations":[{"physicalLocation":{"artifactLocation":{"uri":"b.c","index":0}}}]}]}
BadIndex|{"tool":{"driver":{"name":"lint"}},"artifacts":[{"location":{"uri":"a.c"}}],"results":[{"locations":[{"physicalLocation":{"artifactLocation":{"index":1}}}]}]}
none warning a.c -|{"tool":{"driver":{"name":"lint"}},"artifacts":[{"location":{"uri":"a.c"}}],"results":[{"locations":[{"physicalLocation":{"artifactLocation":{"uriBaseId":"S","index":0}}}]}]}
none warning b.c -|{"tool":{"driver":{"name":"lint"}},"artifacts":[{"location":{"uri":"a.c"}}],"results":[{"locations":[{"physicalLocation":{"artifactLocation":{"uri":"b.c","index":9}}}]}]}
BadIndex|{"tool":{"driver":{"name":"lint"}},"artifacts":[{"location":{"uri":"a.c"}}],"results":[{"locations":[{"physicalLocation":{"artifactLocation":{"uri":"b.c","index":-2}}}]}]}"#;

const RESULT_FAULTS: &str =
    r#"BadKind|{"tool":{"driver":{"name":"lint"}},"results":[{"kind":"bad","correlationGuid":"x"}]}
BadFingerprint|{"tool":{"driver":{"name":"lint"}},"results":[{"fingerprints":{"a":1}}]}
none warning - -|{"tool":{"driver":{"name":"lint"}},"results":[{"fingerprints":{"a":null,"b":1.5}}]}
BadMember|{"tool":{"driver":{"name":"lint"}},"results":[{"message":{"arguments":[1]}}]}
none warning - -|{"tool":{"driver":{"name":"lint"}},"results":[{"message":{"arguments":[1.5]}}]}
none warning - -|{"tool":{"driver":{"name":"lint"}},"results":[{"locations":[]}]}
BadLocation|{"tool":{"driver":{"name":"lint"}},"results":[{"locations":[null]}]}"#;

const RULE_FAULTS: &str = r#"BadRules|{"tool":{"driver":{"name":"lint","rules":{}}},"results":[{}]}
BadRules|{"tool":{"driver":{"name":"lint","rules":[null]}},"results":[{}]}
BadRules|{"tool":{"driver":{"name":"lint","rules":[{}]}},"results":[{}]}
BadRules|{"tool":{"driver":{"name":"lint","rules":[{"id":1}]}},"results":[{}]}
BadRules|{"tool":{"driver":{"name":"lint","rules":[{"id":"R","defaultConfiguration":[]}]}},"results":[{}]}
BadLevel|{"tool":{"driver":{"name":"lint","rules":[{"id":"R","defaultConfiguration":{"level":"high"}}]}},"results":[{}]}
BadRules|{"tool":{"driver":{"name":"lint"},"extensions":{}},"results":[{}]}
BadRules|{"tool":{"driver":{"name":"lint"},"extensions":[1]},"results":[{}]}
BadRules|{"tool":{"driver":{"name":"lint"},"extensions":[{"rules":1}]},"results":[{}]}
BadRules|{"tool":{"driver":{"name":"lint"},"extensions":[{},{"rules":[{"id":null}]}]},"results":[{}]}
BadLevel|{"tool":{"driver":{"name":"lint"},"extensions":[{"rules":[{"id":"R","defaultConfiguration":{"level":"high"}}]}]},"results":[{}]}"#;

const ARTIFACT_FAULTS: &str =
    r#"BadLocation|{"tool":{"driver":{"name":"lint"}},"artifacts":{},"results":[{}]}
BadLocation|{"tool":{"driver":{"name":"lint"}},"artifacts":[null],"results":[{}]}
BadLocation|{"tool":{"driver":{"name":"lint"}},"artifacts":[{"location":1}],"results":[{}]}
BadLocation|{"tool":{"driver":{"name":"lint"}},"artifacts":[{"location":{"uri":1}}],"results":[{}]}
BadLocation|{"tool":{"driver":{"name":"lint"}},"artifacts":[{"location":{"uriBaseId":1}}],"results":[{}]}"#;

const OVERRIDE_FAULTS: &str =
    r#"BadMember|{"tool":{"driver":{"name":"lint"}},"invocations":{},"results":[{}]}
BadMember|{"tool":{"driver":{"name":"lint"}},"invocations":[[]],"results":[{}]}
BadMember|{"tool":{"driver":{"name":"lint"}},"invocations":[{"ruleConfigurationOverrides":1}],"results":[{}]}
BadMember|{"tool":{"driver":{"name":"lint"}},"invocations":[{"ruleConfigurationOverrides":[1]}],"results":[{}]}
BadMember|{"tool":{"driver":{"name":"lint"}},"invocations":[{"ruleConfigurationOverrides":[{"descriptor":"R1"}]}],"results":[{}]}
BadMember|{"tool":{"driver":{"name":"lint"}},"invocations":[{"ruleConfigurationOverrides":[{"descriptor":{"id":1,"index":9}}]}],"results":[{}]}
BadMember|{"tool":{"driver":{"name":"lint"}},"invocations":[{"ruleConfigurationOverrides":[{"descriptor":{"toolComponent":"t","index":9}}]}],"results":[{}]}
BadMember|{"tool":{"driver":{"name":"lint"}},"invocations":[{"ruleConfigurationOverrides":[{"descriptor":{"index":9},"configuration":"c"}]}],"results":[{}]}
BadIndex|{"tool":{"driver":{"name":"lint"}},"invocations":[{"ruleConfigurationOverrides":[]},{"ruleConfigurationOverrides":[{"descriptor":{"index":-2},"configuration":{"level":"high"}}]}],"results":[{}]}
BadIndex|{"tool":{"driver":{"name":"lint"}},"invocations":[{"ruleConfigurationOverrides":[{"descriptor":{"index":0}}]}],"results":[{}]}
BadIndex|{"tool":{"driver":{"name":"lint"}},"invocations":[{"ruleConfigurationOverrides":[{"descriptor":{"toolComponent":{"index":0}}}]}],"results":[{}]}
BadIndex|{"tool":{"driver":{"name":"lint"}},"invocations":[{"ruleConfigurationOverrides":[{"descriptor":{"toolComponent":{"index":4294967296}}}]}],"results":[{}]}
BadLevel|{"tool":{"driver":{"name":"lint","rules":[{"id":"R1","defaultConfiguration":{"level":"note"}}]}},"invocations":[{"ruleConfigurationOverrides":[{"descriptor":{"index":0},"configuration":{"level":"high"}}]}],"results":[{}]}"#;

const TWO_FAULTS: &str =
    r#"BadLevel|{"tool":{"driver":{"name":"lint","rules":[{"id":"R","defaultConfiguration":{"level":"high"}},1]}},"results":[{}]}
BadRules|{"tool":{"driver":{"name":"lint","rules":[1,{"id":"R","defaultConfiguration":{"level":"high"}}]}},"results":[{}]}
BadLevel|{"tool":{"driver":{"name":"lint","rules":[{"id":"R","defaultConfiguration":{"level":"high"}}]},"extensions":[{"rules":1}]},"results":[{}]}
BadRules|{"tool":{"driver":{"name":"lint","rules":1},"extensions":[{"rules":[{"id":"R","defaultConfiguration":{"level":"high"}}]}]},"results":[{}]}
BadRules|{"tool":{"driver":{"name":"lint","rules":[{"id":"R","defaultConfiguration":{"level":"high"}}]},"extensions":[1]},"results":[{}]}
BadLevel|{"tool":{"driver":{"name":"lint","rules":[{"id":"R","defaultConfiguration":{"level":"high"}}]}},"artifacts":[1],"results":[{}]}
BadLocation|{"tool":{"driver":{"name":"lint"}},"artifacts":[1],"invocations":[{"ruleConfigurationOverrides":[1]}],"results":[{}]}
BadLevel|{"tool":{"driver":{"name":"lint"}},"invocations":[{"ruleConfigurationOverrides":[{"configuration":{"level":"high"}},{"descriptor":{"index":0}}]}],"results":[{}]}
BadIndex|{"tool":{"driver":{"name":"lint"}},"invocations":[{"ruleConfigurationOverrides":[{"descriptor":{"index":0}},{"configuration":{"level":"high"}}]}],"results":[{}]}
BadLevel|{"tool":{"driver":{"name":"lint"}},"invocations":[{"ruleConfigurationOverrides":[{"configuration":{"level":"high"}}]},{"ruleConfigurationOverrides":[{"descriptor":{"index":0}}]}],"results":[{}]}
BadIndex|{"tool":{"driver":{"name":"lint"}},"invocations":[{"ruleConfigurationOverrides":[{"descriptor":{"index":0}}]},{"ruleConfigurationOverrides":[{"configuration":{"level":"high"}}]}],"results":[{}]}
BadMember|{"tool":{"driver":{"name":"lint"}},"invocations":[{"ruleConfigurationOverrides":[{"descriptor":{"index":0}}]},{"ruleConfigurationOverrides":1}],"results":[{}]}
BadLocation|{"tool":{"driver":{"name":"lint"}},"artifacts":[1],"results":[{"kind":"bad"}]}"#;

/// All tables, each with what its rows show.
const TABLES: [(&str, &str); 11] = [
    (
        "rules are found by index or by their first id",
        BY_INDEX_OR_ID,
    ),
    (
        "ids are looked up in the component that is named",
        BY_COMPONENT,
    ),
    (
        "the first override of the invocation comes before the default",
        OVERRIDES,
    ),
    ("the level is none unless the kind is fail", KINDS),
    ("a place has the own URI or that of the artifact", PLACES),
    ("places with one artifact", ONE_ARTIFACT),
    ("members of a result are checked in order", RESULT_FAULTS),
    (
        "errors of rules of the driver and of extensions",
        RULE_FAULTS,
    ),
    ("errors of artifacts", ARTIFACT_FAULTS),
    ("errors of overrides", OVERRIDE_FAULTS),
    ("the first of two errors is reported", TWO_FAULTS),
];

#[test]
fn each_row_gives_its_answer(rt: HostRuntime) -> Result<(), Fail> {
    for (shows, rows) in TABLES {
        let wrong = wrong_row(rt.alloc(), rows)?;
        assert_eq!(rt; wrong, None, "{shows}");
    }
    Ok(())
}
