//! A log that is read by its index, a result at a time.
use json::Scratch;
use json_parts::index_text;
use sarif_read::{IndexedRun, index_log, read_log};
use std::alloc::{AllocError, Global};
use std::test::Fail;

/// Three runs: with fractions in it and in its results, with none, and with null for results.
const LOG: &str = r#"{"version":"2.1.0","runs":[
    {"results":[{"rank":2.5,"message":{"text":"m"}},{"ruleIndex":1,"at":[[1e3],2]}],
        "tool":{"driver":{"name":"a","rank":1.5}},"properties":{"of":[1,2.5]}},
    {"tool":{"driver":{"name":"b"}},"columns":[{"width":3,"share":0.5}]},
    {"tool":{"driver":{"name":"c"}},"results":null}
    ],"rank":0.5}"#;

/// The run without its results, whether it has them, and each of them.
fn push_run(alloc: Global, texts: &mut String, run: &IndexedRun<'_, '_>) -> Result<(), AllocError> {
    texts.push_str(run.bare().to_string(alloc)?.as_str())?;
    texts.push_str(if run.has_results() {
        " has "
    } else {
        " hasn't "
    })?;
    for seq in 0..run.len() {
        texts.push_str(run.result(alloc, seq)?.to_string(alloc)?.as_str())?;
    }
    texts.push('\n')
}

fn texts_of(alloc: Global, runs: &[IndexedRun<'_, '_>]) -> Result<String, AllocError> {
    let mut texts = String::new(alloc);
    for run in runs {
        push_run(alloc, &mut texts, run)?;
    }
    Ok(texts)
}

#[test]
fn results_are_made_one_at_a_time(rt: HostRuntime) -> Result<(), Fail> {
    let alloc = rt.alloc();
    let mut scratch = Scratch::new(alloc);
    let index = index_text(alloc, LOG.as_bytes(), &mut scratch)?;
    let runs = index_log(alloc, &index, false)?;
    let texts = texts_of(alloc, &runs)?;
    assert_eq!(rt;
        texts.as_str(),
        "{\"properties\":{},\"tool\":{\"driver\":{\"name\":\"a\"}}} has \
            {\"message\":{\"text\":\"m\"}}{\"ruleIndex\":1}\n\
            {\"columns\":[{\"width\":3}],\"tool\":{\"driver\":{\"name\":\"b\"}}} hasn't \n\
            {\"tool\":{\"driver\":{\"name\":\"c\"}}} hasn't \n"
    );
    Ok(())
}

/// Three runs that failed: by the word of an invocation, without results, and with results that are left out. And one
/// whose invocations say nothing of it.
const FAILED: &str = r#"{"version":"2.1.0","runs":[
    {"tool":{"driver":{"name":"a"}},"results":[],
        "invocations":[{"executionSuccessful":true},{"executionSuccessful":false}]},
    {"tool":{"driver":{"name":"b"}}},
    {"tool":{"driver":{"name":"c"}},"results":[1.5]},
    {"tool":{"driver":{"name":"d"}},"results":[],"invocations":[{},{"executionSuccessful":null}]}
    ]}"#;

#[test]
fn a_run_failed_by_its_own_word_or_without_results(rt: HostRuntime) -> Result<(), Fail> {
    let alloc = rt.alloc();
    let mut scratch = Scratch::new(alloc);
    let index = index_text(alloc, FAILED.as_bytes(), &mut scratch)?;
    let runs = index_log(alloc, &index, false)?;
    let wanted = [true, true, true, false];
    assert_eq!(rt; runs.len(), wanted.len());
    for (run, failed) in runs.iter().zip(wanted.iter()) {
        assert_eq!(rt; run.has_failed(), *failed);
    }
    Ok(())
}

/// Returns whether the run without its results has none.
fn is_bare(run: IndexedRun<'_, '_>) -> bool {
    run.into_bare().get("results").is_none()
}

#[test]
fn a_run_is_kept_without_its_results(rt: HostRuntime) -> Result<(), Fail> {
    let alloc = rt.alloc();
    let mut scratch = Scratch::new(alloc);
    let index = index_text(alloc, LOG.as_bytes(), &mut scratch)?;
    for run in index_log(alloc, &index, false)? {
        assert!(rt; is_bare(run));
    }
    Ok(())
}

#[test]
fn a_log_is_read_with_all_its_results(rt: HostRuntime) -> Result<(), Fail> {
    let alloc = rt.alloc();
    let log = read_log(alloc, LOG.as_bytes(), false)?;
    let mut texts = String::new(alloc);
    for run in log.runs() {
        texts.push_str(run.value().to_string(alloc)?.as_str())?;
        texts.push('\n')?;
    }
    assert_eq!(rt;
        texts.as_str(),
        "{\"properties\":{},\"results\":[{\"message\":{\"text\":\"m\"}},{\"ruleIndex\":1}],\
            \"tool\":{\"driver\":{\"name\":\"a\"}}}\n\
            {\"columns\":[{\"width\":3}],\"tool\":{\"driver\":{\"name\":\"b\"}}}\n\
            {\"results\":null,\"tool\":{\"driver\":{\"name\":\"c\"}}}\n"
    );
    Ok(())
}
