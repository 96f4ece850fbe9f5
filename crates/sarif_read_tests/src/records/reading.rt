//! Logs that are read as whole values.
use sarif_model::{Fault, Refusal};
use sarif_read::read_log;
use std::alloc::Global;
use std::test::Fail;

/// The runs of a log as JSON, each with a newline.
fn read_runs(alloc: Global, log: &str) -> Result<String, Fail> {
    let log = read_log(alloc, log.as_bytes(), false)?;
    let mut runs = String::new(alloc);
    for run in log.runs() {
        runs.push_str(run.value().to_string(alloc)?.as_str())?;
        runs.push('\n')?;
    }
    Ok(runs)
}

/// Two runs with fractions in them and in their results.
const LOG: &str = r#"{"version":"2.1.0","runs":[
    {"tool":{"driver":{"name":"a","rank":1.5}},"properties":{"of":[1,2.5]},
        "results":[{"rank":2.5,"message":{"text":"m"}},{"ruleIndex":1,"at":[[1e3],2]}]},
    {"tool":{"driver":{"name":"b"}},"results":[{"rank":-0.5}],"columns":[{"width":3,"share":0.5}]}
    ],"rank":0.5}"#;

/// The same runs without them.
const RUNS: &str = "{\"properties\":{},\
    \"results\":[{\"message\":{\"text\":\"m\"}},{\"ruleIndex\":1}],\
    \"tool\":{\"driver\":{\"name\":\"a\"}}}\n\
    {\"columns\":[{\"width\":3}],\"results\":[{}],\"tool\":{\"driver\":{\"name\":\"b\"}}}\n";

/// A log with a run that names external property files of a taxonomy.
const NAMING: &str = r#"{"version":"2.1.0","runs":[{"tool":{"driver":{"name":"a"}},
    "externalPropertyFileReferences":{"taxonomies":[{}],"results":[]}}]}"#;

#[test]
fn external_property_files_are_allowed_or_not(rt: HostRuntime) -> Result<(), Fail> {
    let alloc = rt.alloc();
    let log = read_log(alloc, NAMING.as_bytes(), true)?;
    assert_eq!(rt; log.runs().len(), 1);
    match read_log(alloc, NAMING.as_bytes(), false) {
        Err(Refusal::Fault(fault)) => {
            assert_eq!(rt; fault.run, Some(0));
            assert_eq!(rt; fault.fault, Fault::ExternalProperties);
        }
        _ => panic!(rt; "external property files are allowed"),
    }
    Ok(())
}

#[test]
fn the_runs_of_a_log_are_stripped(rt: HostRuntime) -> Result<(), Fail> {
    assert_eq!(rt; read_runs(rt.alloc(), LOG)?.as_str(), RUNS);
    Ok(())
}
