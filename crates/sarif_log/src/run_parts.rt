//! A run of the merged log, its results apart.
use serde_json::{Map, Value};

/// A run that is to be written (SARIF 2.1.0, "run object").
#[derive(Drop)]
pub struct RunParts {
    /// Its members but `results` and `baselineGuid`.
    pub members: Map<String, Value>,
    /// How many results it has, where it has an array of them.
    pub results: Option<u32>,
}
