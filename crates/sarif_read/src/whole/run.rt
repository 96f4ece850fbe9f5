//! A run of a log that was read, with its results.
use crate::absent::is_marked_absent;
use serde_json::Value;
use std::marker::Model;

/// A run whose form `read_log` checked: its results are objects, at most `MOST_RESULTS` (SARIF 2.1.0,
/// "run object"). Contracts see the run as its `Value`.
#[derive(Drop)]
pub struct RawRun {
    run: Value,
}

impl Model for RawRun {
    ghost use Rattle.std.specs.Prelude.{◌≤◌, length};
    ghost use Rattle.std.specs.Coded.{codes};
    ghost use Rattle.serde_json.specs.contracts.value.Value as json;
    ghost use Rattle.serde_json.specs.declared.value.Value.{Value as Json};
    ghost use Rattle.serde_json.specs.View.{view as seen};
    ghost use Rattle.sarif_model.specs.Run.{results_of};
    ghost use Rattle.sarif_model.specs.Limits.{most_results};

    ghost Value = { Json };

    ghost coded = { Prim.hlevel (codes, json.the_row.coded) };

    ghost view = { λ r. r.run };

    ghost invariant = { λ r. length (results_of (seen r.run)) ≤ most_results };
}

impl RawRun {
    ghost use Rattle.std.specs.Prelude.{◌≡◌, ◌<◌, ◌≤◌, length, is_some, map};
    ghost use Rattle.sarif_model.specs.Limits.{most_results};
    ghost use Rattle.serde_json.specs.View.{view as seen};
    ghost use Rattle.sarif_model.specs.Run.{results_of, results_array, result_at};
    ghost use Rattle.sarif_model.specs.Run.{is_absent_result};

    /// A run with at most `MOST_RESULTS` results.
    pub(crate) fn new(run: Value) -> RawRun
        requires { length (results_of (seen run)) ≤ most_results }
        ensures { result ≡ run }
    {
        RawRun { run }
    }

    /// How many results the run has, at most `MOST_RESULTS`.
    #[tactic(auto, using(sarif_model::proofs::Elements::elements_items_view, sarif_model::proofs::Elements::length_elements))]
    pub fn len(&self) -> u32
        ensures count { result ≡ length (results_of (seen self.now)) }
        ensures few { result ≤ most_results }
    {
        match self.run.get("results").and_then(Value::as_array) {
            Some(results) => results.len() as u32,
            None => 0,
        }
    }

    /// Whether the run has an array of results; where `results` is absent or null it has none.
    pub fn has_results(&self) -> bool
        ensures { result ≡ is_some (results_array (seen self.now)) }
    {
        self.run.get("results").and_then(Value::as_array).is_some()
    }

    /// The results, in their order.
    #[tactic(auto, using(sarif_model::proofs::Elements::elements_items_view))]
    pub fn results(&self) -> &[Value]
        ensures { map seen result.now ≡ results_of (seen self.now) }
    {
        match self.run.get("results").and_then(Value::as_array) {
            Some(results) => results.as_slice(),
            None => &[],
        }
    }

    /// Result `seq` of the run, counted from 0.
    pub fn result(&self, seq: u32) -> &Value
        requires { seq < length (results_of (seen self.now)) }
        ensures { seen result.now ≡ result_at (seen self.now) seq }
    {
        &self.results()[seq as usize]
    }

    /// Returns whether the `baselineState` of result `seq` is the string `absent`.
    pub fn is_absent(&self, seq: u32) -> bool
        requires { seq < length (results_of (seen self.now)) }
        ensures { result ≡ is_absent_result (result_at (seen self.now) seq) }
    {
        is_marked_absent(self.result(seq))
    }

    /// The run as it was read.
    pub fn value(&self) -> &Value
        ensures { result.now ≡ self.now }
    {
        &self.run
    }

    /// The run as it was read, taken out.
    pub fn into_value(self) -> Value
        ensures { result ≡ self }
    {
        let RawRun { run } = self;
        run
    }
}
