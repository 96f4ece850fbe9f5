//! A run of an indexed log.
ghost use Rattle.std.specs.Prelude.{◌≤◌, length, IsTrue};
ghost use Rattle.serde_json.specs.View.{view};
ghost use Rattle.sarif_read.specs.Internal.Bare.{is_bare};
ghost use Rattle.sarif_read.specs.Internal.Listed.{nodes_of};
ghost use Rattle.sarif_model.specs.Limits.{most_results};

use crate::filling::{values_of, with_results};
use crate::listed::Listed;
use crate::location::location_in;
use crate::picking::pick_members;
use crate::read_message::ReadMessage;
use crate::references::{message_in, rule_in};
use crate::success::has_unsuccessful;
use crate::whole::RawRun;
use json_parts::Node;
use sarif_model::{FirstLocation, MessageReference, RuleReference};
use serde_json::Value;
use std::alloc::{AllocError, Global};

/// A run of a log whose form was checked (SARIF 2.1.0, "run object"): the run without its results, and the nodes
/// of its results in the log's index. Contracts see it by `run_of`, which is the whole run, stripped.
#[derive(Drop)]
pub struct IndexedRun<'t, 'a> {
    bare: Value,
    results: Listed<'t, 'a>,
    ghost beside: { IsTrue (is_bare (view bare)) },
    ghost few: { length (nodes_of results) ≤ most_results },
}

impl<'t, 'a> IndexedRun<'t, 'a> {
    ghost use Rattle.std.specs.Prelude.{◌≡◌, ◌<◌, ◌≤◌, length, map, is_some, IfOk, IsTrue};
    ghost use Rattle.serde_json.specs.View.{view};
    ghost use Rattle.sarif_model.specs.Internal.FirstLocation.{IsFirstLocation};
    ghost use Rattle.sarif_model.specs.Internal.References.{IsRuleReference};
    ghost use Rattle.sarif_read.specs.Internal.ReadMessage.{IsReadMessage};
    ghost use Rattle.sarif_model.specs.Run.{results_of, results_array, result_at};
    ghost use Rattle.sarif_read.specs.Internal.Bare.{bare, is_bare};
    ghost use Rattle.sarif_read.specs.Failed.{failed};
    ghost use Rattle.sarif_read.specs.Internal.Listed.{nodes_of, value_at};
    ghost use Rattle.sarif_read.specs.Internal.Indexed.{run_of};
    ghost use Rattle.sarif_read.specs.Internal.Picked.{picked};
    ghost use Rattle.sarif_read.specs.Unmarked.{without_marked};

    /// A run of an object without results, and of its results.
    pub(crate) fn new(bare: Value, results: Listed<'t, 'a>) -> IndexedRun<'t, 'a>
        requires beside { IsTrue (is_bare (view bare)) }
        requires few { length (nodes_of results) ≤ most_results }
        ensures bare { result.bare ≡ bare }
        ensures results { result.results ≡ results.entry }
    {
        IndexedRun { bare, results }
    }

    /// How many results the run has, at most `MOST_RESULTS`.
    #[tactic(auto, using(crate::proofs::RunOf::count_results))]
    pub fn len(&self) -> u32
        ensures count { result ≡ length (results_of (run_of self.now)) }
        ensures few { result ≤ most_results }
    {
        self.results.len() as u32
    }

    /// Whether the run has an array of results; where `results` is absent or null it has none.
    #[tactic(auto, using(crate::proofs::RunOf::has_array))]
    pub fn has_results(&self) -> bool
        ensures { result ≡ is_some (results_array (run_of self.now)) }
    {
        match &self.results {
            Listed::Array(_) => true,
            Listed::Missing | Listed::Null => false,
        }
    }

    /// Whether the analysis of the run failed: an invocation has an `executionSuccessful` that is false, or the run
    /// has no results (SARIF 2.1.0, invocation object, "executionSuccessful property"; run object, "results
    /// property").
    #[tactic(auto, using(crate::proofs::Beside::bare_unsuccessful))]
    pub fn has_failed(&self) -> bool
        ensures { result ≡ failed (run_of self.now) }
    {
        has_unsuccessful(self.bare()) || !self.has_results()
    }

    /// The run without its results.
    #[tactic(auto, using(crate::proofs::RunOf::bare_run))]
    pub fn bare(&self) -> &Value
        ensures { view result.now ≡ bare (run_of self.now) }
    {
        &self.bare
    }

    /// The run without those of its results that are marked. Returns `AllocError` if memory for the list of the
    /// others runs out.
    #[tactic(auto, using(crate::proofs::RunOf::count_results, crate::proofs::Only::few_kept))]
    pub fn without(self, alloc: Global, marked: &[bool]) -> Result<IndexedRun<'t, 'a>, AllocError>
        requires { length marked.now ≡ length (results_of (run_of self)) }
        ensures { IfOk result
            (λ kept. run_of kept ≡ without_marked marked.now (run_of self.entry)) }
    {
        let IndexedRun { bare, results } = self;
        let results = results.without(alloc, marked)?;
        Ok(IndexedRun { bare, results })
    }

    /// The run without its results, taken out.
    #[tactic(auto, using(crate::proofs::RunOf::bare_run))]
    pub fn into_bare(self) -> Value
        ensures { view result ≡ bare (run_of self.entry) }
    {
        let IndexedRun { bare, results } = self;
        drop(results);
        bare
    }

    /// Result `seq` of the run, numbered from 0, stripped. Returns `AllocError` if memory for it runs out.
    #[tactic(auto, using(crate::proofs::RunOf::count_results, crate::proofs::RunOf::nth_result))]
    pub fn result(&self, alloc: Global, seq: u32) -> Result<Value, AllocError>
        requires { seq < length (results_of (run_of self.now)) }
        ensures { IfOk result (λ value. view value ≡ result_at (run_of self.now) seq) }
    {
        match &self.results {
            Listed::Array(nodes) => nodes[seq as usize].to_value(alloc),
            Listed::Missing | Listed::Null => Ok(Value::Null),
        }
    }

    /// The node of result `seq` of the run, numbered from 0.
    #[tactic(auto, using(crate::proofs::RunOf::count_results, crate::proofs::RunOf::nth_result))]
    pub fn node(&self, seq: u32) -> &Node<'t, 'a>
        requires { seq < length (results_of (run_of self.now)) }
        ensures { value_at result.now ≡ result_at (run_of self.now) seq }
    {
        match &self.results {
            Listed::Array(nodes) => &nodes[seq as usize],
            Listed::Missing | Listed::Null => unreachable!(),
        }
    }

    /// Result `seq` of the run, with only its members that have one of these names. Returns `AllocError` if memory
    /// for them runs out.
    #[tactic(auto, using(crate::proofs::RunOf::count_results, crate::proofs::RunOf::nth_result))]
    pub fn pick_result(&self, alloc: Global, seq: u32, names: &[&str]) -> Result<Value, AllocError>
        requires { seq < length (results_of (run_of self.now)) }
        ensures { IfOk result (λ value. view value
            ≡ picked (map (λ name. name.now) names.now) (result_at (run_of self.now) seq)) }
    {
        match &self.results {
            Listed::Array(nodes) => pick_members(alloc, &nodes[seq as usize], names),
            Listed::Missing | Listed::Null => Ok(Value::Null),
        }
    }

    /// What reports show of the first location of result `seq` of the run. No value is made of it.
    #[tactic(auto, using(crate::proofs::RunOf::count_results, crate::proofs::RunOf::nth_result))]
    pub fn first_location(&self, seq: u32) -> FirstLocation<'a>
        requires { seq < length (results_of (run_of self.now)) }
        ensures { IsFirstLocation result (result_at (run_of self.now) seq) }
    {
        match &self.results {
            Listed::Array(nodes) => location_in(&nodes[seq as usize]),
            Listed::Missing | Listed::Null => FirstLocation {
                uri: None,
                artifact: None,
                line: None,
                column: None,
            },
        }
    }

    /// How result `seq` of the run refers to its rule. No value is made of it.
    #[tactic(auto, using(crate::proofs::RunOf::count_results, crate::proofs::RunOf::nth_result))]
    pub fn rule_reference(&self, seq: u32) -> RuleReference<'a>
        requires { seq < length (results_of (run_of self.now)) }
        ensures { IsRuleReference result (result_at (run_of self.now) seq) }
    {
        match &self.results {
            Listed::Array(nodes) => rule_in(&nodes[seq as usize]),
            Listed::Missing | Listed::Null => RuleReference {
                id: None,
                index: None,
                extension: None,
            },
        }
    }

    /// What reports read from the message of result `seq` of the run: values are made of its arguments alone. Returns
    /// `AllocError` if memory for them runs out.
    #[tactic(auto, using(crate::proofs::RunOf::count_results, crate::proofs::RunOf::nth_result))]
    pub fn message(&self, alloc: Global, seq: u32) -> Result<ReadMessage<'a>, AllocError>
        requires { seq < length (results_of (run_of self.now)) }
        ensures { IfOk result (IsReadMessage (result_at (run_of self.now) seq)) }
    {
        match &self.results {
            Listed::Array(nodes) => message_in(alloc, &nodes[seq as usize]),
            Listed::Missing | Listed::Null => Ok(ReadMessage {
                reference: MessageReference {
                    text: None,
                    id: None,
                },
                arguments: Vec::new(alloc),
            }),
        }
    }

    /// The run with all its results, stripped.
    #[tactic(auto, using(crate::proofs::RunOf::view_array))]
    fn into_whole(self, alloc: Global) -> Result<Value, AllocError>
        ensures { IfOk result (λ whole. view whole ≡ run_of self.entry) }
    {
        let IndexedRun { bare, results } = self;
        match results {
            Listed::Missing => Ok(bare),
            Listed::Null => with_results(alloc, bare, Value::Null),
            Listed::Array(nodes) => {
                let values = values_of(alloc, nodes.as_slice())?;
                with_results(alloc, bare, Value::Array(values))
            }
        }
    }

    /// The run with all its results, as [`read_log`](crate::read_log) returns it. Returns `AllocError` if memory
    /// for the results runs out.
    #[tactic(auto, using(crate::proofs::RunOf::few_whole))]
    pub fn into_raw(self, alloc: Global) -> Result<RawRun, AllocError>
        ensures { IfOk result (λ run. view run ≡ run_of self.entry) }
    {
        Ok(RawRun::new(self.into_whole(alloc)?))
    }
}
