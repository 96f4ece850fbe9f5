//! A run with what its results need of it.
ghost use Rattle.std.specs.Prelude.{◌≡◌, ◌<◌, ◌≤◌, false, is_some, length, map, IfOk};
ghost use Rattle.serde_json.specs.View.{view};
ghost use Rattle.serde_json.specs.Written.{has_float};
ghost use Rattle.sarif_read.specs.Internal.Indexed.{run_of};
ghost use Rattle.sarif_runs.specs.Head.{head_of};
ghost use Rattle.sarif_model.specs.Limits.{most_results};
ghost use Rattle.sarif_model.specs.Driver.{tool_name};

use crate::head::RunHead;
use crate::item::Item;
use crate::making::{copy_tool_name, make_node_record};
use crate::open::open_value;
use crate::run_options::RunOptions;
use json_parts::Node;
use sarif_model::{Fault, FirstLocation, Refusal, RuleReference, Source, Text};
use sarif_read::{IndexedRun, ReadMessage};
use serde_json::Value;
use std::alloc::{AllocError, Global};
use std::hash::RandomState;

/// A run with its log or baseline and the outcome of opening it: its head, or its error (SARIF 2.1.0, "run
/// object").
#[derive(Drop)]
pub struct OpenedRun<'t, 'a> {
    /// The log or the baseline that it is in.
    pub source: Source,
    /// Its number in its source, from 0.
    pub number: u32,
    /// How it is read.
    pub options: RunOptions<'t>,
    pub(crate) run: IndexedRun<'t, 'a>,
    pub(crate) tool: Text,
    pub(crate) head: Result<RunHead, Fault>,
    ghost tool_is: { tool ≡ tool_name (run_of run) },
    ghost head_is: { head ≡ head_of (run_of run) },
    ghost whole: { has_float (run_of run) ≡ false },
}

/// The head of a run, or its error.
fn open_head(
    alloc: Global,
    seed: RandomState,
    run: &Value,
) -> Result<Result<RunHead, Fault>, AllocError>
    ensures { IfOk result (λ head. head ≡ head_of (view run.now)) }
{
    match open_value(alloc, seed, run) {
        Ok(head) => Ok(Ok(head)),
        Err(Refusal::Fault(fault)) => Ok(Err(fault)),
        Err(Refusal::OutOfMemory) => Err(AllocError),
    }
}

impl<'t, 'a> OpenedRun<'t, 'a> {
    ghost use Rattle.sarif_runs.specs.Judging.{item_by, opening_fault};
    ghost use Rattle.sarif_runs.specs.Record.{record_of};
    ghost use Rattle.sarif_runs.specs.Internal.Opened.{placed_of};
    ghost use Rattle.sarif_runs.specs.Unmarked.{placed_without};
    ghost use Rattle.sarif_read.specs.Internal.Bare.{bare};
    ghost use Rattle.sarif_read.specs.Failed.{failed};
    ghost use Rattle.sarif_read.specs.Internal.Listed.{value_at};
    ghost use Rattle.sarif_read.specs.Internal.Picked.{picked};
    ghost use Rattle.sarif_model.specs.Internal.FirstLocation.{IsFirstLocation};
    ghost use Rattle.sarif_model.specs.Internal.References.{IsRuleReference};
    ghost use Rattle.sarif_read.specs.Internal.ReadMessage.{IsReadMessage};
    ghost use Rattle.sarif_model.specs.Run.{result_at, results_array, results_of};

    /// Opens run `number` of a source, which holds no number with a fraction. The tables of its head hash with
    /// `seed`, on which no result depends. If the run must succeed, it is an error of it that its analysis failed.
    /// Returns `AllocError` if memory runs out. An error of the run is not returned; it is kept with the run (see
    /// `fault`).
    #[tactic(auto, using(crate::proofs::Beside::bare_head, crate::proofs::Beside::bare_tool_name))]
    pub fn open(
        alloc: Global,
        seed: RandomState,
        source: Source,
        number: u32,
        options: RunOptions<'t>,
        run: IndexedRun<'t, 'a>,
    ) -> Result<OpenedRun<'t, 'a>, AllocError>
        requires whole { has_float (run_of run) ≡ false }
        ensures placed { IfOk result (λ opened. placed_of opened
            ≡ record {
              source = source;
              number = number;
              options = options.entry;
              run = run_of run.entry;
            }) }
    {
        let tool = copy_tool_name(alloc, run.bare())?;
        let head = open_head(alloc, seed, run.bare())?;
        Ok(OpenedRun {
            source,
            number,
            options,
            run,
            tool,
            head,
        })
    }

    /// Why the run cannot be opened: the first error of [`open_value`](sarif_runs::open_value), otherwise
    /// `NotSuccessful` if its analysis failed and must not have, otherwise `None`.
    pub fn fault(&self) -> Option<Fault>
        ensures { result ≡ opening_fault (placed_of self.now) }
    {
        match &self.head {
            Ok(_) => {
                if self.options.must_succeed && self.has_failed() {
                    Some(Fault::NotSuccessful)
                } else {
                    None
                }
            }
            Err(fault) => Some(*fault),
        }
    }

    /// The name of the run's tool (SARIF 2.1.0, toolComponent object, "name property"); empty if it has none.
    pub fn tool(&self) -> &Text
        ensures { result.now ≡ tool_name (placed_of self.now).run }
    {
        &self.tool
    }

    /// How many results the run has, at most `MOST_RESULTS`.
    pub fn len(&self) -> u32
        ensures count { result ≡ length (results_of (placed_of self.now).run) }
        ensures few { result ≤ most_results }
    {
        self.run.len()
    }

    /// Whether the run has an array of results; where `results` is absent or null it has none.
    pub fn has_results(&self) -> bool
        ensures { result ≡ is_some (results_array (placed_of self.now).run) }
    {
        self.run.has_results()
    }

    /// Whether the analysis of the run failed: an invocation has an `executionSuccessful` that is false, or the run
    /// has no results (SARIF 2.1.0, invocation object, "executionSuccessful property"; run object, "results
    /// property").
    pub fn has_failed(&self) -> bool
        ensures { result ≡ failed (placed_of self.now).run }
    {
        self.run.has_failed()
    }

    /// The run without its results.
    pub fn bare(&self) -> &Value
        ensures { view result.now ≡ bare (placed_of self.now).run }
    {
        self.run.bare()
    }

    /// Result `seq` of the run, numbered from 0, stripped. Returns `AllocError` if memory for it runs out.
    pub fn result(&self, alloc: Global, seq: u32) -> Result<Value, AllocError>
        requires { seq < length (results_of (placed_of self.now).run) }
        ensures { IfOk result (λ found. view found ≡ result_at (placed_of self.now).run seq) }
    {
        self.run.result(alloc, seq)
    }

    /// The record of result `seq` of the run, numbered from 0, as the options say, or its first error; no value of it is
    /// made. Returns `AllocError` if memory runs out.
    #[tactic(auto, unfolding(crate::specs::Record::record_of))]
    pub fn item_at(&self, alloc: Global, seq: u32) -> Result<Item, AllocError>
        requires { seq < length (results_of (placed_of self.now).run) }
        ensures { IfOk result (λ item. item ≡ item_by
            (record_of (placed_of self.now).options.records (placed_of self.now).run seq)) }
    {
        let head = match &self.head {
            Ok(head) => head,
            Err(fault) => return Ok(Item::Bad(*fault)),
        };
        let (found, options) = (self.node(seq), &self.options.records);
        match make_node_record(alloc, head, &self.tool, found, options) {
            Ok(record) => Ok(Item::Sound(record)),
            Err(Refusal::Fault(fault)) => Ok(Item::Bad(fault)),
            Err(Refusal::OutOfMemory) => Err(AllocError),
        }
    }

    /// Result `seq` of the run, numbered from 0, with only its members that have one of these names. Returns
    /// `AllocError` if memory for them runs out.
    pub fn pick_result(&self, alloc: Global, seq: u32, names: &[&str]) -> Result<Value, AllocError>
        requires { seq < length (results_of (placed_of self.now).run) }
        ensures { IfOk result (λ found. view found ≡ picked (map (λ name. name.now) names.now)
            (result_at (placed_of self.now).run seq)) }
    {
        self.run.pick_result(alloc, seq, names)
    }

    /// The node of result `seq` of the run, numbered from 0.
    pub fn node(&self, seq: u32) -> &Node<'t, 'a>
        requires { seq < length (results_of (placed_of self.now).run) }
        ensures { value_at result.now ≡ result_at (placed_of self.now).run seq }
    {
        self.run.node(seq)
    }

    /// What reports show of the first location of result `seq` of the run, numbered from 0.
    pub fn first_location(&self, seq: u32) -> FirstLocation<'a>
        requires { seq < length (results_of (placed_of self.now).run) }
        ensures { IsFirstLocation result (result_at (placed_of self.now).run seq) }
    {
        self.run.first_location(seq)
    }

    /// How result `seq` of the run, numbered from 0, refers to its rule.
    pub fn rule_reference(&self, seq: u32) -> RuleReference<'a>
        requires { seq < length (results_of (placed_of self.now).run) }
        ensures { IsRuleReference result (result_at (placed_of self.now).run seq) }
    {
        self.run.rule_reference(seq)
    }

    /// What reports read from the message of result `seq` of the run, numbered from 0. Returns `AllocError` if memory
    /// for its arguments runs out.
    pub fn message(&self, alloc: Global, seq: u32) -> Result<ReadMessage<'a>, AllocError>
        requires { seq < length (results_of (placed_of self.now).run) }
        ensures { IfOk result (IsReadMessage (result_at (placed_of self.now).run seq)) }
    {
        self.run.message(alloc, seq)
    }

    /// The run without those of its results that are marked; its error, if it has one, stays. Returns `AllocError` if
    /// memory for the list of the others runs out.
    pub fn without(self, alloc: Global, marked: &[bool]) -> Result<OpenedRun<'t, 'a>, AllocError>
        requires { length marked.now ≡ length (results_of (placed_of self).run) }
        ensures { IfOk result
            (λ kept. placed_of kept ≡ placed_without marked.now (placed_of self.entry)) }
    {
        let OpenedRun {
            source,
            number: at,
            options: how,
            run,
            tool,
            head,
        } = self;
        let run = run.without(alloc, marked)?;
        Ok(OpenedRun {
            source,
            number: at,
            options: how,
            run,
            tool,
            head,
        })
    }

    /// The run without its results, taken out.
    pub fn into_bare(self) -> Value
        ensures value { view result ≡ bare (placed_of self.entry).run }
        ensures whole { has_float (placed_of self.entry).run ≡ false }
    {
        let OpenedRun { run, .. } = self;
        run.into_bare()
    }
}
