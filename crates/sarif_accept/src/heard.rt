//! Which tools were heard.
ghost use Rattle.std.specs.Prelude.{◌≡◌, ◌++◌, ◌∷◌, [], List, option_map, IfOk, OnOk};
ghost use Rattle.std.specs.List.{list_any};
ghost use Rattle.sarif_accept.specs.Heard.{heard_of, is_of, is_failed_of};
ghost use Rattle.sarif_accept.specs.declared.heard.ToolRun.{ToolRun as OneRun};
ghost use Rattle.sarif_accept.specs.Internal.HeardSets.{AreSetsOf};

use indexmap::IndexSet;
use sarif_model::Text;
use std::alloc::{AllocError, Global};
use std::hash::{BuildHasher, RandomState};
use std::marker::Model;

/// What an input run says about whether its tool was heard.
#[derive(Debug, Drop)]
pub struct ToolRun {
    /// The driver's `name`.
    pub tool: Text,
    /// Whether the analysis failed: a run that says so, or whose `results` are missing or null.
    pub failed: bool,
}

/// Which tools were heard in the input runs. Contracts see the list of the runs.
#[derive(Drop)]
pub struct Heard<S: BuildHasher + Copy = RandomState> {
    runs: Vec<ToolRun>,
    /// The tools of the runs.
    tools: IndexSet<Text, S>,
    /// The tools of those that failed.
    failed: IndexSet<Text, S>,
    /// Whether one of them failed.
    any_failed: bool,
}

impl<S: BuildHasher + Copy> Model for Heard<S> {
    ghost use Rattle.std.specs.Prelude.{◌≡◌, List};
    ghost use Rattle.std.specs.List.{list_any};
    ghost use Rattle.sarif_accept.specs.declared.heard.ToolRun.{ToolRun};
    ghost use Rattle.sarif_accept.specs.Internal.HeardSets.{AreSetsOf};

    ghost Value = { List ToolRun };

    ghost view = { λ h. h.runs.items };

    ghost invariant = { λ h. AreSetsOf h.tools h.failed h.runs.items
        × (h.any_failed ≡ list_any (λ run. run.failed) h.runs.items) };
}

/// Adds the tool of a run to those of the runs before it.
fn add_run<S: BuildHasher + Copy>(
    tools: &mut IndexSet<Text, S>,
    failed: &mut IndexSet<Text, S>,
    run: &ToolRun,
) -> Result<(), AllocError>
    ensures { OnOk result ((runs : List OneRun) → AreSetsOf tools.old failed.old runs
        → AreSetsOf tools.new failed.new (runs ++ run.now ∷ [])) }
{
    tools.insert(run.tool.clone()?)?;
    if run.failed {
        failed.insert(run.tool.clone()?)?;
    }
    Ok(())
}

impl<S: BuildHasher + Copy> Heard<S> {
    /// Returns which tools were heard in these runs. Tables of their names hash with `hasher`, on which no result
    /// depends. Returns `AllocError` if memory runs out.
    pub fn new(alloc: Global, hasher: S, runs: Vec<ToolRun>) -> Result<Heard<S>, AllocError>
        ensures { IfOk result (λ heard. heard ≡ runs.items) }
    {
        let mut tools: IndexSet<Text, S> = IndexSet::with_hasher(alloc, hasher);
        let mut failed: IndexSet<Text, S> = IndexSet::with_hasher(alloc, hasher);
        let mut any_failed = false;
        for run in &runs {
            add_run(&mut tools, &mut failed, run)?;
            any_failed = any_failed || run.failed;
        }
        Ok(Heard {
            runs,
            tools,
            failed,
            any_failed,
        })
    }

    /// Returns whether a tool was heard: one of the runs is of it, and none of them failed. Without a tool, whether there
    /// are runs and none failed.
    pub fn hears(&self, tool: Option<&Text>) -> bool
        ensures { result ≡ heard_of self.now (option_map (λ t. t.now) tool.entry) }
    {
        match tool {
            None => !self.runs.is_empty() && !self.any_failed,
            Some(tool) => self.tools.contains(tool) && !self.failed.contains(tool),
        }
    }
}
