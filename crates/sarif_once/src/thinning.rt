//! Lists without their marked elements.
ghost use Rattle.std.specs.Prelude.{◌≡◌, IfOk, length, map};
ghost use Rattle.sarif_model.specs.Run.{results_total};
ghost use Rattle.sarif_read.specs.Unmarked.{unmarked};
ghost use Rattle.sarif_runs.specs.Judging.{run_values};
ghost use Rattle.sarif_runs.specs.Internal.Opened.{placed_of};
ghost use Rattle.sarif_runs.specs.Unmarked.{runs_without};
ghost use Rattle.sarif_once.specs.Once.{marked};

use sarif_results::Outcome;
use sarif_runs::OpenedRun;
use std::alloc::{AllocError, Global};

/// The runs without their marked results.
pub(crate) fn thin_runs<'t, 'a>(
    alloc: Global,
    runs: Vec<OpenedRun<'t, 'a>>,
    mut marks: &[bool],
) -> Result<Vec<OpenedRun<'t, 'a>>, AllocError>
    requires { length marks.now ≡ results_total (run_values (map placed_of runs.items)) }
    ensures { IfOk result (λ thin. map placed_of thin.items
        ≡ runs_without marks.entry.now (map placed_of runs.entry.items)) }
{
    let mut thin = Vec::with_capacity(alloc, runs.len())?;
    for run in runs {
        let (these, later) = marks.split_at(run.len() as usize);
        thin.push(run.without(alloc, these)?)?;
        marks = later;
    }
    Ok(thin)
}

/// The outcomes that aren't marked, and those that are.
#[derive(Drop)]
pub(crate) struct Split {
    pub(crate) rest: Vec<Outcome>,
    pub(crate) marked: Vec<Outcome>,
}

impl Split {
    ghost use Rattle.std.specs.Prelude.{◌≡◌, ◌++◌, ◌∷◌, [], OnOk};
    ghost use Rattle.sarif_read.specs.Unmarked.{unmarked};
    ghost use Rattle.sarif_once.specs.Once.{marked};

    /// Adds an outcome, to the marked ones if it is marked.
    fn add(&mut self, is_marked: bool, outcome: Outcome) -> Result<(), AllocError>
        ensures rest { OnOk result (self.new.rest.items ≡ self.old.rest.items
            ++ unmarked (is_marked ∷ []) (outcome ∷ [])) }
        ensures marked { OnOk result (self.new.marked.items ≡ self.old.marked.items
            ++ marked (is_marked ∷ []) (outcome ∷ [])) }
    {
        if is_marked {
            self.marked.push(outcome)?;
        } else {
            self.rest.push(outcome)?;
        }
        Ok(())
    }
}

/// The outcomes that aren't marked, and those that are.
pub(crate) fn split_outcomes(
    alloc: Global,
    outcomes: Vec<Outcome>,
    marks: &[bool],
) -> Result<Split, AllocError>
    requires { length marks.now ≡ length outcomes.items }
    ensures rest { IfOk result
        (λ split. split.rest.items ≡ unmarked marks.now outcomes.items) }
    ensures marked { IfOk result
        (λ split. split.marked.items ≡ marked marks.now outcomes.items) }
{
    let mut split = Split {
        rest: Vec::new(alloc),
        marked: Vec::new(alloc),
    };
    let mut number = 0;
    for outcome in outcomes {
        split.add(marks[number], outcome)?;
        number += 1;
    }
    Ok(split)
}
