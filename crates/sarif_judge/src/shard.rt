//! A shard: some results of all runs, which one worker judges in one go.
use sarif_results::Outcome;
use std::marker::Model;

/// What was made of a shard. Contracts see the list of its outcomes.
#[derive(Drop)]
pub struct Shard {
    outcomes: Vec<Outcome>,
}

impl Model for Shard {
    ghost use Rattle.std.specs.Prelude.{List};
    ghost use Rattle.sarif_results.specs.declared.outcome.Outcome.{Outcome};

    ghost Value = { List Outcome };

    ghost view = { λ s. s.outcomes.items };
}

impl Shard {
    ghost use Rattle.std.specs.Prelude.{◌≡◌};

    /// A shard of these outcomes.
    pub(crate) fn new(outcomes: Vec<Outcome>) -> Shard
        ensures { result ≡ outcomes.items }
    {
        Shard { outcomes }
    }

    /// Its outcomes, taken out.
    pub(crate) fn into_outcomes(self) -> Vec<Outcome>
        ensures { result.items ≡ self }
    {
        let Shard { outcomes } = self;
        outcomes
    }
}
