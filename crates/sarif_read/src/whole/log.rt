//! A log that was read.
use crate::whole::run::RawRun;
use std::marker::Model;

/// The runs of a log that `read_log` accepted, in order. Contracts see the list of their values.
#[derive(Drop)]
pub struct Log {
    runs: Vec<RawRun>,
}

impl Model for Log {
    ghost use Rattle.std.specs.Prelude.{List};
    ghost use Rattle.std.specs.Coded.{codes};
    ghost use Rattle.serde_json.specs.contracts.value.Value as json;
    ghost use Rattle.serde_json.specs.declared.value.Value.{Value as Json};

    ghost Value = { List Json };

    ghost coded = { Prim.hlevel (codes, json.the_row.coded) };

    ghost view = { λ l. l.runs.items };
}

impl Log {
    ghost use Rattle.std.specs.Prelude.{◌≡◌};

    /// A log of these runs.
    pub(crate) fn new(runs: Vec<RawRun>) -> Log
        ensures { result ≡ runs.items }
    {
        Log { runs }
    }

    /// The runs, in order.
    pub fn runs(&self) -> &[RawRun]
        ensures { result.now ≡ self.now }
    {
        self.runs.as_slice()
    }

    /// The runs, taken out.
    pub fn into_runs(self) -> Vec<RawRun>
        ensures { result.items ≡ self }
    {
        let Log { runs } = self;
        runs
    }
}
