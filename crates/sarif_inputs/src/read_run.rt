//! A run that was read from a source.
ghost use Rattle.std.specs.Prelude.{◌≡◌, false};
ghost use Rattle.serde_json.specs.Written.{has_float};
ghost use Rattle.sarif_read.specs.Internal.Indexed.{run_of};

use sarif_model::Source;
use sarif_read::IndexedRun;
use sarif_runs::RunOptions;

/// A run whose form was checked, and which isn't opened yet (SARIF 2.1.0, "run object").
#[derive(Drop)]
pub(crate) struct ReadRun<'t, 'a> {
    pub(crate) source: Source,
    /// Its number in its source, from 0.
    pub(crate) number: u32,
    /// How it is read.
    pub(crate) options: RunOptions<'t>,
    pub(crate) run: IndexedRun<'t, 'a>,
    ghost whole: { has_float (run_of run) ≡ false },
}

impl<'t, 'a> ReadRun<'t, 'a> {
    ghost use Rattle.sarif_inputs.specs.Internal.ReadRun.{placed_read};

    /// A run that holds no number with a fraction, with its place.
    pub(crate) fn new(
        source: Source,
        number: u32,
        options: RunOptions<'t>,
        run: IndexedRun<'t, 'a>,
    ) -> ReadRun<'t, 'a>
        requires whole { has_float (run_of run) ≡ false }
        ensures placed { placed_read result
            ≡ record {
              source = source;
              number = number;
              options = options.entry;
              run = run_of run.entry;
            } }
    {
        ReadRun {
            source,
            number,
            options,
            run,
        }
    }
}
