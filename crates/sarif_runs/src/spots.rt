//! The places of all results.
ghost use Rattle.std.specs.Prelude.{◌≡◌, ◌≤◌, ◌++◌, IfOk, OnOk, map, length};
ghost use Rattle.sarif_runs.specs.Internal.Opened.{placed_of};
ghost use Rattle.sarif_runs.specs.Internal.Spots.{spots_from, spots_in};
ghost use Rattle.sarif_model.specs.Limits.{most_runs};

use crate::opened::OpenedRun;
use std::alloc::{AllocError, Global};

/// The place of a result among the results of all runs.
#[derive(Clone, Copy, Debug)]
pub struct Spot {
    /// The number of its run in the list of all runs, from 0.
    pub run: u32,
    /// Its number in that run, from 0.
    pub seq: u32,
}

/// Adds the places of the results of one run.
fn push_spots(spots: &mut Vec<Spot>, run: u32, count: u32) -> Result<(), AllocError>
    ensures { OnOk result (spots.new.items ≡ spots.old.items ++ spots_in run count) }
{
    for seq in 0..count {
        spots.push(Spot { run, seq })?;
    }
    Ok(())
}

/// The spots of the results of these runs, in order. Returns `AllocError` if memory for the list runs out.
pub fn list_spots(alloc: Global, runs: &[OpenedRun<'_, '_>]) -> Result<Vec<Spot>, AllocError>
    requires few { length runs.now ≤ most_runs }
    ensures { IfOk result (λ spots. spots.items ≡ spots_from 0 (map placed_of runs.now)) }
{
    let mut spots = Vec::new(alloc);
    for (run, opened) in runs.iter().enumerate() {
        push_spots(&mut spots, run as u32, opened.run.len())?;
    }
    Ok(spots)
}
