//! Making the parts of a run of the merged log.
ghost use Rattle.std.specs.Prelude.{◌≡◌, ◌≤◌, false, not, is_some, codes, count_by, length, option_map};
ghost use Rattle.json_parts.specs.Without.{without};
ghost use Rattle.serde_json.specs.Find.{get_member};
ghost use Rattle.serde_json.specs.View.{view, members_view};
ghost use Rattle.serde_json.specs.Written.{has_float};
ghost use Rattle.sarif_results.specs.Drafts.{members_in};
ghost use Rattle.sarif_log.specs.Internal.Texts.{IsWholeRun};
ghost use Rattle.sarif_model.specs.Limits.{most_runs};

use sarif_log::RunParts;
use sarif_results::into_members;
use serde_json::{Map, Value};
use std::alloc::Global;

/// Takes the member `name` out.
fn drop_member(members: &mut Map<String, Value>, name: &str)
    ensures { members_view members.new.entries
        ≡ without name.now (members_view members.old.entries) }
{
    let _ = members.remove(name);
}

/// The parts of a run that was kept without its results. `results` is how many it has, where it has
/// an array of them.
pub(crate) fn make_parts(alloc: Global, run: Value, results: Option<u32>) -> RunParts
    requires whole { has_float (view run) ≡ false }
    ensures members { members_view result.members.entries
        ≡ without (codes "baselineGuid") (members_in (view run)) }
    ensures results { result.results ≡ results }
    ensures whole { IsWholeRun result }
{
    let mut members = into_members(alloc, run);
    drop_member(&mut members, "baselineGuid");
    RunParts { members, results }
}

/// How many of these runs have no results.
pub(crate) fn count_without(runs: &[RunParts]) -> u32
    requires few { length runs.now ≤ most_runs }
    ensures { result ≡ count_by (λ parts. not (is_some parts.results)) runs.now }
{
    let mut count = 0;
    for parts in runs {
        if parts.results.is_none() {
            count += 1;
        }
    }
    count
}
