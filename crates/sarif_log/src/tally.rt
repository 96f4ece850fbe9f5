//! Counting the results that are written.
ghost use Rattle.std.specs.Prelude.{◌≡◌, ◌+◌, ◌<◌, ◌≤◌, ◌^◌, Bool, length};
ghost use Rattle.sarif_model.specs.declared.kinds.Level.{Level as Grade};
ghost use Rattle.sarif_model.specs.declared.kinds.State.{State as Stand};
ghost use Rattle.sarif_counts.specs.Counts.{count_at, total_of};
ghost use Rattle.sarif_log.specs.Internal.Texts.{tallied};

use sarif_counts::Counts;
use sarif_model::State;
use sarif_results::Draft;

/// Counts the results that have a state by state, level and whether they are suppressed. There is a state, or
/// none, for each result. Does not allocate.
pub fn count_results(counts: &mut Counts, drafts: &[Draft], states: &[Option<State>])
    requires count { length states.now ≡ length drafts.now }
    requires few { total_of counts.old + length drafts.now < 2 ^ 32 }
    ensures counted { (s : Stand) (l : Grade) (b : Bool) → count_at counts.new s l b
        ≡ count_at counts.old s l b + tallied drafts.now states.now s l b }
    ensures total { total_of counts.new ≤ total_of counts.old + length drafts.now }
{
    for (at, draft) in drafts.iter().enumerate() {
        if let Some(state) = states[at] {
            counts.add(state, draft.level, draft.suppressed);
        }
    }
}
