//! How many hits are inside of a change.
ghost use Rattle.std.specs.Prelude.{◌≡◌, ◌-◌};
ghost use Rattle.sarif_counts.specs.Counts.{count_at};
ghost use Rattle.sarif_counts.specs.Hits.{hits_of};
ghost use Rattle.sarif_scope.specs.Counted.{verdict_on};

use sarif_counts::{Counts, Verdict, hits};
use sarif_options::Policy;

/// Returns how many hits are inside, if `outside` of all hits are not.
pub fn hits_inside(counts: &Counts, policy: &Policy, outside: u32) -> u32
    ensures { result ≡ hits_of (count_at counts.now) policy.now - outside }
{
    hits(counts, policy).saturating_sub(outside)
}

/// Returns the verdict of a gate, if `outside` of all hits are not: fail if more are inside than the policy allows.
pub fn verdict_inside(counts: &Counts, policy: &Policy, outside: u32) -> Verdict
    ensures { result ≡ verdict_on (hits_of (count_at counts.now) policy.now - outside) policy.now }
{
    if hits_inside(counts, policy, outside) > policy.max {
        Verdict::Fail
    } else {
        Verdict::Pass
    }
}
