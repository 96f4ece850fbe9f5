//! The verdict of the gate, and what a result does to it.
ghost use Rattle.std.specs.Prelude.{◌≡◌};
ghost use Rattle.sarif_counts.specs.Hits.{verdict_name};
ghost use Rattle.sarif_counts.specs.Impacts.{is_hit};

/// The verdict of the gate on a merged log.
#[derive(Clone, Copy, Debug, PartialEq, Eq)]
pub enum Verdict {
    /// There are no more hits than the policy's `max`.
    Pass,
    /// There are more hits than that.
    Fail,
}

impl Verdict {
    /// The text of this verdict.
    pub fn name(self) -> &'static str
        ensures { result.now ≡ verdict_name self }
    {
        match self {
            Verdict::Pass => "pass",
            Verdict::Fail => "fail",
        }
    }
}

/// What a result does to the gate.
#[derive(Clone, Copy, Debug, PartialEq, Eq)]
pub enum Impact {
    /// A hit of a condition that fails.
    Stops,
    /// A hit of conditions that pass.
    Hit,
    /// No hit.
    None,
}

impl Impact {
    /// Whether the gate counts the result.
    pub fn is_hit(self) -> bool
        ensures { result ≡ is_hit self }
    {
        match self {
            Impact::Stops | Impact::Hit => true,
            Impact::None => false,
        }
    }
}
