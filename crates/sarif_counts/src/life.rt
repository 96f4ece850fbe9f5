//! What a merge gives for later merges, besides its log.
ghost use Rattle.std.specs.Prelude.{◌≡◌, None};

use sarif_model::Text;

/// A new suppression file.
#[derive(Debug, Drop)]
pub struct NewFile {
    /// Its text.
    pub text: Text,
    /// How many hits got an entry; hits with equal entries share one.
    pub accepted: u32,
    /// How many hits that weren't chosen an added entry accepts all the same; `None` if all hits are chosen.
    pub alike: Option<u32>,
    /// How many hits stay hits with the new file, if all hits are chosen; otherwise how many are neither accepted nor
    /// alike. 0 if none was to be accepted.
    pub stay: u32,
    /// How many entries of the suppression file it lacks.
    pub pruned: u32,
    /// How many entries it has.
    pub entries: u32,
}

/// A log of what is known, which is a baseline for later merges.
#[derive(Debug, Drop)]
pub struct KnownLog {
    /// Its text.
    pub text: Text,
    /// How many results it has.
    pub known: u32,
    /// How many current results it lacks.
    pub left_out: u32,
    /// How many of its results are from the baselines, because their tool was not heard.
    pub kept: u32,
}

/// What a merge gives for later merges. Each part is there if it was requested.
#[derive(Debug, Drop)]
pub struct Life {
    /// The new suppression file.
    pub suppressions: Option<NewFile>,
    /// A line for each unused entry of the suppression file, in order.
    pub unused: Option<Text>,
    /// The known log.
    pub known: Option<KnownLog>,
}

impl Life {
    /// Nothing, for a merge that was requested to write only its log.
    pub fn none() -> Life
        ensures suppressions { result.suppressions ≡ None }
        ensures unused { result.unused ≡ None }
        ensures known { result.known ≡ None }
    {
        Life {
            suppressions: None,
            unused: None,
            known: None,
        }
    }
}
